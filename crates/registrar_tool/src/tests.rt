//! Whole runs over memory, with outcomes worked out by hand from the rules.
use crate::{Status, run};
use edge_memory::{MemDisk, MemSink, MemSource};
use edge_traits::{Area, Disk, PledgeId};
use journal_store::{Journal, Spot};
use journal_text::Entry;
use std::alloc::{AllocError, Global};
use std::test::Fail;

/// The script's call numbers that fail, and the sink's.
type Failing<'a> = (&'a [u64], &'a [u64]);

const SOUND: Failing<'static> = (&[], &[]);

/// An empty journal: the header, with generation 1 and the summary of no history after its length, and a closed gate.
const EMPTY: [u8; 43] =
    *b"\x01\x36\x54\x4a\x52\x43\x2d\x31\x00\x00\x00\x00\x00\x00\x00\x01\x00\x00\x00\x16\
    \x00\x00\x00\x00\x00\x00\x00\x00\x00\x00\x00\x00\x00\x00\x00\x00\x00\x00\x00\x00\x00\x00\
    \x00";

fn words_of(alloc: Global, line: &str) -> Result<Vec<String>, AllocError> {
    let mut words = Vec::new(alloc);
    for word in line.split_whitespace() {
        words.push(word.to_string(alloc)?)?;
    }
    Ok(words)
}

/// What a run leaves: its disk, its status, and the bytes that it wrote.
type Ran = (MemDisk, Status, Vec<u8>);

fn run_on(
    alloc: Global,
    words: &str,
    script: &[u8],
    failing: Failing<'_>,
    disk: MemDisk,
) -> Result<Ran, Fail> {
    let words = words_of(alloc, words)?;
    let mut inventory = MemSource::new(alloc, &[], &[])?;
    let mut source = MemSource::new(alloc, script, failing.0)?;
    let mut sink = MemSink::new(alloc, failing.1, 4096)?;
    let (disk, status) = run(alloc, &words, &mut inventory, &mut source, &mut sink, disk);
    Ok((disk, status, sink.written().to_vec(alloc)?))
}

/// A disk with this left area, whose calls of these numbers fail.
fn disk_of(alloc: Global, left: &[u8], failing: &[u64]) -> Result<MemDisk, Fail> {
    Ok(MemDisk::new(alloc, left, b"\x00", failing, 256, 4096)?)
}

/// The status and the written bytes of a run over an empty journal.
fn run_over(
    alloc: Global,
    words: &str,
    script: &[u8],
    failing: Failing<'_>,
) -> Result<(Status, Vec<u8>), Fail> {
    let disk = disk_of(alloc, &EMPTY, &[])?;
    let (_, status, written) = run_on(alloc, words, script, failing, disk)?;
    Ok((status, written))
}

#[test]
fn an_empty_journal_is_made_once(rt: HostRuntime) -> Result<(), Fail> {
    let alloc = rt.alloc();
    let disk = MemDisk::new(alloc, b"", b"", &[], 64, 256)?;
    let (disk, status, written) = run_on(alloc, "init", b"", SOUND, disk)?;
    assert_eq!(rt; status, Status::Done);
    assert_eq!(rt; written.as_slice(), b"formatted\n".as_slice());
    assert_eq!(rt; disk.content(Area::Left), EMPTY.as_slice());
    let (disk, status, written) = run_on(alloc, "init", b"", SOUND, disk)?;
    assert_eq!(rt; status, Status::AlreadyThere(43));
    assert_eq!(rt; written.len(), 0);
    assert_eq!(rt; disk.content(Area::Right), b"\x00".as_slice());
    Ok(())
}

#[test]
fn a_disk_without_a_journal_is_told(rt: HostRuntime) -> Result<(), Fail> {
    let alloc = rt.alloc();
    let script = b"ask 0 00000000000000a1 0\n";
    let disk = MemDisk::new(alloc, b"", b"", &[], 64, 256)?;
    let (_, status, written) = run_on(alloc, "decide 1 2 24", script, SOUND, disk)?;
    assert_eq!(rt; status, Status::NotAJournal(Spot::Place(0)));
    assert_eq!(rt; written.len(), 0);
    Ok(())
}

/// Each run: its words, its script and what it writes.
const RUNS: [(&str, &str, &str); 9] = [
    (
        "decide 1 2 24",
        "ask 100 00000000000000a1 0\n",
        "grant 0001 86500\n",
    ),
    ("decide 1 2 24", "", ""),
    // An address is held for 3600 seconds after its lease's end.
    (
        "decide 1 1 1",
        "ask 0 00000000000000a1 0\nask 10 00000000000000a2 0\nask 7199 00000000000000a2 1\nask 7200 00000000000000a2 2\n",
        "grant 0001 3600\nrefuse 503\nrefuse 503\ngrant 0001 10800\n",
    ),
    // At 3599 the lease is live; at 7200 it isn't, and the least address is free.
    (
        "decide 1 2 1",
        "ask 0 00000000000000a1 0\nask 0 00000000000000a2 0\nask 3599 00000000000000a2 1\nask 7200 00000000000000a2 2",
        "grant 0001 3600\ngrant 0002 3600\ngrant 0002 7199\ngrant 0001 10800\n",
    ),
    // A live lease keeps its address though a lower one is free.
    (
        "decide 1 2 1",
        "ask 0 00000000000000a1 0\nask 0 00000000000000a2 0\nask 3599 00000000000000a2 1\nask 7198 00000000000000a2 2\nask 7200 00000000000000a2 3\n",
        "grant 0001 3600\ngrant 0002 3600\ngrant 0002 7199\ngrant 0002 10798\ngrant 0002 10800\n",
    ),
    // At 7200 each lease and its grace are over. Each gets the least address that nobody else holds, whichever it had.
    (
        "decide 1 3 1",
        "ask 0 00000000000000a1 0\nask 0 00000000000000a2 0\nask 0 00000000000000a3 0\nask 7200 00000000000000a4 0\nask 7200 00000000000000a3 1\nask 7200 00000000000000a2 1\n",
        "grant 0001 3600\ngrant 0002 3600\ngrant 0003 3600\ngrant 0001 10800\ngrant 0002 10800\ngrant 0003 10800\n",
    ),
    // The window of 32 numbers.
    (
        "decide 1 2 24",
        "ask 0 00000000000000a1 40\nask 1 00000000000000a1 8\nask 2 00000000000000a1 9\nask 3 00000000000000a1 40\nask 4 00000000000000a1 9\n",
        "grant 0001 86400\nquiet old\ngrant 0001 86402\nquiet taken\nagain 0001 86402\n",
    ),
    // A repeat of the last request, up to 600 seconds and later.
    (
        "decide 1 2 1",
        "# twice the same\n\nask 0 00000000000000a1 0\nask 600 00000000000000A1 0\nask 601 00000000000000a1 0\n",
        "grant 0001 3600\nagain 0001 3600\nquiet late\n",
    ),
    // The greatest number.
    (
        "decide 1 2 24",
        "ask 0 00000000000000a1 1099511627775\n",
        "grant 0001 86400\n",
    ),
];

#[test]
fn runs_write_their_outcomes(rt: HostRuntime) -> Result<(), Fail> {
    for (words, script, text) in RUNS {
        let (status, written) = run_over(rt.alloc(), words, script.as_bytes(), SOUND)?;
        assert_eq!(rt; status, Status::Done, "at {script}");
        assert_eq!(rt; written.as_slice(), text.as_bytes(), "at {script}");
    }
    Ok(())
}

/// Scripts with the first line outside the grammar, and what the lines before it write.
const WRONG: [(&str, u64, &str); 3] = [
    ("ask 0 00000000000000a1 1099511627776\n", 1, ""),
    (
        "ask 0 00000000000000a1 0\nask 1 00000000000000a2 0\nrecv x\nask 2 00000000000000a3 0\n",
        3,
        "grant 0001 86400\ngrant 0002 86401\n",
    ),
    ("# one\n\nask 0 00000000000000a1 00\n", 3, ""),
];

#[test]
fn the_first_wrong_line_ends_a_run(rt: HostRuntime) -> Result<(), Fail> {
    for (script, line, text) in WRONG {
        let (status, written) = run_over(rt.alloc(), "decide 1 2 24", script.as_bytes(), SOUND)?;
        assert_eq!(rt; status, Status::BadScript(line), "at {script}");
        assert_eq!(rt; written.as_slice(), text.as_bytes(), "at {script}");
    }
    Ok(())
}

/// Words that are no command. `1 65533` would end at 65533, and `2 65533` past the last short address.
const NO_COMMANDS: [&str; 12] = [
    "",
    "decide",
    "decide 1 2",
    "decide 1 2 24 1",
    "replay",
    "Decide 1 2 24",
    "decide 0 2 24",
    "decide 1 0 24",
    "decide 1 2 0",
    "decide 1 2 65536",
    "decide 2 65533 1",
    "decide +1 2 24",
];

#[test]
fn other_words_are_no_command(rt: HostRuntime) -> Result<(), Fail> {
    let script = b"ask 0 00000000000000a1 0\n";
    for words in NO_COMMANDS {
        let (status, written) = run_over(rt.alloc(), words, script, SOUND)?;
        assert_eq!(rt; status, Status::Usage, "at {words}");
        assert_eq!(rt; written.len(), 0, "at {words}");
    }
    let (status, _) = run_over(
        rt.alloc(),
        "decide 00000000000000000001 65533 65535",
        script,
        SOUND,
    )?;
    assert_eq!(rt; status, Status::Done);
    Ok(())
}

#[test]
fn faults_of_the_outside_are_told(rt: HostRuntime) -> Result<(), Fail> {
    let script = b"ask 0 00000000000000a1 0\nask 10 00000000000000a2 0\n";
    let cases: [(Failing<'_>, Status, &str); 4] = [
        ((&[0], &[]), Status::ReadFault(1), ""),
        ((&[1], &[]), Status::ReadFault(1), ""),
        ((&[], &[0]), Status::WriteFault(1), ""),
        ((&[], &[1]), Status::WriteFault(1), "grant 0001 3600\n"),
    ];
    for (failing, expected, text) in cases {
        let (status, written) = run_over(rt.alloc(), "decide 1 1 1", script, failing)?;
        assert_eq!(rt; status, expected);
        assert_eq!(rt; written.as_slice(), text.as_bytes());
    }
    Ok(())
}

/// A comment of this many bytes, after one line that is decided.
fn long_script(alloc: Global, length: usize) -> Result<Vec<u8>, AllocError> {
    let mut script = Vec::with_capacity(alloc, length)?;
    script.extend_from_slice(b"ask 0 00000000000000a1 0\n#")?;
    for _ in script.len()..length {
        script.push(b'x')?;
    }
    Ok(script)
}

#[test]
fn a_line_past_the_limit_is_wrong(rt: HostRuntime) -> Result<(), Fail> {
    for (length, expected) in [
        (16_777_216, Status::Done),
        (16_777_217, Status::BadScript(2)),
    ] {
        let script = long_script(rt.alloc(), length)?;
        let (status, written) = run_over(rt.alloc(), "decide 1 1 1", &script, SOUND)?;
        assert_eq!(rt; status, expected);
        assert_eq!(rt; written.as_slice(), b"grant 0001 3600\n".as_slice());
    }
    Ok(())
}

/// The calls of a run that grants one lease on an empty journal.
const GRANT_CALLS: u64 = 11;

// The Grant's batch is written by the last four calls: its body, a sync, its gate, a sync.
#[test]
fn each_image_of_a_grant_has_it_or_not(rt: HostRuntime) -> Result<(), Fail> {
    let alloc = rt.alloc();
    let script = b"ask 100 00000000000000a1 0\n";
    let disk = disk_of(alloc, &EMPTY, &[])?;
    let (disk, status, written) = run_on(alloc, "decide 1 2 24", script, SOUND, disk)?;
    assert_eq!(rt; status, Status::Done);
    assert_eq!(rt; written.as_slice(), b"grant 0001 86500\n".as_slice());
    for moment in 0..GRANT_CALLS + 1 {
        for pick in 0..4 {
            let image = disk.image(alloc, moment, pick)?;
            let (_, status, written) = run_on(alloc, "decide 1 2 24", script, SOUND, image)?;
            assert_eq!(rt; status, Status::Done, "at {moment}");
            let anew = written.as_slice() == b"grant 0001 86500\n".as_slice();
            let again = written.as_slice() == b"again 0001 86500\n".as_slice();
            assert!(rt; anew || again, "at {moment}");
            assert!(rt; anew || moment + 1 >= GRANT_CALLS, "at {moment}");
            assert!(rt; again || moment < GRANT_CALLS, "at {moment}");
        }
    }
    Ok(())
}

const WINDOW_SCRIPT: &[u8] =
    b"ask 0 00000000000000a1 40\nask 1 00000000000000a1 8\nask 2 00000000000000a1 9\nask 3 00000000000000a1 40\nask 4 00000000000000a1 9\n";

const WINDOW_OUTCOMES: [&[u8]; 5] = [
    b"grant 0001 86400",
    b"quiet old",
    b"grant 0001 86402",
    b"quiet taken",
    b"again 0001 86402",
];

// The last sync of the first Grant's batch fails; the next line settles it.
#[test]
fn an_unsure_decision_stands(rt: HostRuntime) -> Result<(), Fail> {
    let alloc = rt.alloc();
    let disk = disk_of(alloc, &EMPTY, &[GRANT_CALLS - 1])?;
    let (disk, status, written) = run_on(alloc, "decide 1 2 24", WINDOW_SCRIPT, SOUND, disk)?;
    assert_eq!(rt; status, Status::Done);
    assert_eq!(rt;
        written.as_slice(),
        b"unsure 1\nquiet old\ngrant 0001 86402\nquiet taken\nagain 0001 86402\n".as_slice()
    );
    let Ok((_, log)) = Journal::start(alloc, disk) else {
        return Err("no journal")?;
    };
    assert_eq!(rt; numbers_of(alloc, &log)?.as_slice(), [40, 9].as_slice());
    Ok(())
}

/// The numbers that were granted, in order.
fn numbers_of(alloc: Global, log: &[Entry]) -> Result<Vec<u64>, AllocError> {
    let mut numbers = Vec::new(alloc);
    for entry in log {
        if let Entry::Grant { number, .. } = entry {
            numbers.push(*number)?;
        }
    }
    Ok(numbers)
}

/// Whether each line is the outcome of the history, or unsure with one fault.
fn tells_the_history(written: &[u8]) -> bool {
    let mut lines = written.split(|byte| *byte == b'\n');
    for outcome in WINDOW_OUTCOMES {
        let Some(line) = lines.next() else {
            return false;
        };
        if line != outcome && line != b"unsure 1".as_slice() {
            return false;
        }
    }
    true
}

#[test]
fn each_call_of_the_disk_may_fail(rt: HostRuntime) -> Result<(), Fail> {
    let alloc = rt.alloc();
    for failing in 0..GRANT_CALLS + 4 {
        let disk = disk_of(alloc, &EMPTY, &[failing])?;
        let (disk, status, written) = run_on(alloc, "decide 1 2 24", WINDOW_SCRIPT, SOUND, disk)?;
        if status == Status::DiskFault(1) {
            assert_eq!(rt; written.len(), 0, "at {failing}");
        } else {
            assert_eq!(rt; status, Status::Done, "at {failing}");
            assert!(rt; tells_the_history(&written), "at {failing}");
        }
        let Ok((_, log)) = Journal::start(alloc, disk) else {
            return Err("no journal")?;
        };
        let numbers = numbers_of(alloc, &log)?;
        let granted = numbers.as_slice() == [40, 9].as_slice();
        assert!(rt; granted || status == Status::DiskFault(1), "at {failing}");
    }
    Ok(())
}

/// A journal with a context of the first pledge's check under another pledge.
const OTHER_PLEDGE: [u8; 93] =
    *b"\x01\x36\x54\x4a\x52\x43\x2d\x31\x00\x00\x00\x00\x00\x00\x00\x01\x00\x00\x00\x16\
    \x00\x00\x00\x00\x00\x00\x00\x00\x00\x00\x00\x00\x00\x00\x00\x00\x00\x00\x00\x00\x00\x00\
    \x01\x00\x00\x00\x2d\x02\x00\x00\x00\x00\x00\x00\x00\x00\x00\x00\x00\xa2\
    \x00\x00\x00\x00\x00\x00\x00\xa1\x00\x00\x00\x00\x00\x00\x00\x00\x00\x00\x00\x00\x00\x00\x00\x00\
    \x00\x00\x00\x00\x00\x00\x00\x00\x00";

#[test]
fn a_key_of_another_pledge_is_told(rt: HostRuntime) -> Result<(), Fail> {
    let alloc = rt.alloc();
    let disk = disk_of(alloc, &OTHER_PLEDGE, &[])?;
    let script = b"ask 0 00000000000000a1 0\n";
    let (disk, status, written) = run_on(alloc, "decide 1 2 24", script, SOUND, disk)?;
    assert_eq!(rt;
        status,
        Status::SameKey(PledgeId([0, 0, 0, 0, 0, 0, 0, 0xa2]), FIRST_ID)
    );
    assert_eq!(rt; written.len(), 0);
    assert_eq!(rt; disk.content(Area::Left), OTHER_PLEDGE.as_slice());
    Ok(())
}

/// The Settings of `decide 1 2 24` at time 0.
const SETTINGS: [u8; 17] = *b"\x01\x00\x00\x00\x00\x00\x00\x00\x00\x00\x01\x00\x02\x00\x18\x00\x00";

/// Adds a batch of `count` of these Settings.
fn push_batch(area: &mut Vec<u8>, count: u8) -> Result<(), AllocError> {
    area.push(1)?;
    area.extend_from_slice(&(17 * u32::from(count)).to_be_bytes())?;
    for _ in 0..count {
        area.extend_from_slice(&SETTINGS)?;
    }
    Ok(())
}

/// A left area whose log has 262,080 of these Settings and `more` others.
fn long_log(alloc: Global, more: u8) -> Result<Vec<u8>, AllocError> {
    let mut area = Vec::with_capacity(alloc, 5_000_000)?;
    area.extend_from_slice(&EMPTY[..42])?;
    for _ in 0..1092 {
        push_batch(&mut area, 240)?;
    }
    push_batch(&mut area, more)?;
    area.push(0)?;
    Ok(area)
}

#[test]
fn a_full_log_is_told(rt: HostRuntime) -> Result<(), Fail> {
    let alloc = rt.alloc();
    let script = b"ask 0 00000000000000a1 0\n";
    let cases = [
        (63, Status::Done, "full 262144\n"),
        (64, Status::JournalFull(262_145), ""),
    ];
    for (more, expected, text) in cases {
        let area = long_log(alloc, more)?;
        let disk = disk_of(alloc, &area, &[])?;
        let (_, status, written) = run_on(alloc, "decide 1 2 24", script, SOUND, disk)?;
        assert_eq!(rt; status, expected);
        assert_eq!(rt; written.as_slice(), text.as_bytes());
    }
    Ok(())
}

const FIRST_ID: PledgeId = PledgeId([0, 0, 0, 0, 0, 0, 0, 0xa1]);

const SECOND_ID: PledgeId = PledgeId([0x01, 0x23, 0x45, 0x67, 0x89, 0xab, 0xcd, 0xef]);

#[test]
fn statuses_have_their_numbers_and_texts(rt: HostRuntime) -> Result<(), Fail> {
    let all = [
        (Status::Done, 0, "done"),
        (Status::Usage, 2, "usage"),
        (Status::ReadFault(7), 3, "read fault"),
        (Status::WriteFault(7), 4, "write fault"),
        (Status::DiskFault(7), 5, "disk fault"),
        (Status::BadScript(7), 7, "bad script line 7"),
        (Status::NotAJournal(Spot::Place(7)), 8, "not a journal"),
        (Status::AlreadyThere(7), 9, "already there"),
        (
            Status::SameKey(FIRST_ID, SECOND_ID),
            10,
            "same key 00000000000000a1 0123456789abcdef",
        ),
        (Status::NoMemory, 12, "no memory"),
        (Status::JournalFull(262_145), 14, "journal full"),
        (Status::ContextsFull(32_769), 15, "contexts full"),
    ];
    for (status, number, text) in all {
        assert_eq!(rt; status.number(), number);
        assert_eq!(rt; status.to_string(rt.alloc())?.as_str(), text);
    }
    Ok(())
}

/// One request of each of `count` pledges.
fn many_pledges(alloc: Global, count: u32) -> Result<Vec<u8>, Fail> {
    let mut script = Vec::new(alloc);
    for id in 0..count {
        let line = format!(in alloc; "ask 0 {id:016x} 0\n")?;
        script.extend_from_slice(line.as_bytes())?;
    }
    Ok(script)
}

#[test]
fn more_pledges_than_contexts_are_told(rt: HostRuntime) -> Result<(), Fail> {
    let script = many_pledges(rt.alloc(), 32_769)?;
    let (status, written) = run_over(rt.alloc(), "decide 1 1 1", &script, SOUND)?;
    assert_eq!(rt; status, Status::ContextsFull(32_769));
    assert_eq!(rt; written.len(), 0);
    Ok(())
}
