//! The journal over a disk in memory. Areas are worked out by hand from their description.
ghost use Rattle.std.specs.Prelude.{◌≡◌, ◌≢◌, ◌<◌, ◌≤◌, ◌+◌, ◌^◌, [], ℕ, List, length, IfOk};
ghost use Rattle.edge_memory.specs.MemDisk.{may_leave_of};
ghost use Rattle.journal_text.specs.declared.entry.Entry.{Entry};
ghost use Rattle.journal_text.specs.Text.{entries_text};
ghost use Rattle.journal_store.specs.declared.fault.Written.TheVariants.{Done};
ghost use Rattle.journal_store.specs.Area.{IsBatch};
ghost use Rattle.journal_store.specs.Store.{pending_of, reach_of, Stands, IsPending};

use crate::body::read_entries;
use crate::{Journal, Settled, Spot, StoreFault, Written, area_laws};
use edge_memory::{FailingCall, MemDisk, Part};
use edge_traits::{Area, Disk, PledgeId};
use journal_text::Entry;
use std::alloc::Global;
use std::process::Abort;
use std::test::Fail;

/// A header, a batch of a Switch, a batch of a Block and a Release, and a closed gate.
const AREA: [u8; 96] =
    *b"\x01\x36\x54\x4a\x52\x43\x2d\x31\x00\x00\x00\x00\x00\x00\x00\x01\x00\x00\x00\x16\
    \x00\x00\x00\x00\x00\x00\x00\x00\x00\x00\x00\x00\x00\x00\x00\x00\x00\x00\x00\x00\x00\x00\
    \x01\x00\x00\x00\x0d\x09\x00\x00\x00\x00\x00\x00\x00\x28\x00\x00\x00\x02\
    \x01\x00\x00\x00\x1e\x05\x00\x00\x00\x00\x00\x00\x00\x00\x00\x00\x00\x40\
    \x0a\x00\x00\x00\x00\x00\x98\x96\x81\x00\x00\x00\x00\x00\x00\x00\xa1\x00";

fn entries() -> [Entry; 3] {
    let (time, id) = (10_000_001, PledgeId([0, 0, 0, 0, 0, 0, 0, 0xa1]));
    [
        Entry::Switch { time: 40, epoch: 2 },
        Entry::Block { context: 0, to: 64 },
        Entry::Release { time, id },
    ]
}

/// These bytes of the area, and this gate after them.
fn cut_area(alloc: Global, end: usize, gate: u8) -> Result<Vec<u8>, Fail>
    requires { end ≤ 96 }
{
    let mut bytes = Vec::new(alloc);
    bytes.extend_from_slice(&AREA[..end])?;
    bytes.push(gate)?;
    Ok(bytes)
}

/// A disk with this left area, where each call that fails does this part of its work.
fn disk_with(
    alloc: Global,
    left: &[u8],
    failing: &[u64],
    part: Part,
    calls: usize,
) -> Result<MemDisk, Fail> {
    let mut list = Vec::new(alloc);
    for number in failing {
        list.push(FailingCall {
            number: *number,
            part,
        })?;
    }
    Ok(MemDisk::with_failing(alloc, left, b"\x00", &list, calls, 256)?)
}

const PARTS: [Part; 3] = [Part::Nothing, Part::Half, Part::All];

/// The left area is so, and the right one is a closed gate.
fn has(rt: &impl Abort, disk: &MemDisk, left: &[u8]) -> Result<(), Fail> {
    assert_eq!(rt; disk.content(Area::Left), left);
    assert_eq!(rt; disk.content(Area::Right), [0].as_slice());
    Ok(())
}

type Opened = (Journal<MemDisk>, Vec<Entry>);

/// Opens a journal whose log is short.
fn opened(rt: &impl Abort, alloc: Global, disk: MemDisk) -> Result<Opened, Fail>
    ensures stands { IfOk result (λ opened. (header : List ℕ) × (log : List Entry) × Stands may_leave_of header opened.0 log) }
    ensures nothing_pending { IfOk result (λ opened. pending_of opened.0 ≡ []) }
    ensures room { IfOk result (λ opened. reach_of opened.0 < 2 ^ 32) }
{
    match Journal::start(alloc, disk) {
        Ok((journal, log)) => {
            assert!(rt; log.len() < 1000, "short");
            Ok((journal, log))
        }
        Err((_, fault)) => Err(fault)?,
    }
}

/// How many of the entries are in the log of the disk's journal, which has no other.
fn count_of(rt: &impl Abort, alloc: Global, disk: MemDisk) -> Result<usize, Fail> {
    let (_, log) = opened(rt, alloc, disk)?;
    let all = entries();
    assert!(rt; log.len() <= 3, "at most three");
    assert!(rt; log.as_slice() == &all[..log.len()], "in order");
    Ok(log.len())
}

/// Where the area has no reading.
fn spot_of(alloc: Global, area: &[u8]) -> Result<Option<Spot>, Fail> {
    match Journal::start(alloc, MemDisk::new(alloc, area, b"\x00", &[], 3, 256)?) {
        Ok(_opened) => Ok(None),
        Err((_disk, fault)) => match fault {
            StoreFault::NotAJournal(spot) => Ok(Some(spot)),
            other => Err(other)?,
        },
    }
}

/// Appends a batch to a journal with nothing pending.
fn append(alloc: Global, journal: &mut Journal<MemDisk>, batch: &[u8]) -> Result<Written, Fail>
    requires stands { (header : List ℕ) × (log : List Entry) × Stands may_leave_of header journal.old log }
    requires nothing_pending { pending_of journal.old ≡ [] }
    requires room { reach_of journal.old < 2 ^ 62 }
    requires some { 1 ≤ length batch.now }
    requires most { length batch.now ≤ 4096 }
    ensures stands { IfOk result (λ written. written ≡ Done → (header : List ℕ) × (log : List Entry) × Stands may_leave_of header journal.new log) }
    ensures pending { IfOk result (λ _. pending_of journal.new ≢ []
        → (header : List ℕ) × (log : List Entry) × (entries : List Entry) × IsPending may_leave_of header journal.new log entries) }
    ensures nothing_pending { IfOk result (λ written. written ≡ Done → pending_of journal.new ≡ []) }
    ensures reach { IfOk result (λ _. reach_of journal.new ≡ reach_of journal.old + 5 + length batch.now) }
{
    let mut entries = Vec::new(alloc);
    read_entries(batch, &mut entries)?;
    match journal.append(batch) {
        Written::Done => Ok(Written::Done),
        Written::Failed => Ok(Written::Failed),
    }
}

/// Settles, and writes the batch again where its gate is closed.
fn settle(journal: &mut Journal<MemDisk>) -> Settled
    requires pending { pending_of journal.old ≢ []
        → (header : List ℕ) × (log : List Entry) × (entries : List Entry) × IsPending may_leave_of header journal.old log entries }
    requires room { reach_of journal.old < 2 ^ 63 }
    ensures pending { pending_of journal.new ≢ []
        → (header : List ℕ) × (log : List Entry) × (entries : List Entry) × IsPending may_leave_of header journal.new log entries }
    ensures room { reach_of journal.new < 2 ^ 63 }
{
    match journal.settle() {
        Settled::Nothing => Settled::Nothing,
        Settled::Durable => Settled::Durable,
        Settled::Again => match journal.again() {
            Written::Done => Settled::Again,
            Written::Failed => Settled::Again,
        },
        Settled::Failed => Settled::Failed,
    }
}

#[test]
fn two_empty_areas_are_formatted_once(rt: HostRuntime) -> Result<(), Fail> {
    let alloc = rt.alloc();
    let mut disk = MemDisk::new(alloc, b"", b"", &[], 32, 44)?;
    assert_eq!(rt; Journal::format(&mut disk), Ok(()));
    let empty = cut_area(alloc, 42, 0)?;
    has(&rt, &disk, &empty)?;
    let refused = Journal::format(&mut disk);
    assert_eq!(rt; refused, Err(StoreFault::AlreadyThere(43)));
    has(&rt, &disk, &empty)?;
    assert_eq!(rt; count_of(&rt, alloc, disk)?, 0);
    let mut disk = MemDisk::new(alloc, b"", b"\x07", &[], 8, 44)?;
    let refused = Journal::format(&mut disk);
    assert_eq!(rt; refused, Err(StoreFault::AlreadyThere(1)));
    assert_eq!(rt; disk.content(Area::Left).len(), 0);
    Ok(())
}

#[test]
fn batches_are_written_by_four_calls_each_and_read_back(rt: HostRuntime) -> Result<(), Fail> {
    let alloc = rt.alloc();
    let empty = cut_area(alloc, 42, 0)?;
    let disk = MemDisk::new(alloc, &empty, b"\x00", &[], 11, 256)?;
    let (mut journal, log) = opened(&rt, alloc, disk)?;
    assert_eq!(rt; log.len(), 0);
    match append(alloc, &mut journal, &AREA[47..60])? {
        Written::Done => assert_eq!(rt; append(alloc, &mut journal, &AREA[65..95])?, Written::Done),
        Written::Failed => assert!(rt; false, "the first batch"),
    }
    assert_eq!(rt; journal.faults(), 0);
    let mut disk = journal.close();
    assert_eq!(rt; disk.len(Area::Left).is_err(), true, "eleven calls");
    let image = disk.image(alloc, 11, 0)?;
    has(&rt, &image, &AREA)?;
    assert_eq!(rt; count_of(&rt, alloc, image)?, 3);
    Ok(())
}

#[test]
fn a_crash_leaves_the_log_without_or_with_the_batch(rt: HostRuntime) -> Result<(), Fail> {
    let alloc = rt.alloc();
    let area = cut_area(alloc, 60, 0)?;
    let (mut journal, _) = opened(
        &rt,
        alloc,
        MemDisk::new(alloc, &area, b"\x00", &[], 7, 256)?,
    )?;
    assert_eq!(rt; append(alloc, &mut journal, &AREA[65..95])?, Written::Done);
    let disk = journal.close();
    for moment in 0..8 {
        for pick in 0..64 {
            let count = count_of(&rt, alloc, disk.image(alloc, moment, pick)?)?;
            let with = moment == 7 || moment == 6 && pick == 1;
            let may_have = with || moment == 6 && 1 < pick;
            let holds = count == 3 && may_have || count == 1 && !with;
            assert!(rt; holds, "at {moment}, {pick}");
        }
    }
    Ok(())
}

type Case = (&'static [u64], &'static [Settled]);

/// Calls that fail while a batch is appended, and the answers of settling until it is durable, whatever part of their work
/// these calls do. The first three calls open the journal.
const FAILING: [Case; 8] = [
    (&[3], &[Settled::Again]),
    (&[4], &[Settled::Again]),
    (&[6], &[Settled::Durable]),
    (&[4, 5], &[Settled::Failed, Settled::Again]),
    (&[4, 6], &[Settled::Failed, Settled::Again]),
    (&[6, 7], &[Settled::Failed, Settled::Durable]),
    (&[3, 6], &[Settled::Again, Settled::Again]),
    (&[4, 10], &[Settled::Again, Settled::Durable]),
];

/// The write of the gate fails, and its byte is there where it did all. Half of one byte is nothing.
const GATE: [(Part, Case); 3] = [
    (Part::Nothing, (&[5], &[Settled::Again])),
    (Part::Half, (&[5], &[Settled::Again])),
    (Part::All, (&[5], &[Settled::Durable])),
];

/// Appends a batch of which calls fail after this part of their work, and settles it.
fn settled(rt: &impl Abort, alloc: Global, part: Part, case: Case) -> Result<MemDisk, Fail> {
    let (failing, answers) = case;
    let area = cut_area(alloc, 60, 0)?;
    let disk = disk_with(alloc, &area, failing, part, 32)?;
    let (mut journal, _) = opened(rt, alloc, disk)?;
    let written = append(alloc, &mut journal, &AREA[65..95])?;
    assert_eq!(rt; written, Written::Failed);
    for answer in answers {
        assert_eq!(rt; settle(&mut journal), *answer);
    }
    assert_eq!(rt; settle(&mut journal), Settled::Nothing);
    assert_eq!(rt; journal.faults(), failing.len() as u64);
    Ok(journal.close())
}

/// Each image of a batch that failed and was settled has the log without or with it, and at the end it has it.
fn is_whole_or_not(rt: &impl Abort, alloc: Global, part: Part, case: Case) -> Result<(), Fail> {
    let disk = settled(rt, alloc, part, case)?;
    for moment in 0..16 {
        for pick in 0..8 {
            let count = count_of(rt, alloc, disk.image(alloc, moment, pick)?)?;
            assert!(rt; count == 1 || count == 3, "at {moment}, {pick}");
        }
    }
    has(rt, &disk, &AREA)?;
    assert_eq!(rt; count_of(rt, alloc, disk)?, 3);
    Ok(())
}

#[test]
fn a_batch_that_failed_is_settled(rt: HostRuntime) -> Result<(), Fail> {
    for case in FAILING {
        for part in PARTS {
            is_whole_or_not(&rt, rt.alloc(), part, case)?;
        }
    }
    Ok(())
}

#[test]
fn a_gate_whose_write_failed_may_be_open(rt: HostRuntime) -> Result<(), Fail> {
    for (part, case) in GATE {
        is_whole_or_not(&rt, rt.alloc(), part, case)?;
    }
    Ok(())
}

#[test]
fn settling_nothing_calls_nothing(rt: HostRuntime) -> Result<(), Fail> {
    let alloc = rt.alloc();
    let (mut journal, _) = opened(
        &rt,
        alloc,
        MemDisk::new(alloc, &AREA, b"\x00", &[3], 4, 256)?,
    )?;
    assert_eq!(rt; (journal.settle(), journal.faults()), (Settled::Nothing, 0));
    assert_eq!(rt; journal.close().len(Area::Left).is_err(), true);
    area_laws();
    Ok(())
}

#[test]
fn each_call_of_opening_may_fail(rt: HostRuntime) -> Result<(), Fail> {
    let alloc = rt.alloc();
    for place in 0..3 {
        for part in PARTS {
            match Journal::start(alloc, disk_with(alloc, &AREA, &[place], part, 8)?) {
                Ok(_opened) => assert!(rt; false, "opened"),
                Err((disk, fault)) => {
                    assert_eq!(rt; (fault, disk.faults()), (StoreFault::Disk(1), 1));
                    assert_eq!(rt; count_of(&rt, alloc, disk)?, 3);
                }
            }
        }
    }
    Ok(())
}

#[test]
fn a_cut_area_is_no_journal(rt: HostRuntime) -> Result<(), Fail> {
    for end in 0..96 {
        let place = match end {
            16..=41 => 16,
            43..=59 => 43,
            61..=94 => 61,
            _ => end as u64,
        };
        let spot = spot_of(rt.alloc(), &AREA[..end])?;
        assert_eq!(rt; spot, Some(Spot::Place(place)));
    }
    Ok(())
}

/// A byte of the area that is another, and what is reported.
const SPOILT: [(usize, u8, Option<Spot>); 19] = [
    // the gate of the area, its name, its generation
    (0, 2, Some(Spot::Place(0))),
    (7, 0x32, Some(Spot::Place(7))),
    (8, 1, Some(Spot::Place(8))),
    (15, 2, Some(Spot::Place(15))),
    // the length of the summary: to the end, and past it
    (19, 21, Some(Spot::Summary(16))),
    (19, 23, Some(Spot::Summary(16))),
    (19, 76, Some(Spot::Summary(16))),
    (19, 77, Some(Spot::Place(16))),
    (20, 1, Some(Spot::Summary(20))),
    (41, 1, Some(Spot::Summary(41))),
    // any gate but 1 is closed
    (60, 7, None),
    // the length of a batch: none, past the end
    (46, 0, Some(Spot::Place(43))),
    (46, 50, Some(Spot::Place(43))),
    (64, 32, Some(Spot::Place(61))),
    // kinds without a meaning, and an entry that is cut
    (64, 31, Some(Spot::Entry(3))),
    (47, 0x0b, Some(Spot::Entry(0))),
    (65, 0, Some(Spot::Entry(1))),
    (78, 0xff, Some(Spot::Entry(2))),
    (64, 29, Some(Spot::Entry(2))),
];

#[test]
fn a_spoilt_area_has_its_spot(rt: HostRuntime) -> Result<(), Fail> {
    for (place, byte, spot) in SPOILT {
        let mut area = AREA;
        assert!(rt; place < 96, "in the area");
        area[place] = byte;
        assert_eq!(rt; spot_of(rt.alloc(), &area)?, spot, "at {place}");
    }
    Ok(())
}

/// An area with one batch of this length, of `few` entries of 13 bytes and `more` of 17.
fn one_batch(alloc: Global, size: &[u8], few: usize, more: usize) -> Result<Vec<u8>, Fail> {
    let mut bytes = cut_area(alloc, 42, 1)?;
    bytes.extend_from_slice(size)?;
    for _ in 0..few {
        bytes.extend_from_slice(&AREA[47..60])?;
    }
    for _ in 0..more {
        bytes.extend_from_slice(&AREA[78..95])?;
    }
    bytes.push(0)?;
    Ok(bytes)
}

#[test]
fn a_batch_has_at_most_4096_bytes(rt: HostRuntime) -> Result<(), Fail> {
    let alloc = rt.alloc();
    let longest = one_batch(alloc, b"\x00\x00\x10\x00", 302, 10)?;
    assert_eq!(rt; spot_of(alloc, &longest)?, None);
    let longer = one_batch(alloc, b"\x00\x00\x10\x01", 0, 241)?;
    assert_eq!(rt; spot_of(alloc, &longer)?, Some(Spot::Place(43)));
    Ok(())
}
