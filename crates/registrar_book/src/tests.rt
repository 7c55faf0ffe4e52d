//! Books over a disk in memory. Logs and areas are worked out by hand from the rules and the formats.
ghost use Rattle.std.specs.Prelude.{◌<◌, ◌^◌, IfOk, length};
ghost use Rattle.edge_memory.specs.MemDisk.{may_leave_of};
ghost use Rattle.join_history.specs.Legal.{IsInRange};
ghost use Rattle.registrar_state.specs.State.{IsEnrolled, HasSettings};
ghost use Rattle.registrar_book.specs.Books.{IsKept, state_of};

use crate::known::Row;
use crate::{Book, Closed, Decided, OpenFault};
use arrayvec::ArrayVec;
use edge_memory::MemDisk;
use edge_traits::{Area, Disk, PledgeId};
use journal_store::{Journal, Spot};
use journal_text::{Entry, Settings};
use registrar_state::{Opening, Quiet, Want};
use std::alloc::Global;
use std::process::Abort;
use std::test::Fail;

/// An area up to its first gate: open, its name, generation 1, and the summary of the empty history.
const HEAD: [u8; 42] =
    *b"\x01\x36\x54\x4a\x52\x43\x2d\x31\x00\x00\x00\x00\x00\x00\x00\x01\x00\x00\x00\x16\
    \x00\x00\x00\x00\x00\x00\x00\x00\x00\x00\x00\x00\x00\x00\x00\x00\x00\x00\x00\x00\x00\x00";

/// The settings of each opening here, from time 0 on.
const SETTINGS: [u8; 17] = *b"\x01\x00\x00\x00\x00\x00\x00\x00\x00\x00\x01\x00\x02\x00\x18\x00\x00";

/// A pool of the addresses 1 and 2, and leases of 24 hours.
fn settings() -> Settings
    ensures { IsInRange result }
{
    Settings {
        first: 1,
        count: 2,
        hours: 24,
        rate: None,
        jrc: None,
        refused: ArrayVec::new(),
    }
}

fn settings_at(time: u64) -> Entry {
    Entry::Settings {
        time,
        settings: settings(),
    }
}

/// The pledge whose identifier is this number. Its check is the identifier and zeros.
fn row(number: u32) -> Row {
    let [a, b, c, d] = number.to_be_bytes();
    let mut check = [0; 32];
    (check[4], check[5], check[6], check[7]) = (a, b, c, d);
    (PledgeId([0, 0, 0, 0, a, b, c, d]), check)
}

fn enroll(context: u32, row: Row) -> Entry {
    let (id, check) = row;
    Entry::Enroll { context, id, check }
}

/// A lease of context 0 on address 1.
fn grant(number: u64, time: u32) -> Entry {
    Entry::Grant {
        time: u64::from(time),
        context: 0,
        number,
        address: 1,
        until: u64::from(time) + 86_400,
    }
}

/// A left area with these batches.
fn area_of(alloc: Global, batches: &[&[u8]]) -> Result<Vec<u8>, Fail> {
    let mut area = Vec::new(alloc);
    area.extend_from_slice(&HEAD)?;
    for batch in batches {
        add_batch(&mut area, batch)?;
    }
    area.push(0)?;
    Ok(area)
}

fn add_batch(area: &mut Vec<u8>, batch: &[u8]) -> Result<(), Fail> {
    area.push(1)?;
    area.extend_from_slice(&u32::try_from(batch.len())?.to_be_bytes())?;
    area.extend_from_slice(batch)?;
    Ok(())
}

/// The text of an Enroll of context 0.
fn enroll_text(alloc: Global, id: PledgeId, check: &[u8; 32]) -> Result<Vec<u8>, Fail> {
    let mut text = Vec::new(alloc);
    text.extend_from_slice(b"\x02\x00\x00\x00\x00")?;
    text.extend_from_slice(&id.0)?;
    text.extend_from_slice(check)?;
    Ok(text)
}

/// The log of the disk's journal.
fn log_on(alloc: Global, disk: MemDisk) -> Result<Vec<Entry>, Fail> {
    match Journal::start(alloc, disk) {
        Ok((_journal, log)) => Ok(log),
        Err((_disk, fault)) => Err(fault)?,
    }
}

fn opening_of(rt: &impl Abort, alloc: Global, rows: &[Row]) -> Result<Opening, Fail>
    ensures settings { IfOk result (λ opening. IsInRange opening.settings) }
    ensures few { IfOk result (λ opening. length opening.rows.items < 2 ^ 31) }
{
    let rows = rows.to_vec(alloc)?;
    assert!(rt; rows.len() < 100_000, "few rows");
    Ok(Opening {
        settings: settings(),
        rows,
    })
}

type Opened = (Book<MemDisk>, Vec<u32>);

/// A book with these rows, and their contexts, of which the first is 0.
fn opened(
    rt: &impl Abort,
    alloc: Global,
    disk: MemDisk,
    rows: &[Row],
    now: Option<u64>,
) -> Result<Opened, Fail>
    ensures kept { IfOk result (λ opened. IsKept may_leave_of opened.0) }
    ensures enrolled { IfOk result (λ opened. IsEnrolled (state_of opened.0) 0) }
    ensures settings { IfOk result (λ opened. HasSettings (state_of opened.0)) }
{
    let opening = opening_of(rt, alloc, rows)?;
    match Book::start(alloc, disk, &opening, now) {
        Ok((book, contexts)) => {
            assert!(rt; contexts.len() > 0, "a row");
            assert!(rt; contexts[0] == 0, "context 0");
            let Some(_settings) = book.state().settings() else {
                return Err("no settings")?;
            };
            Ok((book, contexts))
        }
        Err((_disk, fault)) => Err(fault)?,
    }
}

/// Context 0 asks to join.
fn join(book: &mut Book<MemDisk>, number: u32, now: u64) -> Decided
    requires kept { IsKept may_leave_of book.old }
    requires enrolled { IsEnrolled (state_of book.old) 0 }
    requires settings { HasSettings (state_of book.old) }
    ensures kept { IsKept may_leave_of book.new }
    ensures enrolled { IsEnrolled (state_of book.new) 0 }
    ensures settings { HasSettings (state_of book.new) }
{
    book.decide(0, u64::from(number), Want::Join, now)
}

/// Why a disk with this left area isn't opened. Its areas stay.
fn fault_of(rt: &impl Abort, alloc: Global, left: &[u8], rows: &[Row]) -> Result<OpenFault, Fail> {
    let opening = opening_of(rt, alloc, rows)?;
    match Book::start(
        alloc,
        MemDisk::new(alloc, left, b"\x00", &[], 16, 4096)?,
        &opening,
        None,
    ) {
        Ok(_opened) => Err("opened")?,
        Err((disk, fault)) => {
            assert!(rt; disk.content(Area::Left) == left, "the left area");
            assert_eq!(rt; disk.content(Area::Right), [0].as_slice());
            Ok(fault)
        }
    }
}

#[test]
fn what_is_there_is_not_added_again_and_answers_stay(rt: HostRuntime) -> Result<(), Fail> {
    let (alloc, rows) = (rt.alloc(), [row(0xa1)]);
    let mut disk = MemDisk::new(alloc, b"", b"", &[], 64, 4096)?;
    Journal::format(&mut disk)?;
    let (mut book, contexts) = opened(&rt, alloc, disk, &rows, None)?;
    assert_eq!(rt; contexts.as_slice(), [0].as_slice());
    assert_eq!(rt; join(&mut book, 0, 100), Decided::Made(3));
    assert_eq!(rt; join(&mut book, 0, 101), Decided::Again(3));
    assert_eq!(rt; join(&mut book, 40, 102), Decided::Made(4));
    assert_eq!(rt; join(&mut book, 8, 103), Decided::Quiet(Quiet::Old, 4));
    let closed = book.close();
    let expected = [
        settings_at(0),
        enroll(0, row(0xa1)),
        grant(0, 100),
        grant(40, 102),
    ];
    assert!(rt;
        closed.log.as_slice() == expected.as_slice(),
        "four entries"
    );
    let (mut book, contexts) = opened(&rt, alloc, closed.disk, &rows, None)?;
    assert_eq!(rt; contexts.as_slice(), [0].as_slice());
    assert_eq!(rt; join(&mut book, 0, 104), Decided::Quiet(Quiet::Old, 4));
    assert_eq!(rt; join(&mut book, 40, 105), Decided::Again(4));
    assert_eq!(rt; join(&mut book, 8, 106), Decided::Quiet(Quiet::Old, 4));
    assert!(rt;
        book.close().log.as_slice() == expected.as_slice(),
        "the same entries"
    );
    Ok(())
}

/// A disk of an empty journal. Opening it makes seven calls: three to read, and four to write the settings and a row.
fn empty_disk(alloc: Global, failing: &[u64]) -> Result<MemDisk, Fail> {
    Ok(MemDisk::new(alloc, &area_of(alloc, &[])?, b"\x00", failing, 64, 4096)?)
}

#[test]
fn a_decision_that_failed_stands(rt: HostRuntime) -> Result<(), Fail> {
    let alloc = rt.alloc();
    let (mut book, _) = opened(&rt, alloc, empty_disk(alloc, &[10])?, &[row(0xa1)], None)?;
    assert_eq!(rt; join(&mut book, 40, 0), Decided::Unsure(3, 1));
    assert_eq!(rt; join(&mut book, 8, 1), Decided::Quiet(Quiet::Old, 3));
    assert_eq!(rt; join(&mut book, 9, 2), Decided::Made(4));
    let Closed { disk, log, .. } = book.close();
    let expected = [
        settings_at(0),
        enroll(0, row(0xa1)),
        grant(40, 0),
        grant(9, 2),
    ];
    assert!(rt;
        log.as_slice() == expected.as_slice(),
        "one lease for each number"
    );
    assert!(rt;
        log_on(alloc, disk)?.as_slice() == expected.as_slice(),
        "on the disk too"
    );
    Ok(())
}

#[test]
fn a_crash_leaves_the_log_without_or_with_the_decision(rt: HostRuntime) -> Result<(), Fail> {
    let (alloc, rows) = (rt.alloc(), [row(0xa1)]);
    let (mut book, _) = opened(&rt, alloc, empty_disk(alloc, &[])?, &rows, None)?;
    assert_eq!(rt; join(&mut book, 0, 100), Decided::Made(3));
    let disk = book.close().disk;
    let expected = [settings_at(0), enroll(0, row(0xa1)), grant(0, 100)];
    for moment in 7..12 {
        for pick in 0..4 {
            let image = disk.image(alloc, moment, pick)?;
            let log = opened(&rt, alloc, image, &rows, None)?.0.close().log;
            let with = log.as_slice() == expected.as_slice();
            let without = log.as_slice() == &expected[..2];
            assert!(rt; with || without && moment < 11, "at {moment}, {pick}");
        }
    }
    Ok(())
}

#[test]
fn two_pledges_with_one_key_are_refused(rt: HostRuntime) -> Result<(), Fail> {
    let alloc = rt.alloc();
    let ((p, check), (q, _)) = (row(0xa1), row(0xa2));
    let log = enroll_text(alloc, q, &check)?;
    let enrolled = area_of(alloc, &[&SETTINGS, &log])?;
    let fault = fault_of(&rt, alloc, &enrolled, &[(p, check)])?;
    assert_eq!(rt; fault, OpenFault::SameKey(q, p));
    let fault = fault_of(&rt, alloc, &area_of(alloc, &[])?, &[(p, check), (q, check)])?;
    assert_eq!(rt; fault, OpenFault::SameKey(p, q));
    Ok(())
}

#[test]
fn there_are_at_most_32768_contexts(rt: HostRuntime) -> Result<(), Fail> {
    let alloc = rt.alloc();
    let mut rows = Vec::new(alloc);
    for number in 0..32_769u32 {
        rows.push(row(number.swap_bytes()))?;
    }
    let fault = fault_of(&rt, alloc, &area_of(alloc, &[])?, &rows)?;
    assert_eq!(rt; fault, OpenFault::ContextsFull(32_769));
    Ok(())
}

/// The text of `count` entries of the settings.
fn settings_text(alloc: Global, count: usize) -> Result<Vec<u8>, Fail> {
    let mut text = Vec::new(alloc);
    for _ in 0..count {
        text.extend_from_slice(&SETTINGS)?;
    }
    Ok(text)
}

/// 2,047 batches of 128 entries, and one of `last`.
fn full_area(alloc: Global, last: usize) -> Result<Vec<u8>, Fail> {
    let batch = settings_text(alloc, 128)?;
    let mut area = Vec::new(alloc);
    area.extend_from_slice(&HEAD)?;
    for _ in 0..2047 {
        add_batch(&mut area, &batch)?;
    }
    add_batch(&mut area, &settings_text(alloc, last)?)?;
    area.push(0)?;
    Ok(area)
}

#[test]
fn opening_adds_nothing_past_262144_entries(rt: HostRuntime) -> Result<(), Fail> {
    let alloc = rt.alloc();
    let fault = fault_of(&rt, alloc, &full_area(alloc, 128)?, &[row(0xa1)])?;
    assert_eq!(rt; fault, OpenFault::JournalFull(262_145));
    Ok(())
}

#[test]
fn a_full_log_takes_no_decision(rt: HostRuntime) -> Result<(), Fail> {
    let alloc = rt.alloc();
    let disk = MemDisk::new(alloc, &full_area(alloc, 127)?, b"\x00", &[], 16, 4096)?;
    let (mut book, contexts) = opened(&rt, alloc, disk, &[row(0xa1)], None)?;
    assert_eq!(rt; contexts.as_slice(), [0].as_slice());
    assert_eq!(rt; join(&mut book, 0, 1), Decided::Full(262_144));
    assert_eq!(rt; book.close().log.len(), 262_144);
    Ok(())
}

#[test]
fn what_is_no_journal_is_told(rt: HostRuntime) -> Result<(), Fail> {
    let alloc = rt.alloc();
    let (mut at_5, mut at_4) = (SETTINGS, SETTINGS);
    (at_5[8], at_4[8]) = (5, 4);
    let back = area_of(alloc, &[&at_5, &at_4])?;
    let fault = fault_of(&rt, alloc, &back, &[])?;
    assert_eq!(rt; fault, OpenFault::NotAJournal(Spot::Entry(1)));
    let fault = fault_of(&rt, alloc, b"", &[])?;
    assert_eq!(rt; fault, OpenFault::NotAJournal(Spot::Place(0)));
    Ok(())
}

#[test]
fn opening_writes_32_entries_at_a_time(rt: HostRuntime) -> Result<(), Fail> {
    let alloc = rt.alloc();
    let (mut rows, mut expected) = (Vec::new(alloc), Vec::new(alloc));
    expected.push(settings_at(0))?;
    for number in 0..40 {
        rows.push(row(number))?;
        expected.push(enroll(number, row(number)))?;
    }
    let disk = MemDisk::new(alloc, &area_of(alloc, &[])?, b"\x00", &[], 11, 4096)?;
    let (book, contexts) = opened(&rt, alloc, disk, &rows, None)?;
    assert_eq!(rt; contexts.len(), 40);
    let Closed { mut disk, log, .. } = book.close();
    assert!(rt; log.as_slice() == expected.as_slice(), "41 entries");
    assert_eq!(rt; disk.len(Area::Left).is_err(), true, "eleven calls");
    for (moment, count) in [(6, 0), (7, 32), (10, 32), (11, 41)] {
        let log = log_on(alloc, disk.image(alloc, moment, 0)?)?;
        assert!(rt; count <= expected.len());
        assert!(rt; log.as_slice() == &expected[..count], "at {moment}");
    }
    Ok(())
}

#[test]
fn each_call_of_opening_may_fail(rt: HostRuntime) -> Result<(), Fail> {
    let alloc = rt.alloc();
    let opening = opening_of(&rt, alloc, &[row(0xa1)])?;
    for place in 0..7 {
        match Book::start(alloc, empty_disk(alloc, &[place])?, &opening, None) {
            Ok(_opened) => assert!(rt; false, "opened"),
            Err((_disk, fault)) => assert_eq!(rt; fault, OpenFault::Disk(1), "at {place}"),
        }
    }
    Ok(())
}

#[test]
fn opening_adds_settings_at_the_moment_of_the_clock(rt: HostRuntime) -> Result<(), Fail> {
    let alloc = rt.alloc();
    // other settings, from time 7 on
    let mut other = SETTINGS;
    (other[8], other[14]) = (7, 1);
    let (empty, used) = (area_of(alloc, &[])?, area_of(alloc, &[&other])?);
    let cases = [
        (&empty, None, 0),
        (&empty, Some(100), 100),
        (&used, None, 7),
        (&used, Some(5), 7),
        (&used, Some(9), 9),
        (&used, Some(u64::MAX), 1_099_511_627_775),
    ];
    for (left, now, time) in cases {
        let disk = MemDisk::new(alloc, left, b"\x00", &[], 16, 4096)?;
        let log = opened(&rt, alloc, disk, &[row(0xa1)], now)?.0.close().log;
        let added = [settings_at(time), enroll(0, row(0xa1))];
        assert!(rt; log.ends_with(&added), "at {time}");
    }
    Ok(())
}
