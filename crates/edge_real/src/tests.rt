//! A disk over files that are made up: which calls it makes of the system, in which order, and what it makes of failures.
use crate::fake_files::{FakeFiles, Notes};
use crate::{FileDisk, OpenError};
use edge_traits::{Area, Disk, Failed};
use std::alloc::Global;
use std::io::ErrorKind;
use std::test::Fail;

fn disk_over<'a>(alloc: Global, notes: &'a Notes) -> Result<FileDisk<FakeFiles<'a>>, OpenError> {
    let left = format!(in alloc; "folder/journal.0")?;
    let right = format!(in alloc; "folder/journal.1")?;
    FileDisk::over(FakeFiles(notes), left, right)
}

#[test]
fn a_file_is_locked_before_anything_else(rt: HostRuntime) -> Result<(), Fail> {
    let notes = Notes::new(rt.alloc());
    let mut disk = disk_over(rt.alloc(), &notes)?;
    assert!(rt; notes.are("open left\nlock left\nopen right\nlock right\n"));
    assert_eq!(rt; disk.len(Area::Left), Ok(100));
    assert!(rt; notes.are("len left\n"));
    let mut buf = [0; 7];
    assert_eq!(rt; disk.read_at(Area::Right, 10, &mut buf), Ok(()));
    assert_eq!(rt; buf, [10, 11, 12, 13, 14, 15, 16]);
    assert!(rt; notes.are("read right\nread right\nread right\n"));
    assert_eq!(rt; disk.faults(), 0);
    Ok(())
}

#[test]
fn a_missing_file_is_created_and_locked_and_its_name_is_synced(
    rt: HostRuntime,
) -> Result<(), Fail> {
    let mut notes = Notes::new(rt.alloc());
    notes.are_there = false;
    let mut disk = disk_over(rt.alloc(), &notes)?;
    assert_eq!(rt; disk.sync(Area::Right), Ok(()));
    assert!(rt; notes.are("open left\nopen right\n"));
    assert_eq!(rt; disk.write_at(Area::Right, 0, b"abcde"), Ok(()));
    assert!(rt; notes.are("create right\nlock right\nwrite right 0 abcde\nwrite right 3 de\n"));
    assert_eq!(rt; disk.sync(Area::Right), Ok(()));
    assert!(rt; notes.are("sync right\nopen folder\nsync folder\n"));
    assert_eq!(rt; disk.sync(Area::Right), Ok(()));
    assert!(rt; notes.are("sync right\n"));
    assert_eq!(rt; disk.sync(Area::Left), Ok(()));
    assert!(rt; notes.are(""));
    Ok(())
}

#[test]
fn a_file_of_another_program_is_not_touched(rt: HostRuntime) -> Result<(), Fail> {
    let mut notes = Notes::new(rt.alloc());
    notes.are_taken = true;
    assert!(rt; matches!(disk_over(rt.alloc(), &notes), Err(OpenError::Taken)));
    assert!(rt; notes.are("open left\nlock left\n"));
    notes.are_there = false;
    let mut disk = disk_over(rt.alloc(), &notes)?;
    assert_eq!(rt; disk.write_at(Area::Left, 0, b"abcde"), Err(Failed));
    assert!(rt; notes.are("open left\nopen right\ncreate left\nlock left\n"));
    assert_eq!(rt; disk.len(Area::Left), Err(Failed));
    assert_eq!(rt; disk.sync(Area::Left), Err(Failed));
    assert!(rt; notes.are(""));
    Ok(())
}

#[test]
fn a_file_that_may_not_be_opened_is_not_missing(rt: HostRuntime) {
    for number in 0..4 {
        let mut notes = Notes::new(rt.alloc());
        notes.failing = Some((number, ErrorKind::PermissionDenied));
        assert!(rt; matches!(disk_over(rt.alloc(), &notes), Err(OpenError::Failed)));
    }
}

type Answers = [Result<(), Failed>; 4];

/// A write of five bytes, a sync, the length and a read of seven bytes.
fn answers_of(disk: &mut FileDisk<FakeFiles<'_>>) -> Answers {
    [
        disk.write_at(Area::Right, 0, b"abcde"),
        disk.sync(Area::Right),
        disk.len(Area::Right).map(|_| ()),
        disk.read_at(Area::Right, 10, &mut [0; 7]),
    ]
}

const OK: Result<(), Failed> = Ok(());

const ERR: Result<(), Failed> = Err(Failed);

/// The number of a call of the system that fails, after the four of opening, and the answers.
const FAILING: [(u64, Answers, u64); 10] = [
    (4, [ERR, OK, OK, OK], 1),
    (5, [ERR, OK, OK, OK], 1),
    // After a sync that failed, the file isn't used again.
    (6, [OK, ERR, ERR, ERR], 3),
    (7, [OK, ERR, ERR, ERR], 3),
    (8, [OK, ERR, ERR, ERR], 3),
    (9, [OK, OK, ERR, OK], 1),
    (10, [OK, OK, OK, ERR], 1),
    (11, [OK, OK, OK, ERR], 1),
    (12, [OK, OK, OK, ERR], 1),
    (13, [OK, OK, OK, OK], 0),
];

#[test]
fn each_call_that_fails_is_told_at_once(rt: HostRuntime) -> Result<(), Fail> {
    for (number, answers, faults) in FAILING {
        let mut notes = Notes::new(rt.alloc());
        notes.failing = Some((number, ErrorKind::Other));
        let mut disk = disk_over(rt.alloc(), &notes)?;
        assert_eq!(rt; answers_of(&mut disk), answers);
        assert_eq!(rt; disk.faults(), faults);
    }
    Ok(())
}
