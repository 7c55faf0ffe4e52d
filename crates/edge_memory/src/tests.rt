use crate::{FailingCall, MemDisk, MemSink, MemSource, Part};
use edge_traits::{Area, Disk, Failed, Sink, Source};
use std::alloc::Global;
use std::test::Fail;

fn content(alloc: Global, disk: &mut MemDisk, area: Area) -> Result<Vec<u8>, Fail> {
    let len = disk.len(area)?;
    let mut bytes = vec![in alloc; 0; len as usize]?;
    disk.read_at(area, 0, &mut bytes)?;
    Ok(bytes)
}

fn image(
    alloc: Global,
    disk: &MemDisk,
    moment: u64,
    pick: u64,
    area: Area,
) -> Result<Vec<u8>, Fail> {
    let mut image = disk.image(alloc, moment, pick)?;
    content(alloc, &mut image, area)
}

#[test]
fn a_source_gives_its_bytes_in_order(rt: HostRuntime) -> Result<(), Fail> {
    let mut source = MemSource::new(rt.alloc(), b"abcdef", &[])?;
    let mut buf = [0; 4];
    assert_eq!(rt; source.read(&mut buf), Ok(4));
    assert_eq!(rt; buf.as_slice(), b"abcd".as_slice());
    assert_eq!(rt; source.read(&mut buf), Ok(2));
    assert_eq!(rt; buf.as_slice(), b"efcd".as_slice());
    assert_eq!(rt; source.read(&mut buf), Ok(0));
    assert_eq!(rt; source.faults(), 0);
    Ok(())
}

#[test]
fn a_listed_read_fails_and_takes_nothing(rt: HostRuntime) -> Result<(), Fail> {
    let mut source = MemSource::new(rt.alloc(), b"abcdef", &[1])?;
    let mut buf = [0; 3];
    assert_eq!(rt; source.read(&mut buf), Ok(3));
    assert_eq!(rt; source.read(&mut buf), Err(Failed));
    assert_eq!(rt; buf.as_slice(), b"abc".as_slice());
    assert_eq!(rt; source.read(&mut buf), Ok(3));
    assert_eq!(rt; buf.as_slice(), b"def".as_slice());
    assert_eq!(rt; source.faults(), 1);
    Ok(())
}

#[test]
fn a_sink_takes_pieces_while_its_room_lasts(rt: HostRuntime) -> Result<(), Fail> {
    let mut sink = MemSink::new(rt.alloc(), &[1], 4)?;
    assert_eq!(rt; sink.write(b"abc"), Ok(3));
    assert_eq!(rt; sink.write(b"d"), Err(Failed));
    assert_eq!(rt; sink.write(b"de"), Err(Failed));
    assert_eq!(rt; sink.write(b"f"), Ok(1));
    assert_eq!(rt; sink.written(), b"abcf".as_slice());
    assert_eq!(rt; sink.faults(), 2);
    Ok(())
}

#[test]
fn a_disk_reads_what_was_written(rt: HostRuntime) -> Result<(), Fail> {
    let alloc = rt.alloc();
    let mut disk = MemDisk::new(alloc, b"abcdef", b"xyz", &[], 8, 16)?;
    disk.write_at(Area::Left, 0, b"AB")?;
    disk.write_at(Area::Right, 0, b"12345")?;
    assert_eq!(rt;
        content(alloc, &mut disk, Area::Left)?.as_slice(),
        b"ABcdef".as_slice()
    );
    assert_eq!(rt;
        content(alloc, &mut disk, Area::Right)?.as_slice(),
        b"12345".as_slice()
    );
    assert_eq!(rt; disk.faults(), 0);
    Ok(())
}

#[test]
fn what_was_not_synced_may_be_lost(rt: HostRuntime) -> Result<(), Fail> {
    let alloc = rt.alloc();
    let mut disk = MemDisk::new(alloc, b"abcd", b"xyz", &[], 8, 16)?;
    disk.write_at(Area::Left, 0, b"ABCDEF")?;
    disk.write_at(Area::Right, 0, b"XYZ")?;
    disk.sync(Area::Right)?;
    assert_eq!(rt;
        image(alloc, &disk, 3, 0, Area::Left)?.as_slice(),
        b"abcd".as_slice()
    );
    assert_eq!(rt;
        image(alloc, &disk, 3, 1, Area::Left)?.as_slice(),
        b"ABCDEF".as_slice()
    );
    assert_eq!(rt;
        image(alloc, &disk, 3, 0, Area::Right)?.as_slice(),
        b"XYZ".as_slice()
    );
    assert_eq!(rt;
        image(alloc, &disk, 2, 0, Area::Right)?.as_slice(),
        b"xyz".as_slice()
    );
    assert_eq!(rt;
        image(alloc, &disk, 0, 1, Area::Right)?.as_slice(),
        b"xyz".as_slice()
    );
    Ok(())
}

#[test]
fn other_picks_tear_a_write(rt: HostRuntime) -> Result<(), Fail> {
    let alloc = rt.alloc();
    let mut disk = MemDisk::new(alloc, b"abcdefgh", b"", &[], 8, 16)?;
    disk.write_at(Area::Left, 0, b"ABCDEFGH")?;
    let mut stayed = false;
    let mut arrived = false;
    let mut spoilt = false;
    for pick in 2..12 {
        for byte in image(alloc, &disk, 1, pick, Area::Left)?.as_slice() {
            stayed = stayed || byte.is_ascii_lowercase();
            arrived = arrived || byte.is_ascii_uppercase();
            spoilt = spoilt || !byte.is_ascii();
        }
    }
    assert!(rt; stayed && arrived && spoilt);
    disk.sync(Area::Left)?;
    for pick in 0..12 {
        assert_eq!(rt;
            image(alloc, &disk, 9, pick, Area::Left)?.as_slice(),
            b"ABCDEFGH".as_slice()
        );
    }
    Ok(())
}

#[test]
fn a_listed_write_does_its_first_half(rt: HostRuntime) -> Result<(), Fail> {
    let alloc = rt.alloc();
    let mut disk = MemDisk::new(alloc, b"abcd", b"", &[0, 1], 8, 16)?;
    assert_eq!(rt; disk.write_at(Area::Left, 0, b"ABCD"), Err(Failed));
    assert_eq!(rt; disk.sync(Area::Left), Err(Failed));
    assert_eq!(rt;
        image(alloc, &disk, 2, 0, Area::Left)?.as_slice(),
        b"abcd".as_slice()
    );
    assert_eq!(rt;
        content(alloc, &mut disk, Area::Left)?.as_slice(),
        b"ABcd".as_slice()
    );
    assert_eq!(rt; disk.faults(), 2);
    Ok(())
}

#[test]
fn calls_past_the_record_fail(rt: HostRuntime) -> Result<(), Fail> {
    let alloc = rt.alloc();
    let mut disk = MemDisk::new(alloc, b"abcd", b"", &[], 3, 4)?;
    assert_eq!(rt; disk.write_at(Area::Left, 0, b"ABCDE"), Err(Failed));
    assert_eq!(rt; disk.write_at(Area::Left, 0, b"ABCD"), Ok(()));
    assert_eq!(rt; disk.len(Area::Left), Ok(4));
    assert_eq!(rt; disk.sync(Area::Left), Err(Failed));
    assert_eq!(rt; disk.faults(), 2);
    assert_eq!(rt;
        image(alloc, &disk, 4, 0, Area::Left)?.as_slice(),
        b"abcd".as_slice()
    );
    Ok(())
}

/// What a crash left of bytes that were written past the end.
#[derive(Clone, Copy, PartialEq, Eq)]
enum Kind {
    Nothing,
    Prefix,
    Whole,
    Zeros,
    OtherBytes,
    Mix,
}

const KINDS: [Kind; 6] = [
    Kind::Nothing,
    Kind::Prefix,
    Kind::Whole,
    Kind::Zeros,
    Kind::OtherBytes,
    Kind::Mix,
];

fn kind_of(written: &[u8], left: &[u8]) -> Kind {
    if left.is_empty() {
        Kind::Nothing
    } else if left == written {
        Kind::Whole
    } else if written.starts_with(left) {
        Kind::Prefix
    } else if left.len() < written.len() {
        Kind::Mix
    } else if left.iter().all(|byte| *byte == 0) {
        Kind::Zeros
    } else {
        Kind::OtherBytes
    }
}

#[test]
fn each_kind_of_image_comes(rt: HostRuntime) -> Result<(), Fail> {
    let alloc = rt.alloc();
    let written = b"ABCDEFGHIJKLMNOPQRSTUVWXYZ0123456";
    let mut disk = MemDisk::new(alloc, b"", b"", &[], 4, 33)?;
    disk.write_at(Area::Left, 0, written)?;
    let mut kinds = Vec::new(alloc);
    let mut values = [false; 256];
    for pick in 0..4096 {
        let left = image(alloc, &disk, 1, pick, Area::Left)?;
        kinds.push(kind_of(written, &left))?;
        for byte in left.as_slice() {
            values[usize::from(*byte)] = true;
        }
    }
    for kind in KINDS {
        let count = kinds.iter().filter(|found| **found == kind).count();
        assert!(rt; count >= 50);
    }
    assert!(rt; values.iter().all(|has_come| *has_come));
    Ok(())
}

#[test]
fn a_gate_stays_or_opens_or_is_spoilt(rt: HostRuntime) -> Result<(), Fail> {
    let alloc = rt.alloc();
    let mut disk = MemDisk::new(alloc, b"\x00", b"", &[], 4, 1)?;
    disk.write_at(Area::Left, 0, b"\x01")?;
    let mut gates = Vec::new(alloc);
    for pick in 0..4096 {
        let left = image(alloc, &disk, 1, pick, Area::Left)?;
        assert_eq!(rt; left.len(), 1);
        gates.extend_from_slice(&left)?;
    }
    assert!(rt; gates.iter().filter(|gate| **gate == 0).count() >= 50);
    assert!(rt; gates.iter().filter(|gate| **gate == 1).count() >= 50);
    assert!(rt; gates.iter().filter(|gate| **gate > 1).count() >= 50);
    Ok(())
}

fn failing(number: u64, part: Part) -> FailingCall {
    FailingCall { number, part }
}

/// A part, and what a read and a write do of theirs.
const PARTS: [(Part, &[u8; 4], &[u8; 4]); 3] = [
    (Part::Nothing, b"....", b"abcd"),
    (Part::Half, b"ab..", b"ABcd"),
    (Part::All, b"abcd", b"ABCD"),
];

#[test]
fn a_listed_read_or_write_does_its_part(rt: HostRuntime) -> Result<(), Fail> {
    let alloc = rt.alloc();
    for (part, read, written) in PARTS {
        let list = [failing(1, part), failing(0, part)];
        let mut disk = MemDisk::with_failing(alloc, b"abcd", b"", &list, 8, 16)?;
        let mut buf = *b"....";
        assert_eq!(rt; disk.read_at(Area::Left, 0, &mut buf), Err(Failed));
        assert_eq!(rt; buf, *read);
        assert_eq!(rt; disk.write_at(Area::Left, 0, b"ABCD"), Err(Failed));
        let left = content(alloc, &mut disk, Area::Left)?;
        assert_eq!(rt; left.as_slice(), written.as_slice());
        assert_eq!(rt; disk.faults(), 2);
    }
    Ok(())
}

#[test]
fn a_listed_sync_does_all_or_nothing(rt: HostRuntime) -> Result<(), Fail> {
    let alloc = rt.alloc();
    for (part, kept) in [
        (Part::Nothing, b"abcd"),
        (Part::Half, b"abcd"),
        (Part::All, b"ABCD"),
    ] {
        let list = [failing(1, part)];
        let mut disk = MemDisk::with_failing(alloc, b"abcd", b"", &list, 8, 16)?;
        disk.write_at(Area::Left, 0, b"ABCD")?;
        assert_eq!(rt; disk.sync(Area::Left), Err(Failed));
        let left = image(alloc, &disk, 2, 0, Area::Left)?;
        assert_eq!(rt; left.as_slice(), kept.as_slice());
    }
    Ok(())
}
