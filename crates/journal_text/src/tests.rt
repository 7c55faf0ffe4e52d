//! Entries and their bytes, worked out by hand from the table of fields.
ghost use Rattle.journal_text.specs.Text.{IsSpellable};

use crate::{Bad, Entry, Full, Refusal, Settings, read_entry, write_entry};
use arrayvec::ArrayVec;
use edge_traits::PledgeId;
use key_sets::KeySet;
use std::process::Abort;
use std::test::Fail;

const A1: PledgeId = PledgeId([0, 0, 0, 0, 0, 0, 0, 0xa1]);

/// The entry is spelled so, and read again with a byte after it; no prefix of its spelling is an entry.
fn spelled(rt: &impl Abort, entry: &Entry, bytes: &[u8])
    requires { IsSpellable entry.now }
{
    let mut out = ArrayVec::new();
    assert_eq!(rt; write_entry(entry, &mut out), Ok(()));
    assert!(rt; out.as_slice() == bytes, "written");
    out.clear();
    out.push(7);
    assert_eq!(rt; write_entry(entry, &mut out), Ok(()));
    assert!(rt; out.len() == bytes.len() + 1, "appended");
    let mut more: ArrayVec<u8, 200> = ArrayVec::new();
    assert!(rt; bytes.len() < 200, "short");
    more.try_extend_from_slice(bytes).unwrap();
    more.push(0xff);
    match read_entry(more.as_slice()) {
        Ok((read, size)) => {
            assert!(rt; read == *entry, "read");
            assert_eq!(rt; size, bytes.len());
        }
        Err(_) => assert!(rt; false, "no entry"),
    }
    for end in 0..bytes.len() {
        assert!(rt; read_entry(&bytes[..end]).is_err(), "a prefix");
    }
}

#[test]
fn decisions_are_spelled_and_read(rt: HostRuntime) {
    spelled(
        &rt,
        &Entry::Grant {
            time: 100,
            context: 0,
            number: 0,
            address: 1,
            until: 86_500,
        },
        b"\x03\x00\x00\x00\x00\x00\x00\x00\x64\x00\x00\x00\x00\x00\x00\x00\x00\x00\x00\x01\x00\x00\x00\x00\x00\x01\x51\xe4",
    );
    spelled(
        &rt,
        &Entry::Refuse {
            time: 0x0102_0304_0506_0708,
            context: 0x090a_0b0c,
            number: 0x0d_0e0f_1011,
            why: Refusal::Unsupported(1),
        },
        b"\x04\x01\x02\x03\x04\x05\x06\x07\x08\x09\x0a\x0b\x0c\x0d\x0e\x0f\x10\x11\x80\x41",
    );
    spelled(
        &rt,
        &Entry::Given {
            time: 1,
            context: 2,
            number: 0xff_ffff_ffff,
            epoch: 3,
        },
        b"\x07\x00\x00\x00\x00\x00\x00\x00\x01\x00\x00\x00\x02\xff\xff\xff\xff\xff\x00\x00\x00\x03",
    );
}

#[test]
fn contexts_and_rolls_are_spelled_and_read(rt: HostRuntime) {
    spelled(
        &rt,
        &Entry::Block { context: 0, to: 64 },
        b"\x05\x00\x00\x00\x00\x00\x00\x00\x00\x00\x00\x00\x40",
    );
    spelled(
        &rt,
        &Entry::Stale {
            time: 1,
            id: A1,
            epoch: 2,
        },
        b"\x08\x00\x00\x00\x00\x00\x00\x00\x01\x00\x00\x00\x00\x00\x00\x00\xa1\x00\x00\x00\x02",
    );
    spelled(
        &rt,
        &Entry::Switch { time: 40, epoch: 2 },
        b"\x09\x00\x00\x00\x00\x00\x00\x00\x28\x00\x00\x00\x02",
    );
    spelled(
        &rt,
        &Entry::Release {
            time: 10_000_001,
            id: A1,
        },
        b"\x0a\x00\x00\x00\x00\x00\x98\x96\x81\x00\x00\x00\x00\x00\x00\x00\xa1",
    );
    let mut keys = ArrayVec::new();
    keys.push([0x11; 16]);
    spelled(
        &rt,
        &Entry::Roll {
            time: 20,
            set: KeySet { epoch: 2, keys },
        },
        b"\x06\x00\x00\x00\x00\x00\x00\x00\x14\x00\x00\x00\x02\x01\x11\x11\x11\x11\x11\x11\x11\x11\x11\x11\x11\x11\x11\x11\x11\x11",
    );
    spelled(
        &rt,
        &Entry::Enroll {
            context: 1,
            id: A1,
            check: [0x22; 32],
        },
        b"\x02\x00\x00\x00\x01\x00\x00\x00\x00\x00\x00\x00\xa1\x22\x22\x22\x22\x22\x22\x22\x22\x22\x22\x22\x22\x22\x22\x22\x22\x22\x22\x22\x22\x22\x22\x22\x22\x22\x22\x22\x22\x22\x22\x22\x22",
    );
}

#[test]
fn settings_are_spelled_and_read(rt: HostRuntime) {
    let mut refused = ArrayVec::new();
    refused.push(A1);
    spelled(
        &rt,
        &Entry::Settings {
            time: 5,
            settings: Settings {
                first: 1,
                count: 2,
                hours: 24,
                rate: Some(10),
                jrc: Some([0x33; 16]),
                refused,
            },
        },
        b"\x01\x00\x00\x00\x00\x00\x00\x00\x05\x00\x01\x00\x02\x00\x18\x03\x00\x00\x00\x0a\x33\x33\x33\x33\x33\x33\x33\x33\x33\x33\x33\x33\x33\x33\x33\x33\x01\x00\x00\x00\x00\x00\x00\x00\xa1",
    );
    spelled(
        &rt,
        &Entry::Settings {
            time: 0,
            settings: Settings {
                first: 0x0102,
                count: 0x0304,
                hours: 0,
                rate: None,
                jrc: None,
                refused: ArrayVec::new(),
            },
        },
        b"\x01\x00\x00\x00\x00\x00\x00\x00\x00\x01\x02\x03\x04\x00\x00\x00\x00",
    );
}

/// Bytes that begin with no entry, and the place of the first field that is wrong.
const WRONG: [(&[u8], usize); 9] = [
    (b"", 0),
    (b"\x00", 0),
    (b"\x0b\x00", 0),
    // the time is cut
    (b"\x09\x00\x00", 1),
    // the epoch is cut
    (b"\x09\x00\x00\x00\x00\x00\x00\x00\x28\x00", 9),
    // a flag without a meaning
    (
        b"\x01\x00\x00\x00\x00\x00\x00\x00\x00\x01\x02\x03\x04\x00\x00\x04\x00",
        15,
    ),
    // five keys
    (
        b"\x06\x00\x00\x00\x00\x00\x00\x00\x14\x00\x00\x00\x02\x05",
        13,
    ),
    // 4.03 by rule 5
    (
        b"\x04\x00\x00\x00\x00\x00\x00\x00\x00\x00\x00\x00\x00\x00\x00\x00\x00\x00\x83\x05",
        18,
    ),
    // a code without its label
    (
        b"\x04\x00\x00\x00\x00\x00\x00\x00\x00\x00\x00\x00\x00\x00\x00\x00\x00\x00\x83",
        18,
    ),
];

#[test]
fn the_first_wrong_field_is_told(rt: HostRuntime) {
    for (bytes, at) in WRONG {
        match read_entry(bytes) {
            Ok(_) => assert!(rt; false, "an entry"),
            Err(bad) => assert_eq!(rt; bad, Bad(at)),
        }
    }
}

#[test]
fn a_full_buffer_stays(rt: HostRuntime) {
    let mut out = ArrayVec::new();
    for _byte in 0..4084 {
        assert!(rt; !out.is_full(), "room");
        out.push(1);
    }
    let switch = Entry::Switch { time: 40, epoch: 2 };
    assert_eq!(rt; write_entry(&switch, &mut out), Err(Full(13)));
    assert_eq!(rt; out.len(), 4084);
    let code = Refusal::Path.code();
    assert_eq!(rt; code, 0x84);
    assert!(rt; !Refusal::Denied(5).is_reason(), "no rule");
    crate::entry_law();
}
