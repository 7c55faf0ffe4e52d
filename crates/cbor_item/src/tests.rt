//! Items of RFC 8949, appendix A, and faults that were worked out by hand from the rules.
use crate::{Full, ItemFault, Reader, Writer, reading_laws};
use std::test::Fail;

fn whole(bytes: &[u8]) -> Result<(), ItemFault> {
    let mut reader = Reader::new(bytes);
    reader.skip()?;
    reader.finish()
}

/// Items of appendix A.
const ITEMS: [&[u8]; 57] = [
    b"\x00",
    b"\x01",
    b"\x0a",
    b"\x17",
    b"\x18\x18",
    b"\x18\x19",
    b"\x18\x64",
    b"\x19\x03\xe8",
    b"\x1a\x00\x0f\x42\x40",
    b"\x1b\x00\x00\x00\xe8\xd4\xa5\x10\x00",
    b"\x1b\xff\xff\xff\xff\xff\xff\xff\xff",
    b"\xc2\x49\x01\x00\x00\x00\x00\x00\x00\x00\x00",
    b"\x3b\xff\xff\xff\xff\xff\xff\xff\xff",
    b"\xc3\x49\x01\x00\x00\x00\x00\x00\x00\x00\x00",
    b"\x20",
    b"\x29",
    b"\x38\x63",
    b"\x39\x03\xe7",
    b"\xf9\x00\x00",
    b"\xf9\x80\x00",
    b"\xf9\x3c\x00",
    b"\xfb\x3f\xf1\x99\x99\x99\x99\x99\x9a",
    b"\xf9\x7b\xff",
    b"\xfa\x47\xc3\x50\x00",
    b"\xfb\x7e\x37\xe4\x3c\x88\x00\x75\x9c",
    b"\xf9\x7c\x00",
    b"\xfa\x7f\xc0\x00\x00",
    b"\xfb\xff\xf0\x00\x00\x00\x00\x00\x00",
    b"\xf4",
    b"\xf5",
    b"\xf6",
    b"\xf7",
    b"\xf0",
    b"\xf8\xff",
    b"\xc0\x74\x32\x30\x31\x33\x2d\x30\x33\x2d\x32\x31\x54\x32\x30\x3a\x30\x34\x3a\x30\x30\x5a",
    b"\xc1\x1a\x51\x4b\x67\xb0",
    b"\xc1\xfb\x41\xd4\x52\xd9\xec\x20\x00\x00",
    b"\xd7\x44\x01\x02\x03\x04",
    b"\xd8\x18\x45\x64\x49\x45\x54\x46",
    b"\xd8\x20\x76\x68\x74\x74\x70\x3a\x2f\x2f\x77\x77\x77\x2e\x65\x78\x61\x6d\x70\x6c\x65\x2e\x63\x6f\x6d",
    b"\x40",
    b"\x44\x01\x02\x03\x04",
    b"\x60",
    b"\x61\x61",
    b"\x64\x49\x45\x54\x46",
    b"\x62\x22\x5c",
    b"\x62\xc3\xbc",
    b"\x63\xe6\xb0\xb4",
    b"\x64\xf0\x90\x85\x91",
    b"\x80",
    b"\x83\x01\x02\x03",
    b"\x83\x01\x82\x02\x03\x82\x04\x05",
    b"\xa0",
    b"\xa2\x01\x02\x03\x04",
    b"\xa2\x61\x61\x01\x61\x62\x82\x02\x03",
    b"\x82\x61\x61\xa1\x61\x62\x61\x63",
    b"\xa5\x61\x61\x61\x41\x61\x62\x61\x42\x61\x63\x61\x43\x61\x64\x61\x44\x61\x65\x61\x45",
];

#[test]
fn items_of_the_standard_are_passed_over(rt: HostRuntime) {
    for bytes in ITEMS {
        assert_eq!(rt; whole(bytes), Ok(()), "{bytes:?}");
    }
}

/// Each with its first fault.
const FAULTS: [(&[u8], ItemFault); 46] = [
    (b"", ItemFault::Truncated(0)),
    (b"\x18", ItemFault::Truncated(0)),
    (b"\x19\x03", ItemFault::Truncated(0)),
    (b"\x1a\x00\x0f\x42", ItemFault::Truncated(0)),
    (b"\x1b\x00\x00\x00\xe8\xd4\xa5\x10", ItemFault::Truncated(0)),
    (b"\x38", ItemFault::Truncated(0)),
    (b"\x44\x01\x02\x03", ItemFault::Truncated(0)),
    (b"\x58\x18", ItemFault::Truncated(0)),
    (
        b"\x5b\xff\xff\xff\xff\xff\xff\xff\xff\x00",
        ItemFault::Truncated(0),
    ),
    (b"\x61", ItemFault::Truncated(0)),
    (b"\x7a\x00\x00\x00", ItemFault::Truncated(0)),
    (b"\x81", ItemFault::Truncated(1)),
    (b"\x82\x01", ItemFault::Truncated(2)),
    (b"\x83\x01\x02\x44\x00", ItemFault::Truncated(3)),
    (
        b"\x9b\x80\x00\x00\x00\x00\x00\x00\x00\x01",
        ItemFault::Truncated(10),
    ),
    (
        b"\xbb\xff\xff\xff\xff\xff\xff\xff\xff\x01",
        ItemFault::Truncated(10),
    ),
    (b"\xa1", ItemFault::Truncated(1)),
    (b"\xa1\x01", ItemFault::Truncated(2)),
    (b"\xa2\x01\x02\x03", ItemFault::Truncated(4)),
    (b"\xc0", ItemFault::Truncated(1)),
    (b"\xd8", ItemFault::Truncated(0)),
    (b"\xf8", ItemFault::Truncated(0)),
    (b"\xf9\x00", ItemFault::Truncated(0)),
    (b"\xfa\x47\xc3\x50", ItemFault::Truncated(0)),
    (b"\x1c", ItemFault::Kind(0)),
    (b"\x1d\x00", ItemFault::Kind(0)),
    (b"\x5e", ItemFault::Kind(0)),
    (b"\x9c\x1f", ItemFault::Kind(0)),
    (b"\xfe", ItemFault::Kind(0)),
    (b"\x82\x00\x3d", ItemFault::Kind(2)),
    (b"\xa1\x1c\x18", ItemFault::Kind(1)),
    (b"\x1f", ItemFault::Indefinite(0)),
    (b"\x3f", ItemFault::Indefinite(0)),
    (
        b"\x5f\x42\x01\x02\x43\x03\x04\x05\xff",
        ItemFault::Indefinite(0),
    ),
    (
        b"\x7f\x65\x73\x74\x72\x65\x61\x64\x6d\x69\x6e\x67\xff",
        ItemFault::Indefinite(0),
    ),
    (b"\x9f\xff", ItemFault::Indefinite(0)),
    (
        b"\x83\x01\x82\x02\x03\x9f\x04\x05\xff",
        ItemFault::Indefinite(5),
    ),
    (b"\xbf\x61\x61\x01\xff", ItemFault::Indefinite(0)),
    (b"\xff", ItemFault::Indefinite(0)),
    (b"\x81\x81\x81\x81\x81\x81\x81\x81\x80", ItemFault::Deep(8)),
    (b"\x81\x81\x81\x81\x81\x81\x81\x81\xa0", ItemFault::Deep(8)),
    (
        b"\xc1\xc1\xc1\xc1\xc1\xc1\xc1\xc1\xc1\x00",
        ItemFault::Deep(8),
    ),
    (
        b"\x82\x18\x18\xa1\x00\xc1\x81\x81\x81\x81\x81\xc2\x40",
        ItemFault::Deep(11),
    ),
    (
        b"\x81\x81\x81\x81\x81\x81\x81\x81\x9f",
        ItemFault::Indefinite(8),
    ),
    (
        b"\x81\x81\x81\x81\x81\x81\x81\x81\xb9\x00",
        ItemFault::Truncated(8),
    ),
    (b"\x00\x00", ItemFault::Trailing(1)),
];

#[test]
fn the_first_fault_is_told(rt: HostRuntime) {
    for (bytes, fault) in FAULTS {
        assert_eq!(rt; whole(bytes), Err(fault), "{bytes:?}");
    }
}

const UINTS: [(&[u8], Result<u64, ItemFault>); 13] = [
    (b"\x00", Ok(0)),
    (b"\x17", Ok(23)),
    (b"\x18\x17", Ok(23)),
    (b"\x1b\x00\x00\x00\x00\x00\x00\x00\x05", Ok(5)),
    (b"\x1a\x00\x0f\x42\x40", Ok(1_000_000)),
    (b"\x1b\xff\xff\xff\xff\xff\xff\xff\xff", Ok(u64::MAX)),
    (b"", Err(ItemFault::Truncated(0))),
    (b"\x19\x00", Err(ItemFault::Truncated(0))),
    (b"\x1f", Err(ItemFault::Indefinite(0))),
    (b"\x1e", Err(ItemFault::Kind(0))),
    (b"\x20", Err(ItemFault::Kind(0))),
    (b"\x38", Err(ItemFault::Kind(0))),
    (b"\x9f", Err(ItemFault::Kind(0))),
];

const INTS: [(&[u8], Result<i64, ItemFault>); 12] = [
    (b"\x18\x64", Ok(100)),
    (b"\x20", Ok(-1)),
    (b"\x39\x03\xe7", Ok(-1000)),
    (b"\x38\x00", Ok(-1)),
    (b"\x1b\x7f\xff\xff\xff\xff\xff\xff\xff", Ok(i64::MAX)),
    (b"\x3b\x7f\xff\xff\xff\xff\xff\xff\xff", Ok(i64::MIN)),
    (
        b"\x1b\x80\x00\x00\x00\x00\x00\x00\x00",
        Err(ItemFault::Kind(0)),
    ),
    (
        b"\x3b\x80\x00\x00\x00\x00\x00\x00\x00",
        Err(ItemFault::Kind(0)),
    ),
    (
        b"\x3b\x80\x00\x00\x00\x00\x00\x00",
        Err(ItemFault::Truncated(0)),
    ),
    (b"\x3f", Err(ItemFault::Indefinite(0))),
    (b"\x3c", Err(ItemFault::Kind(0))),
    (b"\x5f", Err(ItemFault::Kind(0))),
];

#[test]
fn numbers_are_read_in_any_width(rt: HostRuntime) {
    for (bytes, want) in UINTS {
        assert_eq!(rt; Reader::new(bytes).uint(), want, "{bytes:?}");
    }
    for (bytes, want) in INTS {
        assert_eq!(rt; Reader::new(bytes).int(), want, "{bytes:?}");
    }
}

const NULLS: [(&[u8], Result<(), ItemFault>); 8] = [
    (b"\xf6", Ok(())),
    (b"", Err(ItemFault::Truncated(0))),
    (b"\xf7", Err(ItemFault::Kind(0))),
    (b"\xf8", Err(ItemFault::Truncated(0))),
    (b"\xf8\x16", Err(ItemFault::Kind(0))),
    (b"\xf9\x00\x16", Err(ItemFault::Kind(0))),
    (b"\xff", Err(ItemFault::Indefinite(0))),
    (b"\x16", Err(ItemFault::Kind(0))),
];

#[test]
fn null_is_one_byte(rt: HostRuntime) {
    reading_laws();
    for (bytes, want) in NULLS {
        assert_eq!(rt; Reader::new(bytes).null(), want, "{bytes:?}");
    }
}

#[test]
fn a_refused_call_leaves_the_reader_as_it_was(rt: HostRuntime) -> Result<(), Fail> {
    let mut reader = Reader::new(b"\xa1\x01\x83\x42\xca\xfe\x61\x61\x58\x03\x00");
    assert_eq!(rt; reader.array(), Err(ItemFault::Kind(0)));
    assert_eq!(rt; reader.map()?, 1);
    assert_eq!(rt; reader.uint()?, 1);
    assert_eq!(rt; reader.skip(), Err(ItemFault::Truncated(8)));
    assert_eq!(rt; reader.place(), 2);
    assert_eq!(rt; reader.array()?, 3);
    assert_eq!(rt; reader.bytes_len()?, 2);
    assert_eq!(rt; reader.bytes()?, b"\xca\xfe".as_slice());
    assert_eq!(rt; reader.bytes(), Err(ItemFault::Kind(6)));
    assert_eq!(rt; reader.text()?, b"a".as_slice());
    assert_eq!(rt; reader.bytes_len()?, 3);
    assert_eq!(rt; reader.bytes(), Err(ItemFault::Truncated(8)));
    assert_eq!(rt; reader.peek(), Some(0x58));
    assert_eq!(rt; reader.finish(), Err(ItemFault::Trailing(8)));
    Ok(())
}

#[test]
fn heads_are_written_in_the_fewest_bytes(rt: HostRuntime) -> Result<(), Fail> {
    let mut writer: Writer<64> = Writer::new();
    writer.map(2)?;
    writer.uint(23)?;
    writer.uint(24)?;
    writer.int(-1000)?;
    writer.array(1_000_000)?;
    writer.int(1_000_000_000_000)?;
    writer.bytes(b"\xca\xfe")?;
    writer.text("IETF")?;
    writer.null()?;
    let want =
        b"\xa2\x17\x18\x18\x39\x03\xe7\x9a\x00\x0f\x42\x40\x1b\x00\x00\x00\xe8\xd4\xa5\x10\x00\x42\xca\xfe\x64IETF\xf6";
    assert_eq!(rt; writer.written(), want.as_slice());
    Ok(())
}

#[test]
fn what_does_not_fit_is_not_written(rt: HostRuntime) -> Result<(), Fail> {
    let mut writer: Writer<4> = Writer::new();
    writer.uint(1000)?;
    assert_eq!(rt; writer.uint(24), Err(Full(2)));
    assert_eq!(rt; writer.bytes(b"\xca\xfe"), Err(Full(3)));
    assert_eq!(rt; writer.written(), b"\x19\x03\xe8".as_slice());
    writer.uint(23)?;
    assert_eq!(rt; writer.null(), Err(Full(1)));
    assert_eq!(rt; writer.written(), b"\x19\x03\xe8\x17".as_slice());
    Ok(())
}
