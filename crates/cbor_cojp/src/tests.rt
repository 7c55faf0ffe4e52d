//! Objects with their values, and byte strings with their first fault, worked out by hand from the rules.
ghost use Rattle.std.specs.Prelude.{◌≤◌, ◌↔◌, IsTrue, All};

use crate::{
    CojpFault, Configuration, JoinRequest, LinkKey, Short, object_laws, read_config, read_join,
    write_config, write_join,
};
use arrayvec::ArrayVec;
use cbor_item::ItemFault;
use std::test::Fail;

/// Requests, each with its first fault.
const REQUESTS: [(&[u8], CojpFault); 60] = [
    (b"", CojpFault::Form(ItemFault::Truncated(0))),
    (b"\x80", CojpFault::NotAMap(0)),
    (b"\xa0\x00", CojpFault::Form(ItemFault::Trailing(1))),
    (b"\x9f", CojpFault::NotAMap(0)),
    (b"\xf6", CojpFault::NotAMap(0)),
    (b"\xbf", CojpFault::Form(ItemFault::Indefinite(0))),
    (b"\xbc", CojpFault::Form(ItemFault::Kind(0))),
    (b"\xb8", CojpFault::Form(ItemFault::Truncated(0))),
    (b"\x1c", CojpFault::NotAMap(0)),
    (b"\xa1", CojpFault::Form(ItemFault::Truncated(1))),
    (b"\xa1\x01", CojpFault::Form(ItemFault::Truncated(2))),
    (b"\xa1\x01\x41\x00", CojpFault::Malformed(1)),
    (b"\xa2\x01\x00\x01\x00", CojpFault::Repeated(1)),
    (b"\xa2\x01\x00\x01", CojpFault::Repeated(1)),
    (b"\xa1\x01\x20", CojpFault::Malformed(1)),
    (b"\xa1\x01\x1f", CojpFault::Form(ItemFault::Indefinite(2))),
    (b"\xa1\x01\x1c", CojpFault::Malformed(1)),
    (b"\xa1\x01\x18", CojpFault::Form(ItemFault::Truncated(2))),
    (b"\xa1\x01\x5f", CojpFault::Malformed(1)),
    (b"\xa1\x01\x38", CojpFault::Malformed(1)),
    (b"\xa1\x01\xc1\x00", CojpFault::Malformed(1)),
    (b"\xa1\x05\x60", CojpFault::Malformed(5)),
    (
        b"\xa1\x05\x42\xca",
        CojpFault::Form(ItemFault::Truncated(2)),
    ),
    (b"\xa1\x05\x5f", CojpFault::Form(ItemFault::Indefinite(2))),
    (b"\xa1\x05\x5c", CojpFault::Malformed(5)),
    (b"\xa1\x05\x00", CojpFault::Malformed(5)),
    (b"\xa2\x05\x40\x05\x40", CojpFault::Repeated(5)),
    (b"\xa1\x08\x80", CojpFault::Malformed(8)),
    (b"\xa1\x08\x82\x00\x00", CojpFault::Malformed(8)),
    (b"\xa1\x08\x84\x00\x00\x00\x00", CojpFault::Malformed(8)),
    (
        b"\xa1\x08\x83\x00\x00",
        CojpFault::Form(ItemFault::Truncated(5)),
    ),
    (b"\xa1\x08\x83\x40", CojpFault::Malformed(8)),
    (b"\xa1\x08\x83\x00\xf6", CojpFault::Malformed(8)),
    (b"\xa1\x08\x83\x00\x00\x1c", CojpFault::Malformed(8)),
    (b"\xa1\x08\x83\x00\x00\x81\x1d", CojpFault::Malformed(8)),
    (
        b"\xa1\x08\x83\x00\x00\x9f",
        CojpFault::Form(ItemFault::Indefinite(5)),
    ),
    (
        b"\xa1\x08\x83\x1b\x80\x00\x00\x00\x00\x00\x00\x00",
        CojpFault::Malformed(8),
    ),
    (
        b"\xa1\x08\x83\x00\x3b\x80\x00\x00\x00\x00\x00\x00\x00",
        CojpFault::Malformed(8),
    ),
    (
        b"\xa1\x08\x83\x00\x00\x81\x81\x81\x81\x81\x81\x81\x81\x80",
        CojpFault::Form(ItemFault::Deep(13)),
    ),
    (b"\xa2\x08\x83\x00\x00\x00\x08", CojpFault::Repeated(8)),
    (b"\xa1\x08\xa0", CojpFault::Malformed(8)),
    (b"\xa1\x08\x9f", CojpFault::Form(ItemFault::Indefinite(2))),
    (b"\xa1\x40\x00", CojpFault::Form(ItemFault::Kind(1))),
    (b"\xa1\xf6\x00", CojpFault::Form(ItemFault::Kind(1))),
    (b"\xa1\x61\x61\x00", CojpFault::Form(ItemFault::Kind(1))),
    (
        b"\xa1\x1b\x80\x00\x00\x00\x00\x00\x00\x00\x00",
        CojpFault::Form(ItemFault::Kind(1)),
    ),
    (
        b"\xa1\x3b\x80\x00\x00\x00\x00\x00\x00\x00\x00",
        CojpFault::Form(ItemFault::Kind(1)),
    ),
    (b"\xa1\x1c", CojpFault::Form(ItemFault::Kind(1))),
    (b"\xa1\x1f", CojpFault::Form(ItemFault::Indefinite(1))),
    (b"\xa1\x18", CojpFault::Form(ItemFault::Truncated(1))),
    (b"\xa1\x18\x63\x1c", CojpFault::Form(ItemFault::Kind(3))),
    (
        b"\xa1\x18\x63\x9f",
        CojpFault::Form(ItemFault::Indefinite(3)),
    ),
    (
        b"\xa1\x18\x63\x81\x81\x81\x81\x81\x81\x81\x81\x81",
        CojpFault::Form(ItemFault::Deep(11)),
    ),
    (
        b"\xa1\x18\x63\x44\x00",
        CojpFault::Form(ItemFault::Truncated(3)),
    ),
    (
        b"\xa1\x18\x63\xf6\x00",
        CojpFault::Form(ItemFault::Trailing(4)),
    ),
    (
        b"\xa2\x18\x63\x1c\x01\x40",
        CojpFault::Form(ItemFault::Kind(3)),
    ),
    (b"\xa2\x01\x40\x1c", CojpFault::Malformed(1)),
    (
        b"\xbb\xff\xff\xff\xff\xff\xff\xff\xff\x01\x00",
        CojpFault::Form(ItemFault::Truncated(11)),
    ),
    (b"\xa1\x01\x00\x00", CojpFault::Form(ItemFault::Trailing(3))),
    (
        b"\xa2\x05\x41\x00\x01",
        CojpFault::Form(ItemFault::Truncated(5)),
    ),
];

/// Configurations, each with its first fault.
const CONFIGURATIONS: [(&[u8], CojpFault); 59] = [
    (
        b"\xa2\x04\x50\x00\x00\x00\x00\x00\x00\x00\x00\x00\x00\x00\x00\x00\x00\x00\x00\x04",
        CojpFault::Repeated(4),
    ),
    (b"\xa1\x02\x80", CojpFault::Malformed(2)),
    (b"\xa1\x02\x81\x01", CojpFault::Malformed(2)),
    (b"\xa1\x02\x98\x21", CojpFault::Malformed(2)),
    (b"\xa1\x02\xa0", CojpFault::Malformed(2)),
    (b"\xa1\x02\x9f", CojpFault::Form(ItemFault::Indefinite(2))),
    (b"\xa1\x02\x82\x00", CojpFault::Malformed(2)),
    (b"\xa1\x02\x82\x19\x01\x00", CojpFault::Malformed(2)),
    (b"\xa1\x02\x82\x20", CojpFault::Malformed(2)),
    (
        b"\xa1\x02\x82\x01",
        CojpFault::Form(ItemFault::Truncated(4)),
    ),
    (b"\xa1\x02\x82\x01\x41", CojpFault::Malformed(2)),
    (
        b"\xa1\x02\x82\x01\x50\x00",
        CojpFault::Form(ItemFault::Truncated(4)),
    ),
    (b"\xa1\x02\x83\x01\x0f", CojpFault::Malformed(2)),
    (b"\xa1\x02\x83\x01\x20", CojpFault::Malformed(2)),
    (b"\xa1\x02\x82\x01\x01", CojpFault::Malformed(2)),
    (b"\xa1\x02\x83\x01\xf6", CojpFault::Malformed(2)),
    (
        b"\xa1\x02\x83\x01\x18",
        CojpFault::Form(ItemFault::Truncated(4)),
    ),
    (b"\xa1\x03\x80", CojpFault::Malformed(3)),
    (b"\xa1\x03\x83", CojpFault::Malformed(3)),
    (
        b"\xa1\x03\x81\x42\xaf",
        CojpFault::Form(ItemFault::Truncated(3)),
    ),
    (b"\xa1\x03\x81\x42\x00\x00", CojpFault::Malformed(3)),
    (b"\xa1\x03\x81\x42\xff\xfe", CojpFault::Malformed(3)),
    (b"\xa1\x03\x81\x43", CojpFault::Malformed(3)),
    (
        b"\xa1\x03\x82\x42\xaf\x93",
        CojpFault::Form(ItemFault::Truncated(6)),
    ),
    (b"\xa1\x03\x82\x42\xaf\x93\x20", CojpFault::Malformed(3)),
    (
        b"\xa1\x03\x82\x42\xaf\x93\x1b\x00\x00\x00\x01\x00\x00\x00\x00",
        CojpFault::Malformed(3),
    ),
    (b"\xa1\x03\x42\xaf\x93", CojpFault::Malformed(3)),
    (b"\xa1\x04\x4f", CojpFault::Malformed(4)),
    (b"\xa1\x04\x51", CojpFault::Malformed(4)),
    (
        b"\xa1\x04\x50\x00",
        CojpFault::Form(ItemFault::Truncated(2)),
    ),
    (b"\xa1\x04\x70", CojpFault::Malformed(4)),
    (
        b"\xa1\x04\x58\x10",
        CojpFault::Form(ItemFault::Truncated(2)),
    ),
    (b"\xa1\x06\x91", CojpFault::Malformed(6)),
    (b"\xa1\x06\x81\x47", CojpFault::Malformed(6)),
    (
        b"\xa1\x06\x81\x48\x00",
        CojpFault::Form(ItemFault::Truncated(3)),
    ),
    (b"\xa1\x06\x81", CojpFault::Form(ItemFault::Truncated(3))),
    (b"\xa1\x06\x40", CojpFault::Malformed(6)),
    (b"\xa1\x07\x20", CojpFault::Malformed(7)),
    (
        b"\xa1\x07\x1b\x00\x00\x00\x01\x00\x00\x00\x00",
        CojpFault::Malformed(7),
    ),
    (
        b"\xa1\x07\x1a\x00",
        CojpFault::Form(ItemFault::Truncated(2)),
    ),
    (b"\xa1\x07\xf6", CojpFault::Malformed(7)),
    (b"\xa2\x07\x00\x07\x00", CojpFault::Repeated(7)),
    (b"\xa2\x06\x80\x06", CojpFault::Repeated(6)),
    (b"\xa2\x03\x81\x42\x00\x01\x03\x81", CojpFault::Repeated(3)),
    (b"\x80", CojpFault::NotAMap(0)),
    (b"\xa0\xf6", CojpFault::Form(ItemFault::Trailing(1))),
    (b"\xa1\x01\x1c", CojpFault::Form(ItemFault::Kind(2))),
    (
        b"\xa2\x02\x82\x01\x50\xe6\xbf\x42\x87\xc2\xd7\x61\x8d\x6a\x96\x87\x44\x5f\xfd\x33\xe6\x02",
        CojpFault::Repeated(2),
    ),
    (
        b"\xa1\x02\x83\x01\x50\xe6\xbf\x42\x87\xc2\xd7\x61\x8d\x6a\x96\x87\x44\x5f\xfd\x33\xe6\x02",
        CojpFault::Malformed(2),
    ),
    (
        b"\xa1\x02\x98\x20\x01\x50\xe6\xbf\x42\x87\xc2\xd7\x61\x8d\x6a\x96\x87\x44\x5f\xfd\x33\xe6\x01\x50\xe6\xbf\x42\x87\xc2\xd7\x61\x8d\x6a\x96\x87\x44\x5f\xfd\x33\xe6\x01\x50\xe6\xbf\x42\x87\xc2\xd7\x61\x8d\x6a\x96\x87\x44\x5f\xfd\x33\xe6\x01\x50\xe6\xbf\x42\x87\xc2\xd7\x61\x8d\x6a\x96\x87\x44\x5f\xfd\x33\xe6\x01\x50\xe6\xbf\x42\x87\xc2\xd7\x61\x8d\x6a\x96\x87\x44\x5f\xfd\x33\xe6\x01\x50\xe6\xbf\x42\x87\xc2\xd7\x61\x8d\x6a\x96\x87\x44\x5f\xfd\x33\xe6\x01\x50\xe6\xbf\x42\x87\xc2\xd7\x61\x8d\x6a\x96\x87\x44\x5f\xfd\x33\xe6\x01\x50\xe6\xbf\x42\x87\xc2\xd7\x61\x8d\x6a\x96\x87\x44\x5f\xfd\x33\xe6\x01",
        CojpFault::Malformed(2),
    ),
    (
        b"\xa1\x02\x98\x20\x01\x50\xe6\xbf\x42\x87\xc2\xd7\x61\x8d\x6a\x96\x87\x44\x5f\xfd\x33\xe6\x01\x50\xe6\xbf\x42\x87\xc2\xd7\x61\x8d\x6a\x96\x87\x44\x5f\xfd\x33\xe6\x01\x50\xe6\xbf\x42\x87\xc2\xd7\x61\x8d\x6a\x96\x87\x44\x5f\xfd\x33\xe6\x01\x50\xe6\xbf\x42\x87\xc2\xd7\x61\x8d\x6a\x96\x87\x44\x5f\xfd\x33\xe6\x01\x50\xe6\xbf\x42\x87\xc2\xd7\x61\x8d\x6a\x96\x87\x44\x5f\xfd\x33\xe6\x01\x50\xe6\xbf\x42\x87\xc2\xd7\x61\x8d\x6a\x96\x87\x44\x5f\xfd\x33\xe6\x01\x50\xe6\xbf\x42\x87\xc2\xd7\x61\x8d\x6a\x96\x87\x44\x5f\xfd\x33\xe6\x01\x50\xe6\xbf\x42\x87\xc2\xd7\x61\x8d\x6a\x96\x87\x44\x5f\xfd\x33\xe6",
        CojpFault::Form(ItemFault::Truncated(148)),
    ),
    // One item is left after a key, and only its information fits.
    (
        b"\xa1\x02\x83\x01\x50\x09\x09\x09\x09\x09\x09\x09\x09\x09\x09\x09\x09\x09\x09\x09\x09",
        CojpFault::Form(ItemFault::Truncated(21)),
    ),
    (
        b"\xa1\x02\x83\x01\x50\x09\x09\x09\x09\x09\x09\x09\x09\x09\x09\x09\x09\x09\x09\x09\x09\x19\x00",
        CojpFault::Malformed(2),
    ),
    (
        b"\xa1\x02\x83\x01\x50\x09\x09\x09\x09\x09\x09\x09\x09\x09\x09\x09\x09\x09\x09\x09\x09\x1f",
        CojpFault::Malformed(2),
    ),
    (
        b"\xa1\x02\x83\x01\x50\x09\x09\x09\x09\x09\x09\x09\x09\x09\x09\x09\x09\x09\x09\x09\x09\x5f",
        CojpFault::Form(ItemFault::Indefinite(21)),
    ),
    // One item is left after the id, and only the value fits.
    (b"\xa1\x02\x82\x01\x19\x00", CojpFault::Malformed(2)),
    (b"\xa1\x02\x82\x01\x1f", CojpFault::Malformed(2)),
    (b"\xa1\x02\x82\x01\x39", CojpFault::Malformed(2)),
    // One item is left after a key with its information, and nothing fits.
    (
        b"\xa1\x02\x84\x01\x50\x09\x09\x09\x09\x09\x09\x09\x09\x09\x09\x09\x09\x09\x09\x09\x09\x40\x58",
        CojpFault::Malformed(2),
    ),
];

/// Requests with their role and network.
const READ: [(&[u8], u64, Option<&[u8]>); 15] = [
    (b"\xa0", 0, None),
    (b"\xa1\x05\x42\xca\xfe", 0, Some(b"\xca\xfe")),
    (b"\xa1\x05\x42\xbe\xef", 0, Some(b"\xbe\xef")),
    (b"\xa2\x02\x00\x02\x00", 0, None),
    (b"\xa1\x01\x02", 2, None),
    (b"\xa1\x18\x63\xf6", 0, None),
    (b"\xa1\x20\x00", 0, None),
    (b"\xa1\x18\x01\x01", 1, None),
    (b"\xb8\x01\x01\x01", 1, None),
    (b"\xa1\x02\x80", 0, None),
    (b"\xa2\x18\x63\xf6\x18\x63\xf6", 0, None),
    (b"\xa1\x08\x83\x00\x01\xc1\xf9\x3c\x00", 0, None),
    (b"\xa1\x18\x63\x81\x81\x81\x81\x81\x81\x81\x81\x00", 0, None),
    (
        b"\xa1\x01\x1b\xff\xff\xff\xff\xff\xff\xff\xff",
        18446744073709551615,
        None,
    ),
    (
        b"\xa3\x08\x83\x00\x00\x00\x05\x40\x01\x18\xff",
        255,
        Some(b""),
    ),
];

#[test]
fn the_first_fault_of_a_request_is_told(rt: HostRuntime) {
    for (bytes, fault) in REQUESTS {
        assert_eq!(rt; read_join(bytes).err(), Some(fault), "{bytes:?}");
    }
}

#[test]
fn the_first_fault_of_a_configuration_is_told(rt: HostRuntime) {
    for (bytes, fault) in CONFIGURATIONS {
        assert_eq!(rt; read_config(bytes).err(), Some(fault), "{bytes:?}");
    }
}

#[test]
fn requests_are_read(rt: HostRuntime) -> Result<(), Fail> {
    for (bytes, role, network) in READ {
        let join = read_join(bytes)?;
        assert_eq!(rt; join.role, role, "{bytes:?}");
        assert_eq!(rt; join.network, network, "{bytes:?}");
    }
    Ok(())
}

#[test]
fn a_request_is_written_without_what_its_absence_says(rt: HostRuntime) {
    let mut out = ArrayVec::new();
    let network = Some(b"\xca\xfe".as_slice());
    write_join(&JoinRequest { role: 0, network }, &mut out);
    assert_eq!(rt; out.as_slice(), b"\xa1\x05\x42\xca\xfe".as_slice());
    write_join(&JoinRequest { role: 1, network }, &mut out);
    assert_eq!(rt; out.as_slice(), b"\xa2\x01\x01\x05\x42\xca\xfe".as_slice());
    write_join(
        &JoinRequest {
            role: 0,
            network: None,
        },
        &mut out,
    );
    assert_eq!(rt; out.as_slice(), b"\xa0".as_slice());
}

const KEY: [u8; 16] = [
    0xe6, 0xbf, 0x42, 0x87, 0xc2, 0xd7, 0x61, 0x8d, 0x6a, 0x96, 0x87, 0x44, 0x5f, 0xfd, 0x33, 0xe6,
];

fn keys_of(ids_and_usages: &[(u8, u8)]) -> ArrayVec<LinkKey, 8> {
    let mut keys = ArrayVec::new();
    for (id, usage) in ids_and_usages {
        let key = LinkKey {
            id: *id,
            usage: *usage,
            value: KEY,
        };
        let _full = keys.try_push(key);
    }
    keys
}

fn lease_of(address: u16, hours: Option<u32>) -> Configuration {
    Configuration {
        keys: keys_of(&[(1, 0)]),
        short: Some(Short { address, hours }),
        jrc: None,
        refused: ArrayVec::new(),
        rate: None,
    }
}

/// Two keys, the last address of a pool, the registrar's address, one refused pledge and a rate.
fn full() -> Configuration {
    let mut refused = ArrayVec::new();
    refused.push([0x00, 0x12, 0x4b, 0x00, 0x06, 0x0d, 0x9a, 0xb1]);
    Configuration {
        keys: keys_of(&[(1, 0), (255, 14)]),
        short: Some(Short {
            address: 0xfffd,
            hours: Some(65535),
        }),
        jrc: Some([
            0x20, 0x01, 0x0d, 0xb8, 0, 0, 0, 0, 0, 0, 0, 0, 0, 0, 0, 0x01,
        ]),
        refused,
        rate: Some(100000),
    }
}

/// A key of id 1 and the address af93, without and with 24 hours; the least address.
const LEASE: &[u8] =
    b"\xa2\x02\x82\x01\x50\xe6\xbf\x42\x87\xc2\xd7\x61\x8d\x6a\x96\x87\x44\x5f\xfd\x33\xe6\x03\x81\x42\xaf\x93";

const LEASE_OF_A_DAY: &[u8] =
    b"\xa2\x02\x82\x01\x50\xe6\xbf\x42\x87\xc2\xd7\x61\x8d\x6a\x96\x87\x44\x5f\xfd\x33\xe6\x03\x82\x42\xaf\x93\x18\x18";

const LEAST: &[u8] =
    b"\xa2\x02\x82\x01\x50\xe6\xbf\x42\x87\xc2\xd7\x61\x8d\x6a\x96\x87\x44\x5f\xfd\x33\xe6\x03\x81\x42\x00\x01";

const FULL: &[u8] =
    b"\xa5\x02\x85\x01\x50\xe6\xbf\x42\x87\xc2\xd7\x61\x8d\x6a\x96\x87\x44\x5f\xfd\x33\xe6\x18\xff\x0e\x50\xe6\xbf\x42\x87\xc2\xd7\x61\x8d\x6a\x96\x87\x44\x5f\xfd\x33\xe6\x03\x82\x42\xff\xfd\x19\xff\xff\x04\x50\x20\x01\x0d\xb8\x00\x00\x00\x00\x00\x00\x00\x00\x00\x00\x00\x01\x06\x81\x48\x00\x12\x4b\x00\x06\x0d\x9a\xb1\x07\x1a\x00\x01\x86\xa0";

/// The same key set, with a usage of 0 written out and additional information after each key.
const WITH_INFORMATION: &[u8] =
    b"\xa1\x02\x88\x01\x00\x50\xe6\xbf\x42\x87\xc2\xd7\x61\x8d\x6a\x96\x87\x44\x5f\xfd\x33\xe6\x41\x07\x18\xff\x0e\x50\xe6\xbf\x42\x87\xc2\xd7\x61\x8d\x6a\x96\x87\x44\x5f\xfd\x33\xe6\x40";

#[test]
fn configurations_are_read(rt: HostRuntime) -> Result<(), Fail> {
    for (config, text) in [
        (lease_of(0xaf93, None), LEASE),
        (lease_of(0xaf93, Some(24)), LEASE_OF_A_DAY),
        (lease_of(1, None), LEAST),
        (full(), FULL),
    ] {
        assert!(rt; read_config(text)? == config);
    }
    Ok(())
}

#[test]
fn a_lease_without_an_end_is_written_and_read_back(rt: HostRuntime) -> Result<(), Fail> {
    let mut keys = ArrayVec::new();
    keys.push(LinkKey {
        id: 1,
        usage: 0,
        value: KEY,
    });
    let mut out = ArrayVec::new();
    let config = Configuration {
        keys,
        short: Some(Short {
            address: 0xaf93,
            hours: None,
        }),
        jrc: None,
        refused: ArrayVec::new(),
        rate: None,
    };
    write_config(&config, &mut out);
    assert_eq!(rt; out.as_slice(), LEASE);
    assert!(rt; read_config(out.as_slice())? == config);
    Ok(())
}

#[test]
fn a_lease_of_a_day_is_written_and_read_back(rt: HostRuntime) -> Result<(), Fail> {
    let mut keys = ArrayVec::new();
    keys.push(LinkKey {
        id: 1,
        usage: 0,
        value: KEY,
    });
    let mut out = ArrayVec::new();
    let config = Configuration {
        keys,
        short: Some(Short {
            address: 0xaf93,
            hours: Some(24),
        }),
        jrc: None,
        refused: ArrayVec::new(),
        rate: None,
    };
    write_config(&config, &mut out);
    assert_eq!(rt; out.as_slice(), LEASE_OF_A_DAY);
    assert!(rt; read_config(out.as_slice())? == config);
    Ok(())
}

#[test]
fn additional_information_is_not_kept(rt: HostRuntime) -> Result<(), Fail> {
    let config = read_config(WITH_INFORMATION)?;
    assert!(rt; config.keys == full().keys);
    assert!(rt; config.short.is_none());
    Ok(())
}

fn is_writable(key: &LinkKey) -> bool
    ensures { IsTrue result ↔ ((1 ≤ key.now.id) × (key.now.usage ≤ 14)) }
{
    key.id >= 1 && key.usage <= 14
}

fn are_writable(keys: &[LinkKey]) -> bool
    ensures { IsTrue result ↔ All (λ key. (1 ≤ key.id) × (key.usage ≤ 14)) keys.now }
{
    keys.iter().all(is_writable)
}

// 1 for the map, 163 for eight keys of 20, 10 for the lease, 18 for the address, 146 for 16 pledges of 9, 6 for the rate.
#[test]
fn the_longest_configuration_has_344_bytes(rt: HostRuntime) -> Result<(), Fail> {
    let mut refused = ArrayVec::new();
    for _ in 0..16 {
        let _full = refused.try_push([0xff; 8]);
    }
    let mut out = ArrayVec::new();
    let config = Configuration {
        keys: keys_of(&[(255, 14); 8]),
        short: Some(Short {
            address: 0xfffd,
            hours: Some(u32::MAX),
        }),
        jrc: Some([0xff; 16]),
        refused,
        rate: Some(u32::MAX),
    };
    assert!(rt;
        config
            .keys
            .as_slice()
            .iter()
            .all(|key| 1 <= key.id && key.usage <= 14)
    );
    write_config(&config, &mut out);
    assert_eq!(rt; out.len(), 344);
    assert!(rt; read_config(out.as_slice())? == config);
    Ok(())
}

// 1 for the map, 10 for the role, 404 for a network of 400 bytes.
#[test]
fn the_longest_request_has_415_bytes(rt: HostRuntime) {
    let join = JoinRequest {
        role: u64::MAX,
        network: Some(&[0; 400]),
    };
    let mut out = ArrayVec::new();
    write_join(&join, &mut out);
    assert_eq!(rt; out.len(), 415);
    object_laws();
}
