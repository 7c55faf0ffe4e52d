//! Elements whose bytes were worked out by hand from the layout.
use crate::{BeaconFault, Element, read, write};
use arrayvec::ArrayVec;
use std::test::Fail;

fn network_of(bytes: &[u8]) -> ArrayVec<u8, 16> {
    let mut network = ArrayVec::new();
    let _full = network.try_extend_from_slice(bytes);
    network
}

fn element(proxy: u8, interface: Option<[u8; 8]>, network: &[u8]) -> Element {
    Element {
        r: interface.is_some(),
        proxy,
        rank: 20,
        pan: 300,
        interface,
        network: network_of(network),
    }
}

const INTERFACE: [u8; 8] = [2, 0, 0, 0, 0, 0, 0, 1];

/// Both flags set, and none, with the greatest network.
const WHOLE: &[u8] = b"\x02\xc0\x0a\x14\x01\x2c\x02\x00\x00\x00\x00\x00\x00\x01\xca\xfe";

const PLAIN: &[u8] = b"\x02\x00\x7f\x14\x01\x2c0123456789abcdef";

#[test]
fn elements_are_written_and_read_back(rt: HostRuntime) -> Result<(), Fail> {
    let mut out = ArrayVec::new();
    let whole = element(10, Some(INTERFACE), b"\xca\xfe");
    write(&whole, &mut out)?;
    assert_eq!(rt; out.as_slice(), WHOLE);
    assert!(rt; read(WHOLE)? == whole);
    let plain = element(127, None, b"0123456789abcdef");
    write(&plain, &mut out)?;
    assert_eq!(rt; out.as_slice(), PLAIN);
    assert!(rt; read(PLAIN)? == plain);
    Ok(())
}

#[test]
fn bits_without_a_meaning_are_ignored(rt: HostRuntime) -> Result<(), Fail> {
    let read = read(b"\x02\x3f\x7f\x14\x01\x2c0123456789abcdef")?;
    assert!(rt; read == element(127, None, b"0123456789abcdef"));
    Ok(())
}

/// Bytes, each with the first fault.
const REFUSED: [(&[u8], BeaconFault); 14] = [
    (b"", BeaconFault::Short),
    (b"\x02", BeaconFault::Short),
    (b"\x01\x00\xff\x00\x00", BeaconFault::Short),
    (b"\x01\x40\xff\x00\x00\x00", BeaconFault::Short),
    (b"\x02\x40\x00\x00\x00\x000123456", BeaconFault::Short),
    (b"\x01\x00\xff\x00\x00\x00", BeaconFault::Subtype),
    (b"\x03\x40\x00\x00\x00\x0001234567a", BeaconFault::Subtype),
    (b"\x02\x00\xff\x00\x00\x00", BeaconFault::Priority(255)),
    (b"\x02\x00\x80\x00\x00\x00a", BeaconFault::Priority(128)),
    (b"\x02\x00\x7f\x00\x00\x00", BeaconFault::Network(0)),
    (b"\x02\x40\x00\x00\x00\x0001234567", BeaconFault::Network(0)),
    (
        b"\x02\x80\x00\x00\x00\x000123456789abcdefg",
        BeaconFault::Network(17),
    ),
    (
        b"\x02\x40\x00\x00\x00\x00012345670123456789abcdefg",
        BeaconFault::Network(17),
    ),
    (b"\x02\x00\x80\x00\x00\x00", BeaconFault::Priority(128)),
];

#[test]
fn the_first_fault_is_answered(rt: HostRuntime) {
    for (bytes, fault) in REFUSED {
        assert_eq!(rt; read(bytes).err(), Some(fault), "{bytes:?}");
    }
}

#[test]
fn a_refused_element_leaves_the_buffer_empty(rt: HostRuntime) -> Result<(), Fail> {
    let mut out = ArrayVec::new();
    write(&element(10, None, b"\xca\xfe"), &mut out)?;
    assert_eq!(rt; out.len(), 8);
    let refused = write(&element(128, None, b""), &mut out);
    assert_eq!(rt; refused, Err(BeaconFault::Priority(128)));
    assert_eq!(rt; out.len(), 0);
    let refused = write(&element(127, None, b""), &mut out);
    assert_eq!(rt; refused, Err(BeaconFault::Network(0)));
    Ok(())
}
