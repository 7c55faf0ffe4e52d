//! The join element: its fields, reading and writing.
//!
//! ```text
//! 02 | R P 000000 | proxy | rank | PAN, 2 bytes | interface, 8 bytes if P | network, 1 to 16 bytes
//! ```
ghost use Rattle.std.specs.Prelude.{◌≡◌, ◌≤◌, ◌<◌, ◌+◌, ◌↔◌, ◌++◌, [], drop, length, ◌⊎◌, IfOk, IfErr, IfSome, OnOk, OnErr, Ok, Err};
ghost use Rattle.arrayvec.specs.ArrayVec.{array_vec_len};
ghost use Rattle.join_beacon.specs.declared.fault.BeaconFault.{BeaconFault};
ghost use Rattle.join_beacon.specs.declared.fault.BeaconFault.TheVariants.{Network};
ghost use Rattle.join_beacon.specs.Layout.{IsElement, IsFault, IsUnwritable, start_of, element_text, flags_of, has_interface, interface_text};
ghost use Rattle.join_beacon.specs.Reading.{interface_at, network_at, element_at};

use crate::fault::BeaconFault;
use arrayvec::ArrayVec;

const SUBTYPE: u8 = 2;

const MAX_PROXY: u8 = 127;

/// What a beacon says to pledges of its network.
#[derive(Clone, Debug, PartialEq, Eq, Drop)]
pub struct Element {
    /// Whether router advertisements are to be asked for.
    pub r: bool,
    /// The proxy priority, 0 to 127.
    pub proxy: u8,
    /// The rank priority.
    pub rank: u8,
    /// The PAN priority.
    pub pan: u16,
    /// The interface identifier of the proxy, if the beacon has it.
    pub interface: Option<[u8; 8]>,
    /// The network identifier, 1 to 16 bytes.
    pub network: ArrayVec<u8, 16>,
}

/// Where the network identifier begins.
fn start_of(bytes: &[u8]) -> usize
    ensures { result ≡ start_of bytes.now }
{
    if bytes.len() > 1 && bytes[1] / 64 % 2 == 1 {
        14
    } else {
        6
    }
}

fn read_interface(bytes: &[u8], start: usize) -> Option<[u8; 8]>
    requires start { start ≡ start_of bytes.now }
    requires within { start ≤ length bytes.now }
    ensures { result ≡ interface_at bytes.now }
{
    if start == 6 {
        return None;
    }
    match <[u8; 8]>::try_from(&bytes[6..14]) {
        Ok(id) => Some(id),
        Err(_) => unreachable!(),
    }
}

fn read_network(bytes: &[u8]) -> Result<ArrayVec<u8, 16>, BeaconFault>
    ensures ok { IfOk result (λ network. (network.items ≡ bytes.now) × (1 ≤ length bytes.now) × (length bytes.now ≤ 16)) }
    ensures err { IfErr result (λ fault. (fault ≡ Network (length bytes.now)) × ((length bytes.now ≡ 0) ⊎ (16 < length bytes.now))) }
{
    let mut network = ArrayVec::new();
    if bytes.is_empty() {
        return Err(BeaconFault::Network(0));
    }
    match network.try_extend_from_slice(bytes) {
        Ok(()) => Ok(network),
        Err(_) => Err(BeaconFault::Network(bytes.len())),
    }
}

#[tactic(auto, unfolding(crate::specs::Reading::element_at))]
fn read_element(bytes: &[u8]) -> Result<Element, BeaconFault>
    ensures { result ≡ element_at bytes.now }
{
    let start = start_of(bytes);
    if bytes.len() < start {
        return Err(BeaconFault::Short);
    }
    if bytes[0] != SUBTYPE {
        return Err(BeaconFault::Subtype);
    }
    if bytes[2] > MAX_PROXY {
        return Err(BeaconFault::Priority(bytes[2]));
    }
    let interface = read_interface(bytes, start);
    let network = read_network(&bytes[start..])?;
    Ok(Element {
        r: bytes[1] / 128 == 1,
        proxy: bytes[2],
        rank: bytes[3],
        pan: 256 * bytes[4] as u16 + bytes[5] as u16,
        interface,
        network,
    })
}

/// Reads an element, which is all of the bytes. Bits of the flags that mean nothing are ignored.
pub fn read(bytes: &[u8]) -> Result<Element, BeaconFault>
    // What is read is what the bytes spell.
    ensures found { IfOk result (IsElement bytes.now) }
    // What the bytes spell is read.
    ensures only { (element : Element) → IsElement bytes.now element → result ≡ Ok element }
    // A refusal is the first fault that applies.
    ensures fault { (fault : BeaconFault) → (result ≡ Err fault) ↔ IsFault bytes.now fault }
{
    read_element(bytes)
}

fn push_all(out: &mut ArrayVec<u8, 32>, bytes: &[u8])
    requires { array_vec_len out.old + length bytes.now ≤ 32 }
    ensures { out.new.items ≡ out.old.items ++ bytes.now }
{
    out.try_extend_from_slice(bytes).unwrap();
}

fn push_interface(out: &mut ArrayVec<u8, 32>, interface: Option<[u8; 8]>)
    requires { array_vec_len out.old ≤ 6 }
    ensures text { out.new.items ≡ out.old.items ++ interface_text interface }
    ensures few { array_vec_len out.new ≤ array_vec_len out.old + 8 }
    ensures sized { IfSome interface (λ id. length id ≡ 8) }
{
    match interface {
        None => {}
        Some(id) => push_all(out, &id),
    }
}

/// Puts an element in place of what `out` held. A refusal leaves `out` empty.
pub fn write(element: &Element, out: &mut ArrayVec<u8, 32>) -> Result<(), BeaconFault>
    // What is written is the element, and is read back as the same.
    ensures reads_back { OnOk result (IsElement out.new.items element.now) }
    ensures ok { OnOk result (out.new.items ≡ element_text element.now) }
    ensures fault { (fault : BeaconFault) → (result ≡ Err fault) ↔ IsUnwritable element.now fault }
    ensures err { OnErr result (out.new.items ≡ []) }
{
    out.clear();
    if element.proxy > MAX_PROXY {
        return Err(BeaconFault::Priority(element.proxy));
    }
    if element.network.is_empty() {
        return Err(BeaconFault::Network(0));
    }
    let pan = element.pan;
    let flags = 128 * u8::from(element.r) + 64 * u8::from(element.interface.is_some());
    let head = [
        SUBTYPE,
        flags,
        element.proxy,
        element.rank,
        (pan / 256) as u8,
        (pan % 256) as u8,
    ];
    push_all(out, &head);
    push_interface(out, element.interface);
    push_all(out, element.network.as_slice());
    Ok(())
}
