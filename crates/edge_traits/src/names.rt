//! Who and what is outside: pledges, peers, the areas of a disk, and the one failure of a device.
use thiserror::Error;

/// A call on a device failed. The device's count of faults rose, or is at 2^64 - 1.
#[derive(Clone, Copy, Debug, PartialEq, Eq, Error)]
#[error("the device failed")]
pub struct Failed;

/// The identifier of a pledge: an EUI-64, most significant byte first.
#[derive(Clone, Copy, Debug, Default, PartialEq, Eq, PartialOrd, Ord, Hash)]
pub struct PledgeId(pub [u8; 8]);

/// Where a datagram comes from or goes to: an IPv6 host in 16 bytes (an IPv4 host is mapped), then the port in two,
/// most significant byte first.
#[derive(Clone, Copy, Debug, PartialEq, Eq, PartialOrd, Ord, Hash)]
pub struct Peer(pub [u8; 18]);

/// One of the two areas of a disk.
#[derive(Clone, Copy, Debug, PartialEq, Eq)]
pub enum Area {
    Left,
    Right,
}
