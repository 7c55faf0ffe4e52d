//! A grant of an address, and when its address is free again.
ghost use Rattle.std.specs.Prelude.{◌≡◌, ◌↔◌, ◌+◌, ◌<◌, ◌≤◌, IsTrue};
ghost use Rattle.address_leases.specs.Indices.{IsHolding};

use edge_traits::PledgeId;

/// Seconds for which an address stays held after the end of its lease.
pub const GRACE: u64 = 3600;

/// A grant of an address to a pledge until a second. One until 2^64 - 1 has no end.
#[derive(Clone, Copy, Debug, PartialEq, Eq, PartialOrd, Ord)]
pub struct Grant {
    pub until: u64,
    pub address: u16,
    pub id: PledgeId,
}

/// Whether a grant until this second holds its address no longer at `now`.
pub(crate) fn is_over(until: u64, now: u64) -> bool
    ensures { IsTrue result ↔ (until + 3600 ≤ now) }
{
    now >= GRACE && until <= now - GRACE
}

/// Whether the grant holds the address at `now`.
pub(crate) fn is_held(grant: &Grant, address: u16, now: u64) -> bool
    ensures { IsTrue result ↔ IsHolding now address grant.now }
{
    grant.address == address && !is_over(grant.until, now)
}
