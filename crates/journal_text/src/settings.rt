//! The settings that decisions are made under.
ghost use Rattle.std.specs.Prelude.{◌≡◌, ⊤};

use arrayvec::ArrayVec;
use edge_traits::PledgeId;
use std::alloc::AllocError;

/// The pool of short addresses, the lease time, and what a Configuration has beside keys and address.
#[derive(Debug, PartialEq, Eq, Drop)]
pub struct Settings {
    /// The first short address of the pool.
    pub first: u16,
    /// How many addresses the pool has.
    pub count: u16,
    /// The lease time in hours.
    pub hours: u16,
    /// The join rate that pledges get, in bytes a second (RFC 9031, 8.4.2).
    pub rate: Option<u32>,
    /// The IPv6 address of the registrar, where pledges get one.
    pub jrc: Option<[u8; 16]>,
    /// The pledges that joined nodes have to refuse.
    pub refused: ArrayVec<PledgeId, 16>,
}

impl Clone for Settings {
    ghost is_clone = { λ old new. new ≡ old };

    ghost is_infallible = { λ _. ⊤ };

    fn clone(&self) -> Result<Self, AllocError> {
        let ids = self.refused.as_slice();
        let mut refused = ArrayVec::new();
        for id in ids {
            refused.push(*id);
        }
        Ok(Settings {
            first: self.first,
            count: self.count,
            hours: self.hours,
            rate: self.rate,
            jrc: self.jrc,
            refused,
        })
    }
}
