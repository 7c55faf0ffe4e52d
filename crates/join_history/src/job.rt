//! The update that a pledge is owed while a new key set is handed out.
use arrayvec::ArrayVec;
use cbor_cojp::LinkKey;
use edge_traits::PledgeId;

/// What an update to a pledge needs: under which context it goes, and what it brings (RFC 9031, 8.2).
#[derive(Clone, Debug, PartialEq, Eq, Drop)]
pub struct Job {
    /// The context of the pledge's last Grant.
    pub context: u32,
    pub id: PledgeId,
    /// The epoch that is handed out.
    pub epoch: u32,
    /// The pledge's short address.
    pub address: u16,
    /// The keys in force, without a usage.
    pub keys: ArrayVec<LinkKey, 8>,
}
