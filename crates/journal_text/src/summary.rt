//! What a checkpoint keeps of a history.
use crate::Settings;
use arrayvec::ArrayVec;
use edge_traits::PledgeId;
use key_sets::Phase;

/// What is kept of the requests of a context.
#[derive(Debug, PartialEq, Eq, Drop)]
pub struct SumRequest {
    /// The greatest number that was decided.
    pub greatest: u64,
    /// Bit i says that the greatest number minus i was decided.
    pub window: u32,
    /// The number of the last decision.
    pub number: u64,
    /// The time of the last decision.
    pub time: u64,
    /// The inner answer of the last decision.
    pub answer: ArrayVec<u8, 512>,
}

/// A context.
#[derive(Debug, PartialEq, Eq, Drop)]
pub struct SumContext {
    pub id: PledgeId,
    /// SHA-256 of the registrar's sender key.
    pub check: [u8; 32],
    /// The block end.
    pub end: u64,
    /// Its requests, where one was decided.
    pub last: Option<SumRequest>,
}

/// A Grant whose address is still held.
#[derive(Clone, Copy, Debug, PartialEq, Eq)]
pub struct SumGrant {
    pub id: PledgeId,
    pub address: u16,
    pub until: u64,
}

/// A pledge that had a Grant.
#[derive(Clone, Copy, Debug, PartialEq, Eq)]
pub struct SumNode {
    pub id: PledgeId,
    /// The context of its last Grant.
    pub context: u32,
    /// The address of its last Grant, or 0 where that was released.
    pub address: u16,
    /// The end of its last Grant, or 0 where that was released.
    pub until: u64,
    /// The greatest epoch whose keys it has, or 0.
    pub has: u32,
    /// The greatest epoch for which it is stale, or 0.
    pub stale: u32,
}

/// All that later decisions need of a history.
#[derive(Debug, PartialEq, Eq, Drop)]
pub struct RegSummary {
    /// The last time.
    pub time: u64,
    /// The last Settings entry with its time.
    pub settings: Option<(u64, Settings)>,
    pub phase: Phase,
    /// The contexts by their numbers.
    pub contexts: Vec<SumContext>,
    /// The Grants whose addresses are held, in order of address, identifier and end, each once.
    pub grants: Vec<SumGrant>,
    /// The pledges that had a Grant, in order of identifier.
    pub nodes: Vec<SumNode>,
}
