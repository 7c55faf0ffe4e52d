//! The epochs of a pledge.

/// The greatest epoch of which a pledge has the keys, and the greatest for which it is stale. 0
/// where there is none.
#[derive(Clone, Copy, Debug, PartialEq, Eq)]
pub struct Epochs {
    pub has: u32,
    pub stale: u32,
}
