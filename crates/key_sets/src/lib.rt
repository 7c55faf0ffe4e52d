// The key sets of the network: the epoch of each, its link-layer keys, their ids, and which sets are in force.
// It promises the layers above one type for a set and one for the phase, copied without loss and without memory, and the
// exact keys in force. Definitions are in specs/Keys.
#![tactic(auto)]

mod phase;
mod set;

pub use phase::Phase;
pub use set::{KeySet, key_id};

#[cfg(test)]
mod tests;
