// The journal on a disk: a log of entries in gated batches, each durable before it is answered.
// It promises the layers above that a crash at any moment of a call leaves the log without or with the batch in hand,
// that Done means durable, and where an area has no reading. Definitions are in specs/: Area, Fault, Store and Laws.
#![tactic(auto)]

mod area;
mod body;
mod device;
mod fault;
mod format;
mod journal;
mod laws;
#[cfg(test)]
mod tests;

pub use fault::{Settled, Spot, StoreFault, Written};
pub use journal::Journal;
pub use laws::area_laws;
