//! Which pledge has the keys of which epoch, for which it is stale, and who is still owed keys (RFC 9031, 8.4.3).
//! It promises the layer above exact answers: of epochs as the list of all writes says, of the queue as its list says.
//! The definitions are in specs/: Writes and Held (epochs), Queue and Maxima (who is owed keys).
#![tactic(auto)]

mod epochs;
mod holders;
mod maxima;
mod queue;
#[cfg(test)]
mod tests;
mod waiter;

pub use epochs::Epochs;
pub use holders::Holders;
pub use queue::UpdateQueue;
pub use waiter::Waiter;
