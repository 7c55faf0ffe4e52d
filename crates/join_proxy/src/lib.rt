//! A join proxy that keeps nothing for a pledge (RFC 9031, 7; RFC 8974, 3).
//! It promises what is sent on and sent back, each refusal with its cause, and that an answer comes
//! back to who asked. Definitions are in specs/: Tokens, Pieces, State, Steps and Laws.
#![tactic(auto)]

mod bucket;
mod fault;
mod laws;
mod message;
mod proxy;

pub use fault::{DownFault, UpFault};
pub use laws::round_trip;
pub use proxy::Proxy;

#[cfg(test)]
mod tests;
