//! Leases of short addresses: who holds which, until when, and what a Join gets (RFC 9031, 8.4).
//! It promises the layer above exact answers over the grants that are kept, without taking memory.
//! The definitions are in specs/: Grants (who holds what), Lent (what leases are), Steps (calls).
#![tactic(auto)]

mod grant;
mod leases;
#[cfg(test)]
mod plain;
mod pledges;
mod queue;
#[cfg(test)]
mod tests;
mod top;
mod tops;

pub use grant::{GRACE, Grant};
pub use leases::Leases;
