//! The replay window of a security context: which sequence numbers were taken (RFC 8613, 7.4).
//! It promises the layer above that a number is judged as the list of all numbers taken says.
//! The definitions are in specs/: Numbers (what a list says), Parts (what 32 bits say of a list).
#![tactic(auto)]

mod bits;
mod judged;
#[cfg(test)]
mod tests;
mod window;

pub use judged::Judged;
pub use window::Window;
