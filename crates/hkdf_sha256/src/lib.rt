// HMAC (RFC 2104) and HKDF (RFC 5869) with SHA-256, for keys and texts of any length, without taking memory.
// It promises the layers above the standards' functions, as equations between lists of bytes.
// Definitions are in specs/: Hmac and Hkdf, over sha2's definition of the digest. Mac is of a code in progress.
#![tactic(auto)]

mod block;
mod derivation;
mod mac;

pub use derivation::{expand, extract};
pub use mac::hmac;

#[cfg(test)]
mod tests;
