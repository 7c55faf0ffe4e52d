// Security contexts of OSCORE (RFC 8613, 3 and 5.2): keys derived once from a pledge's PSK, and nonces.
// It promises the layers above the standard's keys and nonces, as equations, and one ID and number for each nonce.
// Definitions are in specs/: Items, Derivation, Nonce, Context and Laws.
#![tactic(auto)]

mod context;
mod info;
mod keys;
mod laws;
mod nonce;

pub use context::{Context, Side};
pub use keys::{Keys, derive_keys};
pub use laws::nonce_law;
pub use nonce::nonce_of;

#[cfg(test)]
mod tests;
