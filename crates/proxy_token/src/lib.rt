//! Tokens of a join proxy: what it must know of a client, sealed into the token that it sends on.
//! It promises that each token has a counter of its own, and that exactly sealings under the key
//! are opened, to what was sealed. Definitions are in specs/: Token, Answer and Sealing.
#![tactic(auto)]

mod fault;
mod laws;
mod sealer;

pub use fault::{SealFault, TokenFault};
pub use laws::token_laws;
pub use sealer::Sealer;

#[cfg(test)]
mod tests;
