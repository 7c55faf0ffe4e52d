// AES-128 (FIPS 197) and its counter mode with CBC-MAC (RFC 3610): by tables, in place and without memory.
// It promises the layers above that a block, a sealing and an opening are those of the standards, and nothing else.
// Definitions are in specs/: Field, State, Cipher, Bytes, Ccm, Unsealing and Laws. Words is the code's own.
#![tactic(auto)]

mod aes;
mod blocks;
mod ccm;
mod laws;
mod mac;
mod rounds;
mod tables;

pub use aes::Aes128;
pub use ccm::Unsealed;
pub use laws::sealing_laws;

#[cfg(test)]
mod tests;
