//! The key of an HMAC as one block (RFC 2104, 2).
ghost use Rattle.std.specs.Prelude.{◌≡◌, ◌-◌, ◌≤◌, ◌++◌, length, replicate};
ghost use Rattle.hkdf_sha256.specs.Hmac.{key_block, xor_each};

use sha2::{Digest, Sha256};

/// The bytes of a block of SHA-256.
pub(crate) const BLOCK: usize = 64;

// The bytes with zeros after them.
fn zero_padded(bytes: &[u8]) -> [u8; BLOCK]
    requires { length bytes.now ≤ 64 }
    ensures { result ≡ bytes.now ++ replicate (64 - length bytes.now) 0 }
{
    let mut block = [0; BLOCK];
    block[..bytes.len()].copy_from_slice(bytes);
    block
}

/// The key as one block.
pub(crate) fn key_as_block(key: &[u8]) -> [u8; BLOCK]
    ensures { result ≡ key_block key.now }
{
    if key.len() > BLOCK {
        zero_padded(&Sha256::digest(key))
    } else {
        zero_padded(key)
    }
}

/// The block with `pad` xored into each byte.
pub(crate) fn xored(block: &[u8; BLOCK], pad: u8) -> [u8; BLOCK]
    ensures { result ≡ xor_each pad block.now }
{
    let mut xored = *block;
    for byte in xored.iter_mut() {
        *byte ^= pad;
    }
    xored
}
