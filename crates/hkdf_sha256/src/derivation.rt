//! Keys derived from a secret (RFC 5869).
ghost use Rattle.std.specs.Prelude.{◌≡◌, ℕ, ◌+◌, ◌≤◌, List, [], ◌∷◌, ◌++◌, length, take, drop, replicate};
ghost use Rattle.hkdf_sha256.specs.Hmac.{hmac_sha256};
ghost use Rattle.hkdf_sha256.specs.Mac.{Authenticates};
ghost use Rattle.hkdf_sha256.specs.Hkdf.{pseudorandom_key, output_keying_material};

use crate::mac::{Mac, hmac};

// The bytes of a digest, and so of a block of output.
const HASH: usize = 32;

/// HKDF-Extract (RFC 5869, 2.2): the pseudorandom key of a secret.
pub fn extract(salt: &[u8], secret: &[u8]) -> [u8; 32]
    ensures value { result ≡ pseudorandom_key salt.now secret.now }
    // No salt is a salt of zeros.
    ensures no_salt { salt.now ≡ [] → result ≡ pseudorandom_key (replicate 32 0) secret.now }
{
    hmac(salt, secret)
}

/// HKDF-Expand (RFC 5869, 2.3): output keying material of `L` bytes, at most 255 blocks.
pub fn expand<const L: usize>(prk: &[u8; 32], info: &[u8]) -> [u8; L]
    requires { L ≤ 8160 }
    ensures value { result ≡ output_keying_material prk.now info.now L }
    // A shorter output is a prefix of a longer one, and a block or less is a prefix of one code.
    ensures prefix { (m : ℕ) → L ≤ m → result ≡ take L (output_keying_material prk.now info.now m) }
    ensures one_block { L ≤ 32 → result ≡ take L (hmac_sha256 prk.now (info.now ++ 1 ∷ [])) }
{
    let mut output = [0; L];
    fill(&mut output, prk, info);
    output
}

// Fills the output block after block.
fn fill(output: &mut [u8], prk: &[u8; 32], info: &[u8])
    requires { length output.old ≤ 8160 }
    ensures { output.new ≡ output_keying_material prk.now info.now (length output.old) }
{
    let keyed = Mac::new(prk);
    let mut block = [0; HASH];
    for place in 0..output.len().div_ceil(HASH) {
        let previous: &[u8] = if place == 0 { &[] } else { &block };
        block = next_block(&keyed, previous, info, (place + 1) as u8);
        put_block(output, place * HASH, &block);
    }
}

// The block of this number, after the previous one.
fn next_block(keyed: &Mac, previous: &[u8], info: &[u8], number: u8) -> [u8; HASH]
    ensures { (key : List ℕ) → Authenticates keyed.now key [] → result ≡ hmac_sha256 key (previous.now ++ info.now ++ number ∷ []) }
{
    let mut mac = keyed.copy();
    mac.update(previous);
    mac.update(info);
    mac.update(&[number]);
    mac.finalize()
}

// Writes the block over the bytes from `start` on, as far as they reach.
fn put_block(output: &mut [u8], start: usize, block: &[u8; HASH])
    requires { start ≤ length output.old }
    ensures { output.new ≡ take (length output.old) (take start output.old ++ block.now ++ drop (start + 32) output.old) }
{
    let end = output.len().min(start + HASH);
    output[start..end].copy_from_slice(&block[..end - start]);
}
