//! AES-128 (FIPS 197).
ghost use Rattle.std.specs.Prelude.{◌≡◌, ◌+◌, ◌<◌, ◌≤◌, ℕ, List, [], ◌∷◌, slice_index};
ghost use Rattle.std.specs.Int.{w32, to_be_bytes};
ghost use Rattle.aes_ccm.specs.Cipher.{encrypted};
ghost use Rattle.aes_ccm.specs.Field.{power_of_x};
ghost use Rattle.aes_ccm.specs.Words.{state_of, key_at, IsExpanded};

use crate::rounds::{add_round_key, full_round, last_round, next_round_key};
use crate::tables::ROUND_CONSTANTS;
use std::marker::Model;

/// A key that is ready for use: its round keys are expanded. Contracts see the 16 bytes of the key.
#[derive(Drop)]
pub struct Aes128 {
    round_keys: [[u32; 4]; 11],
}

impl Model for Aes128 {
    ghost Value = { List ℕ };

    ghost view = { λ a. key_at a.round_keys 0 };

    ghost invariant = { λ a. IsExpanded a.round_keys };
}

impl Aes128 {
    /// Expands a key (FIPS 197, 5.2).
    pub fn new(key: &[u8; 16]) -> Aes128
        ensures { result ≡ key.now }
    {
        let mut round_keys = [[0; 4]; 11];
        round_keys[0] = words_of(key);
        'expand: for round in 0..10 {
            round_keys[round + 1] = next_round_key(&round_keys[round], round_constant(round));
        }
        Aes128 { round_keys }
    }

    /// Encrypts a block (FIPS 197, 5.1).
    pub fn block(&self, input: &[u8; 16]) -> [u8; 16]
        ensures { result ≡ encrypted self.now input.now }
    {
        let mut state = add_round_key(&self.round_keys[0], words_of(input));
        'rounds: for round in 1..10 {
            let next = full_round(&self.round_keys[round], state);
            state = next;
        }
        bytes_of(last_round(&self.round_keys[10], state))
    }
}

fn round_constant(round: usize) -> u8
    requires { round < 10 }
    ensures { result ≡ power_of_x round }
{
    ROUND_CONSTANTS[round]
}

#[inline(always)]
fn word_at(bytes: &[u8; 16], at: usize) -> u32
    requires { at + 4 ≤ 16 }
    ensures { to_be_bytes w32 result ≡ slice_index bytes.now at ∷ slice_index bytes.now (at + 1)
        ∷ slice_index bytes.now (at + 2) ∷ slice_index bytes.now (at + 3) ∷ [] }
{
    u32::from_be_bytes([bytes[at], bytes[at + 1], bytes[at + 2], bytes[at + 3]])
}

#[inline(always)]
fn words_of(bytes: &[u8; 16]) -> [u32; 4]
    ensures { state_of result ≡ bytes.now }
{
    [
        word_at(bytes, 0),
        word_at(bytes, 4),
        word_at(bytes, 8),
        word_at(bytes, 12),
    ]
}

#[inline(always)]
fn bytes_of(words: [u32; 4]) -> [u8; 16]
    ensures { result ≡ state_of words }
{
    let [a, b, c, d] = words;
    let mut bytes = [0; 16];
    bytes[..4].copy_from_slice(&a.to_be_bytes());
    bytes[4..8].copy_from_slice(&b.to_be_bytes());
    bytes[8..12].copy_from_slice(&c.to_be_bytes());
    bytes[12..].copy_from_slice(&d.to_be_bytes());
    bytes
}
