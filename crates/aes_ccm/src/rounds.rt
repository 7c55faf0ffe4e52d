//! Rounds and round keys (FIPS 197, 5), over states of four words.
ghost use Rattle.std.specs.Prelude.{◌≡◌, ℕ, ◌<◌, [], ◌∷◌, slice_index};
ghost use Rattle.std.specs.Int.{w32, to_be_bytes};
ghost use Rattle.aes_ccm.specs.Bytes.{xor};
ghost use Rattle.aes_ccm.specs.State.{substitute, mix_column, add_round_key};
ghost use Rattle.aes_ccm.specs.Cipher.{turned_word, next_round_key, full_round, last_round};
ghost use Rattle.aes_ccm.specs.Words.{state_of, first_row, second_row, third_row, fourth_row};

use crate::tables::{FIRST, FOURTH, SBOX, SECOND, THIRD};

#[inline(always)]
fn substitute(byte: u8) -> u8
    ensures { result ≡ substitute byte }
{
    SBOX[byte as usize]
}

#[inline(always)]
fn first_word(byte: u8) -> u32
    ensures { to_be_bytes w32 result ≡ first_row (substitute byte) }
{
    FIRST[byte as usize]
}

#[inline(always)]
fn second_word(byte: u8) -> u32
    ensures { to_be_bytes w32 result ≡ second_row (substitute byte) }
{
    SECOND[byte as usize]
}

#[inline(always)]
fn third_word(byte: u8) -> u32
    ensures { to_be_bytes w32 result ≡ third_row (substitute byte) }
{
    THIRD[byte as usize]
}

#[inline(always)]
fn fourth_word(byte: u8) -> u32
    ensures { to_be_bytes w32 result ≡ fourth_row (substitute byte) }
{
    FOURTH[byte as usize]
}

// One column of a round: the S-box, the mixing and the round key.
#[inline(always)]
fn mixed_column(a: u32, b: u32, c: u32, d: u32, key: u32) -> u32
    ensures { to_be_bytes w32 result ≡ xor (mix_column
        (substitute (slice_index (to_be_bytes w32 a) 0)) (substitute (slice_index (to_be_bytes w32 b) 1))
        (substitute (slice_index (to_be_bytes w32 c) 2)) (substitute (slice_index (to_be_bytes w32 d) 3)))
        (to_be_bytes w32 key) }
{
    let [first, _, _, _] = a.to_be_bytes();
    let [_, second, _, _] = b.to_be_bytes();
    let [_, _, third, _] = c.to_be_bytes();
    let [_, _, _, fourth] = d.to_be_bytes();
    first_word(first) ^ second_word(second) ^ third_word(third) ^ fourth_word(fourth) ^ key
}

// One column of the last round.
#[inline(always)]
fn last_column(a: u32, b: u32, c: u32, d: u32, key: u32) -> u32
    ensures { to_be_bytes w32 result ≡ xor
        (substitute (slice_index (to_be_bytes w32 a) 0) ∷ substitute (slice_index (to_be_bytes w32 b) 1)
        ∷ substitute (slice_index (to_be_bytes w32 c) 2) ∷ substitute (slice_index (to_be_bytes w32 d) 3) ∷ [])
        (to_be_bytes w32 key) }
{
    let [first, _, _, _] = a.to_be_bytes();
    let [_, second, _, _] = b.to_be_bytes();
    let [_, _, third, _] = c.to_be_bytes();
    let [_, _, _, fourth] = d.to_be_bytes();
    u32::from_be_bytes([
        substitute(first),
        substitute(second),
        substitute(third),
        substitute(fourth),
    ]) ^ key
}

#[inline(always)]
pub(crate) fn full_round(key: &[u32; 4], state: [u32; 4]) -> [u32; 4]
    ensures { state_of result ≡ full_round (state_of state) (state_of key.now) }
{
    let [a, b, c, d] = state;
    [
        mixed_column(a, b, c, d, key[0]),
        mixed_column(b, c, d, a, key[1]),
        mixed_column(c, d, a, b, key[2]),
        mixed_column(d, a, b, c, key[3]),
    ]
}

#[inline(always)]
pub(crate) fn last_round(key: &[u32; 4], state: [u32; 4]) -> [u32; 4]
    ensures { state_of result ≡ last_round (state_of state) (state_of key.now) }
{
    let [a, b, c, d] = state;
    [
        last_column(a, b, c, d, key[0]),
        last_column(b, c, d, a, key[1]),
        last_column(c, d, a, b, key[2]),
        last_column(d, a, b, c, key[3]),
    ]
}

#[inline(always)]
pub(crate) fn add_round_key(key: &[u32; 4], state: [u32; 4]) -> [u32; 4]
    ensures { state_of result ≡ add_round_key (state_of state) (state_of key.now) }
{
    let [a, b, c, d] = state;
    [a ^ key[0], b ^ key[1], c ^ key[2], d ^ key[3]]
}

fn turned_word(word: u32, constant: u8) -> u32
    ensures { to_be_bytes w32 result ≡ turned_word (to_be_bytes w32 word) constant }
{
    let [a, b, c, d] = word.to_be_bytes();
    u32::from_be_bytes([
        substitute(b) ^ constant,
        substitute(c),
        substitute(d),
        substitute(a),
    ])
}

pub(crate) fn next_round_key(key: &[u32; 4], constant: u8) -> [u32; 4]
    ensures { state_of result ≡ next_round_key (state_of key.now) constant }
{
    let first = key[0] ^ turned_word(key[3], constant);
    let second = key[1] ^ first;
    let third = key[2] ^ second;
    let fourth = key[3] ^ third;
    [first, second, third, fourth]
}
