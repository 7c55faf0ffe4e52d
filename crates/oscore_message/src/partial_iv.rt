//! Partial IVs (RFC 8613, 6.1).
ghost use Rattle.std.specs.Prelude.{◌≡◌, ◌≤◌, ◌<◌, ◌^◌, length};
ghost use Rattle.oscore_message.specs.PartialIv.{shortest, partial_iv, number_of, has_leading_zero};

use crate::bytes::append;
use arrayvec::ArrayVec;

/// Whether a zero comes before another byte.
pub(crate) fn begins_with_zero(bytes: &[u8]) -> bool
    ensures { result ≡ has_leading_zero bytes.now }
{
    match bytes {
        [] => false,
        [_] => false,
        [first, _, ..] => *first == 0,
    }
}

// The bytes without leading zeros, but never without the last byte.
#[tactic(auto, using(crate::proofs::PartialIvs::shortest_rest, crate::proofs::PartialIvs::shortest_whole, crate::proofs::PartialIvs::leading_is_long))]
fn without_zeros(bytes: &[u8]) -> &[u8]
    ensures { result.now ≡ shortest bytes.now }
{
    let mut rest = bytes;
    while begins_with_zero(rest) {
        rest = &rest[1..];
    }
    rest
}

/// The Partial IV of a number below 2^40.
#[tactic(auto, using(crate::proofs::PartialIvs::shortest_few), unfolding(crate::specs::PartialIv::partial_iv, oscore_context::specs::Nonce::five_bytes))]
pub(crate) fn partial_iv_of(number: u64) -> ArrayVec<u8, 5>
    requires { number < 2 ^ 40 }
    ensures { result.items ≡ partial_iv number }
{
    let bytes = number.to_be_bytes();
    let mut out = ArrayVec::new();
    append(&mut out, without_zeros(&bytes[3..]));
    out
}

/// The number of at most 8 bytes.
#[tactic(auto, unfolding(crate::specs::PartialIv::number_of))]
pub(crate) fn number_in(bytes: &[u8]) -> u64
    requires { length bytes.now ≤ 8 }
    ensures { result ≡ number_of bytes.now }
{
    let mut full = [0; 8];
    full[8 - bytes.len()..].copy_from_slice(bytes);
    u64::from_be_bytes(full)
}
