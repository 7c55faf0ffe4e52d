//! Sealing into a buffer and opening in it.
ghost use Rattle.std.specs.Prelude.{◌≡◌, ◌≤◌, ◌<◌, ◌+◌, ◌^◌, ℕ, List, [], length, IsTrue, MatchBool};
ghost use Rattle.aes_ccm.specs.Ccm.{sealed};

use crate::bytes::append;
use aes_ccm::{Aes128, Unsealed};
use arrayvec::ArrayVec;

/// The bytes of a tag.
pub(crate) const TAG: usize = 8;

/// Puts the sealing of a plaintext in place of what `out` held.
pub(crate) fn seal_into<const N: usize>(
    key: &Aes128,
    nonce: &[u8; 13],
    aad: &[u8],
    plain: &[u8],
    out: &mut ArrayVec<u8, N>,
)
    requires room { length plain.now + 8 ≤ N }
    requires plain { length plain.now ≤ 2048 }
    requires aad { length aad.now ≤ 2048 }
    ensures { out.new.items ≡ sealed key.now nonce.now aad.now plain.now }
{
    out.clear();
    append(out, plain);
    append(out, &[0; TAG]);
    key.seal(nonce, aad, out.as_mut_slice(), plain.len());
}

/// Puts the plaintext of a sealing, which has a byte at least, in place of what `inner` held; or nothing, where it is the
/// sealing of none.
pub(crate) fn open_into(
    key: &Aes128,
    nonce: &[u8; 13],
    aad: &[u8],
    sealing: &[u8],
    inner: &mut ArrayVec<u8, 1280>,
) -> bool
    requires sealing { length sealing.now ≤ 1280 }
    requires aad { length aad.now ≤ 2048 }
    ensures answer { MatchBool result
        ((1 ≤ length inner.new.items) × (sealing.now ≡ sealed key.now nonce.now aad.now inner.new.items))
        (inner.new.items ≡ []) }
    ensures genuine { (plain : List ℕ) → 1 ≤ length plain → sealing.now ≡ sealed key.now nonce.now aad.now plain
        → IsTrue result × (inner.new.items ≡ plain) }
{
    inner.clear();
    if sealing.len() <= TAG {
        return false;
    }
    append(inner, sealing);
    match key.unseal(nonce, aad, inner.as_mut_slice(), sealing.len()) {
        Unsealed::Opened(len) => {
            inner.truncate(len);
            true
        }
        Unsealed::Short => {
            inner.clear();
            false
        }
        Unsealed::NotGenuine => {
            inner.clear();
            false
        }
    }
}
