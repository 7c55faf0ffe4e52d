//! The link-layer keys of one epoch.
ghost use Rattle.std.specs.Prelude.{◌≡◌, ⊤, Some};
ghost use Rattle.key_sets.specs.Keys as spec;

use arrayvec::ArrayVec;
use std::alloc::AllocError;
use std::fmt;

/// How many key ids there are.
const KEY_IDS: u64 = 252;

/// The keys that came into force together, 1 to 4 of 16 bytes, and their epoch, from 1 (RFC 9031, 8.4.3).
#[derive(PartialEq, Eq, Drop)]
pub struct KeySet {
    pub epoch: u32,
    pub keys: ArrayVec<[u8; 16], 4>,
}

/// Shows no key.
impl fmt::Debug for KeySet {
    ghost debug_output = { λ set. Some (spec.shown_set set.epoch) };

    fn fmt<W: fmt::Write>(&self, f: &mut fmt::Formatter<W>) -> fmt::Result {
        let epoch = self.epoch;
        write!(f, "KeySet {{ epoch: {epoch}, .. }}")
    }
}

impl Clone for KeySet {
    ghost is_clone = { λ old new. new ≡ old };

    ghost is_infallible = { λ _. ⊤ };

    fn clone(&self) -> Result<Self, AllocError> {
        let values = self.keys.as_slice();
        let mut keys = ArrayVec::new();
        for key in values {
            keys.push(*key);
        }
        Ok(KeySet {
            epoch: self.epoch,
            keys,
        })
    }
}

/// The id of the key at this place of an epoch's set, from 0: 1 to 252, so that the ids of two sets in force differ
/// (RFC 9031, 8.4.3).
pub fn key_id(epoch: u32, place: u8) -> u8
    ensures { result ≡ spec.key_id epoch place }
{
    (1 + (4 * u64::from(epoch) + u64::from(place)) % KEY_IDS) as u8
}
