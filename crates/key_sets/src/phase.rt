//! Which key sets are in force (RFC 9031, 8.4.3).
ghost use Rattle.std.specs.Prelude.{◌≡◌, ⊤, ◌+◌, ◌≤◌, ◌++◌, length};
ghost use Rattle.key_sets.specs.Keys.{numbered};

use crate::set::{KeySet, key_id};
use arrayvec::ArrayVec;
use std::alloc::AllocError;

/// How far the rolling of keys has come.
#[derive(Debug, PartialEq, Eq, Drop)]
pub enum Phase {
    /// No key set is in force.
    None,
    /// One key set is in force.
    Steady(KeySet),
    /// The old key set is in force, and the new one, which is being handed out.
    Spreading(KeySet, KeySet),
}

impl Clone for Phase {
    ghost is_clone = { λ old new. new ≡ old };

    ghost is_infallible = { λ _. ⊤ };

    fn clone(&self) -> Result<Self, AllocError> {
        Ok(match self {
            Phase::None => Phase::None,
            Phase::Steady(set) => Phase::Steady(set.clone()?),
            Phase::Spreading(old, new) => Phase::Spreading(old.clone()?, new.clone()?),
        })
    }
}

/// Adds an epoch's keys with their ids.
fn add_keys(epoch: u32, set: &[[u8; 16]], keys: &mut ArrayVec<(u8, [u8; 16]), 8>)
    requires set { length set.now ≤ 4 }
    requires room { length keys.old.items + length set.now ≤ 8 }
    ensures keys { keys.new.items ≡ keys.old.items ++ numbered epoch 0 set.now }
    ensures len { length keys.new.items ≡ length keys.old.items + length set.now }
{
    let mut place = 0;
    let mut rest = set;
    while let [key, after @ ..] = rest {
        keys.push((key_id(epoch, place), *key));
        place += 1;
        rest = after;
    }
}

impl Phase {
    ghost use Rattle.std.specs.Prelude.{◌≡◌};
    ghost use Rattle.key_sets.specs.Keys as spec;

    /// The keys in force with their ids, the older set's first.
    pub fn in_force(&self) -> ArrayVec<(u8, [u8; 16]), 8>
        ensures { result.items ≡ spec.in_force self.now }
    {
        let mut keys = ArrayVec::new();
        match self {
            Phase::None => {}
            Phase::Steady(set) => add_keys(set.epoch, set.keys.as_slice(), &mut keys),
            Phase::Spreading(old, new) => {
                add_keys(old.epoch, old.keys.as_slice(), &mut keys);
                add_keys(new.epoch, new.keys.as_slice(), &mut keys);
            }
        }
        keys
    }

    /// The epoch of the newest set, or 0 where there is none.
    pub fn epoch(&self) -> u32
        ensures { result ≡ spec.epoch_of self.now }
    {
        match self {
            Phase::None => 0,
            Phase::Steady(set) => set.epoch,
            Phase::Spreading(_, new) => new.epoch,
        }
    }
}
