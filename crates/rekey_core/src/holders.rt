//! The epochs of all pledges, by their identifiers.
ghost use Rattle.std.specs.Prelude.{◌≡◌, ◌≢◌, ◌↔◌, ℕ, ◌+◌, ◌<◌, ◌≤◌, ◌⊎◌, List, [], ◌∷◌, ◌++◌, Option, Some, None, IsTrue, IfOk, bytes_eq, false, true, is_some};
ghost use Rattle.indexmap.specs.IndexMap.{get as map_get, spare as map_spare};
ghost use Rattle.edge_traits.specs.declared.names.PledgeId.{PledgeId as Id};
ghost use Rattle.rekey_core.specs.Writes.{Write, granted as was_granted, given as was_given, stale as was_stale, Has, IsStaleFor};
ghost use Rattle.rekey_core.specs.Held.{Held, known_of, epochs_of, StandsFor, IsLatest, Sets};

use crate::epochs::Epochs;
use edge_traits::{NoMemory, PledgeId};
use indexmap::IndexMap;
use std::alloc::Global;
use std::marker::Model;

type Map = IndexMap<[u8; 8], Epochs>;

/// Which pledge has which epoch. In contracts it is the epochs of each pledge that was written, and
/// the room that is left.
#[derive(Drop)]
pub struct Holders {
    epochs: Map,
}

impl Model for Holders {
    ghost Value = { Held };

    ghost view = { λ h. record { entries = h.epochs.entries; room = map_spare h.epochs } };
}

impl Holders {
    /// No pledge has an epoch, and there is room for `pledges` of them.
    pub fn empty(alloc: Global, pledges: u32) -> Result<Holders, NoMemory>
        ensures none { IfOk result (λ h. StandsFor [] h) }
        ensures unknown { IfOk result (λ h. (p : Id) → known_of h p ≡ None) }
        ensures room { IfOk result (λ h. pledges ≤ h.room) }
    {
        match IndexMap::with_capacity(alloc, pledges as usize) {
            Ok(epochs) => Ok(Holders { epochs }),
            Err(_) => Err(NoMemory),
        }
    }

    /// Whether the pledge has the keys of the epoch, which isn't below any that was written for it.
    pub fn has(&self, id: PledgeId, epoch: u32) -> bool
        requires { IsLatest self.now id epoch }
        ensures { (writes : List Write) → StandsFor writes self.now → IsTrue result ↔ Has writes id epoch }
    {
        self.find(id).has == epoch
    }

    /// Whether the pledge is stale for the epoch, which isn't below any that was written for it.
    pub fn is_stale(&self, id: PledgeId, epoch: u32) -> bool
        requires { IsLatest self.now id epoch }
        ensures { (writes : List Write) → StandsFor writes self.now → IsTrue result ↔ IsStaleFor writes id epoch }
    {
        self.find(id).stale == epoch
    }

    /// Whether the pledge has the keys of the epoch or is stale for it.
    pub fn ready(&self, id: PledgeId, epoch: u32) -> bool
        requires { IsLatest self.now id epoch }
        ensures { (writes : List Write) → StandsFor writes self.now → IsTrue result ↔ (Has writes id epoch ⊎ IsStaleFor writes id epoch) }
    {
        self.has(id, epoch) || self.is_stale(id, epoch)
    }

    /// The greatest epoch of which the pledge has the keys and the greatest for which it is stale,
    /// 0 where there is none.
    pub fn epochs(&self, id: PledgeId) -> (u32, u32)
        ensures { (result.0 ≡ (epochs_of self.now id).has) × (result.1 ≡ (epochs_of self.now id).stale) }
    {
        let epochs = self.find(id);
        (epochs.has, epochs.stale)
    }

    /// An address was granted to the pledge while the epoch was the last one. There is room where
    /// the pledge is new.
    pub fn granted(&mut self, id: PledgeId, epoch: u32)
        requires latest { IsLatest self.old id epoch }
        requires room { known_of self.old id ≡ None → 0 < self.old.room }
        ensures sets { Sets id (record { has = epoch; stale = 0 }) self.old self.new }
        ensures written { (writes : List Write) → StandsFor writes self.old → StandsFor (writes ++ was_granted id epoch ∷ []) self.new }
    {
        self.set(
            id,
            Epochs {
                has: epoch,
                stale: 0,
            },
        );
    }

    /// The keys of the epoch were given to the pledge. There is room where the pledge is new.
    pub fn given(&mut self, id: PledgeId, epoch: u32)
        requires latest { IsLatest self.old id epoch }
        requires room { known_of self.old id ≡ None → 0 < self.old.room }
        ensures sets { Sets id (record { has = epoch; stale = (epochs_of self.old id).stale }) self.old self.new }
        ensures written { (writes : List Write) → StandsFor writes self.old → StandsFor (writes ++ was_given id epoch ∷ []) self.new }
    {
        let stale = self.find(id).stale;
        self.set(id, Epochs { has: epoch, stale });
    }

    /// The pledge was marked as stale for the epoch. There is room where the pledge is new.
    pub fn stale(&mut self, id: PledgeId, epoch: u32)
        requires latest { IsLatest self.old id epoch }
        requires room { known_of self.old id ≡ None → 0 < self.old.room }
        ensures sets { Sets id (record { has = (epochs_of self.old id).has; stale = epoch }) self.old self.new }
        ensures written { (writes : List Write) → StandsFor writes self.old → StandsFor (writes ++ was_stale id epoch ∷ []) self.new }
    {
        let has = self.find(id).has;
        self.set(id, Epochs { has, stale: epoch });
    }

    /// Puts in the epochs of a pledge that were kept elsewhere, 0 where there is none. There is room
    /// where the pledge is new.
    pub fn restore(&mut self, id: PledgeId, has: u32, stale: u32)
        requires { known_of self.old id ≡ None → 0 < self.old.room }
        ensures { Sets id (record { has = has; stale = stale }) self.old self.new }
    {
        self.set(id, Epochs { has, stale });
    }

    fn set(&mut self, id: PledgeId, epochs: Epochs)
        requires { known_of self.old id ≡ None → 0 < self.old.room }
        ensures { Sets id epochs self.old self.new }
    {
        put(&mut self.epochs, id.0, epochs);
    }

    fn find(&self, id: PledgeId) -> Epochs
        ensures { result ≡ epochs_of self.now id }
    {
        match self.epochs.get(&id.0) {
            None => Epochs { has: 0, stale: 0 },
            Some(epochs) => *epochs,
        }
    }
}

/// Sets what a map has at a key. There is room where the key is new.
fn put(map: &mut Map, key: [u8; 8], epochs: Epochs)
    requires { map_get bytes_eq map.old key ≡ None → 0 < map_spare map.old }
    ensures set { map_get bytes_eq map.new key ≡ Some epochs }
    ensures others { (q : List ℕ) → bytes_eq key q ≡ false → map_get bytes_eq map.new q ≡ map_get bytes_eq map.old q }
    ensures takes_one { map_spare map.old ≤ map_spare map.new + 1 }
    ensures takes_none { is_some (map_get bytes_eq map.old key) ≡ true → map_spare map.old ≤ map_spare map.new }
{
    match map.get_mut(&key) {
        Some(place) => *place = epochs,
        None => match map.insert(key, epochs) {
            Ok(_) => {},
            Err(_) => unreachable!(),
        },
    }
}
