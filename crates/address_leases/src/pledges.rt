//! The last grant of each pledge, by its identifier.
ghost use Rattle.std.specs.Prelude.{◌≡◌, ◌≢◌, ◌⊎◌, ℕ, ◌+◌, ◌*◌, ◌<◌, ◌≤◌, List, length, Option, Some, None, Contains, IfOk, bytes_eq, false};
ghost use Rattle.indexmap.specs.IndexMap.{get as map_get, spare as map_spare, index_map_len};
ghost use Rattle.edge_traits.specs.declared.names.PledgeId.{PledgeId as Id};
ghost use Rattle.address_leases.specs.declared.grant.Grant.{Grant as AGrant};
ghost use Rattle.address_leases.specs.Indices.{Indexed, known_of};

use crate::queue::Queue;
use edge_traits::PledgeId;
use indexmap::IndexMap;
use std::alloc::{AllocError, Global};
use std::marker::Model;
use std::mem;

/// The last grant of a pledge, and where its earlier grants are.
#[derive(Clone, Copy, Debug, PartialEq, Eq)]
pub(crate) struct Last {
    pub(crate) address: u16,
    pub(crate) until: u64,
    /// The address that it was granted before.
    pub(crate) previous: Option<u16>,
    /// Whether grants of still other addresses may be kept.
    pub(crate) more: bool,
}

type Map = IndexMap<[u8; 8], Last>;

/// The last grants by pledge. The second map serves to leave out the pledges of which no grant is
/// kept.
#[derive(Drop)]
pub(crate) struct Pledges {
    lasts: Map,
    emptied: Map,
    limit: usize,
}

impl Model for Pledges {
    ghost Value = { Indexed };

    ghost view = { λ p. record { entries = p.lasts.entries; spare = map_spare p.lasts; limit = p.limit } };

    ghost invariant = { λ p. (p.limit ≤ index_map_len p.emptied + map_spare p.emptied) × (p.limit ≤ index_map_len p.lasts + map_spare p.lasts) };
}

impl Pledges {
    /// No pledge has a grant, and `limit` pledges fit.
    pub(crate) fn new(alloc: Global, limit: usize) -> Result<Pledges, AllocError>
        ensures none { IfOk result (λ p. (id : Id) → known_of p.entries id ≡ None) }
        ensures limit { IfOk result (λ p. (p.limit ≡ limit) × (limit ≤ p.spare)) }
    {
        let lasts = IndexMap::with_capacity(alloc, limit)?;
        let emptied = IndexMap::with_capacity(alloc, limit)?;
        Ok(Pledges {
            lasts,
            emptied,
            limit,
        })
    }

    pub(crate) fn get(&self, id: PledgeId) -> Option<Last>
        ensures { result ≡ known_of self.now.entries id }
    {
        self.lasts.get(&id.0).copied()
    }

    /// Sets the last grant of a pledge. There is room where the pledge is new.
    pub(crate) fn set(&mut self, id: PledgeId, last: Last)
        requires { known_of self.old.entries id ≡ None → 0 < self.old.spare }
        ensures set { known_of self.new.entries id ≡ Some last }
        ensures others { (p : Id) → p ≢ id → known_of self.new.entries p ≡ known_of self.old.entries p }
        ensures limit { self.new.limit ≡ self.old.limit }
    {
        put(&mut self.lasts, id.0, last);
    }

    /// Makes room for one pledge more, where there is none.
    pub(crate) fn reserve(&mut self, queue: &Queue)
        requires { length queue.now.grants < self.old.limit }
        ensures room { 0 < self.new.spare }
        ensures kept { (g : AGrant) → Contains queue.now.grants g → known_of self.new.entries g.id ≡ known_of self.old.entries g.id }
        ensures others { (p : Id) → (known_of self.new.entries p ≡ known_of self.old.entries p) ⊎ (known_of self.new.entries p ≡ None) }
        ensures limit { self.new.limit ≡ self.old.limit }
    {
        if self.lasts.len() >= self.lasts.capacity() {
            self.keep_queued(queue);
        }
    }

    /// Forgets each pledge of which no grant is in the queue.
    pub(crate) fn keep_queued(&mut self, queue: &Queue)
        requires { length queue.now.grants < self.old.limit }
        ensures room { 0 < self.new.spare }
        ensures kept { (g : AGrant) → Contains queue.now.grants g → known_of self.new.entries g.id ≡ known_of self.old.entries g.id }
        ensures others { (p : Id) → (known_of self.new.entries p ≡ None) ⊎ ((g : AGrant) × Contains queue.now.grants g × (g.id ≡ p)) }
        ensures limit { self.new.limit ≡ self.old.limit }
    {
        self.emptied.clear();
        for place in 0..queue.len() {
            let grant = queue.at(place);
            carry_over(&self.lasts, &mut self.emptied, grant.id.0);
        }
        mem::swap(&mut self.lasts, &mut self.emptied);
    }
}

/// Sets what a map has at a key. There is room where the key is new.
fn put(map: &mut Map, key: [u8; 8], last: Last)
    requires { map_get bytes_eq map.old key ≡ None → 0 < map_spare map.old }
    ensures set { map_get bytes_eq map.new key ≡ Some last }
    ensures others { (q : List ℕ) → bytes_eq key q ≡ false → map_get bytes_eq map.new q ≡ map_get bytes_eq map.old q }
    ensures capacity { index_map_len map.old + map_spare map.old ≤ index_map_len map.new + map_spare map.new }
{
    match map.get_mut(&key) {
        Some(place) => *place = last,
        None => match map.insert(key, last) {
            Ok(_) => {},
            Err(_) => unreachable!(),
        },
    }
}

/// Copies what one map has at a key into another, which has it already or has nothing there.
fn carry_over(from: &Map, to: &mut Map, key: [u8; 8])
    requires room { 0 < map_spare to.old }
    requires agrees { (map_get bytes_eq to.old key ≡ map_get bytes_eq from.now key) ⊎ (map_get bytes_eq to.old key ≡ None) }
    ensures key { map_get bytes_eq to.new key ≡ map_get bytes_eq from.now key }
    ensures others { (q : List ℕ) → (q ≡ key) ⊎ (map_get bytes_eq to.new q ≡ map_get bytes_eq to.old q) }
    ensures spare { map_spare to.old ≤ map_spare to.new + 1 }
    ensures capacity { index_map_len to.old + map_spare to.old ≤ index_map_len to.new + map_spare to.new }
{
    if to.contains_key(&key) {
        return;
    }
    match from.get(&key) {
        None => {},
        Some(last) => match to.insert(key, *last) {
            Ok(_) => {},
            Err(_) => unreachable!(),
        },
    }
}
