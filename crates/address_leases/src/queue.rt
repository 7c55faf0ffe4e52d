//! The grants that are kept, the one that ends first at the head.
ghost use Rattle.std.specs.Prelude.{◌≡◌, ◌≢◌, ◌↔◌, ℕ, ◌+◌, ◌<◌, ◌≤◌, List, [], ◌∷◌, length, map, filter, Any, IsTrue, IfOk, MatchOption, slice_get, Some};
ghost use Rattle.std.specs.List.Sorted.{IsPermutation};
ghost use Rattle.std.specs.BinaryHeap.{heap_items, heap_len, heap_capacity};
ghost use Rattle.address_leases.specs.declared.grant.Grant.{Grant as AGrant};
ghost use Rattle.address_leases.specs.Indices.{Queued, IsQueue, IsHolding, grant_of, Pops};
ghost use Rattle.address_leases.specs.Steps.{is_kept, is_of_another};
ghost use Rattle.address_leases.specs.Grants.{Holds, IsHeldByAnother};

use crate::grant::{Grant, is_held, is_over};
use edge_traits::PledgeId;
use std::alloc::{AllocError, Global};
use std::cmp::Reverse;
use std::collections::BinaryHeap;
use std::marker::Model;

/// A queue of grants by their ends. In contracts it is the list of the grants and how many more
/// fit.
#[derive(Drop)]
pub(crate) struct Queue {
    heap: BinaryHeap<Reverse<Grant>>,
    room: u32,
}

impl Model for Queue {
    ghost Value = { Queued };

    ghost view = { λ q. record { grants = map grant_of (heap_items q.heap); room = q.room } };

    ghost invariant = { λ q. IsQueue (heap_items q.heap) (heap_len q.heap) (heap_capacity q.heap) q.room };
}

impl Queue {
    /// An empty queue with room for `capacity` grants.
    pub(crate) fn new(alloc: Global, capacity: u32) -> Result<Queue, AllocError>
        ensures none { IfOk result (λ q. q.grants ≡ []) }
        ensures room { IfOk result (λ q. q.room ≡ capacity) }
    {
        let heap = BinaryHeap::with_capacity(alloc, capacity as usize)?;
        Ok(Queue {
            heap,
            room: capacity,
        })
    }

    pub(crate) fn len(&self) -> u32
        ensures { result ≡ length self.now.grants }
    {
        self.heap.len() as u32
    }

    /// The grant at this place, in no order.
    pub(crate) fn at(&self, place: u32) -> Grant
        requires { place < length self.now.grants }
        ensures { slice_get self.now.grants place ≡ Some result }
    {
        self.heap.as_slice()[place as usize].0
    }

    /// Adds a grant where there is room.
    pub(crate) fn push(&mut self, grant: Grant)
        requires { 0 < self.old.room }
        ensures grants { IsPermutation (grant ∷ self.old.grants) self.new.grants }
        ensures room { self.old.room ≡ self.new.room + 1 }
    {
        match self.heap.push(Reverse(grant)) {
            Ok(()) => self.room -= 1,
            Err(_) => unreachable!(),
        }
    }

    /// Takes out a grant that is over at `time`, if there is any.
    fn pop_over(&mut self, time: u64) -> Option<Grant>
        ensures { Pops time self.old result self.new }
    {
        let Some(first) = self.heap.peek() else {
            return None;
        };
        if is_over(first.0.until, time) {
            match self.heap.pop() {
                None => None,
                Some(grant) => {
                    self.room += 1;
                    Some(grant.0)
                },
            }
        } else {
            None
        }
    }

    /// Takes out each grant that is over at `time`.
    pub(crate) fn forget_over(&mut self, time: u64)
        ensures grants { IsPermutation (filter (is_kept time) self.old.grants) self.new.grants }
        ensures room { length self.new.grants + self.new.room ≡ length self.old.grants + self.old.room }
    {
        while self.pop_over(time).is_some() {}
    }

    /// Takes out each grant to the pledge.
    pub(crate) fn forget_pledge(&mut self, id: PledgeId)
        ensures grants { IsPermutation (filter (is_of_another id) self.old.grants) self.new.grants }
        ensures room { length self.new.grants + self.new.room ≡ length self.old.grants + self.old.room }
    {
        let before = self.heap.len();
        self.heap.retain(|grant| grant.0.id != id);
        self.room += (before - self.heap.len()) as u32;
    }

    /// Whether some grant holds the address for the pledge at `now`. It walks over all grants.
    pub(crate) fn holds(&self, id: PledgeId, address: u16, now: u64) -> bool
        ensures { IsTrue result ↔ Holds self.now.grants now address id }
    {
        any_holds(self.heap.as_slice(), id, address, now)
    }

    /// Whether some grant holds the address for another pledge at `now`. It walks over all grants.
    pub(crate) fn holds_for_another(&self, id: PledgeId, address: u16, now: u64) -> bool
        ensures { IsTrue result ↔ IsHeldByAnother self.now.grants now address id }
    {
        any_holds_for_another(self.heap.as_slice(), id, address, now)
    }
}

fn any_holds(grants: &[Reverse<Grant>], id: PledgeId, address: u16, now: u64) -> bool
    ensures { IsTrue result ↔ Any (λ r. IsHolding now address r.0 × (r.0.id ≡ id)) grants.now }
{
    grants.iter().any(|grant| is_held(&grant.0, address, now) && grant.0.id == id)
}

fn any_holds_for_another(grants: &[Reverse<Grant>], id: PledgeId, address: u16, now: u64) -> bool
    ensures { IsTrue result ↔ Any (λ r. IsHolding now address r.0 × (r.0.id ≢ id)) grants.now }
{
    grants.iter().any(|grant| is_held(&grant.0, address, now) && grant.0.id != id)
}
