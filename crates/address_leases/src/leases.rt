//! The leases by their indices.
ghost use Rattle.std.specs.Prelude.{◌≡◌, ◌≢◌, ◌↔◌, ◌⊎◌, ℕ, ◌+◌, ◌*◌, ◌<◌, ◌≤◌, List, [], ◌∷◌, length, Option, Some, None, IsTrue, IfOk, IfErr, Contains, map, false, slice_get};
ghost use Rattle.edge_traits.specs.declared.names.PledgeId.{PledgeId as Id};
ghost use Rattle.address_leases.specs.declared.grant.Grant.{Grant as AGrant};
ghost use Rattle.address_leases.specs.Grants.{Holds, IsHeldByAnother, IsInPool, IsLeastFree, IsNoneFree};
ghost use Rattle.address_leases.specs.Lent.{Lent, IsAnswer, IsLiveAddress};
ghost use Rattle.address_leases.specs.Steps.{IsEmpty, Gives, Passes, Releases};
ghost use Rattle.address_leases.specs.Indices.{last_grant, AreIndices, IsLastOf, IsTopOf, top_at, IsLeastUpTo, IsFreeAnswer};

use crate::grant::{Grant, is_over};
use crate::pledges::{Last, Pledges};
use crate::queue::Queue;
use crate::top::raise;
use crate::tops::Tops;
use edge_traits::{NoMemory, PledgeId};
use std::alloc::{AllocError, Global};
use std::marker::Model;

/// Which pledge holds which address. In contracts it is the grants that are kept, each pledge's
/// last lease, the time of the last `pass`, and the room that is left.
#[derive(Drop)]
pub struct Leases {
    queue: Queue,
    tops: Tops,
    pledges: Pledges,
    passed: u64,
}

impl Model for Leases {
    ghost Value = { Lent };

    ghost view = { λ l. record { grants = l.queue.grants; lasts = map last_grant l.pledges.entries; passed = l.passed; room = l.queue.room } };

    ghost invariant = { λ l. AreIndices l.queue l.tops l.pledges l.passed };
}

impl Leases {
    /// No grant, and room for `grants` of them.
    pub fn empty(alloc: Global, grants: u32) -> Result<Leases, NoMemory>
        ensures { IfOk result (IsEmpty grants) }
    {
        match Leases::make(alloc, grants) {
            Ok(leases) => Ok(leases),
            Err(_) => Err(NoMemory),
        }
    }

    fn make(alloc: Global, grants: u32) -> Result<Leases, AllocError>
        ensures { IfOk result (IsEmpty grants) }
    {
        let queue = Queue::new(alloc, grants)?;
        let tops = Tops::new(alloc)?;
        let pledges = Pledges::new(alloc, grants as usize * 2 + 1)?;
        Ok(Leases {
            queue,
            tops,
            pledges,
            passed: 0,
        })
    }

    /// The address that a Join of the pledge gets from the `count` addresses from `first` on: its
    /// live one, or else the least that no other pledge holds.
    pub fn ask(&self, id: PledgeId, first: u16, count: u16, now: u64) -> Option<u16>
        requires pool { (1 ≤ first) × (first + count ≤ 65534) }
        requires time { self.now.passed ≤ now }
        ensures { IsAnswer self.now first count now id result }
    {
        match self.live(id, now) {
            Some(address) => Some(address),
            None => self.least_free(id, first, count, now),
        }
    }

    /// Whether the pledge holds the address.
    pub fn holds(&self, id: PledgeId, address: u16, now: u64) -> bool
        requires { self.now.passed ≤ now }
        ensures { IsTrue result ↔ Holds self.now.grants now address id }
    {
        match self.tops.get(address) {
            None => false,
            Some(top) => {
                if is_over(top.until, now) {
                    false
                } else if top.id == id {
                    true
                } else {
                    top.shared && self.queue.holds(id, address, now)
                }
            },
        }
    }

    /// Whether another pledge holds the address.
    fn is_held_by_another(&self, id: PledgeId, address: u16, now: u64) -> bool
        requires { self.now.passed ≤ now }
        ensures { IsTrue result ↔ IsHeldByAnother self.now.grants now address id }
    {
        match self.tops.get(address) {
            None => false,
            Some(top) => {
                if is_over(top.until, now) {
                    false
                } else if top.id == id {
                    top.shared && self.queue.holds_for_another(id, address, now)
                } else {
                    true
                }
            },
        }
    }

    /// The live address of the pledge.
    pub fn live(&self, id: PledgeId, now: u64) -> Option<u16>
        requires { self.now.passed ≤ now }
        ensures { IsLiveAddress self.now now id result }
    {
        match self.pledges.get(id) {
            None => None,
            Some(last) => if last.until > now {
                Some(last.address)
            } else {
                None
            },
        }
    }

    /// Grants the pledge an address until a second. There is room for a grant.
    pub fn grant(&mut self, id: PledgeId, address: u16, until: u64)
        requires { 0 < self.old.room }
        ensures { Gives (record { until = until; address = address; id = id }) self.old self.new }
    {
        let grant = Grant { until, address, id };
        let last = self.last_after(grant);
        let top = raise(self.tops.get(address), grant, self.passed);
        self.pledges.reserve(&self.queue);
        self.pledges.set(id, last);
        self.tops.set(address, top);
        self.queue.push(grant);
    }

    /// How many grants are kept.
    pub fn kept(&self) -> u32
        ensures { result ≡ length self.now.grants }
    {
        self.queue.len()
    }

    /// The pledge, the address and the end of a grant that is kept, in no order.
    pub fn kept_at(&self, at: u32) -> (PledgeId, u16, u64)
        requires { at < length self.now.grants }
        ensures { slice_get self.now.grants at ≡ Some (record { until = result.2; address = result.1; id = result.0 }) }
    {
        let grant = self.queue.at(at);
        (grant.id, grant.address, grant.until)
    }

    /// Forgets the grants that hold their address no longer at `time`. Their room is spare again.
    pub fn pass(&mut self, time: u64)
        requires { self.old.passed ≤ time }
        ensures { Passes time self.old self.new }
    {
        self.queue.forget_over(time);
        self.passed = time;
    }

    /// Forgets the grants of the pledge.
    pub fn release(&mut self, id: PledgeId)
        ensures { Releases id self.old self.new }
    {
        self.queue.forget_pledge(id);
        self.pledges.keep_queued(&self.queue);
        raise_all(&mut self.tops, &self.queue, self.passed);
    }

    /// What is known of a pledge after one more grant.
    fn last_after(&self, grant: Grant) -> Last
        ensures grants { IsLastOf (grant ∷ self.now.grants) self.now.passed grant.id (Some result) }
        ensures lease { (result.address ≡ grant.address) × (result.until ≡ grant.until) }
    {
        match self.pledges.get(grant.id) {
            None => Last {
                address: grant.address,
                until: grant.until,
                previous: None,
                more: false,
            },
            Some(last) => self.next_last(last, grant),
        }
    }

    fn next_last(&self, last: Last, grant: Grant) -> Last
        requires { IsLastOf self.now.grants self.now.passed grant.id (Some last) }
        ensures grants { IsLastOf (grant ∷ self.now.grants) self.now.passed grant.id (Some result) }
        ensures lease { (result.address ≡ grant.address) × (result.until ≡ grant.until) }
    {
        let (previous, more) = if last.address == grant.address {
            (last.previous, last.more)
        } else {
            (
                Some(last.address),
                last.more || self.is_lost(last.previous, grant.address),
            )
        };
        Last {
            address: grant.address,
            until: grant.until,
            previous,
            more,
        }
    }

    /// Whether an address that is no longer remembered may have grants.
    fn is_lost(&self, previous: Option<u16>, address: u16) -> bool
        ensures { result ≡ false → (g : AGrant) → Contains self.now.grants g → self.now.passed < g.until + 3600 → previous ≡ Some g.address → g.address ≡ address }
    {
        match previous {
            None => false,
            Some(previous) => {
                if previous == address {
                    false
                } else {
                    match self.tops.get(previous) {
                        None => false,
                        Some(top) => !is_over(top.until, self.passed),
                    }
                }
            },
        }
    }

    /// The least address of the pool that no other pledge holds.
    fn least_free(&self, id: PledgeId, first: u16, count: u16, now: u64) -> Option<u16>
        requires pool { first + count ≤ 65534 }
        requires time { self.now.passed ≤ now }
        ensures { IsFreeAnswer self.now.grants first count now id result }
    {
        match self.pledges.get(id) {
            None => self.tops.first_over(first, count, now),
            Some(last) => {
                if last.more {
                    self.walk(id, first, count, now)
                } else {
                    let over = self.tops.first_over(first, count, now);
                    let with_last = self.lesser(over, last.address, id, first, count, now);
                    match last.previous {
                        None => with_last,
                        Some(previous) => self.lesser(with_last, previous, id, first, count, now),
                    }
                }
            },
        }
    }

    /// The address, where it is a lesser one of the pool that no other pledge holds, or else the
    /// one found so far.
    fn lesser(
        &self,
        found: Option<u16>,
        address: u16,
        id: PledgeId,
        first: u16,
        count: u16,
        now: u64,
    ) -> Option<u16>
        requires { self.now.passed ≤ now }
        ensures { (seen : List ℕ) → IsLeastUpTo self.now.grants first count now id seen found → IsLeastUpTo self.now.grants first count now id (address ∷ seen) result }
    {
        if is_in_pool(address, first, count) {
            if self.is_held_by_another(id, address, now) {
                found
            } else {
                match found {
                    None => Some(address),
                    Some(least) => if least < address {
                        found
                    } else {
                        Some(address)
                    },
                }
            }
        } else {
            found
        }
    }

    /// The same by a walk over the pool.
    fn walk(&self, id: PledgeId, first: u16, count: u16, now: u64) -> Option<u16>
        requires pool { first + count ≤ 65534 }
        requires time { self.now.passed ≤ now }
        ensures { IsFreeAnswer self.now.grants first count now id result }
    {
        for address in first..first + count {
            if !self.is_held_by_another(id, address, now) {
                return Some(address);
            }
        }
        None
    }
}

/// The tops of the grants in the queue, made anew.
fn raise_all(tops: &mut Tops, queue: &Queue, passed: u64)
    ensures { (a : ℕ) → IsTopOf queue.now.grants passed a (top_at tops.new a) }
{
    tops.clear();
    for place in 0..queue.len() {
        let grant = queue.at(place);
        let top = raise(tops.get(grant.address), grant, passed);
        tops.set(grant.address, top);
    }
}

fn is_in_pool(address: u16, first: u16, count: u16) -> bool
    ensures { IsTrue result ↔ IsInPool first count address }
{
    address >= first && address - first < count
}
