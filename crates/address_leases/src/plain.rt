//! The leases as plain lists. It has the contract of the leases by indices, to which it is compared.
ghost use Rattle.std.specs.Prelude.{◌≡◌, ◌↔◌, ℕ, ◌+◌, ◌<◌, ◌≤◌, List, length, Option, Some, None, IsTrue, IfOk, slice_get, replicate, false};
ghost use Rattle.std.specs.Vec.{vec_capacity};
ghost use Rattle.edge_traits.specs.declared.names.PledgeId.{PledgeId as Id};
ghost use Rattle.address_leases.specs.declared.grant.Grant.{Grant as AGrant};
ghost use Rattle.address_leases.specs.Grants.{Holds};
ghost use Rattle.address_leases.specs.Lent.{Lent, last_of, IsAnswer, IsLiveAddress};
ghost use Rattle.address_leases.specs.Steps.{IsEmpty, Gives, Passes, Releases};
ghost use Rattle.address_leases.specs.Indices.{IsFreeAnswer};
ghost use Rattle.address_leases.specs.Plain.{ArePlain, AreMarks, IsAgainst};

use crate::grant::{Grant, is_held, is_over};
use edge_traits::{NoMemory, PledgeId};
use std::alloc::{AllocError, Global};
use std::marker::Model;

/// How many addresses there are, 0x0000 and 0xffff among them.
const ADDRESSES: usize = 65536;

/// Which pledge holds which address. Each question is a walk over all grants.
#[derive(Drop)]
pub(crate) struct Plain {
    grants: Vec<Grant>,
    /// The last grant to each pledge, where it is kept.
    lasts: Vec<Grant>,
    passed: u64,
    room: u32,
}

impl Model for Plain {
    ghost Value = { Lent };

    ghost view = { λ p. record { grants = p.grants.items; lasts = p.lasts.items; passed = p.passed; room = p.room } };

    ghost invariant = { λ p. ArePlain p.grants.items p.lasts.items p.room (vec_capacity p.grants) (vec_capacity p.lasts) };
}

impl Plain {
    pub(crate) fn empty(alloc: Global, grants: u32) -> Result<Plain, NoMemory>
        ensures { IfOk result (IsEmpty grants) }
    {
        match Plain::make(alloc, grants) {
            Ok(plain) => Ok(plain),
            Err(_) => Err(NoMemory),
        }
    }

    fn make(alloc: Global, room: u32) -> Result<Plain, AllocError>
        ensures { IfOk result (IsEmpty room) }
    {
        let grants = Vec::with_capacity(alloc, room as usize)?;
        let lasts = Vec::with_capacity(alloc, room as usize)?;
        Ok(Plain {
            grants,
            lasts,
            passed: 0,
            room,
        })
    }

    pub(crate) fn ask(&self, id: PledgeId, first: u16, count: u16, now: u64) -> Option<u16>
        requires pool { (1 ≤ first) × (first + count ≤ 65534) }
        requires time { self.now.passed ≤ now }
        ensures { IsAnswer self.now first count now id result }
    {
        match self.live(id, now) {
            Some(address) => Some(address),
            None => self.least_free(id, first, count, now),
        }
    }

    /// The least address of the pool that no other pledge holds.
    fn least_free(&self, id: PledgeId, first: u16, count: u16, now: u64) -> Option<u16>
        requires { first + count ≤ 65534 }
        ensures { IsFreeAnswer self.now.grants first count now id result }
    {
        let mut marks = [false; ADDRESSES];
        mark(&mut marks, self.grants.as_slice(), id, now);
        first_clear(&marks, first, count)
    }

    pub(crate) fn holds(&self, id: PledgeId, address: u16, now: u64) -> bool
        requires { self.now.passed ≤ now }
        ensures { IsTrue result ↔ Holds self.now.grants now address id }
    {
        self.grants
            .iter()
            .any(|grant| is_held(grant, address, now) && grant.id == id)
    }

    pub(crate) fn live(&self, id: PledgeId, now: u64) -> Option<u16>
        requires { self.now.passed ≤ now }
        ensures { IsLiveAddress self.now now id result }
    {
        match find_last(self.lasts.as_slice(), id) {
            None => None,
            Some(last) => if last.until > now {
                Some(last.address)
            } else {
                None
            },
        }
    }

    pub(crate) fn grant(&mut self, id: PledgeId, address: u16, until: u64)
        requires { 0 < self.old.room }
        ensures { Gives (record { until = until; address = address; id = id }) self.old self.new }
    {
        let grant = Grant { until, address, id };
        self.lasts.retain(|last| last.id != id);
        self.lasts.push_reserved(grant);
        self.grants.push_reserved(grant);
        self.room -= 1;
    }

    pub(crate) fn kept(&self) -> u32
        ensures { result ≡ length self.now.grants }
    {
        self.grants.len() as u32
    }

    pub(crate) fn kept_at(&self, at: u32) -> (PledgeId, u16, u64)
        requires { at < length self.now.grants }
        ensures { slice_get self.now.grants at ≡ Some (record { until = result.2; address = result.1; id = result.0 }) }
    {
        let grant = self.grants[at as usize];
        (grant.id, grant.address, grant.until)
    }

    pub(crate) fn pass(&mut self, time: u64)
        requires { self.old.passed ≤ time }
        ensures { Passes time self.old self.new }
    {
        let before = self.grants.len();
        self.grants.retain(|grant| !is_over(grant.until, time));
        self.lasts.retain(|last| !is_over(last.until, time));
        self.room += (before - self.grants.len()) as u32;
        self.passed = time;
    }

    pub(crate) fn release(&mut self, id: PledgeId)
        ensures { Releases id self.old self.new }
    {
        let before = self.grants.len();
        self.grants.retain(|grant| grant.id != id);
        self.lasts.retain(|last| last.id != id);
        self.room += (before - self.grants.len()) as u32;
    }
}

/// The last grant to the pledge.
fn find_last(lasts: &[Grant], id: PledgeId) -> Option<Grant>
    ensures { result ≡ last_of lasts.now id }
{
    let mut rest = lasts;
    while let Some((first, after)) = rest.split_first() {
        if id == first.id {
            return Some(*first);
        }
        rest = after;
    }
    None
}

/// Marks each address that another pledge holds.
fn mark(marks: &mut [bool], grants: &[Grant], id: PledgeId, now: u64)
    requires { marks.old ≡ replicate 65536 false }
    ensures len { length marks.new ≡ 65536 }
    ensures marks { AreMarks marks.new grants.now now id }
{
    for grant in grants {
        if is_against(grant, id, now) {
            marks[grant.address as usize] = true;
        }
    }
}

/// Whether the grant keeps its address from the pledge at `now`.
fn is_against(grant: &Grant, id: PledgeId, now: u64) -> bool
    ensures { IsTrue result ↔ IsAgainst grant.now now id }
{
    grant.id != id && !is_over(grant.until, now)
}

/// The first address of the pool without a mark.
fn first_clear(marks: &[bool], first: u16, count: u16) -> Option<u16>
    requires { (first + count ≤ 65534) × (length marks.now ≡ 65536) }
    ensures { (grants : List AGrant) (t : ℕ) (p : Id) → AreMarks marks.now grants t p → IsFreeAnswer grants first count t p result }
{
    for address in first..first + count {
        if !marks[address as usize] {
            return Some(address);
        }
    }
    None
}
