//! The pledges that may still be owed the keys of an epoch, by ascending identifiers.
ghost use Rattle.std.specs.Prelude.{◌≡◌, ℕ, ◌+◌, ◌<◌, ◌≤◌, List, [], ◌∷◌, ◌++◌, IfOk, MatchOption, MatchResult, Contains, length, get_or};
ghost use Rattle.rekey_core.specs.declared.waiter.Waiter.{Waiter as AWaiter};
ghost use Rattle.rekey_core.specs.Queue.{IsAscending, Ends, IsLeastAfter, IsPlaceOf, IsGapFor};

use crate::maxima::Maxima;
use crate::waiter::Waiter;
use edge_traits::NoMemory;
use std::alloc::Global;
use std::marker::Model;

/// The pledges that may still be owed the keys of an epoch, each with the end of its lease. A pledge
/// is removed, and the first one whose lease ends after a time is found, in logarithmic time. In
/// contracts it is the list of the pledges, and how many fit.
#[derive(Drop)]
pub struct UpdateQueue {
    waiters: Vec<Waiter>,
    ends: Maxima,
    limit: u32,
}

impl Model for UpdateQueue {
    ghost use Rattle.std.specs.Prelude.{◌≤◌, vec_capacity};
    ghost use Rattle.rekey_core.specs.Queue.{Queued, IsQueue};

    ghost Value = { Queued };

    ghost view = { λ q. record { waiters = q.waiters.items; limit = q.limit } };

    ghost invariant = { λ q. IsQueue q.waiters.items q.ends q.limit × (q.limit ≤ vec_capacity q.waiters) };
}

impl UpdateQueue {
    /// No pledge waits, and there is room for `pledges` of them. It takes memory.
    pub fn empty(alloc: Global, pledges: u32) -> Result<UpdateQueue, NoMemory>
        ensures none { IfOk result (λ q. q.waiters ≡ []) }
        ensures limit { IfOk result (λ q. q.limit ≡ pledges) }
    {
        let ends = Maxima::empty(alloc, pledges)?;
        match Vec::with_capacity(alloc, pledges as usize) {
            Ok(waiters) => Ok(UpdateQueue {
                waiters,
                ends,
                limit: pledges,
            }),
            Err(_) => Err(NoMemory),
        }
    }

    /// Adds a pledge whose number is greater than each one that is there.
    pub fn push(&mut self, number: u64, until: u64)
        requires above { (w : AWaiter) → Contains self.old.waiters w → w.number < number }
        requires room { length self.old.waiters < self.old.limit }
        ensures pushed { self.new.waiters ≡ self.old.waiters ++ record { number = number; until = until } ∷ [] }
        ensures limit { self.new.limit ≡ self.old.limit }
    {
        self.ends.set(self.waiters.len(), until);
        self.waiters.push_reserved(Waiter { number, until });
    }

    /// Removes all pledges, in linear time.
    pub fn clear(&mut self)
        ensures none { self.new.waiters ≡ [] }
        ensures limit { self.new.limit ≡ self.old.limit }
    {
        erase(&mut self.ends, self.waiters.len());
        self.waiters.clear();
    }

    /// The pledge waits no more.
    pub fn remove(&mut self, number: u64)
        ensures ends { Ends number self.old.waiters self.new.waiters }
        ensures limit { self.new.limit ≡ self.old.limit }
    {
        match find(&self.waiters, number) {
            Ok(place) => {
                self.waiters[place] = Waiter { number, until: 0 };
                self.ends.set(place, 0);
            }
            Err(_) => {}
        }
    }

    /// The least number of a pledge whose lease ends after `now`.
    pub fn first_after(&self, now: u64) -> Option<u64>
        ensures { MatchOption result ((w : AWaiter) → Contains self.now.waiters w → w.until ≤ now) (IsLeastAfter self.now.waiters now) }
    {
        match self.ends.first_over(now) {
            Some(place) => Some(self.waiters[place].number),
            None => None,
        }
    }
}

/// Sets the numbers of the first places to 0, where those after them are 0.
fn erase(ends: &mut Maxima, count: usize)
    requires inside { count ≤ length ends.old }
    requires past { (k : ℕ) → count ≤ k → get_or ends.old k 0 ≡ 0 }
    ensures zero { (k : ℕ) → get_or ends.new k 0 ≡ 0 }
    ensures places { length ends.new ≡ length ends.old }
{
    for place in 0..count {
        ends.set(place, 0);
    }
}

/// The place of the number, or else the place that it would have.
fn find(waiters: &[Waiter], number: u64) -> Result<usize, usize>
    ensures inside { MatchResult result (λ i. i < length waiters.now) (λ i. i ≤ length waiters.now) }
    ensures finds { IsAscending waiters.now → MatchResult result (IsPlaceOf waiters.now number) (λ _. IsGapFor waiters.now number) }
{
    let place = waiters.partition_point(|w| w.number < number);
    match waiters.get(place) {
        Some(w) => if w.number == number {
            Ok(place)
        } else {
            Err(place)
        },
        None => Err(place),
    }
}
