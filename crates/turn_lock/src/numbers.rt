//! A list of numbers under the lock: the smallest use, on which each call is shown.
ghost use Rattle.std.specs.Prelude.{◌≡◌, ℕ, ◌+◌, ◌-◌, ◌^◌, ◌++◌, ◌∷◌, [], ◌≤◌, All, IfOk, IfSome, MatchOption, false, length, max, min, vec_capacity};
ghost use Rattle.turn_lock.specs.Report.{GrowsTo};
ghost use Rattle.turn_lock.specs.History.{IsReported, places_over};
ghost use Rattle.turn_lock.specs.Numbers.{report_of, name_of, IsLastAt, AddedOne};
ghost use Rattle.seat_sums.specs.Counts.{times, once_within};

use crate::lock::TurnLock;
use crate::pass::Pass;
use crate::reports::Reports;
use edge_traits::NoMemory;
use std::alloc::Global;
use std::sync::Wait;

/// Numbers in the order in which they came, how many were tried, and the largest of these. The name is the origin.
#[derive(Drop)]
pub struct Numbers {
    pub items: Vec<u64>,
    pub tries: u64,
    pub most: u64,
    pub name: u64,
}

impl Reports for Numbers {
    type Item = u64;

    type Origin = u64;

    ghost use Rattle.turn_lock.specs.Numbers.{report_of, name_of};

    ghost report = { report_of };

    ghost origin = { name_of };
}

impl Numbers {
    /// No numbers, with room for this many.
    pub fn new(alloc: Global, name: u64, room: usize) -> Result<Numbers, NoMemory>
        ensures empty { IfOk result (λ numbers. numbers.items.items ≡ []) }
        ensures room { IfOk result (λ numbers. room ≤ vec_capacity numbers.items) }
        ensures none { IfOk result (λ numbers. (numbers.tries ≡ 0) × (numbers.most ≡ 0)) }
        ensures name { IfOk result (λ numbers. numbers.name ≡ name) }
    {
        Ok(Numbers {
            items: Vec::with_capacity(alloc, room)?,
            tries: 0,
            most: 0,
            name,
        })
    }

    /// Adds a number where there is memory, and gives its place.
    pub fn push(&mut self, number: u64) -> Option<usize>
        ensures items { MatchOption result (self.new.items.items ≡ self.old.items.items) (λ place. (place ≡ length self.old.items.items) × (self.new.items.items ≡ self.old.items.items ++ number ∷ [])) }
        ensures tries { self.new.tries ≡ min (self.old.tries + 1) (2 ^ 64 - 1) }
        ensures most { self.new.most ≡ max self.old.most number }
        ensures name { self.new.name ≡ self.old.name }
    {
        self.tries = self.tries.saturating_add(1);
        self.most = self.most.max(number);
        let place = self.items.len();
        match self.items.push(number) {
            Ok(()) => Some(place),
            Err(_) => None,
        }
    }
}

/// Adds a number in a holding of its own, and gives its place.
pub fn add<R: Wait>(
    rt: &R,
    lock: &TurnLock<Numbers>,
    pass: &mut Pass<Numbers>,
    number: u64,
) -> Option<usize>
    requires lock { pass.old.lock ≡ lock.now }
    requires ended { pass.old.has_turn ≡ false }
    ensures lock { pass.new.lock ≡ lock.now }
    ensures ended { pass.new.has_turn ≡ false }
    ensures grown { GrowsTo (report_of pass.old.seen) (report_of pass.new.seen) }
    ensures turn { AddedOne pass.old pass.new number result }
    ensures last { IfSome result (λ place. IsLastAt pass.new.seen.items.items place number) }
{
    let mut held = lock.take(rt, pass);
    let place = held.value().push(number);
    held.give(pass);
    place
}

/// Ends the lock, and gives the numbers as the last holding left them.
pub fn end(lock: TurnLock<Numbers>, passes: Vec<Pass<Numbers>>) -> Numbers
    requires lock { All (λ pass. pass.lock ≡ lock) passes.items }
    requires ended { All (λ pass. pass.has_turn ≡ false) passes.items }
    requires all { length passes.items ≡ lock.passes }
    ensures seen { All (λ pass. GrowsTo (report_of pass.seen) (report_of result)) passes.items }
    ensures name { result.name ≡ lock.opening.name }
    ensures reports { IsReported report_of name_of lock.opening result passes.items }
    ensures places { (place : ℕ) → times place (places_over report_of passes.items) ≡ once_within (length lock.opening.items.items) (length result.items.items) place }
{
    lock.finish(passes)
}
