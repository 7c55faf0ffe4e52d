//! The lock.
ghost use Rattle.std.specs.Prelude.{◌≡◌, ℕ, ◌≤◌, false, true, [], All, IfOk, IfErr, length, replicate};
ghost use mathlib.Core.Logic.{◌⊎◌};
ghost use Rattle.turn_lock.specs.Report.{GrowsTo};
ghost use Rattle.seat_sums.specs.Counts.{times, once_within};
ghost use Rattle.turn_lock.specs.Locks.{new_pass, with_turn, with_seen};
ghost use Rattle.turn_lock.specs.History.{IsReported, places_over};

use crate::closing::{Closing, new_seat};
use crate::held::Held;
use crate::new_table::make_table;
use crate::pass::Pass;
use crate::reports::Reports;
use crate::rule::{ByTurns, Start, View};
use crate::steps::{block_without_turns, share_seen, take_turn};
use edge_traits::NoMemory;
use std::alloc::Global;
use std::marker::Model;
use std::sync::Wait;

pub(crate) type Table<V> = atomic_table::Table<Option<V>, View<V>, Start<V>, ByTurns, Global>;

/// A value that one pass at a time has, in the order in which they asked for it.
#[derive(Drop)]
pub struct TurnLock<V: Reports> {
    pub(crate) table: Table<V>,
    pub(crate) passes: u32,
}

impl<V: Reports> Model for TurnLock<V> {
    ghost use Rattle.std.specs.Prelude.{◌≡◌, ◌≤◌};
    ghost use Rattle.turn_lock.specs.Locks.{LockView};

    ghost Value = { LockView V };

    ghost use Rattle.turn_lock.specs.Seated.{IsLaid, lock_of};

    ghost view = { λ t. lock_of t.table.shared.table_id t.table.shared.key };

    ghost invariant = { λ t. (t.passes ≡ t.table.shared.key.passes) × (1 ≤ t.passes) × IsLaid t.table.shared.table_id t.passes };
}

impl<V: Reports> TurnLock<V> {
    /// A lock over the value, and this number of passes. Each pass has seen the value as it is, and owns nothing.
    pub fn make(
        alloc: Global,
        value: V,
        passes: u32,
    ) -> Result<(TurnLock<V>, Vec<Pass<V>>), (V, NoMemory)>
        requires passes { (1 ≤ passes) × (passes ≤ 65535) }
        ensures lock { IfOk result (λ made. (made.0.passes ≡ passes) × (made.0.opening ≡ value)) }
        ensures passes { IfOk result (λ made. made.1.items ≡ replicate passes (new_pass made.0)) }
        ensures value { IfErr result (λ refused. refused.0 ≡ value) }
    {
        let (table, all) = make_table(alloc, value, passes)?;
        Ok((TurnLock { table, passes }, all))
    }

    /// Blocks until the pass's turn, and gives the value. It may block for ever, and does after 2^47 turns of one pass.
    pub fn take<R: Wait>(&self, rt: &R, pass: &mut Pass<V>) -> Held<'_, V>
        requires lock { pass.old.lock ≡ self.now }
        requires ended { pass.old.has_turn ≡ false }
        ensures held { result.lock ≡ self.now }
        ensures pass { pass.new ≡ with_turn pass.old result.value }
        ensures grown { GrowsTo (V.report pass.old.seen) (V.report result.value) }
        ensures origin { V.origin result.value ≡ V.origin self.now.opening }
    {
        block_without_turns(rt, pass.local.turns);
        let value = take_turn(rt, &self.table.shared, &mut pass.seat, self.passes);
        pass.local.turns += 1;
        Held { lock: self, value }
    }

    /// Reports to each of two passes what the other has seen: both then have seen the later value last. Nothing else changes, and
    /// neither does what a pass has seen that has the turn.
    pub fn share(&self, one: &mut Pass<V>, other: &mut Pass<V>)
        requires lock { (one.old.lock ≡ self.now) × (other.old.lock ≡ self.now) }
        requires ended { other.old.has_turn ≡ false }
        ensures one { one.new ≡ with_seen one.old one.new.seen }
        ensures other { other.new ≡ with_seen other.old one.new.seen }
        ensures later { (one.new.seen ≡ one.old.seen) ⊎ (one.new.seen ≡ other.old.seen) }
        ensures turn { one.old.has_turn ≡ true → one.new.seen ≡ one.old.seen }
        ensures grown { GrowsTo (V.report one.old.seen) (V.report one.new.seen) × GrowsTo (V.report other.old.seen) (V.report one.new.seen) }
    {
        share_seen(&self.table.shared, &mut one.seat, &mut other.seat);
    }

    /// Begins the end of the lock, which then takes its passes back one by one.
    pub fn close(self) -> Closing<V>
        ensures lock { result.lock ≡ self }
        ensures passes { result.passes ≡ [] }
    {
        let TurnLock { table, passes } = self;
        let seat = new_seat(&table.shared);
        Closing {
            table,
            seat,
            passes,
        }
    }

    /// Ends the lock, and gives the value as the last holding left it.
    pub fn finish(self, mut passes: Vec<Pass<V>>) -> V
        requires lock { All (λ pass. pass.lock ≡ self) passes.items }
        requires ended { All (λ pass. pass.has_turn ≡ false) passes.items }
        requires all { length passes.items ≡ self.passes }
        ensures grown { GrowsTo (V.report self.opening) (V.report result) }
        ensures origin { V.origin result ≡ V.origin self.opening }
        ensures seen { All (λ pass. GrowsTo (V.report pass.seen) (V.report result)) passes.items }
        ensures reports { IsReported V.report V.origin self.opening result passes.items }
        ensures places { (place : ℕ) → times place (places_over V.report passes.items) ≡ once_within (length (V.report self.opening).items) (length (V.report result).items) place }
    {
        let mut closing = self.close();
        while let Some(pass) = passes.pop() {
            let next = closing.take_back(pass);
            closing = next;
        }
        closing.finish()
    }
}
