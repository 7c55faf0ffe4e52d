//! The end of a lock, which takes its passes back.
ghost use Rattle.std.specs.Prelude.{◌≡◌, ℕ, ◌<◌, ◌≤◌, false, [], All, length};
ghost use Rattle.turn_lock.specs.Report.{GrowsTo};
ghost use Rattle.seat_sums.specs.Counts.{times, once_within};
ghost use Rattle.turn_lock.specs.Views.{spent_view, both_views};
ghost use Rattle.turn_lock.specs.Seated.{IsLaid};
ghost use Rattle.turn_lock.specs.History.{EndsWith, IsReported, places_over};
ghost use Rattle.turn_lock.specs.Locks.{with_pass};

use crate::lock::Table;
use crate::pass::{Pass, Seat};
use crate::reports::Reports;
use crate::rule::{Come, Together};
use crate::steps::Words;
use std::marker::Model;

/// A lock that nobody takes any more. It takes back its passes one by one, and needs no memory for it.
#[derive(Drop)]
pub struct Closing<V: Reports> {
    pub(crate) table: Table<V>,
    pub(crate) seat: Seat<V>,
    pub(crate) passes: u32,
}

impl<V: Reports> Model for Closing<V> {
    ghost use Rattle.std.specs.Prelude.{◌≡◌, ◌≤◌};
    ghost use Rattle.turn_lock.specs.Locks.{ClosingView};

    ghost Value = { ClosingView V };

    ghost use Rattle.turn_lock.specs.Seated.{IsLaid, IsClosing, lock_of, passes_back};

    ghost view = { λ c. record { lock = lock_of c.table.shared.table_id c.table.shared.key; passes = passes_back (lock_of c.table.shared.table_id c.table.shared.key) c.seat.me.0 } };

    ghost invariant = { λ c. (c.passes ≡ c.table.shared.key.passes) × (1 ≤ c.passes) × IsLaid c.table.shared.table_id c.passes × (c.seat.table_id ≡ c.table.shared.table_id) × IsClosing (lock_of c.table.shared.table_id c.table.shared.key) c.seat.me };
}

impl<V: Reports> Closing<V> {
    /// Takes a pass back.
    pub fn take_back(self, pass: Pass<V>) -> Closing<V>
        requires lock { pass.lock ≡ self.lock }
        requires ended { pass.has_turn ≡ false }
        ensures { result ≡ with_pass self pass }
    {
        let Closing {
            table,
            mut seat,
            passes,
        } = self;
        hand_in(&table.shared, &mut seat, pass.seat);
        Closing {
            table,
            seat,
            passes,
        }
    }

    /// Ends the lock, and gives the value as the last holding left it, where all passes came back.
    pub fn finish(self) -> V
        requires all { length self.passes ≡ self.lock.passes }
        ensures grown { GrowsTo (V.report self.lock.opening) (V.report result) }
        ensures origin { V.origin result ≡ V.origin self.lock.opening }
        ensures seen { All (λ pass. GrowsTo (V.report pass.seen) (V.report result)) self.passes }
        ensures reports { IsReported V.report V.origin self.lock.opening result self.passes }
        ensures places { (place : ℕ) → times place (places_over V.report self.passes) ≡ once_within (length (V.report self.lock.opening).items) (length (V.report result).items) place }
    {
        let Closing {
            table,
            seat,
            passes: _,
        } = self;
        take_out(table, seat)
    }
}

/// A seat that counts for no pass.
pub(crate) fn new_seat<V: Reports>(words: &Words<V>) -> Seat<V>
    requires laid { IsLaid words.now.table_id words.now.key.passes }
    ensures table { result.table_id ≡ words.now.table_id }
    ensures me { result.me ≡ (spent_view, []) }
{
    let (_, seat) = words.load_new_seat::<Come>(0);
    seat
}

/// Takes in the seat of a pass.
fn hand_in<V: Reports>(words: &Words<V>, seat: &mut Seat<V>, other: Seat<V>)
    requires tables { (seat.old.table_id ≡ words.now.table_id) × (other.table_id ≡ words.now.table_id) }
    requires laid { IsLaid words.now.table_id words.now.key.passes }
    requires seat { (seat.old.me.0.tickets ≡ []) × (seat.old.me.0.turn ≡ false) }
    requires other { (other.me.0.tickets ≡ []) × (other.me.0.turn ≡ false) × (other.me.1 ≡ []) }
    ensures table { seat.new.table_id ≡ seat.old.table_id }
    ensures me { seat.new.me ≡ (both_views seat.old.me.0 other.me.0, seat.old.me.1) }
{
    words.join_seat::<Together>(seat, other);
}

/// Takes the value out of a table whose passes are one seat.
fn take_out<V: Reports>(table: Table<V>, seat: Seat<V>) -> V
    requires seat { seat.table_id ≡ table.shared.table_id }
    requires laid { IsLaid table.shared.table_id table.shared.key.passes }
    requires all { (seat.me.0.passes ≡ table.shared.key.passes) × (seat.me.0.turn ≡ false) × (seat.me.0.tickets ≡ []) }
    ensures { EndsWith V.report V.origin table.shared.key.opening.value result seat.me.0 }
{
    let mut closed = table.close_with(seat);
    let value = closed.take(0).unwrap();
    closed.free();
    value
}
