//! A holding of the lock.
ghost use Rattle.std.specs.Prelude.{◌≡◌, ℕ, ◌<◌, ◌≤◌, true, All};
ghost use Rattle.turn_lock.specs.Report.{GrowsTo};
ghost use Rattle.turn_lock.specs.Locks.{with_report, numbers_in};

use crate::lock::TurnLock;
use crate::pass::Pass;
use crate::reports::Reports;
use crate::steps::end_turn;
use std::marker::Model;

/// The value of a lock whose turn a pass has. It can't be dropped: `give` ends it.
pub struct Held<'a, V: Reports> {
    pub(crate) lock: &'a TurnLock<V>,
    pub(crate) value: V,
}

impl<'a, V: Reports> Model for Held<'a, V> {
    ghost use Rattle.turn_lock.specs.Locks.{HeldView};

    ghost Value = { HeldView V };

    ghost view = { λ h. record { lock = h.lock.now; value = h.value } };
}

impl<'a, V: Reports> Held<'a, V> {
    /// Gives the value back, and ends the turn of the pass that took it. The value may have grown, and has its old origin.
    /// The pass then owns one report more, with the value that the holding found and the one that it left.
    pub fn give(self, pass: &mut Pass<V>)
        requires lock { pass.old.lock ≡ self.lock }
        requires took { pass.old.has_turn ≡ true }
        requires grown { GrowsTo (V.report pass.old.seen) (V.report self.value) }
        requires origin { V.origin self.value ≡ V.origin self.lock.opening }
        ensures { (number : ℕ) × (pass.new ≡ with_report pass.old number self.entry.value) × (1 ≤ number) × All (λ n. n < number) (numbers_in pass.old) }
    {
        let Held { lock, value } = self;
        end_turn(&lock.table.shared, &mut pass.seat, value, lock.passes);
    }
}
