//! The value of a holding, borrowed from it. The clause names the row of `Held`, which the file that declares it can't import.
ghost use Rattle.std.specs.Prelude.{◌≡◌, []};
ghost use Rattle.std.specs.Borrow.{Lends, sem};
ghost use mir.Syntax.{named};
ghost use Rattle.turn_lock.specs.contracts.held.Held.{the_row};
ghost use Rattle.turn_lock.specs.Locks.{held_with};

use crate::held::Held;
use crate::reports::Reports;

impl<'a, V: Reports> Held<'a, V> {
    /// The value. When the borrow ends the holding has what was written through it.
    // The borrow checker reads this clause only if the row gives the holding's lifetime as `named 1`, its number here.
    pub fn value(&mut self) -> &mut V
        ensures* writes_back { sem 𝓛 (Lends (the_row (record { mir = named 1; lft = [] }) V.row V.Item.row V.Origin.row V.Reports) V.row self.entry result (held_with self.old)) }
        ensures value { result.now ≡ self.old.value }
    {
        &mut self.value
    }
}
