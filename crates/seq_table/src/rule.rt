//! The rule of the table, and the steps that keep it.
use atomic_table::{Join, Play, Split, TableRule};
use std::collections::LinkedList;

/// A number that was drawn, and its context. No value of it is made.
pub struct Drawn {
    pub context: u32,
    pub number: u64,
}

/// What a seat knows: where the words began, what it drew, how often it may be split, and how many seats it stands for.
/// No value of it is made.
pub struct View {
    pub bases: LinkedList<u64>,
    pub drawn: LinkedList<Drawn>,
    pub splits: u32,
    pub seats: u32,
}

/// Each number is drawn once. The key is the list of bases.
pub struct DrawnOnce;

impl TableRule<(), View, Vec<u64>> for DrawnOnce {
    ghost use Rattle.seq_table.specs.Views.{first_view};
    ghost use Rattle.seq_table.specs.Rule.{IsKept};

    ghost holds = { λ bases. IsKept bases.items };

    ghost first = { λ bases. first_view bases.items };
}

/// A draw.
pub struct Draws;

impl Play<(), View> for Draws {
    ghost use Rattle.seq_table.specs.Views.{Draws as DrawsNumber};

    ghost then = { DrawsNumber };
}

/// A new seat, which knows the bases alone.
pub struct Apart;

impl Split<View> for Apart {
    ghost use Rattle.seq_table.specs.Views.{less_a_split, split_off};

    ghost left = { less_a_split };

    ghost right = { split_off };
}

/// One seat for two.
pub struct Together;

impl Join<View> for Together {
    ghost use Rattle.seq_table.specs.Views.{both_views, spent_view};

    ghost both = { both_views };

    ghost spent = { spent_view };
}
