//! The rule of the lock, and the steps that keep it.
use crate::reports::Reports;
use atomic_table::{Join, Play, Split, TableRule};
use std::collections::LinkedList;
use std::snapshot::Snapshot;

/// What one holding did: the number of its report, the value that it found, and the value that it left. No value of it is made.
pub struct Addition<V> {
    pub report: u64,
    pub found: V,
    pub left: V,
}

/// What the seat of a pass knew when the pass was handed in: the values that it had seen, and what it owned.
/// No value of it is made.
pub struct Returned<V> {
    pub seen: LinkedList<V>,
    pub own: LinkedList<Addition<V>>,
}

/// What a seat knows: the values that it has seen, the lists that it compared last, what it owns, its ticket, whether it has the
/// turn, how many turns it asked for, how many passes it counts for, and the passes that were handed in. No value of it is made.
pub struct View<V> {
    pub seen: LinkedList<V>,
    pub also: LinkedList<LinkedList<V>>,
    pub own: LinkedList<Addition<V>>,
    pub tickets: LinkedList<u64>,
    pub turn: bool,
    pub turns: u64,
    pub passes: u32,
    pub returned: LinkedList<Returned<V>>,
}

/// What a lock is made with.
#[derive(Drop)]
pub struct Start<V> {
    pub passes: u32,
    pub opening: Snapshot<V>,
}

/// Holdings go by tickets, and each value follows those before it.
pub struct ByTurns;

impl<V: Reports> TableRule<Option<V>, View<V>, Start<V>> for ByTurns {
    ghost use Rattle.turn_lock.specs.Views.{first_view};
    ghost use Rattle.turn_lock.specs.Rule.{IsKept};

    ghost holds = { λ start. IsKept V.report V.origin start.passes start.opening.value };

    ghost first = { λ start. first_view start.passes start.opening.value };
}

/// Drawing a ticket.
pub struct Draw;

impl<V> Play<Option<V>, View<V>> for Draw {
    ghost use Rattle.turn_lock.specs.Views.{Draws};

    ghost then = { Draws };
}

/// A look at whose turn it is.
pub struct Look;

impl<V: Reports> Play<Option<V>, View<V>> for Look {
    ghost use Rattle.turn_lock.specs.Views.{Looks};

    ghost then = { Looks V.report V.origin };
}

/// A report of the value that is held.
pub struct Advance;

impl<V: Reports> Play<Option<V>, View<V>> for Advance {
    ghost use Rattle.turn_lock.specs.Views.{Reported};

    ghost then = { Reported V.report V.origin };
}

/// The end of a turn.
pub struct Leave;

impl<V> Play<Option<V>, View<V>> for Leave {
    ghost use Rattle.turn_lock.specs.Views.{Leaves};

    ghost then = { Leaves };
}

/// A change of a word that a pass parks on, which wakes it.
pub struct Wake;

impl<V> Play<Option<V>, View<V>> for Wake {
    ghost use Rattle.turn_lock.specs.Views.{Stays};

    ghost then = { Stays };
}

/// A load that changes nothing. By it a seat recalls that all lists that it knows of are prefixes of one list.
pub struct Recall;

impl<V: Reports> Play<Option<V>, View<V>> for Recall {
    ghost use Rattle.turn_lock.specs.Views.{Recalls};

    ghost then = { Recalls V.report V.origin };
}

/// A seat that counts for no pass.
pub struct Come;

impl<V> Play<Option<V>, View<V>> for Come {
    ghost use Rattle.turn_lock.specs.Views.{Comes};

    ghost then = { Comes };
}

/// One pass more.
pub struct Apart;

impl<V> Split<View<V>> for Apart {
    ghost use Rattle.turn_lock.specs.Views.{less_a_pass, one_pass};

    ghost left = { less_a_pass };

    ghost right = { one_pass };
}

/// A seat that knows what the first one has seen.
pub struct Tell;

impl<V> Split<View<V>> for Tell {
    ghost use Rattle.turn_lock.specs.Views.{listens};

    ghost left = { λ v. v };

    ghost right = { listens };
}

/// A seat that learns what another has seen.
pub struct Hear;

impl<V> Join<View<V>> for Hear {
    ghost use Rattle.turn_lock.specs.Views.{heard, spent_view};

    ghost both = { heard };

    ghost spent = { spent_view };
}

/// A pass that is handed in.
pub struct Together;

impl<V> Join<View<V>> for Together {
    ghost use Rattle.turn_lock.specs.Views.{both_views, spent_view};

    ghost both = { both_views };

    ghost spent = { spent_view };
}
