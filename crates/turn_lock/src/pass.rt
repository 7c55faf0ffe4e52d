//! A pass, with which one thread takes turns.
use crate::reports::Reports;
use crate::rule::{Start, View};
use std::marker::Model;
use std::snapshot::Snapshot;

pub(crate) type Seat<V> = atomic_table::Seat<Option<V>, View<V>>;

/// What a pass keeps for itself, beside its seat: its lock's start, and how many turns it took.
#[derive(Drop)]
pub(crate) struct LocalState<V> {
    pub(crate) start: Snapshot<Start<V>>,
    pub(crate) turns: u64,
}

/// The right to take turns at one lock, and what it has seen and owns. It belongs to one thread at a time.
#[derive(Drop)]
pub struct Pass<V: Reports> {
    pub(crate) seat: Seat<V>,
    pub(crate) local: LocalState<V>,
}

impl<V: Reports> Model for Pass<V> {
    ghost use Rattle.turn_lock.specs.Locks.{PassView};

    ghost Value = { PassView V };

    ghost use Rattle.turn_lock.specs.Seated.{pass_of, IsSeated};

    ghost view = { λ p. pass_of p.seat.table_id p.local.start.value p.seat.me.0 };

    ghost invariant = { λ p. IsSeated V.origin p.local.start.value p.local.turns p.seat.me };
}
