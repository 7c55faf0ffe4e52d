//! A seat, with which one thread draws.
ghost use Rattle.std.specs.Prelude.{◌≡◌, length};

use crate::rule::View;
use std::marker::Model;

pub(crate) type Place = atomic_table::Seat<(), View>;

/// The right to draw from one table. It belongs to one thread at a time, and may be sent to another.
#[derive(Drop)]
pub struct Seat {
    pub(crate) place: Place,
    pub(crate) made: u32,
}

impl Model for Seat {
    ghost use Rattle.std.specs.Prelude.{◌≡◌, ◌<◌, ◌≤◌, ◌^◌, [], length};
    ghost use Rattle.seq_table.specs.Seats.{SeatView};

    ghost Value = { SeatView };

    ghost view = { λ s. record { table = record { id = s.place.table_id; bases = s.place.me.0.bases }; drawn = s.place.me.0.drawn; splits = s.place.me.0.splits; seats = s.place.me.0.seats } };

    ghost invariant = { λ s. (s.place.me.1 ≡ []) × (s.made ≡ length s.place.me.0.drawn) × (s.made ≤ 2 ^ 24) × (0 < s.place.me.0.seats) };
}

impl Seat {
    /// How many draws the seat has made, over all contexts.
    pub fn draws(&self) -> u32
        ensures { result ≡ length self.now.drawn }
    {
        self.made
    }
}
