// Sender sequence numbers that threads draw: a word for each security context, and one atomic step a draw.
// It promises the layer above that a draw gives the word's old value, and that no number of a context is drawn twice.
// The definitions are in specs/: Seats (what callers see), Draws, Views (what a step does), Rule (what always holds).
#![tactic(auto)]

mod draw;
mod rule;
mod seat;
mod seat_full;
mod table;
#[cfg(test)]
mod tests;

pub use draw::Draw;
pub use rule::{Drawn, View};
pub use seat::Seat;
pub use seat_full::SeatFull;
pub use table::SeqTable;
