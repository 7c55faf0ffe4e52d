// The state of the registrar: what a summary knows of a history, with the indices that answers need.
// It promises the layer above the answers of every history that the state stands for, and takes no memory once made.
// The definitions are those of join_history; the one relation between a state and a history is in specs/: State.
#![tactic(auto)]

mod answer;
mod apply;
mod contexts;
mod due;
mod follow;
mod keys;
mod last;
mod legal;
mod opening;
mod owed;
mod pledges;
mod reads;
mod restore;
mod room;
mod state;
mod summary;
#[cfg(test)]
mod tests;
mod times;
mod updates;

pub use join_history::{Due, Quiet, Want, history_laws};
pub use last::Last;
pub use opening::Opening;
pub use room::Room;
pub use state::RegState;
