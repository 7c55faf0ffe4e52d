// Short histories beside those of `join_history`, worked out by hand: what opening adds, what is due, answered, updated and
// released in them. It promises, as clauses of a function that does nothing, that the definitions say so.
// Its statements are in specs/Histories.
#![tactic(auto)]

mod laws;

pub use laws::worked_histories;
