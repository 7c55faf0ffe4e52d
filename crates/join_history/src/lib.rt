// Legal histories: which entries may follow which, what is held, live and free, what a request is due, who has which keys,
// and what a summary keeps. It promises the layers above the laws of every legal history, as the clauses of functions that
// do nothing. Definitions are in specs/, one file for each question, limits in Limits; every layer above cites them.
#![tactic(auto)]

mod due;
mod job;
mod laws;
mod limits;

pub use due::{Due, Quiet, Want};
pub use job::Job;
pub use laws::{
    answer_laws, history_examples, history_laws, key_laws, lease_laws, opening_laws, summary_law,
};
pub use limits::{
    BLOCK_SIZE, CONTEXT_LIMIT, ENTRY_LIMIT, HOURS_LIMIT, NUMBER_END, POOL_END, REPEAT_SPAN,
    TIME_END,
};
