// The book of the registrar: its state, its log, and the journal in which each decision is durable before it is answered.
// It promises the layers above that each answer is what the history makes due, that all before it is durable, and what a crash at
// any moment leaves. Definitions are in specs/: Books, Opening and Journals; those of its private functions in Known,
// Index and Prepared.
#![tactic(auto)]

mod answers;
mod book;
mod desk;
mod known;
mod opening;
mod press;
mod replay;
mod rows;
#[cfg(test)]
mod tests;

pub use answers::{Closed, Decided, OpenFault};
pub use book::Book;
