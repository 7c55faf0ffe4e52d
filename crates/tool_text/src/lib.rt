// The text of scripts and outcomes: the lines of a script, what a line says, and what is printed for an outcome.
// It promises the layers above that exactly the lines of the grammar are read, each in one way, and that the text of
// an outcome is written whole or up to the sink's fault. Definitions are in specs/: Lines, Line and Outcome.
#![tactic(auto)]

mod field;
mod line;
mod lines;
mod outcome;
mod split;
#[cfg(test)]
mod tests;

pub use line::{Line, one_line, read_line};
pub use lines::next_line;
pub use outcome::{Outcome, write_outcome};
