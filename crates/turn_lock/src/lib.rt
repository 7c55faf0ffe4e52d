// A ticket lock, first come first served, for one value. Each holder knows what came before.
// It promises the layer above:
// - who takes the lock finds a value that follows all that its pass has seen;
// - each report belongs to one pass, with the values that its holding found and left;
// - two passes can share what they have seen.
// Definitions: specs/ Report, Locks, Rule, History.
#![tactic(auto)]

mod closing;
mod held;
mod held_value;
mod laws;
mod lock;
mod new_table;
mod numbers;
mod pass;
mod press;
mod reports;
mod rule;
mod steps;
#[cfg(test)]
mod tests;

pub use closing::Closing;
pub use held::Held;
pub use laws::addition_laws;
pub use lock::TurnLock;
pub use numbers::{Numbers, add, end};
pub use pass::Pass;
pub use press::{Press, Worker, copy_all, end_both, is_copied};
pub use reports::Reports;
pub use rule::{Addition, ByTurns, Returned, Start, View};
