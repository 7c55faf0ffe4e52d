// The inventory: who may join and under which settings, read from TOML, and what it says of a request.
// It promises the layers above that exactly the documents of the format are read, that a refusal is the first fault, that
// rows are found by identifier, and that no text shows a PSK. Definitions are in specs/: Reading, Values, Rows, Verdicts.
#![tactic(auto)]

mod fault;
mod field;
mod head;
mod index;
mod inventory;
mod lookup;
mod row;
#[cfg(test)]
mod tests;
mod value;
mod verdict;

pub use fault::InventoryFault;
pub use field::FieldName;
pub use inventory::Inventory;
pub use row::Row;
pub use verdict::{Rule, Verdict};
