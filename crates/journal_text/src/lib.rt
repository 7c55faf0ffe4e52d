// The entries of the journal, one for each decision of the registrar, and how each is spelled.
// It promises the layers above that an entry is written in one way and read back as the same, that nothing else is read,
// and that no entry's spelling begins another's. Definitions are in specs/: Kinds, Codes, Numbers, Text,
// Reading and Laws.
#![tactic(auto)]

mod entry;
mod fault;
mod field;
mod kind;
mod laws;
mod part;
mod read;
mod refusal;
mod settings;
mod summary;
#[cfg(test)]
mod tests;
mod write;

pub use entry::Entry;
pub use fault::{Bad, Full};
pub use kind::Kind;
pub use laws::entry_law;
pub use read::read_entry;
pub use refusal::Refusal;
pub use settings::Settings;
pub use summary::{RegSummary, SumContext, SumGrant, SumNode, SumRequest};
pub use write::write_entry;
