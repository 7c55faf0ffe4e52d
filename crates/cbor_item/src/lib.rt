// CBOR items (RFC 8949): a reader of items from a slice and a writer of items into a buffer of fixed capacity.
// It promises the layers above that a call reads what is spelled in the grammar and nothing else, that a refusal is the
// first fault from the left with its place and changes nothing, and that what is written is read as the same value.
// Definitions are in specs/: Head, Item, Input, Reading, Spelling and Laws.
#![tactic(auto)]

mod fault;
mod head;
mod item;
mod laws;
mod reader;
mod value;
mod writer;

pub use fault::{Full, ItemFault};
pub use head::Major;
pub use laws::reading_laws;
pub use reader::Reader;
pub use writer::Writer;

#[cfg(test)]
mod tests;
