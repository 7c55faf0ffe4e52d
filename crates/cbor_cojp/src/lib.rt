// CoJP objects (RFC 9031, 8.4): the Join_Request of a pledge and the Configuration that answers it.
// It promises the layers above that what is read is an object of the grammar, that each object is read, and that a refusal
// is the first fault from the left; that an object is written in one way, always fits and is read back as the same value.
// Definitions are in specs/: Fault, Grammar, Values, Join, Key, Config, Spelling and Laws.
#![tactic(auto)]

mod config;
mod config_text;
mod fault;
mod join;
mod key;
mod key_text;
mod laws;
mod object;
mod value;
mod write;

pub use config::{Configuration, Short, read_config};
pub use config_text::write_config;
pub use fault::CojpFault;
pub use join::{JoinRequest, read_join, write_join};
pub use key::LinkKey;
pub use laws::object_laws;

#[cfg(test)]
mod tests;
