// OSCORE messages (RFC 8613) of a pledge and the registrar: the option, requests and answers, protected and opened.
// It promises the layers above that what is found and opened is genuine, that what is genuine is found and opened, with
// the first reason otherwise, and the exact bytes of what is written. No call takes memory.
// Definitions are in specs/: PartialIv, OptionValue, Aad, Sealing, Finding, Answering, Wire and Laws.
#![tactic(auto)]

mod aad;
mod answer;
mod bytes;
mod finding;
mod found;
mod laws;
mod option_value;
mod options;
mod partial_iv;
mod reply;
mod request;
mod seal;
mod value_reader;

pub use answer::{AnswerFault, Reply, open_answer, protect_answer};
pub use finding::{find, find_update};
pub use found::{FindFault, Found};
pub use laws::oscore_laws;
pub use option_value::{BadOption, OptionValue, write_option};
pub use request::{NotGenuine, open_request, protect_request};
pub use value_reader::read_option;

#[cfg(test)]
mod tests;
