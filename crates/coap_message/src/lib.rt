// CoAP messages: a datagram is read in place, and a message is written piece by piece (RFC 7252; RFC 8974).
// It promises the layers above what the bytes spell or their first fault, and that what is written reads back the same.
// Definitions are in specs/: Extended, Options, Header, Body, Message, Draft, Laws and Sizes. Reading and Whole read from the left.
#![tactic(auto)]

mod body;
mod draft;
mod extended;
mod fault;
mod header;
mod laws;
mod message;
mod option;
mod reading;

pub use draft::Draft;
pub use fault::{CoapFault, TooLong};
pub use header::{Head, Kind};
pub use laws::{message_laws, size_laws};
pub use message::{Inner, Message};
pub use option::{Options, is_critical};
pub use reading::{parse, parse_inner};

#[cfg(test)]
mod tests;
