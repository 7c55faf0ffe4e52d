//! What is found in a datagram, or why nothing is.
ghost use Rattle.std.specs.Prelude.{◌≤◌, ◌<◌, ◌^◌, length};

use crate::option_value::OptionValue;
use coap_message::Message;
use thiserror::Error;

/// Why bytes are no request that OSCORE protects. The first that applies, in this order, is answered.
#[derive(Clone, Copy, Debug, PartialEq, Eq, Error)]
pub enum FindFault {
    /// The bytes are no CoAP message.
    #[error("no CoAP message")]
    NotCoap,
    /// The kind is neither CON nor NON, the code isn't 0.02, or a critical option is unknown.
    #[error("no request")]
    NotRequest,
    /// The OSCORE option doesn't occur exactly once.
    #[error("not one OSCORE option")]
    NoOscore,
    /// The option's value has its first fault at this place, or it has no Partial IV and the place is 0.
    #[error("no OSCORE option at {0}")]
    BadOption(usize),
    /// There is no kid, or it isn't that of the side that asks.
    #[error("another kid")]
    OtherKid,
}

/// A request in its datagram: what its OSCORE option says, and the number of its Partial IV.
#[derive(Clone, Copy, Debug, PartialEq, Eq)]
pub struct Found<'a> {
    pub message: Message<'a>,
    pub option: OptionValue<'a>,
    pub number: u64,
    pub ghost numbered: { number < 2 ^ 40 },
    pub ghost short: { length message.payload.now ≤ 1280 },
    pub ghost token_fits: { length message.token.now ≤ 600 },
}
