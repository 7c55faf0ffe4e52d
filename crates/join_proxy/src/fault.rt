//! Why a datagram doesn't go on, and why one doesn't come back.
use thiserror::Error;

/// Why a datagram doesn't go on. The first that applies, in this order, is answered.
#[derive(Clone, Copy, Debug, PartialEq, Eq, Error)]
pub enum UpFault {
    /// It is no CoAP message.
    #[error("the datagram is no message")]
    NotCoap,
    /// It is no POST, confirmable or not, with Proxy-Scheme `coap` once.
    #[error("the message is no request for a proxy")]
    NotRequest,
    /// The client's token has this many bytes, more than 561, or the datagram to forward would
    /// have, more than 1280.
    #[error("the message needs {0} bytes")]
    TooLong(usize),
    /// All of these counters are used.
    #[error("all {0} counters are spent")]
    Spent(u64),
    /// The bucket has the first number of tokens, and the datagram this many bytes.
    #[error("{1} bytes are over the {0} that may go on")]
    Over(u64, usize),
}

/// Why a datagram doesn't come back. The first that applies, in this order, is answered.
#[derive(Clone, Copy, Debug, PartialEq, Eq, Error)]
pub enum DownFault {
    /// It is no CoAP message.
    #[error("the datagram is no message")]
    NotCoap,
    /// Its code isn't 2.04.
    #[error("the message is no answer")]
    NotAnswer,
    /// Its token isn't sealed under the key of this proxy.
    #[error("the token isn't of this proxy")]
    NotMine,
    /// Its token is of this second, which is over 600 seconds from the present one.
    #[error("the token is of second {0}")]
    Late(u64),
}
