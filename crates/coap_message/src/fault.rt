//! Why bytes are no message, and why a message can't be written.
use thiserror::Error;

/// Why bytes are no message (RFC 7252, 3; RFC 8974, 2.1). The first that applies, in this order, is answered.
#[derive(Clone, Copy, Debug, PartialEq, Eq, Error)]
pub enum CoapFault {
    /// The header or the token is cut; or an inner message has no code.
    #[error("the header or the token is cut")]
    Short,
    /// The version isn't 1.
    #[error("the version isn't 1")]
    Version,
    /// The token's length has the reserved form, or is over 600 bytes.
    #[error("the token's length is reserved or over 600")]
    TokenLength,
    /// At this place, counted in bytes from the start, an option, the marker or the end should be.
    #[error("no option at {0}")]
    OptionForm(usize),
    /// Nothing comes after the payload's marker.
    #[error("the payload is empty")]
    EmptyPayload,
}

/// The message with this piece would have this many bytes, more than the 1280 of a datagram.
#[derive(Clone, Copy, Debug, PartialEq, Eq, Error)]
#[error("the message would have {0} bytes")]
pub struct TooLong(pub usize);
