//! Why a token can't be sealed, and why bytes aren't opened.
use thiserror::Error;

/// Why a token can't be sealed. The first that applies, in this order, is answered.
#[derive(Clone, Copy, Debug, PartialEq, Eq, Error)]
pub enum SealFault {
    /// The client's token has this many bytes, more than 561.
    #[error("the client's token has {0} bytes")]
    TooLong(usize),
    /// The counter is at its end, 2^40.
    #[error("all {0} counters are spent")]
    Spent(u64),
}

/// Why bytes aren't opened.
#[derive(Clone, Copy, Debug, PartialEq, Eq, Error)]
pub enum TokenFault {
    /// They are no sealing under this key.
    #[error("the token isn't of this proxy")]
    NotMine,
    /// They are one of this second, which is over 600 seconds from the present one.
    #[error("the token is of second {0}")]
    Late(u64),
}
