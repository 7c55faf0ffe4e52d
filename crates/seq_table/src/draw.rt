//! What a draw answers.

/// The answer of a draw.
#[derive(Clone, Copy, Debug, PartialEq, Eq)]
pub enum Draw {
    /// A sender sequence number of the context.
    Number(u64),
    /// The context has no number left: this one is 2^40 or more (RFC 8613, section 7.2.1).
    Spent(u64),
    /// The seat has made this many draws, which is all that a seat makes. The context's numbers are as before.
    SeatFull(u32),
}
