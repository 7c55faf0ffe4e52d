//! What a window says of a number.

/// The judgement of a number by those that were taken before it.
#[derive(Clone, Copy, Debug, PartialEq, Eq)]
pub enum Judged {
    /// It was not taken, and the greatest number taken is less than 32 above it.
    Fresh,
    /// It was taken, and the greatest number taken is less than 32 above it.
    Taken,
    /// The greatest number taken is at least 32 above it.
    Old,
}
