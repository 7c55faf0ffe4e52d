//! Why an item can't be read, and why one can't be written.
use thiserror::Error;

/// The first fault from the left. Each variant carries the place of the item that is at fault: how many bytes of the
/// whole input come before its head.
#[derive(Clone, Copy, Debug, PartialEq, Eq, Error)]
pub enum ItemFault {
    /// The input ends before the head, within the head or within the bytes of the string.
    #[error("the item at {0} is cut short")]
    Truncated(usize),
    /// The head is of another kind than was asked for, has additional information 28 to 30, or has a number out of range.
    #[error("the item at {0} is of another kind")]
    Kind(usize),
    /// The head has additional information 31 (RFC 8949, 3.2).
    #[error("the item at {0} has no length")]
    Indefinite(usize),
    /// The item is an array, a map or a tag inside eight others.
    #[error("the item at {0} is nested too deep")]
    Deep(usize),
    /// There are bytes where the input should end.
    #[error("bytes are left at {0}")]
    Trailing(usize),
}

/// The item doesn't fit what is left of the capacity. It takes this many bytes.
#[derive(Clone, Copy, Debug, PartialEq, Eq, Error)]
#[error("an item of {0} bytes doesn't fit")]
pub struct Full(pub usize);
