//! Why an entry can't be read, or written.
use thiserror::Error;

/// No prefix of the bytes is an entry. The place is that of the first field that goes past the end or has no meaning.
#[derive(Clone, Copy, Debug, PartialEq, Eq, Error)]
#[error("no entry: the field at byte {0}")]
pub struct Bad(pub usize);

/// The entry takes this many bytes, more than there is room for.
#[derive(Clone, Copy, Debug, PartialEq, Eq, Error)]
#[error("the entry takes {0} bytes")]
pub struct Full(pub usize);
