//! Why an inventory can't be read.
use crate::FieldName;
use edge_traits::PledgeId;
use thiserror::Error;

/// The first of these that applies.
#[derive(Clone, Copy, Debug, PartialEq, Eq, Error)]
pub enum InventoryFault {
    #[error("more than 4 MiB")]
    TooLong,
    /// The bytes aren't UTF-8, or no TOML.
    #[error("no TOML document")]
    Toml,
    /// The field of this row is absent and has no default, or is out of range. Rows count from 1, and 0 is the
    /// document itself.
    #[error("field {1} of row {0}")]
    Field(u32, FieldName),
    /// There are this many rows, more than 16,384.
    #[error("{0} rows")]
    TooMany(usize),
    /// Two rows have this identifier.
    #[error("an identifier stands in two rows")]
    TwiceId(PledgeId),
    #[error("no memory")]
    NoMemory,
}
