//! Why two seats are not joined.
use thiserror::Error;

/// Two seats together have made more draws than one seat makes.
#[derive(Clone, Copy, Debug, PartialEq, Eq, Error)]
#[error("the two seats have made {draws} draws together")]
pub struct SeatFull {
    /// How many draws both have made.
    pub draws: u32,
}
