//! Why a pledge can't ask.
use thiserror::Error;

/// Why a pledge can't ask.
#[derive(Clone, Copy, Debug, PartialEq, Eq, Error)]
pub enum AskFault {
    /// All numbers are spent: the next would be this one, 2^40.
    #[error("the number {0} can't be sent")]
    Spent(u64),
}
