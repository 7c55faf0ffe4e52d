//! Why a journal can't be opened, and what became of a batch.
ghost use Rattle.std.specs.Prelude.{◌≡◌};
ghost use Rattle.journal_store.specs.declared.fault.StoreFault.TheVariants.{NoMemory};

use std::alloc::{AllocError, AllocFailed};
use thiserror::Error;

/// Where an area has no reading. Places are bytes of the area, from 0.
#[derive(Clone, Copy, Debug, PartialEq, Eq, Error)]
pub enum Spot {
    /// A byte of the header, a gate, or the length of a batch.
    #[error("no journal: the byte at {0}")]
    Place(u64),
    /// The summary.
    #[error("no journal: the summary, at byte {0}")]
    Summary(u64),
    /// An entry of the log, from 0.
    #[error("no journal: entry {0} of the log")]
    Entry(u32),
}

/// Why formatting or opening stopped.
#[derive(Clone, Copy, Debug, PartialEq, Eq, Error)]
pub enum StoreFault {
    /// A call on the disk failed, whose count of faults is this now.
    #[error("the disk failed: {0} faults")]
    Disk(u64),
    /// An area isn't empty. This is the left one's length where that isn't 0, else the right one's.
    #[error("there is a journal of {0} bytes")]
    AlreadyThere(u64),
    /// The left area has no reading.
    #[error("{0}")]
    NotAJournal(Spot),
    #[error("no memory")]
    NoMemory,
}

impl From<AllocError> for StoreFault {
    ghost from_gives = { λ _ e. e ≡ NoMemory };

    fn from(_: AllocError) -> Self {
        StoreFault::NoMemory
    }
}

impl<T: Drop> From<AllocFailed<T>> for StoreFault {
    ghost from_gives = { λ _ e. e ≡ NoMemory };

    fn from(_: AllocFailed<T>) -> Self {
        StoreFault::NoMemory
    }
}

/// What became of a batch that was written.
#[derive(Clone, Copy, Debug, PartialEq, Eq)]
pub enum Written {
    /// It is durable.
    Done,
    /// A call on the disk failed, and the batch is pending.
    Failed,
}

/// What became of a batch that was pending.
#[derive(Clone, Copy, Debug, PartialEq, Eq)]
pub enum Settled {
    /// No batch was.
    Nothing,
    /// It is durable.
    Durable,
    /// Its gate is closed: write it again.
    Again,
    /// A call on the disk failed, and the batch is pending still.
    Failed,
}
