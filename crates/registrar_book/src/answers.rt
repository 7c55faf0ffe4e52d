//! What a book answers.
ghost use Rattle.std.specs.Prelude.{◌≡◌};
ghost use Rattle.registrar_book.specs.declared.answers.OpenFault.TheVariants.{NoMemory};

use edge_traits::PledgeId;
use journal_store::Spot;
use journal_text::Entry;
use registrar_state::{Quiet, RegState};
use std::alloc::{AllocError, AllocFailed};
use thiserror::Error;

/// What became of a request. Each carries the length of the log that was looked at, the request's own entry included.
#[derive(Clone, Copy, Debug, PartialEq, Eq)]
pub enum Decided {
    /// Its entry was added, and is durable.
    Made(u32),
    /// The answer of its context's last decision once more, which is durable.
    Again(u32),
    /// It gets no answer.
    Quiet(Quiet, u32),
    /// The disk failed, whose count of faults is this now. The decision was made, and is pending; or nothing was decided, since the
    /// one before it is still pending.
    Unsure(u32, u64),
    /// An entry is due, and the log has no room.
    Full(u32),
}

/// The parts of a book that was closed.
#[derive(Drop)]
pub struct Closed<D: Drop> {
    pub disk: D,
    pub log: Vec<Entry>,
    pub state: RegState,
}

/// Why a book can't be opened.
#[derive(Clone, Copy, Debug, PartialEq, Eq, Error)]
pub enum OpenFault {
    /// The disk failed, whose count of faults is this now.
    #[error("the disk failed: {0} faults")]
    Disk(u64),
    /// The journal has no reading, or an entry that may not follow.
    #[error("{0}")]
    NotAJournal(Spot),
    /// The check of the first pledge is also the second one's.
    #[error("two pledges have one key")]
    SameKey(PledgeId, PledgeId),
    /// There would be this many contexts.
    #[error("{0} contexts")]
    ContextsFull(u32),
    /// There would be this many entries.
    #[error("{0} entries")]
    JournalFull(u32),
    #[error("no memory")]
    NoMemory,
}

impl From<AllocError> for OpenFault {
    ghost from_gives = { λ _ e. e ≡ NoMemory };

    fn from(_: AllocError) -> Self {
        OpenFault::NoMemory
    }
}

impl<T: Drop> From<AllocFailed<T>> for OpenFault {
    ghost from_gives = { λ _ e. e ≡ NoMemory };

    fn from(_: AllocFailed<T>) -> Self {
        OpenFault::NoMemory
    }
}

impl From<edge_traits::NoMemory> for OpenFault {
    ghost from_gives = { λ _ e. e ≡ NoMemory };

    fn from(_: edge_traits::NoMemory) -> Self {
        OpenFault::NoMemory
    }
}
