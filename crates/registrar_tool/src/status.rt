//! How a run ended.
ghost use Rattle.std.specs.Prelude.{◌≡◌};

use edge_traits::PledgeId;
use journal_store::Spot;
use std::fmt;

/// How a run ended. A fault carries the count of faults of the device that failed.
#[derive(Clone, Copy, Debug, PartialEq, Eq)]
pub enum Status {
    /// The run reached its end.
    Done,
    /// The words are no command.
    Usage,
    /// The script couldn't be read.
    ReadFault(u64),
    /// The outcome of the last line that was done, or `formatted`, couldn't be written.
    WriteFault(u64),
    /// The disk failed while the journal was formatted, read or opened.
    DiskFault(u64),
    /// This line, from 1, is the first outside the grammar; the lines before it were done.
    BadScript(u64),
    /// The journal has no reading, which stops at this place.
    NotAJournal(Spot),
    /// `init`: an area isn't empty. This is the left one's length where that isn't 0, else the right one's.
    AlreadyThere(u64),
    /// The check of the first pledge's key is also the second one's.
    SameKey(PledgeId, PledgeId),
    /// No memory is left. Nothing was done.
    NoMemory,
    /// The log and the entries that opening adds would have this many entries, more than 262,144.
    JournalFull(u32),
    /// Opening would make this many contexts, more than 32,768.
    ContextsFull(u32),
}

impl Status {
    ghost use Rattle.registrar_tool.specs.Status.{number_of};

    /// The exit status of the program.
    pub fn number(self) -> u8
        ensures { result ≡ number_of self }
    {
        match self {
            Status::Done => 0,
            Status::Usage => 2,
            Status::ReadFault(_) => 3,
            Status::WriteFault(_) => 4,
            Status::DiskFault(_) => 5,
            Status::BadScript(_) => 7,
            Status::NotAJournal(_) => 8,
            Status::AlreadyThere(_) => 9,
            Status::SameKey(..) => 10,
            Status::NoMemory => 12,
            Status::JournalFull(_) => 14,
            Status::ContextsFull(_) => 15,
        }
    }
}

impl fmt::Display for Status {
    fn fmt<W: fmt::Write>(&self, f: &mut fmt::Formatter<W>) -> fmt::Result {
        match self {
            Status::Done => write!(f, "done"),
            Status::Usage => write!(f, "usage"),
            Status::ReadFault(_) => write!(f, "read fault"),
            Status::WriteFault(_) => write!(f, "write fault"),
            Status::DiskFault(_) => write!(f, "disk fault"),
            Status::BadScript(line) => write!(f, "bad script line {line}"),
            Status::NotAJournal(_) => write!(f, "not a journal"),
            Status::AlreadyThere(_) => write!(f, "already there"),
            Status::SameKey(first, second) => {
                let first = u64::from_be_bytes(first.0);
                let second = u64::from_be_bytes(second.0);
                write!(f, "same key {first:016x} {second:016x}")
            }
            Status::NoMemory => write!(f, "no memory"),
            Status::JournalFull(_) => write!(f, "journal full"),
            Status::ContextsFull(_) => write!(f, "contexts full"),
        }
    }
}
