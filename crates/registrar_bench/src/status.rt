//! How a run ended.

/// The end of a run.
#[derive(Debug, Clone, Copy, PartialEq, Eq)]
pub enum Status {
    Done,
    /// An answer isn't the known one.
    Wrong,
    /// The words are no command.
    Usage,
    /// A line couldn't be written.
    WriteFault,
    /// The clock couldn't be read.
    ClockFault,
    NoMemory,
}

impl Status {
    /// The exit status.
    pub fn number(self) -> u8 {
        match self {
            Status::Done => 0,
            Status::Wrong => 1,
            Status::Usage => 2,
            Status::WriteFault => 4,
            Status::ClockFault => 5,
            Status::NoMemory => 12,
        }
    }

    /// The text on standard error.
    pub fn text(self) -> &'static str {
        match self {
            Status::Done => "done",
            Status::Wrong => "wrong answer",
            Status::Usage => "usage",
            Status::WriteFault => "write fault",
            Status::ClockFault => "clock fault",
            Status::NoMemory => "no memory",
        }
    }
}
