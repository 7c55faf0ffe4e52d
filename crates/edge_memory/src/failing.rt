//! The calls that are to fail.
ghost use Rattle.std.specs.Prelude.{◌≡◌, ◌≤◌};
ghost use Rattle.edge_memory.specs.Calls.{part_size};

/// How much of its work a call does that fails.
#[derive(Clone, Copy, Debug, PartialEq, Eq)]
pub enum Part {
    Nothing,
    /// The first half of its bytes, rounded down.
    Half,
    All,
}

impl Part {
    /// How many of `count` bytes it is.
    pub fn size(self, count: usize) -> usize
        ensures size { result ≡ part_size self count }
        ensures most { result ≤ count }
    {
        match self {
            Part::Nothing => 0,
            Part::Half => count / 2,
            Part::All => count,
        }
    }
}

/// A call that is to fail, by its number, from 0.
#[derive(Clone, Copy, Debug, PartialEq, Eq)]
pub struct FailingCall {
    pub number: u64,
    pub part: Part,
}
