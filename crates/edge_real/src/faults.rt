//! The count of faults that each object of this crate keeps.
ghost use Rattle.std.specs.Prelude.{◌<◌, ◌^◌};

use edge_traits::Failed;
use std::io;

/// How many calls failed, at most 2^64 - 1.
#[derive(Drop)]
pub struct Faults {
    count: u64,
    ghost fits: { count < 2 ^ 64 },
}

impl Faults {
    ghost use Rattle.std.specs.Prelude.{◌≡◌, MatchResult, Ok, IsErr};
    ghost use Rattle.edge_real.specs.Faults.{counted_up, Counts};

    pub fn none() -> Self
        ensures { result.count ≡ 0 }
    {
        Faults { count: 0 }
    }

    /// Counts a call that failed.
    pub fn rise(&mut self) -> Failed
        ensures { self.new.count ≡ counted_up self.old.count }
    {
        self.count = self.count.saturating_add(1);
        Failed
    }

    /// Counts the call if it failed.
    pub fn told<T: Drop>(&mut self, answer: io::Result<T>) -> Result<T, Failed>
        ensures counted { Counts self.old.count self.new.count result }
        ensures same { MatchResult answer (λ value. result ≡ Ok value) (λ _. IsErr result) }
    {
        match answer {
            Ok(value) => Ok(value),
            Err(_) => Err(self.rise()),
        }
    }

    pub fn count(&self) -> u64
        ensures { result ≡ self.now.count }
    {
        self.count
    }
}
