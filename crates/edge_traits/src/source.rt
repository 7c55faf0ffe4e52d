//! A stream of bytes that is read once, from its start to its end.
ghost use Rattle.std.specs.Prelude.{◌≡◌, ◌≤◌, ◌<◌, ◌^◌, ℕ, List, Option, length, take, IfOk, OnErr, Ok};
ghost use Rattle.edge_traits.specs.Faults.{HasCause};
ghost use Rattle.edge_traits.specs.Source.{Takes, IsAtEnd};

use crate::Failed;

pub trait Source: Drop {
    /// What is left to read, where the source reports it.
    ghost left: { Self → Option (List ℕ) };

    /// How many calls failed, at most 2^64 - 1.
    ghost fault_count: { Self → ℕ };

    /// Reads up to a buffer of bytes: the first `k` bytes of the buffer at `Ok(k)`. `Ok(0)` on a buffer that isn't
    /// empty means the end.
    fn read(&mut self, buf: &mut [u8]) -> Result<usize, Failed>
        ensures within { IfOk result (λ k. k ≤ length buf.old) }
        ensures taken { IfOk result (λ k. Takes (left self.old) (left self.new) (take k buf.new)) }
        ensures end { result ≡ Ok 0 → 0 < length buf.old → IsAtEnd (left self.old) }
        ensures failed { OnErr result (left self.new ≡ left self.old) }
        ensures cause { HasCause (fault_count self.old) (fault_count self.new) result };

    /// How many calls failed so far. It stays at 2^64 - 1 once it is there.
    fn faults(&self) -> u64
        ensures { result ≡ fault_count self.now };

    /// A count of faults fits 64 bits.
    ghost fault_count_fits: { (source : Self) → fault_count source < 2 ^ 64 };
}
