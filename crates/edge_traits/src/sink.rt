//! A stream of bytes that is written at its end.
ghost use Rattle.std.specs.Prelude.{◌≡◌, ◌≤◌, ◌<◌, ◌^◌, ℕ, List, Option, length, take, IfOk, OnOk, OnErr};
ghost use Rattle.edge_traits.specs.Faults.{HasCause};
ghost use Rattle.edge_traits.specs.Sink.{Appends, AppendsPrefix};

use crate::Failed;

pub trait Sink: Drop {
    /// What was written, where the sink reports it.
    ghost written: { Self → Option (List ℕ) };

    /// How many calls failed, at most 2^64 - 1.
    ghost fault_count: { Self → ℕ };

    /// Appends the first `k` of the bytes at `Ok(k)`, at least one where there is one. A call that failed appends nothing.
    fn write(&mut self, bytes: &[u8]) -> Result<usize, Failed>
        ensures within { IfOk result (λ k. k ≤ length bytes.now) }
        ensures progress { IfOk result (λ k. 0 < length bytes.now → 0 < k) }
        ensures appended { IfOk result (λ k. Appends (written self.old) (written self.new) (take k bytes.now)) }
        ensures failed { OnErr result (written self.new ≡ written self.old) }
        ensures cause { HasCause (fault_count self.old) (fault_count self.new) result };

    /// How many calls failed so far. It stays at 2^64 - 1 once it is there.
    fn faults(&self) -> u64
        ensures { result ≡ fault_count self.now };

    /// A count of faults fits 64 bits.
    ghost fault_count_fits: { (sink : Self) → fault_count sink < 2 ^ 64 };
}

/// Writes all of the bytes, in as many calls as the sink takes. After `Failed` a prefix of them was written.
pub fn write_all<K: Sink>(out: &mut K, bytes: &[u8]) -> Result<(), Failed>
    ensures ok { OnOk result (Appends (K.written out.old) (K.written out.new) bytes.now) }
    ensures err { OnErr result (AppendsPrefix (K.written out.old) (K.written out.new) bytes.now) }
    ensures cause { HasCause (K.fault_count out.old) (K.fault_count out.new) result }
{
    let mut rest = bytes;
    while !rest.is_empty() {
        let taken = out.write(rest)?;
        rest = &rest[taken..];
    }
    Ok(())
}
