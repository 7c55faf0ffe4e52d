//! A source over bytes in memory.
ghost use Rattle.std.specs.Prelude.{◌≤◌, vec_len};

use crate::calls::Calls;
use crate::failing::Part;
use edge_traits::{Failed, NoMemory, Source};
use std::alloc::Global;

/// Gives its bytes in order, as many as fit the buffer. The calls whose numbers are listed fail.
#[derive(Drop)]
pub struct MemSource {
    bytes: Vec<u8>,
    at: usize,
    calls: Calls,
    ghost inside: { at ≤ vec_len bytes },
}

impl MemSource {
    ghost use Rattle.std.specs.Prelude.{◌≡◌, IfOk};
    ghost use Rattle.edge_memory.specs.Calls.{IsFresh, with_part};
    ghost use Rattle.edge_memory.specs.declared.failing.Part.TheVariants.{Nothing};
    ghost use Rattle.edge_memory.specs.MemSource.{left_of, calls_of};

    /// A source with these bytes, whose calls of these numbers, from 0, fail.
    pub fn new(alloc: Global, bytes: &[u8], failing: &[u64]) -> Result<Self, NoMemory>
        ensures left { IfOk result (λ source. left_of source ≡ bytes.now) }
        ensures calls { IfOk result (λ source. IsFresh (with_part Nothing failing.now) (calls_of source)) }
    {
        Ok(MemSource {
            bytes: bytes.to_vec(alloc)?,
            at: 0,
            calls: Calls::numbered(alloc, failing, Part::Nothing)?,
        })
    }
}

impl Source for MemSource {
    ghost use Rattle.std.specs.Prelude.{◌≡◌, ◌↔◌, ◌++◌, Some, min, length, take, IfOk, OnErr, IsErr};
    ghost use Rattle.edge_memory.specs.Calls.{IsListed, Counts};
    ghost use Rattle.edge_memory.specs.MemSource.{left_of, calls_of};

    ghost left = { λ source. Some (left_of source) };

    ghost fault_count = { λ source. source.calls.faults };

    ghost fault_count_fits = { λ source. source.calls.faults_fit };

    fn read(&mut self, buf: &mut [u8]) -> Result<usize, Failed>
        ensures count { IfOk result (λ k. k ≡ min (length buf.old) (length (left_of self.old))) }
        ensures taken { IfOk result (λ k. left_of self.old ≡ take k buf.new ++ left_of self.new) }
        ensures fails { IsErr result ↔ IsListed (calls_of self.old) }
        ensures failed { OnErr result (left_of self.new ≡ left_of self.old) }
        ensures counted { Counts (calls_of self.old) (calls_of self.new) result }
    {
        self.calls.number(true)?;
        let count = buf.len().min(self.bytes.len() - self.at);
        buf[..count].copy_from_slice(&self.bytes[self.at..self.at + count]);
        self.at += count;
        Ok(count)
    }

    fn faults(&self) -> u64 {
        self.calls.faults()
    }
}
