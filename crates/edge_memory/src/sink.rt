//! A sink over memory that was reserved when it was made.
ghost use Rattle.std.specs.Prelude.{◌≤◌, ◌+◌, vec_len, vec_capacity};

use crate::calls::Calls;
use crate::failing::Part;
use edge_traits::{Failed, NoMemory, Sink};
use std::alloc::Global;

/// Takes each piece whole, as long as its room lasts. The calls whose numbers are listed fail.
#[derive(Drop)]
pub struct MemSink {
    bytes: Vec<u8>,
    room: usize,
    calls: Calls,
    ghost reserved: { vec_len bytes + room ≤ vec_capacity bytes },
}

impl MemSink {
    ghost use Rattle.std.specs.Prelude.{◌≡◌, [], IfOk};
    ghost use Rattle.edge_memory.specs.Calls.{IsFresh, with_part};
    ghost use Rattle.edge_memory.specs.declared.failing.Part.TheVariants.{Nothing};
    ghost use Rattle.edge_memory.specs.MemSink.{written_of, room_of, calls_of};

    /// An empty sink with room for `room` bytes, whose calls of these numbers, from 0, fail.
    pub fn new(alloc: Global, failing: &[u64], room: usize) -> Result<Self, NoMemory>
        ensures written { IfOk result (λ sink. written_of sink ≡ []) }
        ensures room { IfOk result (λ sink. room_of sink ≡ room) }
        ensures calls { IfOk result (λ sink. IsFresh (with_part Nothing failing.now) (calls_of sink)) }
    {
        Ok(MemSink {
            bytes: Vec::with_capacity(alloc, room)?,
            room,
            calls: Calls::numbered(alloc, failing, Part::Nothing)?,
        })
    }

    /// All that was written, in order.
    pub fn written(&self) -> &[u8]
        ensures { result.now ≡ written_of self.now }
    {
        &self.bytes
    }
}

impl Sink for MemSink {
    ghost use Rattle.std.specs.Prelude.{◌≡◌, ◌<◌, ◌↔◌, ◌⊎◌, ◌++◌, ◌-◌, Some, length, IfOk, OnOk, OnErr, IsErr};
    ghost use Rattle.edge_memory.specs.Calls.{IsListed, Counts};
    ghost use Rattle.edge_memory.specs.MemSink.{written_of, room_of, calls_of};

    ghost written = { λ sink. Some (written_of sink) };

    ghost fault_count = { λ sink. sink.calls.faults };

    ghost fault_count_fits = { λ sink. sink.calls.faults_fit };

    fn write(&mut self, bytes: &[u8]) -> Result<usize, Failed>
        ensures count { IfOk result (λ k. k ≡ length bytes.now) }
        ensures written { OnOk result (written_of self.new ≡ written_of self.old ++ bytes.now) }
        ensures room { OnOk result (room_of self.new ≡ room_of self.old - length bytes.now) }
        ensures fails { IsErr result ↔ (IsListed (calls_of self.old) ⊎ (room_of self.old < length bytes.now)) }
        ensures failed { OnErr result (written_of self.new ≡ written_of self.old) }
        ensures failed_room { OnErr result (room_of self.new ≡ room_of self.old) }
        ensures counted { Counts (calls_of self.old) (calls_of self.new) result }
    {
        self.calls.number(bytes.len() <= self.room)?;
        self.bytes.extend_from_slice(bytes).unwrap();
        self.room -= bytes.len();
        Ok(bytes.len())
    }

    fn faults(&self) -> u64 {
        self.calls.faults()
    }
}
