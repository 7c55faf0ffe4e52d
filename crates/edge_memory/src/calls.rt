//! How the calls of one object are numbered, and which of them fail.
ghost use Rattle.std.specs.Prelude.{◌<◌, ◌^◌};

use crate::failing::{FailingCall, Part};
use edge_traits::{Failed, NoMemory};
use std::alloc::Global;

/// The calls that fail, the number of the next call, from 0, and how many failed. Both counts stop at 2^64 - 1.
#[derive(Drop)]
pub struct Calls {
    failing: Vec<FailingCall>,
    next: u64,
    faults: u64,
    ghost next_fits: { next < 2 ^ 64 },
    ghost faults_fit: { faults < 2 ^ 64 },
}

impl Calls {
    ghost use Rattle.std.specs.Prelude.{◌≡◌, ◌↔◌, ◌⊎◌, IfOk, IsErr, IsFalse};
    ghost use Rattle.edge_memory.specs.Calls.{IsFresh, IsListed, Counts, listed_part, with_part};

    pub fn new(alloc: Global, failing: &[FailingCall]) -> Result<Self, NoMemory>
        ensures { IfOk result (λ calls. IsFresh failing.now calls) }
    {
        Ok(Calls {
            failing: failing.to_vec(alloc)?,
            next: 0,
            faults: 0,
        })
    }

    /// The calls of these numbers fail, and each does this part of its work.
    pub fn numbered(alloc: Global, numbers: &[u64], part: Part) -> Result<Self, NoMemory>
        ensures { IfOk result (λ calls. IsFresh (with_part part numbers.now) calls) }
    {
        let mut failing = Vec::new(alloc);
        let mut rest = numbers;
        while let Some((number, after)) = rest.split_first() {
            failing.push(FailingCall {
                number: *number,
                part,
            })?;
            rest = after;
        }
        Ok(Calls {
            failing,
            next: 0,
            faults: 0,
        })
    }

    /// The part of its work that the next call does, where it is listed.
    pub fn listed(&self) -> Option<Part>
        ensures { result ≡ listed_part self.now.failing.items self.now.next }
    {
        let mut rest = self.failing.as_slice();
        while let Some((call, after)) = rest.split_first() {
            if call.number == self.next {
                return Some(call.part);
            }
            rest = after;
        }
        None
    }

    /// Numbers a call, which fails where its number is listed and where it can't be done.
    pub fn number(&mut self, can: bool) -> Result<(), Failed>
        ensures fails { IsErr result ↔ (IsListed self.old ⊎ IsFalse can) }
        ensures counted { Counts self.old self.new result }
    {
        let listed = self.listed().is_some();
        self.next = self.next.saturating_add(1);
        if listed || !can {
            self.faults = self.faults.saturating_add(1);
            return Err(Failed);
        }
        Ok(())
    }

    pub fn faults(&self) -> u64
        ensures { result ≡ self.now.faults }
    {
        self.faults
    }
}
