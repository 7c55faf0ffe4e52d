//! The log of a disk's calls.
ghost use Rattle.std.specs.Prelude.{◌≡◌, ◌≤◌, ◌+◌, true, length, vec_len, vec_capacity};
ghost use Rattle.std.specs.List.{list_all};
ghost use Rattle.edge_memory.specs.Call.{is_logged};
ghost use Rattle.edge_memory.specs.Story.{of_area};

use crate::contents::Contents;
use crate::pick::Pick;
use edge_traits::Area;
use std::alloc::{AllocError, Global};

/// A call as it was done. A write names its bytes by where they are in the log.
#[derive(Clone, Copy)]
pub enum Call {
    Rested,
    Wrote {
        area: Area,
        at: usize,
        from: usize,
        len: usize,
    },
    Synced(Area),
}

impl Call {
    ghost use Rattle.std.specs.Prelude.{◌≡◌, ◌↔◌, IsTrue};
    ghost use Rattle.edge_memory.specs.declared.call_log.Call.TheVariants.{Synced};

    fn syncs(&self, area: Area) -> bool
        ensures { IsTrue result ↔ (self.now ≡ Synced area) }
    {
        match self {
            Call::Synced(other) => *other == area,
            _ => false,
        }
    }
}

/// The calls so far, and the bytes of all writes in their order. It takes no memory once it is made.
#[derive(Drop)]
pub struct CallLog {
    calls: Vec<Call>,
    free: usize,
    bytes: Vec<u8>,
    room: usize,
    ghost call_room: { vec_len calls + free ≤ vec_capacity calls },
    ghost byte_room: { vec_len bytes + room ≤ vec_capacity bytes },
    ghost logged: { list_all (is_logged (length bytes.items)) calls.items ≡ true },
}

impl CallLog {
    ghost use Rattle.std.specs.Prelude.{◌≡◌, ◌≤◌, ◌<◌, ◌+◌, ◌++◌, [], ◌∷◌, length, take, slice_index_or, IfOk, OnOk, IsTrue, IsFalse, ℕ};
    ghost use Rattle.edge_memory.specs.Contents.{areas_of};
    ghost use Rattle.edge_memory.specs.Story.{Idle, Write, Sync, Leaves, all_inside, replayed, settled};
    ghost use Rattle.edge_memory.specs.CallLog.{events_of};

    /// A log with room for `calls` calls and `room` bytes.
    pub fn new(alloc: Global, calls: usize, room: usize) -> Result<Self, AllocError>
        ensures events { IfOk result (λ made. events_of made ≡ []) }
        ensures calls { IfOk result (λ made. made.free ≡ calls) }
        ensures room { IfOk result (λ made. made.room ≡ room) }
    {
        Ok(CallLog {
            calls: Vec::with_capacity(alloc, calls)?,
            free: calls,
            bytes: Vec::with_capacity(alloc, room)?,
            room,
        })
    }

    /// How many calls there were.
    pub fn len(&self) -> usize
        ensures { result ≡ length (events_of self.now) }
    {
        self.calls.len()
    }

    /// How many calls it was made for.
    pub fn all_calls(&self) -> usize
        ensures { result ≡ length (events_of self.now) + self.now.free }
    {
        self.calls.len() + self.free
    }

    /// How many bytes it was made for.
    pub fn all_bytes(&self) -> usize
        ensures { result ≡ length self.now.bytes.items + self.now.room }
    {
        self.bytes.len() + self.room
    }

    /// How many calls more there is room for.
    pub fn free(&self) -> usize
        ensures { result ≡ self.now.free }
    {
        self.free
    }

    /// How many bytes more there is room for.
    pub fn room(&self) -> usize
        ensures { result ≡ self.now.room }
    {
        self.room
    }

    /// Records a call that changed nothing.
    pub fn rest(&mut self)
        requires { 0 < self.old.free }
        ensures events { events_of self.new ≡ events_of self.old ++ Idle ∷ [] }
        ensures free { self.new.free + 1 ≡ self.old.free }
        ensures room { self.new.room ≡ self.old.room }
    {
        self.calls.push(Call::Rested).unwrap();
        self.free -= 1;
    }

    pub fn sync(&mut self, area: Area)
        requires { 0 < self.old.free }
        ensures events { events_of self.new ≡ events_of self.old ++ Sync area ∷ [] }
        ensures free { self.new.free + 1 ≡ self.old.free }
        ensures room { self.new.room ≡ self.old.room }
    {
        self.calls.push(Call::Synced(area)).unwrap();
        self.free -= 1;
    }

    pub fn write(&mut self, area: Area, at: usize, bytes: &[u8])
        requires free { 0 < self.old.free }
        requires room { length bytes.now ≤ self.old.room }
        ensures events { events_of self.new ≡ events_of self.old ++ Write area at bytes.now ∷ [] }
        ensures free { self.new.free + 1 ≡ self.old.free }
        ensures room { self.new.room + length bytes.now ≡ self.old.room }
    {
        let call = Call::Wrote {
            area,
            at,
            from: self.bytes.len(),
            len: bytes.len(),
        };
        self.bytes.extend_from_slice(bytes).unwrap();
        self.room -= bytes.len();
        self.calls.push(call).unwrap();
        self.free -= 1;
    }

    /// Makes of the first contents what a crash after `count` calls may leave. What wasn't synced didn't arrive with pick 0,
    /// arrived whole with 1, and else came through as the pick draws.
    pub fn leave(&self, contents: &mut Contents, count: usize, pick: u64) -> Result<(), AllocError>
        requires count { count ≤ length (events_of self.now) }
        requires inside { all_inside (areas_of contents.old) (events_of self.now) ≡ true }
        ensures leaves { OnOk result (Leaves (areas_of contents.old) (areas_of contents.old)
            (take count (events_of self.now)) (areas_of contents.new)) }
        ensures stayed { pick ≡ 0 → OnOk result
            (areas_of contents.new ≡ settled (areas_of contents.old) (areas_of contents.old) (take count (events_of self.now))) }
        ensures arrived { pick ≡ 1 → OnOk result
            (areas_of contents.new ≡ replayed (areas_of contents.old) (take count (events_of self.now))) }
    {
        let mut draws = Pick::new(pick);
        let left = self.kept_before(Area::Left, count, pick == 1);
        let right = self.kept_before(Area::Right, count, pick == 1);
        for i in 0..count {
            match self.calls[i] {
                Call::Rested | Call::Synced(_) => {}
                Call::Wrote {
                    area,
                    at,
                    from,
                    len,
                } => {
                    let bytes = &self.bytes[from..from + len];
                    if i < synced_of(area, left, right) {
                        contents.overwrite(area, at, bytes)?;
                    } else if pick != 0 {
                        contents.tear(area, at, bytes, &mut draws)?;
                    }
                }
            }
        }
        Ok(())
    }

    // How many calls there are whose writes into the area a crash doesn't tear, among the first `count` ones.
    fn kept_before(&self, area: Area, count: usize, whole: bool) -> usize
        requires { count ≤ length (events_of self.now) }
        ensures synced { (k : ℕ) → k < count → slice_index_or (events_of self.now) k Idle ≡ Sync area → k < result }
        ensures last { IsFalse whole → (k : ℕ) → result ≡ k + 1 → slice_index_or (events_of self.now) k Idle ≡ Sync area }
        ensures most { result ≤ count }
        ensures whole { IsTrue whole → count ≤ result }
    {
        if whole {
            count
        } else {
            self.synced_before(area, count)
        }
    }

    // How many calls there are up to the last sync of the area among the first `count` ones.
    fn synced_before(&self, area: Area, count: usize) -> usize
        requires { count ≤ length (events_of self.now) }
        ensures synced { (k : ℕ) → k < count → slice_index_or (events_of self.now) k Idle ≡ Sync area → k < result }
        ensures last { (k : ℕ) → result ≡ k + 1 → slice_index_or (events_of self.now) k Idle ≡ Sync area }
        ensures most { result ≤ count }
    {
        let mut synced = 0;
        for i in 0..count {
            if self.calls[i].syncs(area) {
                synced = i + 1;
            }
        }
        synced
    }
}

fn synced_of(area: Area, left: usize, right: usize) -> usize
    ensures { result ≡ of_area area left right }
{
    match area {
        Area::Left => left,
        Area::Right => right,
    }
}
