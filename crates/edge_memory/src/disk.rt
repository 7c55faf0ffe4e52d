//! A disk in memory, which records its calls and reports what a crash at each moment might have left.
ghost use Rattle.std.specs.Prelude.{◌≡◌, true};
ghost use Rattle.edge_memory.specs.Contents.{HasRoom, areas_of};
ghost use Rattle.edge_memory.specs.Story.{all_inside, replayed};
ghost use Rattle.edge_memory.specs.CallLog.{events_of};

use crate::call_log::CallLog;
use crate::calls::Calls;
use crate::contents::Contents;
use crate::failing::{FailingCall, Part};
use edge_traits::{Area, Disk, Failed, NoMemory};
use std::alloc::Global;

/// Two areas and the record of the calls on them. A call fails where it is listed, once the record is full, and where a
/// write passes the room. A listed call does the part of its work that is listed with it: a read and a write do their
/// first bytes, and half of a sync is nothing. Another call that fails does nothing.
#[derive(Drop)]
pub struct MemDisk {
    first: Contents,
    seen: Contents,
    log: CallLog,
    calls: Calls,
    ghost room: { HasRoom seen log.room },
    ghost told: { areas_of seen ≡ replayed (areas_of first) (events_of log) },
    ghost inside: { all_inside (areas_of first) (events_of log) ≡ true },
}

impl MemDisk {
    ghost use Rattle.std.specs.Prelude.{◌≡◌, ◌≤◌, ◌<◌, ◌+◌, ◌-◌, ◌↔◌, ◌⊎◌, [], length, take, IfOk, IsErr, IsTrue};
    ghost use Rattle.edge_traits.specs.Disk.{bytes_of, Changes, Overwrites, LeavesNoMore, Elapses};
    ghost use Rattle.edge_memory.specs.Calls.{IsFresh, IsListed, Counts, with_part, failing_size, next_listed};
    ghost use Rattle.edge_memory.specs.declared.failing.Part.TheVariants.{Half};
    ghost use Rattle.edge_memory.specs.Story.{Idle, Write, Sync, LeavesAt, settled_at, with_event, recorded, replayed};
    ghost use Rattle.edge_memory.specs.MemDisk.{seen_of, story_of, may_leave_of, moment_of, left_since_of, room_of, written_of, calls_left_of, CanWrite, calls_of};

    /// A disk with these areas, all of them synced, whose calls of these numbers, from 0, fail after half of their work. It
    /// records `calls` calls and `room` written bytes.
    pub fn new(
        alloc: Global,
        left: &[u8],
        right: &[u8],
        failing: &[u64],
        calls: usize,
        room: usize,
    ) -> Result<Self, NoMemory>
        ensures left { IfOk result (λ disk. (seen_of disk).left ≡ left.now) }
        ensures right { IfOk result (λ disk. (seen_of disk).right ≡ right.now) }
        ensures synced { IfOk result (λ disk. (story_of disk).first ≡ seen_of disk) }
        ensures events { IfOk result (λ disk. (story_of disk).events ≡ []) }
        ensures calls { IfOk result (λ disk. calls_left_of disk ≡ calls) }
        ensures room { IfOk result (λ disk. room_of disk ≡ room) }
        ensures numbers { IfOk result (λ disk. IsFresh (with_part Half failing.now) (calls_of disk)) }
    {
        let numbers = Calls::numbered(alloc, failing, Part::Half)?;
        MemDisk::with_calls(alloc, left, right, numbers, calls, room)
    }

    /// The same, with the part of its work that each call does which fails.
    pub fn with_failing(
        alloc: Global,
        left: &[u8],
        right: &[u8],
        failing: &[FailingCall],
        calls: usize,
        room: usize,
    ) -> Result<Self, NoMemory>
        ensures left { IfOk result (λ disk. (seen_of disk).left ≡ left.now) }
        ensures right { IfOk result (λ disk. (seen_of disk).right ≡ right.now) }
        ensures synced { IfOk result (λ disk. (story_of disk).first ≡ seen_of disk) }
        ensures events { IfOk result (λ disk. (story_of disk).events ≡ []) }
        ensures calls { IfOk result (λ disk. calls_left_of disk ≡ calls) }
        ensures room { IfOk result (λ disk. room_of disk ≡ room) }
        ensures numbers { IfOk result (λ disk. IsFresh failing.now (calls_of disk)) }
    {
        let numbers = Calls::new(alloc, failing)?;
        MemDisk::with_calls(alloc, left, right, numbers, calls, room)
    }

    fn with_calls(
        alloc: Global,
        left: &[u8],
        right: &[u8],
        numbers: Calls,
        calls: usize,
        room: usize,
    ) -> Result<Self, NoMemory>
        ensures left { IfOk result (λ disk. (seen_of disk).left ≡ left.now) }
        ensures right { IfOk result (λ disk. (seen_of disk).right ≡ right.now) }
        ensures synced { IfOk result (λ disk. (story_of disk).first ≡ seen_of disk) }
        ensures events { IfOk result (λ disk. (story_of disk).events ≡ []) }
        ensures calls { IfOk result (λ disk. calls_left_of disk ≡ calls) }
        ensures room { IfOk result (λ disk. room_of disk ≡ room) }
        ensures numbers { IfOk result (λ disk. calls_of disk ≡ numbers) }
    {
        Ok(MemDisk {
            first: Contents::new(alloc, left, right, 0)?,
            seen: Contents::new(alloc, left, right, room)?,
            log: CallLog::new(alloc, calls, room)?,
            calls: numbers,
        })
    }

    /// One image that a crash after the first `moment` calls may leave, as a disk whose calls all work and whose record is
    /// as long as this one's. A moment that is still to come is read as now. `pick` chooses among the images: with 0 what
    /// wasn't synced didn't arrive, with 1 all arrived, and with any other number each write that wasn't synced came through
    /// in its own way: not at all, as a prefix, whole, as zeros, as any bytes or as a mix.
    pub fn image(&self, alloc: Global, moment: u64, pick: u64) -> Result<MemDisk, NoMemory>
        ensures left { IfOk result (λ image. LeavesAt (story_of self.now) moment (seen_of image)) }
        ensures stayed { pick ≡ 0 → IfOk result (λ image. seen_of image ≡ settled_at (story_of self.now) moment) }
        ensures arrived { pick ≡ 1 → IfOk result (λ image.
            seen_of image ≡ replayed (story_of self.now).first (take moment (story_of self.now).events)) }
        ensures synced { IfOk result (λ image. (story_of image).first ≡ seen_of image) }
        ensures events { IfOk result (λ image. (story_of image).events ≡ []) }
        ensures calls { IfOk result (λ image. calls_left_of image ≡ moment_of self.now + calls_left_of self.now) }
        ensures room { IfOk result (λ image. room_of image ≡ written_of self.now + room_of self.now) }
        ensures numbers { IfOk result (λ image. IsFresh [] (calls_of image)) }
    {
        let count = self.log.len().min(moment as usize);
        let (left, right) = (self.first.area(Area::Left), self.first.area(Area::Right));
        let mut held = Contents::new(alloc, left, right, 0)?;
        self.log.leave(&mut held, count, pick)?;
        let (left, right) = (held.area(Area::Left), held.area(Area::Right));
        MemDisk::new(
            alloc,
            left,
            right,
            &[],
            self.log.all_calls(),
            self.log.all_bytes(),
        )
    }

    /// What the area reads as, without a call of the disk.
    pub fn content(&self, area: Area) -> &[u8]
        ensures { result.now ≡ bytes_of (seen_of self.now) area }
    {
        self.seen.area(area)
    }

    // Numbers a call that changes nothing, and records it where there is room.
    fn rest(&mut self) -> Result<(), Failed>
        ensures seen { seen_of self.new ≡ seen_of self.old }
        ensures story { story_of self.new ≡ recorded (calls_left_of self.old) Idle (story_of self.old) }
        ensures crash { LeavesNoMore (may_leave_of self.old) (may_leave_of self.new) }
        ensures time { Elapses moment_of left_since_of may_leave_of self.old self.new }
        ensures calls { calls_left_of self.new ≡ calls_left_of self.old - 1 }
        ensures room { room_of self.new ≡ room_of self.old }
        ensures fails { IsErr result ↔ (IsListed (calls_of self.old) ⊎ (calls_left_of self.old ≡ 0)) }
        ensures counted { Counts (calls_of self.old) (calls_of self.new) result }
    {
        let done = self.calls.number(self.log.free() > 0);
        self.idle();
        done
    }

    fn idle(&mut self)
        ensures seen { seen_of self.new ≡ seen_of self.old }
        ensures story { story_of self.new ≡ recorded (calls_left_of self.old) Idle (story_of self.old) }
        ensures calls { calls_left_of self.new ≡ calls_left_of self.old - 1 }
        ensures room { room_of self.new ≡ room_of self.old }
        ensures numbers { calls_of self.new ≡ calls_of self.old }
    {
        if self.log.free() > 0 {
            self.log.rest();
        }
    }

    // Records a sync.
    fn settle(&mut self, area: Area)
        requires { 0 < calls_left_of self.old }
        ensures seen { seen_of self.new ≡ seen_of self.old }
        ensures told { seen_of self.old ≡ replayed (story_of self.old).first (story_of self.old).events }
        ensures story { story_of self.new ≡ with_event (story_of self.old) (Sync area) }
        ensures calls { calls_left_of self.new ≡ calls_left_of self.old - 1 }
        ensures room { room_of self.new ≡ room_of self.old }
        ensures numbers { calls_of self.new ≡ calls_of self.old }
    {
        self.log.sync(area);
    }

    // How many of `count` bytes the next call does where it fails.
    fn failing_size(&self, count: usize) -> usize
        ensures size { result ≡ failing_size (next_listed (calls_of self.now)) count }
        ensures most { result ≤ count }
    {
        match self.calls.listed() {
            Some(part) => part.size(count),
            None => 0,
        }
    }

    fn can_write(&self, count: usize) -> bool
        ensures { IsTrue result ↔ CanWrite self.now count }
    {
        self.log.free() > 0 && count <= self.log.room()
    }

    // Writes and records it.
    fn put(&mut self, area: Area, at: usize, bytes: &[u8])
        requires place { at ≤ length (bytes_of (seen_of self.old) area) }
        requires room { CanWrite self.old (length bytes.now) }
        ensures seen { Changes area (Overwrites at bytes.now) (seen_of self.old) (seen_of self.new) }
        ensures story { story_of self.new ≡ with_event (story_of self.old) (Write area at bytes.now) }
        ensures calls { calls_left_of self.new ≡ calls_left_of self.old - 1 }
        ensures left_room { room_of self.new ≡ room_of self.old - length bytes.now }
        ensures numbers { calls_of self.new ≡ calls_of self.old }
    {
        self.seen.overwrite(area, at, bytes).unwrap();
        self.log.write(area, at, bytes);
    }
}

impl Disk for MemDisk {
    ghost use Rattle.std.specs.Prelude.{◌≡◌, ◌≤◌, ◌+◌, ◌++◌, ◌↔◌, ◌⊎◌, true, length, take, drop, IfOk, OnOk, OnErr, IsErr};
    ghost use Rattle.edge_traits.specs.Disk.{bytes_of, Changes, Overwrites, Torn, Follows, LeavesNoMore, OnlyIn, Elapses};
    ghost use Rattle.edge_memory.specs.Calls.{IsListed, Counts, failing_size, next_listed};
    ghost use Rattle.edge_memory.specs.Story.{Idle, Write, Sync, with_event, recorded};
    ghost use Rattle.edge_memory.specs.StoryLaws.{seen_is_left, counts_now, only_now};
    ghost use Rattle.edge_memory.specs.MemDisk.{seen_of, story_of, may_leave_of, moment_of, left_since_of, calls_left_of, CanWrite, calls_of, failing_bytes, failing_sync};

    ghost tells = { λ _. true };

    ghost seen = { seen_of };

    ghost may_leave = { may_leave_of };

    ghost moment = { moment_of };

    ghost left_since = { left_since_of };

    ghost fault_count = { λ disk. disk.calls.faults };

    ghost fault_count_fits = { λ disk. disk.calls.faults_fit };

    ghost may_leave_seen = { λ disk _. seen_is_left (story_of disk) (seen_of disk) disk.told disk.inside };

    ghost counts_now = { λ disk. counts_now (story_of disk) };

    ghost only_now = { λ disk. only_now (story_of disk) };

    fn len(&mut self, area: Area) -> Result<u64, Failed>
        ensures length { IfOk result (λ n. n ≡ length (bytes_of (seen_of self.old) area)) }
        ensures seen { seen_of self.new ≡ seen_of self.old }
        ensures story { story_of self.new ≡ recorded (calls_left_of self.old) Idle (story_of self.old) }
        ensures crash { LeavesNoMore (may_leave_of self.old) (may_leave_of self.new) }
        ensures time { Elapses moment_of left_since_of may_leave_of self.old self.new }
        ensures fails { IsErr result ↔ (IsListed (calls_of self.old) ⊎ (calls_left_of self.old ≡ 0)) }
        ensures counted { Counts (calls_of self.old) (calls_of self.new) result }
    {
        self.rest()?;
        Ok(self.seen.area(area).len() as u64)
    }

    fn read_at(&mut self, area: Area, at: u64, buf: &mut [u8]) -> Result<(), Failed>
        requires { at + length buf.old ≤ length (bytes_of (seen_of self.old) area) }
        ensures bytes { OnOk result (buf.new ≡ take (length buf.old) (drop at (bytes_of (seen_of self.old) area))) }
        ensures seen { seen_of self.new ≡ seen_of self.old }
        ensures story { story_of self.new ≡ recorded (calls_left_of self.old) Idle (story_of self.old) }
        ensures crash { LeavesNoMore (may_leave_of self.old) (may_leave_of self.new) }
        ensures time { Elapses moment_of left_since_of may_leave_of self.old self.new }
        ensures part { OnErr result (buf.new ≡ take (failing_size (next_listed (calls_of self.old)) (length buf.old))
            (drop at (bytes_of (seen_of self.old) area)) ++ drop (failing_size (next_listed (calls_of self.old)) (length buf.old)) buf.old) }
        ensures fails { IsErr result ↔ (IsListed (calls_of self.old) ⊎ (calls_left_of self.old ≡ 0)) }
        ensures counted { Counts (calls_of self.old) (calls_of self.new) result }
    {
        let from = at as usize;
        let part = self.failing_size(buf.len());
        if let Err(failed) = self.rest() {
            buf[..part].copy_from_slice(&self.seen.area(area)[from..from + part]);
            return Err(failed);
        }
        buf.copy_from_slice(&self.seen.area(area)[from..from + buf.len()]);
        Ok(())
    }

    fn write_at(&mut self, area: Area, at: u64, bytes: &[u8]) -> Result<(), Failed>
        requires { at ≤ length (bytes_of (seen_of self.old) area) }
        ensures written { OnOk result (Changes area (Overwrites at bytes.now) (seen_of self.old) (seen_of self.new)) }
        ensures story { OnOk result (story_of self.new ≡ with_event (story_of self.old) (Write area at bytes.now)) }

        // A listed write does its part.
        ensures part { CanWrite self.old (length bytes.now) → OnErr result
            (Changes area (Overwrites at (failing_bytes self.old bytes.now)) (seen_of self.old) (seen_of self.new)) }
        ensures part_story { CanWrite self.old (length bytes.now) → OnErr result
            (story_of self.new ≡ with_event (story_of self.old) (Write area at (failing_bytes self.old bytes.now))) }

        // One past the room does nothing.
        ensures refused { ¬ CanWrite self.old (length bytes.now) → seen_of self.new ≡ seen_of self.old }
        ensures refused_story { ¬ CanWrite self.old (length bytes.now)
            → story_of self.new ≡ recorded (calls_left_of self.old) Idle (story_of self.old) }

        ensures failed { OnErr result (Changes area (Torn at (length bytes.now)) (seen_of self.old) (seen_of self.new)) }
        ensures crash { Follows (Changes area (Torn at (length bytes.now))) (may_leave_of self.old) (may_leave_of self.new) }
        ensures time { Elapses moment_of left_since_of may_leave_of self.old self.new }
        ensures fails { IsErr result ↔ (IsListed (calls_of self.old) ⊎ (¬ CanWrite self.old (length bytes.now))) }
        ensures counted { Counts (calls_of self.old) (calls_of self.new) result }
    {
        let can = self.can_write(bytes.len());
        let part = self.failing_size(bytes.len());
        let done = self.calls.number(can);
        if !can {
            self.idle();
        } else if done.is_ok() {
            self.put(area, at as usize, bytes);
        } else {
            self.put(area, at as usize, &bytes[..part]);
        }
        done
    }

    fn sync(&mut self, area: Area) -> Result<(), Failed>
        ensures durable { OnOk result (OnlyIn area (seen_of self.old) (may_leave_of self.new)) }
        ensures seen { seen_of self.new ≡ seen_of self.old }
        ensures story { OnOk result (story_of self.new ≡ with_event (story_of self.old) (Sync area)) }
        ensures failed { OnErr result (story_of self.new
            ≡ recorded (calls_left_of self.old) (failing_sync (next_listed (calls_of self.old)) area) (story_of self.old)) }
        ensures crash { LeavesNoMore (may_leave_of self.old) (may_leave_of self.new) }
        ensures time { Elapses moment_of left_since_of may_leave_of self.old self.new }
        ensures fails { IsErr result ↔ (IsListed (calls_of self.old) ⊎ (calls_left_of self.old ≡ 0)) }
        ensures counted { Counts (calls_of self.old) (calls_of self.new) result }
    {
        let can = self.log.free() > 0;
        let all = self.calls.listed() == Some(Part::All);
        let done = self.calls.number(can);
        if can && (done.is_ok() || all) {
            self.settle(area);
        } else {
            self.idle();
        }
        done
    }

    fn faults(&self) -> u64 {
        self.calls.faults()
    }
}
