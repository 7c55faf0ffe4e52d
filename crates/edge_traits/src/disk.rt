//! Two areas of bytes that outlast a crash, each as far as it was synced.
ghost use Rattle.std.specs.Prelude.{◌≡◌, ◌≤◌, ◌<◌, ◌^◌, ◌+◌, ℕ, Bool, length, take, drop, IfOk, OnOk, OnErr, IsTrue};
ghost use Rattle.edge_traits.specs.Faults.{HasCause};
ghost use Rattle.edge_traits.specs.Disk.{Areas, bytes_of, Overwrites, Torn, Changes, Follows, LeavesNoMore, OnlyIn, Elapses};

use crate::{Area, Failed};

pub trait Disk: Drop {
    /// Whether the disk reports its content. This never changes.
    ghost tells: { Self → Bool };

    /// What a read gives.
    ghost seen: { Self → Areas };

    /// What a crash at this moment may leave.
    ghost may_leave: { Self → Areas → Type 0 };

    /// The moment, as a number that never falls.
    ghost moment: { Self → ℕ };

    /// What a crash at some moment from that one on might have left, in a call or between two.
    ghost left_since: { Self → ℕ → Areas → Type 0 };

    /// How many calls failed, at most 2^64 - 1.
    ghost fault_count: { Self → ℕ };

    /// How many bytes the area has.
    fn len(&mut self, area: Area) -> Result<u64, Failed>
        ensures length { IsTrue (tells self.old) → IfOk result (λ n. n ≡ length (bytes_of (seen self.old) area)) }
        ensures seen { IsTrue (tells self.old) → seen self.new ≡ seen self.old }
        ensures crash { IsTrue (tells self.old) → LeavesNoMore (may_leave self.old) (may_leave self.new) }
        ensures time { IsTrue (tells self.old) → Elapses moment left_since may_leave self.old self.new }
        ensures tells { tells self.new ≡ tells self.old }
        ensures cause { HasCause (fault_count self.old) (fault_count self.new) result };

    /// Fills the buffer from this place of the area on. After `Failed` the buffer holds any bytes.
    fn read_at(&mut self, area: Area, at: u64, buf: &mut [u8]) -> Result<(), Failed>
        requires { IsTrue (tells self.old) → at + length buf.old ≤ length (bytes_of (seen self.old) area) }
        ensures bytes { IsTrue (tells self.old)
            → OnOk result (buf.new ≡ take (length buf.old) (drop at (bytes_of (seen self.old) area))) }
        ensures seen { IsTrue (tells self.old) → seen self.new ≡ seen self.old }
        ensures crash { IsTrue (tells self.old) → LeavesNoMore (may_leave self.old) (may_leave self.new) }
        ensures time { IsTrue (tells self.old) → Elapses moment left_since may_leave self.old self.new }
        ensures tells { tells self.new ≡ tells self.old }
        ensures cause { HasCause (fault_count self.old) (fault_count self.new) result };

    /// Writes over what is there, and past the end. Until a sync of the area returns `Ok`, a crash may leave any bytes
    /// in the range. After `Failed` some of the bytes may be there.
    fn write_at(&mut self, area: Area, at: u64, bytes: &[u8]) -> Result<(), Failed>
        requires { IsTrue (tells self.old) → at ≤ length (bytes_of (seen self.old) area) }
        ensures written { IsTrue (tells self.old)
            → OnOk result (Changes area (Overwrites at bytes.now) (seen self.old) (seen self.new)) }
        ensures failed { IsTrue (tells self.old)
            → OnErr result (Changes area (Torn at (length bytes.now)) (seen self.old) (seen self.new)) }
        ensures crash { IsTrue (tells self.old)
            → Follows (Changes area (Torn at (length bytes.now))) (may_leave self.old) (may_leave self.new) }
        ensures time { IsTrue (tells self.old) → Elapses moment left_since may_leave self.old self.new }
        ensures tells { tells self.new ≡ tells self.old }
        ensures cause { HasCause (fault_count self.old) (fault_count self.new) result };

    /// After `Ok` a crash leaves of the area what a read gives.
    fn sync(&mut self, area: Area) -> Result<(), Failed>
        ensures durable { IsTrue (tells self.old) → OnOk result (OnlyIn area (seen self.old) (may_leave self.new)) }
        ensures seen { IsTrue (tells self.old) → seen self.new ≡ seen self.old }
        ensures crash { IsTrue (tells self.old) → LeavesNoMore (may_leave self.old) (may_leave self.new) }
        ensures time { IsTrue (tells self.old) → Elapses moment left_since may_leave self.old self.new }
        ensures tells { tells self.new ≡ tells self.old }
        ensures cause { HasCause (fault_count self.old) (fault_count self.new) result };

    /// How many calls failed so far. It stays at 2^64 - 1 once it is there.
    fn faults(&self) -> u64
        ensures { result ≡ fault_count self.now };

    /// A count of faults fits 64 bits.
    ghost fault_count_fits: { (disk : Self) → fault_count disk < 2 ^ 64 };

    /// A crash may leave what a read gives.
    ghost may_leave_seen: { (disk : Self) → IsTrue (tells disk) → may_leave disk (seen disk) };

    /// This moment is one of those since an earlier one.
    ghost counts_now: { (disk : Self) (t : ℕ) (image : Areas)
        → t ≤ moment disk → may_leave disk image → left_since disk t image };

    /// Since this moment there is no other.
    ghost only_now: { (disk : Self) (image : Areas) → left_since disk (moment disk) image → may_leave disk image };
}
