//! What the journal does to its disk, in runs of calls.
ghost use Rattle.std.specs.Prelude.{◌≡◌, ◌≤◌, ◌+◌, length, get_or, IfOk, IfErr, OnOk, IsTrue};
ghost use Rattle.edge_traits.specs.Disk.{bytes_of, Overwrites, Torn, Changes, Follows, OnlyIn};
ghost use Rattle.edge_traits.specs.Runs.{IsSameDisk, CrashLeaves, IsUntouched};
ghost use Rattle.edge_traits.specs.Faults.{HasCause};
ghost use Rattle.journal_store.specs.Store.{TornFrom};
ghost use Rattle.journal_store.specs.Fault.{LoadCause};

use crate::StoreFault;
use edge_traits::{Area, Disk, Failed};
use std::alloc::Global;

/// Writes these bytes over what is there, and syncs.
pub fn put<D: Disk>(disk: &mut D, area: Area, at: u64, bytes: &[u8]) -> Result<(), Failed>
    requires { IsTrue (D.tells disk.old) → at ≤ length (bytes_of (D.seen disk.old) area) }
    ensures written { IsTrue (D.tells disk.old)
        → OnOk result (Changes area (Overwrites at bytes.now) (D.seen disk.old) (D.seen disk.new)) }
    ensures durable { IsTrue (D.tells disk.old) → OnOk result (OnlyIn area (D.seen disk.new) (D.may_leave disk.new)) }
    ensures same { IsTrue (D.tells disk.old) → Changes area (Torn at (length bytes.now)) (D.seen disk.old) (D.seen disk.new) }
    ensures crash { IsTrue (D.tells disk.old)
        → Follows (Changes area (Torn at (length bytes.now))) (D.may_leave disk.old) (D.may_leave disk.new) }
    ensures any_moment { CrashLeaves D.Disk disk.old disk.new (TornFrom (D.may_leave disk.old) area at (length bytes.now)) }
    ensures same_disk { IsSameDisk D.Disk disk.old disk.new }
    ensures cause { HasCause (D.fault_count disk.old) (D.fault_count disk.new) result }
{
    disk.write_at(area, at, bytes)?;
    disk.sync(area)
}

/// The byte at this place of the area, of which a crash leaves what a read gives.
pub fn settled_byte<D: Disk>(disk: &mut D, area: Area, at: u64) -> Result<u8, Failed>
    requires { IsTrue (D.tells disk.old) → at + 1 ≤ length (bytes_of (D.seen disk.old) area) }
    ensures byte { IsTrue (D.tells disk.old) → IfOk result (λ byte. byte ≡ get_or (bytes_of (D.seen disk.old) area) at 0) }
    ensures durable { IsTrue (D.tells disk.old) → OnOk result (OnlyIn area (D.seen disk.new) (D.may_leave disk.new)) }
    ensures untouched { IsUntouched D.Disk disk.old disk.new }
    ensures same { IsSameDisk D.Disk disk.old disk.new }
    ensures cause { HasCause (D.fault_count disk.old) (D.fault_count disk.new) result }
{
    let mut byte = [0];
    disk.sync(area)?;
    disk.read_at(area, at, &mut byte)?;
    Ok(byte[0])
}

/// The length of the area, of which a crash leaves what a read gives.
fn settled_len<D: Disk>(disk: &mut D, area: Area) -> Result<u64, Failed>
    ensures length { IsTrue (D.tells disk.old) → IfOk result (λ n. n ≡ length (bytes_of (D.seen disk.old) area)) }
    ensures durable { IsTrue (D.tells disk.old) → OnOk result (OnlyIn area (D.seen disk.new) (D.may_leave disk.new)) }
    ensures untouched { IsUntouched D.Disk disk.old disk.new }
    ensures same { IsSameDisk D.Disk disk.old disk.new }
    ensures cause { HasCause (D.fault_count disk.old) (D.fault_count disk.new) result }
{
    disk.sync(area)?;
    disk.len(area)
}

/// All of the area, of which a crash leaves what was read.
pub fn load<D: Disk>(alloc: Global, disk: &mut D, area: Area) -> Result<Vec<u8>, StoreFault>
    ensures bytes { IsTrue (D.tells disk.old) → IfOk result (λ bytes. bytes.items ≡ bytes_of (D.seen disk.old) area) }
    ensures durable { IsTrue (D.tells disk.old) → OnOk result (OnlyIn area (D.seen disk.new) (D.may_leave disk.new)) }
    ensures untouched { IsUntouched D.Disk disk.old disk.new }
    ensures same { IsSameDisk D.Disk disk.old disk.new }
    ensures no_fault { OnOk result (D.fault_count disk.new ≡ D.fault_count disk.old) }
    ensures fault { IfErr result (LoadCause (D.fault_count disk.old) (D.fault_count disk.new)) }
{
    let Ok(len) = settled_len(disk, area) else {
        return Err(StoreFault::Disk(disk.faults()));
    };
    let mut bytes = vec![in alloc; 0; len as usize]?;
    let Ok(()) = disk.read_at(area, 0, &mut bytes) else {
        return Err(StoreFault::Disk(disk.faults()));
    };
    Ok(bytes)
}
