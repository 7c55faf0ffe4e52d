//! What formatting does to a disk.
ghost use Rattle.std.specs.Prelude.{◌≡◌, ◌≤◌, [], IfOk, OnOk, IsTrue};
ghost use Rattle.edge_traits.specs.Disk.{Only};
ghost use Rattle.edge_traits.specs.Runs.{IsSameDisk, CrashLeaves, IsUntouched};
ghost use Rattle.edge_traits.specs.declared.names.Area.TheVariants.{Left};
ghost use Rattle.edge_traits.specs.Faults.{HasCause};
ghost use Rattle.journal_store.specs.Area.{empty_journal, IsOnTheWay};
ghost use Rattle.journal_store.specs.Fault as faults;
ghost use Rattle.journal_store.specs.Store.{EachIn};

use crate::area::EMPTY;
use crate::device::put;
use edge_traits::{Area, Disk, Failed};

/// The left area's length where that isn't 0, else the right one's.
pub fn first_length<D: Disk>(disk: &mut D) -> Result<u64, Failed>
    ensures length { IsTrue (D.tells disk.old) → IfOk result (λ n. n ≡ faults.first_length (D.seen disk.old)) }
    ensures untouched { IsUntouched D.Disk disk.old disk.new }
    ensures same { IsSameDisk D.Disk disk.old disk.new }
    ensures cause { HasCause (D.fault_count disk.old) (D.fault_count disk.new) result }
{
    let left = disk.len(Area::Left)?;
    if left > 0 {
        return Ok(left);
    }
    disk.len(Area::Right)
}

/// Writes an empty journal into two empty areas, the right one first.
pub fn write_empty<D: Disk>(disk: &mut D) -> Result<(), Failed>
    requires left { IsTrue (D.tells disk.old) → (D.seen disk.old).left ≡ [] }
    requires right { IsTrue (D.tells disk.old) → (D.seen disk.old).right ≡ [] }
    ensures written { IsTrue (D.tells disk.old) → OnOk result (D.seen disk.new ≡ empty_journal) }
    ensures durable { IsTrue (D.tells disk.old) → OnOk result (Only empty_journal (D.may_leave disk.new)) }
    ensures order { EachIn Left (D.may_leave disk.old) (λ left. left ≡ []) → CrashLeaves D.Disk disk.old disk.new IsOnTheWay }
    ensures later { IsTrue (D.tells disk.old) → D.moment disk.old ≤ D.moment disk.new }
    ensures same { IsSameDisk D.Disk disk.old disk.new }
    ensures cause { HasCause (D.fault_count disk.old) (D.fault_count disk.new) result }
{
    put(disk, Area::Right, 0, &[0])?;
    put(disk, Area::Left, 0, &EMPTY)
}
