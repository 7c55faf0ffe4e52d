//! What is written: the journal, and the batch in hand.
ghost use Rattle.std.specs.Prelude.{◌≡◌, ◌≤◌, ◌+◌, ◌++◌, length};
ghost use Rattle.std.specs.List.{AllByRecursion};
ghost use Rattle.journal_text.specs.Text.{Fits, IsSpellable, entry_text, entries_text};
ghost use Rattle.registrar_book.specs.Journals.{size_limit, sizes_of};

use arrayvec::ArrayVec;
use edge_traits::{Disk, Failed};
use journal_store::{Journal, Settled, Written};
use journal_text::{Entry, write_entry};

/// How many entries a batch has at opening.
const BATCH_SIZE: usize = 32;

#[derive(Drop)]
pub struct Press<D: Disk> {
    pub journal: Journal<D>,
    batch: ArrayVec<u8, 4096>,
}

impl<D: Disk> Press<D> {
    ghost use Rattle.std.specs.Prelude.{◌≡◌, ◌≢◌, ◌≤◌, ◌<◌, ◌+◌, ◌*◌, ◌^◌, ◌∷◌, ◌++◌, [], ℕ, List, length, OnOk, OnErr, IsTrue};
    ghost use Rattle.edge_traits.specs.Disk.{LeavesOnly};
    ghost use Rattle.edge_traits.specs.Faults.{HasCause};
    ghost use Rattle.journal_text.specs.declared.entry.Entry.{Entry};
    ghost use Rattle.journal_text.specs.Text.{IsSpellable};
    ghost use Rattle.journal_store.specs.Store.{disk_of, pending_of, reach_of};
    ghost use Rattle.std.specs.List.{AllByRecursion};
    ghost use Rattle.registrar_book.specs.Journals.{HasLog, IsHeld, HasPrefix, AreSmall, sizes_of};

    pub fn new(journal: Journal<D>) -> Self
        ensures { result.journal ≡ journal }
    {
        Press {
            journal,
            batch: ArrayVec::new(),
        }
    }

    /// Settles what is pending.
    pub fn settle(&mut self) -> Result<(), Failed>
        requires held { IsTrue (D.tells (disk_of self.old.journal))
            → (log : List Entry) × (durable : ℕ) × IsHeld D.may_leave self.old.journal log durable }
        requires room { reach_of self.old.journal < 2 ^ 63 }
        ensures ok { IsTrue (D.tells (disk_of self.old.journal))
            → OnOk result ((log : List Entry) (durable : ℕ) → IsHeld D.may_leave self.old.journal log durable
            → HasLog D.may_leave self.new.journal log) }
        ensures err { IsTrue (D.tells (disk_of self.old.journal))
            → OnErr result ((log : List Entry) (durable : ℕ) → IsHeld D.may_leave self.old.journal log durable
            → IsHeld D.may_leave self.new.journal log durable) }
        ensures any_moment { IsTrue (D.tells (disk_of self.old.journal))
            → (log : List Entry) (durable : ℕ) → IsHeld D.may_leave self.old.journal log durable
            → LeavesOnly D.moment D.left_since (disk_of self.old.journal) (disk_of self.new.journal)
            (HasPrefix durable log) }
        ensures pending { OnOk result (pending_of self.new.journal ≡ []) }
        ensures was_pending { OnErr result (pending_of self.old.journal ≢ []) }
        ensures reach { reach_of self.new.journal ≡ reach_of self.old.journal }
        ensures cause { HasCause (D.fault_count (disk_of self.old.journal)) (D.fault_count (disk_of self.new.journal)) result }
        ensures tells { D.tells (disk_of self.new.journal) ≡ D.tells (disk_of self.old.journal) }
    {
        match self.journal.settle() {
            Settled::Nothing => Ok(()),
            Settled::Durable => Ok(()),
            Settled::Again => match self.journal.again() {
                Written::Done => Ok(()),
                Written::Failed => Err(Failed),
            },
            Settled::Failed => Err(Failed),
        }
    }

    /// Writes these entries as a batch.
    pub fn put(&mut self, entries: &[Entry]) -> Result<(), Failed>
        requires stands { IsTrue (D.tells (disk_of self.old.journal)) → (log : List Entry) × HasLog D.may_leave self.old.journal log }
        requires nothing_pending { pending_of self.old.journal ≡ [] }
        requires some { 1 ≤ length entries.now }
        requires spellable { AllByRecursion IsSpellable entries.now }
        requires sizes { sizes_of entries.now ≤ 4096 }
        requires room { reach_of self.old.journal < 2 ^ 63 }
        ensures ok { IsTrue (D.tells (disk_of self.old.journal))
            → OnOk result ((log : List Entry) → HasLog D.may_leave self.old.journal log
            → HasLog D.may_leave self.new.journal (log ++ entries.now)) }
        ensures err { IsTrue (D.tells (disk_of self.old.journal))
            → OnErr result ((log : List Entry) → HasLog D.may_leave self.old.journal log
            → IsHeld D.may_leave self.new.journal (log ++ entries.now) (length log)) }
        ensures any_moment { IsTrue (D.tells (disk_of self.old.journal))
            → (log : List Entry) → HasLog D.may_leave self.old.journal log
            → LeavesOnly D.moment D.left_since (disk_of self.old.journal) (disk_of self.new.journal)
            (HasPrefix (length log) (log ++ entries.now)) }
        ensures pending { OnOk result (pending_of self.new.journal ≡ []) }
        ensures reach { reach_of self.new.journal ≤ reach_of self.old.journal + 4101 }
        ensures cause { HasCause (D.fault_count (disk_of self.old.journal)) (D.fault_count (disk_of self.new.journal)) result }
        ensures tells { D.tells (disk_of self.new.journal) ≡ D.tells (disk_of self.old.journal) }
    {
        collect_batch(entries, &mut self.batch);
        match self.journal.append(self.batch.as_slice()) {
            Written::Done => Ok(()),
            Written::Failed => Err(Failed),
        }
    }

    /// Writes these entries in batches of 32, but for the last, which has the rest.
    pub fn put_all(&mut self, entries: &[Entry]) -> Result<(), Failed>
        requires stands { IsTrue (D.tells (disk_of self.old.journal)) → (log : List Entry) × HasLog D.may_leave self.old.journal log }
        requires nothing_pending { pending_of self.old.journal ≡ [] }
        requires spellable { AllByRecursion IsSpellable entries.now }
        requires sizes { AreSmall entries.now }
        requires room { reach_of self.old.journal + 4101 * length entries.now < 2 ^ 63 }
        ensures ok { IsTrue (D.tells (disk_of self.old.journal))
            → OnOk result ((log : List Entry) → HasLog D.may_leave self.old.journal log
            → HasLog D.may_leave self.new.journal (log ++ entries.now)) }
        ensures any_moment { IsTrue (D.tells (disk_of self.old.journal))
            → (log : List Entry) → HasLog D.may_leave self.old.journal log
            → LeavesOnly D.moment D.left_since (disk_of self.old.journal) (disk_of self.new.journal)
            (HasPrefix (length log) (log ++ entries.now)) }
        ensures pending { OnOk result (pending_of self.new.journal ≡ []) }
        ensures reach { reach_of self.new.journal ≤ reach_of self.old.journal + 4101 * length entries.now }
        ensures cause { HasCause (D.fault_count (disk_of self.old.journal)) (D.fault_count (disk_of self.new.journal)) result }
        ensures tells { D.tells (disk_of self.new.journal) ≡ D.tells (disk_of self.old.journal) }
    {
        let mut rest = entries;
        while !rest.is_empty() {
            let (batch, after) = rest.split_at(rest.len().min(BATCH_SIZE));
            if let Err(failed) = self.put(batch) {
                return Err(failed);
            }
            rest = after;
        }
        Ok(())
    }
}

/// Appends an entry to the batch in hand.
fn collect_entry(entry: &Entry, batch: &mut ArrayVec<u8, 4096>)
    requires spellable { IsSpellable entry.now }
    requires room { length batch.old.items + size_limit entry.now ≤ 4096 }
    ensures text { batch.new.items ≡ batch.old.items ++ entry_text entry.now }
    ensures fits { Fits entry.now }
    ensures size { length (entry_text entry.now) ≤ size_limit entry.now }
{
    write_entry(entry, batch).unwrap();
}

/// Takes these entries in hand.
fn collect_batch(entries: &[Entry], batch: &mut ArrayVec<u8, 4096>)
    requires spellable { AllByRecursion IsSpellable entries.now }
    requires sizes { sizes_of entries.now ≤ 4096 }
    ensures text { batch.new.items ≡ entries_text entries.now }
    ensures fits { AllByRecursion Fits entries.now }
    ensures most { length batch.new.items ≤ 4096 }
{
    batch.clear();
    let mut rest = entries;
    while let Some((entry, after)) = rest.split_first() {
        collect_entry(entry, batch);
        rest = after;
    }
}
