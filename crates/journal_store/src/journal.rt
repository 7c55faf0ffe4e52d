//! A journal on a disk.
//!
//! A batch is written after the closed gate at `end`, with a closed gate after it, and synced. Then its gate is opened and
//! synced:
//!
//!     .. open batches, 0                                 the log ends at this gate
//!     .. open batches, 0, length, entries, 0             written and synced: the log is as it was
//!     .. open batches, 1, length, entries, 0             opened and synced: the log has the batch
//!                      ^ end
ghost use Rattle.std.specs.Prelude.{◌≡◌, ◌≤◌, length, IfOk, IfErr, OnOk, IsTrue};
ghost use Rattle.edge_traits.specs.Disk.{OnlyIn};
ghost use Rattle.edge_traits.specs.Runs.{IsSameDisk, IsUntouched};
ghost use Rattle.edge_traits.specs.declared.names.Area.TheVariants.{Left};
ghost use Rattle.journal_store.specs.Area.{first_header, IsLog};
ghost use Rattle.journal_store.specs.Fault.{StartCause};
ghost use Rattle.journal_store.specs.Store.{end_limit};

use crate::area::read_area;
use crate::device::{load, put, settled_byte};
use crate::format::{first_length, write_empty};
use crate::{Settled, StoreFault, Written};
use arrayvec::ArrayVec;
use edge_traits::{Area, Disk};
use journal_text::Entry;
use std::alloc::Global;

/// An open journal: its disk, the area that it writes, the place of the closed gate at which its log ends, and the batch
/// that is pending.
#[derive(Drop)]
pub struct Journal<D: Disk> {
    disk: D,
    area: Area,
    end: u64,
    tail: ArrayVec<u8, 4101>,
}

impl<D: Disk> Journal<D> {
    ghost use Rattle.std.specs.Prelude.{◌≡◌, ◌≢◌, ◌≤◌, ◌<◌, ◌+◌, ◌^◌, ◌⊎◌, ◌↔◌, ◌++◌, [], ◌∷◌, ℕ, List, length, IfOk, IfErr, OnOk, OnErr, IsTrue};
    ghost use Rattle.edge_traits.specs.Disk.{Only, Changes, Overwrites};
    ghost use Rattle.edge_traits.specs.Runs.{IsSameDisk, CrashLeaves, IsUntouched};
    ghost use Rattle.edge_traits.specs.declared.names.Area.TheVariants.{Left};
    ghost use Rattle.journal_text.specs.declared.entry.Entry.{Entry};
    ghost use Rattle.journal_text.specs.Text.{entries_text};
    ghost use Rattle.journal_store.specs.declared.fault.Written.TheVariants as written;
    ghost use Rattle.journal_store.specs.declared.fault.Settled.TheVariants as settled;
    ghost use Rattle.journal_store.specs.Area.{first_header, empty_journal, IsOnTheWay, tail_text, IsBatch, IsLog};
    ghost use Rattle.journal_store.specs.Fault.{HasFault, FormatCause, StartCause};
    ghost use Rattle.journal_store.specs.Store.{EachIn, disk_of, area_of, end_of, pending_of, reach_of, end_limit, disk_after, IsSameJournal, FailsWhere, HasEither, Stands, IsPending, IsShut};

    /// Makes an empty journal of two empty areas. `AlreadyThere` comes exactly where one isn't empty, and then all stays.
    pub fn format(disk: &mut D) -> Result<(), StoreFault>
        ensures empty { IsTrue (D.tells disk.old) → OnOk result (((D.seen disk.old).left ≡ []) × ((D.seen disk.old).right ≡ [])) }
        ensures written { IsTrue (D.tells disk.old) → OnOk result (D.seen disk.new ≡ empty_journal) }
        ensures durable { IsTrue (D.tells disk.old) → OnOk result (Only empty_journal (D.may_leave disk.new)) }
        ensures fault { IfErr result (FormatCause (D.tells disk.old) (D.seen disk.old) (D.fault_count disk.old) (D.fault_count disk.new)) }
        ensures order { EachIn Left (D.may_leave disk.old) (λ left. left ≡ []) → CrashLeaves D.Disk disk.old disk.new IsOnTheWay }
        // What isn't empty stays.
        ensures kept { ((D.seen disk.old).left ≢ []) ⊎ ((D.seen disk.old).right ≢ []) → IsUntouched D.Disk disk.old disk.new }
        ensures later { IsTrue (D.tells disk.old) → D.moment disk.old ≤ D.moment disk.new }
        ensures same { IsSameDisk D.Disk disk.old disk.new }
        ensures no_fault { OnOk result (D.fault_count disk.new ≡ D.fault_count disk.old) }
    {
        match first_length(disk) {
            Ok(0) => {}
            Ok(length) => return Err(StoreFault::AlreadyThere(length)),
            Err(_) => return Err(StoreFault::Disk(disk.faults())),
        }
        match write_empty(disk) {
            Ok(()) => Ok(()),
            Err(_) => Err(StoreFault::Disk(disk.faults())),
        }
    }

    /// Opens the journal of the left area and returns its log. It begins with a sync.
    pub fn start(alloc: Global, disk: D) -> Result<(Journal<D>, Vec<Entry>), (D, StoreFault)>
        ensures found { IsTrue (D.tells disk) → IfOk result (λ opened. Stands D.may_leave first_header opened.0 opened.1.items) }
        ensures area { IfOk result (λ opened. area_of opened.0 ≡ Left) }
        ensures read { IsTrue (D.tells disk) → IfOk result (λ opened. IsLog first_header (end_of opened.0) opened.1.items (D.seen disk).left) }
        ensures nothing_pending { IfOk result (λ opened. pending_of opened.0 ≡ []) }
        ensures reach { IfOk result (λ opened. reach_of opened.0 ≤ end_limit (length opened.1.items)) }
        ensures fault { IfErr result (λ refused. StartCause (D.tells disk) (D.seen disk).left (D.fault_count disk) (D.fault_count refused.0) refused.1) }
        ensures untouched { IsUntouched D.Disk disk (disk_after result) }
        ensures same { IsSameDisk D.Disk disk (disk_after result) }
        ensures no_fault { OnOk result (D.fault_count (disk_after result) ≡ D.fault_count disk) }
    {
        let mut disk = disk;
        match read(alloc, &mut disk) {
            Ok((end, log)) => {
                let journal = Journal {
                    disk,
                    area: Area::Left,
                    end,
                    tail: ArrayVec::new(),
                };
                Ok((journal, log))
            }
            Err(fault) => Err((disk, fault)),
        }
    }

    /// Writes a batch of whole entries. After `Done` it is durable, after `Failed` it is pending. It takes four calls on the
    /// disk: the batch after its closed gate, a sync, the gate, a sync.
    pub fn append(&mut self, batch: &[u8]) -> Written
        requires stands { IsTrue (D.tells (disk_of self.old)) → (header : List ℕ) × (log : List Entry) × Stands D.may_leave header self.old log }
        requires nothing_pending { pending_of self.old ≡ [] }
        requires entries { (entries : List Entry) × IsBatch entries × (batch.now ≡ entries_text entries) }
        requires room { end_of self.old < 2 ^ 63 }
        ensures done { IsTrue (D.tells (disk_of self.old)) → result ≡ written.Done
            → (header : List ℕ) (log entries : List Entry) → Stands D.may_leave header self.old log → IsBatch entries → batch.now ≡ entries_text entries
            → Stands D.may_leave header self.new (log ++ entries) }
        ensures failed { IsTrue (D.tells (disk_of self.old)) → result ≡ written.Failed
            → (header : List ℕ) (log entries : List Entry) → Stands D.may_leave header self.old log → IsBatch entries → batch.now ≡ entries_text entries
            → IsPending D.may_leave header self.new log entries }
        ensures any_moment { (header : List ℕ) (log entries : List Entry) → Stands D.may_leave header self.old log → IsBatch entries
            → batch.now ≡ entries_text entries → CrashLeaves D.Disk (disk_of self.old) (disk_of self.new)
            (HasEither (D.may_leave (disk_of self.old)) (area_of self.old) header (end_of self.old) log entries) }
        // Nothing else is written.
        ensures written { IsTrue (D.tells (disk_of self.old)) → result ≡ written.Done
            → (entries : List Entry) → IsBatch entries → batch.now ≡ entries_text entries
            → Changes (area_of self.old) (Overwrites (end_of self.old) (1 ∷ tail_text entries)) (D.seen (disk_of self.old)) (D.seen (disk_of self.new)) }
        ensures same { IsSameJournal D.Disk self.old self.new }
        ensures pending { result ≡ written.Done → pending_of self.new ≡ [] }
        ensures reach { reach_of self.new ≡ reach_of self.old + 5 + length batch.now }
        ensures fault { FailsWhere (result ≡ written.Failed) (result ≡ written.Done) (D.fault_count (disk_of self.old)) (D.fault_count (disk_of self.new)) }
    {
        self.stage_batch(batch);
        self.write()
    }

    /// Finds out what became of the pending batch, by the byte that is at its gate after a sync.
    pub fn settle(&mut self) -> Settled
        requires pending { IsTrue (D.tells (disk_of self.old)) → pending_of self.old ≢ []
            → (header : List ℕ) × (log : List Entry) × (entries : List Entry) × IsPending D.may_leave header self.old log entries }
        requires room { end_of self.old < 2 ^ 63 }
        ensures nothing { (result ≡ settled.Nothing) ↔ (pending_of self.old ≡ []) }
        ensures unchanged { result ≡ settled.Nothing → self.new ≡ self.old }
        ensures durable { IsTrue (D.tells (disk_of self.old)) → result ≡ settled.Durable
            → (header : List ℕ) (log entries : List Entry) → IsPending D.may_leave header self.old log entries → Stands D.may_leave header self.new (log ++ entries) }
        ensures again { IsTrue (D.tells (disk_of self.old)) → result ≡ settled.Again
            → (header : List ℕ) (log entries : List Entry) → IsPending D.may_leave header self.old log entries → IsShut D.may_leave header self.new log entries }
        ensures failed { IsTrue (D.tells (disk_of self.old)) → result ≡ settled.Failed
            → (header : List ℕ) (log entries : List Entry) → IsPending D.may_leave header self.old log entries → IsPending D.may_leave header self.new log entries }
        ensures untouched { IsUntouched D.Disk (disk_of self.old) (disk_of self.new) }
        ensures same { IsSameJournal D.Disk self.old self.new }
        ensures pending { result ≡ settled.Durable → pending_of self.new ≡ [] }
        ensures kept { (result ≡ settled.Again) ⊎ (result ≡ settled.Failed) → pending_of self.new ≡ pending_of self.old }
        ensures reach { reach_of self.new ≡ reach_of self.old }
        ensures fault { FailsWhere (result ≡ settled.Failed) (result ≢ settled.Failed) (D.fault_count (disk_of self.old)) (D.fault_count (disk_of self.new)) }
    {
        if self.tail.is_empty() {
            return Settled::Nothing;
        }
        match settled_byte(&mut self.disk, self.area, self.end) {
            Ok(1) => {
                self.advance_end();
                Settled::Durable
            }
            Ok(_) => Settled::Again,
            Err(_) => Settled::Failed,
        }
    }

    /// Writes the pending batch again, whose gate is closed.
    pub fn again(&mut self) -> Written
        requires pending { pending_of self.old ≢ [] }
        requires shut { IsTrue (D.tells (disk_of self.old))
            → (header : List ℕ) × (log : List Entry) × (entries : List Entry) × IsShut D.may_leave header self.old log entries }
        requires room { end_of self.old < 2 ^ 63 }
        ensures done { IsTrue (D.tells (disk_of self.old)) → result ≡ written.Done
            → (header : List ℕ) (log entries : List Entry) → IsShut D.may_leave header self.old log entries → Stands D.may_leave header self.new (log ++ entries) }
        ensures failed { IsTrue (D.tells (disk_of self.old)) → result ≡ written.Failed
            → (header : List ℕ) (log entries : List Entry) → IsShut D.may_leave header self.old log entries → IsPending D.may_leave header self.new log entries }
        ensures any_moment { (header : List ℕ) (log entries : List Entry) → IsShut D.may_leave header self.old log entries
            → CrashLeaves D.Disk (disk_of self.old) (disk_of self.new)
            (HasEither (D.may_leave (disk_of self.old)) (area_of self.old) header (end_of self.old) log entries) }
        ensures written { IsTrue (D.tells (disk_of self.old)) → result ≡ written.Done
            → Changes (area_of self.old) (Overwrites (end_of self.old) (1 ∷ pending_of self.old)) (D.seen (disk_of self.old)) (D.seen (disk_of self.new)) }
        ensures same { IsSameJournal D.Disk self.old self.new }
        ensures pending { result ≡ written.Done → pending_of self.new ≡ [] }
        ensures kept { result ≡ written.Failed → pending_of self.new ≡ pending_of self.old }
        ensures reach { reach_of self.new ≡ reach_of self.old }
        ensures fault { FailsWhere (result ≡ written.Failed) (result ≡ written.Done) (D.fault_count (disk_of self.old)) (D.fault_count (disk_of self.new)) }
    {
        self.write()
    }

    // Takes a batch in hand.
    #[tactic(auto, unfolding(journal_text::specs::Numbers::number_text, crate::specs::Area::body_text))]
    fn stage_batch(&mut self, batch: &[u8])
        requires { length batch.now ≤ 4096 }
        ensures disk { disk_of self.new ≡ disk_of self.old }
        ensures area { area_of self.new ≡ area_of self.old }
        ensures end { end_of self.new ≡ end_of self.old }
        ensures pending { (entries : List Entry) → batch.now ≡ entries_text entries → pending_of self.new ≡ tail_text entries }
        ensures length { length (pending_of self.new) ≡ 5 + length batch.now }
    {
        self.tail.clear();
        self.tail
            .try_extend_from_slice(&(batch.len() as u32).to_be_bytes())
            .unwrap();
        self.tail.try_extend_from_slice(batch).unwrap();
        self.tail.push(0);
    }

    // Writes the batch in hand.
    fn write(&mut self) -> Written
        requires shut { IsTrue (D.tells (disk_of self.old))
            → (header : List ℕ) × (log : List Entry) × (entries : List Entry) × IsShut D.may_leave header self.old log entries }
        requires room { end_of self.old < 2 ^ 63 }
        ensures done { IsTrue (D.tells (disk_of self.old)) → result ≡ written.Done
            → (header : List ℕ) (log entries : List Entry) → IsShut D.may_leave header self.old log entries → Stands D.may_leave header self.new (log ++ entries) }
        ensures failed { IsTrue (D.tells (disk_of self.old)) → result ≡ written.Failed
            → (header : List ℕ) (log entries : List Entry) → IsShut D.may_leave header self.old log entries → IsPending D.may_leave header self.new log entries }
        ensures any_moment { (header : List ℕ) (log entries : List Entry) → IsShut D.may_leave header self.old log entries
            → CrashLeaves D.Disk (disk_of self.old) (disk_of self.new)
            (HasEither (D.may_leave (disk_of self.old)) (area_of self.old) header (end_of self.old) log entries) }
        ensures written { IsTrue (D.tells (disk_of self.old)) → result ≡ written.Done
            → Changes (area_of self.old) (Overwrites (end_of self.old) (1 ∷ pending_of self.old)) (D.seen (disk_of self.old)) (D.seen (disk_of self.new)) }
        ensures same { IsSameJournal D.Disk self.old self.new }
        ensures pending { result ≡ written.Done → pending_of self.new ≡ [] }
        ensures kept { result ≡ written.Failed → pending_of self.new ≡ pending_of self.old }
        ensures reach { reach_of self.new ≡ reach_of self.old }
        ensures fault { FailsWhere (result ≡ written.Failed) (result ≡ written.Done) (D.fault_count (disk_of self.old)) (D.fault_count (disk_of self.new)) }
    {
        let Ok(()) = put(
            &mut self.disk,
            self.area,
            self.end + 1,
            self.tail.as_slice(),
        ) else {
            return Written::Failed;
        };
        let Ok(()) = put(&mut self.disk, self.area, self.end, &[1]) else {
            return Written::Failed;
        };
        self.advance_end();
        Written::Done
    }

    // The batch in hand has joined the log.
    fn advance_end(&mut self)
        requires { end_of self.old < 2 ^ 63 }
        ensures disk { disk_of self.new ≡ disk_of self.old }
        ensures area { area_of self.new ≡ area_of self.old }
        ensures end { end_of self.new ≡ end_of self.old + length (pending_of self.old) }
        ensures pending { pending_of self.new ≡ [] }
    {
        self.end += self.tail.len() as u64;
        self.tail.clear();
    }

    /// How many calls on the disk failed so far.
    pub fn faults(&self) -> u64
        ensures { result ≡ D.fault_count (disk_of self.now) }
    {
        self.disk.faults()
    }

    /// Gives the disk back as it is.
    pub fn close(self) -> D
        ensures { result ≡ disk_of self }
    {
        self.disk
    }
}

/// The end of the journal's log, and the log.
fn read<D: Disk>(alloc: Global, disk: &mut D) -> Result<(u64, Vec<Entry>), StoreFault>
    ensures log { IsTrue (D.tells disk.old) → IfOk result (λ read. IsLog first_header read.0 read.1.items (D.seen disk.old).left) }
    ensures end { IfOk result (λ read. read.0 ≤ end_limit (length read.1.items)) }
    ensures durable { IsTrue (D.tells disk.old) → OnOk result (OnlyIn Left (D.seen disk.new) (D.may_leave disk.new)) }
    ensures fault { IfErr result (StartCause (D.tells disk.old) (D.seen disk.old).left (D.fault_count disk.old) (D.fault_count disk.new)) }
    ensures untouched { IsUntouched D.Disk disk.old disk.new }
    ensures same { IsSameDisk D.Disk disk.old disk.new }
    ensures no_fault { OnOk result (D.fault_count disk.new ≡ D.fault_count disk.old) }
{
    let bytes = load(alloc, disk, Area::Left)?;
    read_area(alloc, &bytes)
}
