//! The book: what is decided, and what is written of it.
ghost use Rattle.std.specs.Prelude.{◌≡◌, ◌≢◌, ◌≤◌, [], ℕ, vec_len};
ghost use Rattle.journal_store.specs.declared.fault.StoreFault.TheVariants as store;
ghost use Rattle.journal_store.specs.Store.{pending_of, reach_of, end_limit};
ghost use Rattle.registrar_book.specs.Opening.{IsStoreFault};

use crate::desk::Desk;
use crate::opening::{Prepared, prepare};
use crate::press::Press;
use crate::{Closed, Decided, OpenFault};
use edge_traits::Disk;
use join_history::ENTRY_LIMIT;
use journal_store::{Journal, StoreFault};
use journal_text::Entry;
use registrar_state::{Due, Opening, RegState, Want};
use std::alloc::Global;
use std::slice;

/// A state and its journal. A decision is never lost: where the disk fails its entry is pending, and the
/// next call settles it first.
#[derive(Drop)]
pub struct Book<D: Disk> {
    desk: Desk,
    press: Press<D>,
    ghost reach: { reach_of press.journal ≤ end_limit (vec_len desk.log) },
    ghost settled: { vec_len desk.log ≤ desk.durable → pending_of press.journal ≡ [] },
}

fn open_fault(fault: StoreFault) -> OpenFault
    requires { (n : ℕ) → fault ≢ store.AlreadyThere n }
    ensures { IsStoreFault fault result }
{
    match fault {
        StoreFault::Disk(faults) => OpenFault::Disk(faults),
        StoreFault::NotAJournal(spot) => OpenFault::NotAJournal(spot),
        StoreFault::NoMemory => OpenFault::NoMemory,
        StoreFault::AlreadyThere(_) => unreachable!(),
    }
}

impl<D: Disk> Book<D> {
    ghost use Rattle.std.specs.Prelude.{◌≡◌, ◌≤◌, ◌<◌, ◌⊎◌, ◌^◌, ◌+◌, ◌∷◌, ◌++◌, [], ℕ, Option, List, length, IfOk, IfErr, OnOk, OnErr, IsTrue};
    ghost use Rattle.edge_traits.specs.Disk.{LeavesOnly};
    ghost use Rattle.edge_traits.specs.Runs.{IsSameDisk, IsUntouched};
    ghost use Rattle.journal_text.specs.declared.settings.Settings.{Settings};
    ghost use Rattle.join_history.specs.Limits.{number_end};
    ghost use Rattle.join_history.specs.Legal.{IsInRange};
    ghost use Rattle.journal_text.specs.declared.entry.Entry.{Entry};
    ghost use Rattle.join_history.specs.Due.{IsWish};
    ghost use Rattle.journal_text.specs.Text.{IsSpellable};
    ghost use Rattle.registrar_state.specs.Room.{HasRoomFor};
    ghost use Rattle.registrar_state.specs.State.{StandsFor, CanFollow, IsEnrolled, HasSettings, spare_room};
    ghost use Rattle.journal_store.specs.Store.{disk_of, pending_of};
    ghost use Rattle.registrar_book.specs.Journals.{HasLog, HasPrefix};
    ghost use Rattle.registrar_book.specs.Books.{log_of, state_of, durable_of, book_disk, book_disk_after, IsKept, IsOpenOn, IsOpenBook, HasOpening, WroteNothing, IsDurableUnlessUnsure, HasDecidedCause, Adds, AddsEntry};
    ghost use Rattle.registrar_book.specs.Opening.{Row, BookCause, IsDiskFault};
    ghost use Rattle.registrar_book.specs.Prepared.{IsPrepared};

    /// Opens the journal of a disk, adds what its log lacks of the settings and of contexts for the rows, and returns the context
    /// of each row. The entries that it adds have the moment of `now`, or the last time where that is `None`.
    pub fn start(
        alloc: Global,
        disk: D,
        opening: &Opening,
        now: Option<u64>,
    ) -> Result<(Book<D>, Vec<u32>), (D, OpenFault)>
        requires settings { IsInRange opening.now.settings }
        requires few { length opening.now.rows.items < 2 ^ 31 }
        ensures opened { IfOk result (λ opened.
            IsOpenOn disk opening.now.settings opening.now.rows.items now opened.0 opened.1.items) }
        ensures kept { IsTrue (D.tells disk) → IfOk result (λ opened. IsKept D.may_leave opened.0) }
        ensures fault { IfErr result (λ refused. BookCause (D.tells disk) (D.seen disk) (D.fault_count disk) (D.fault_count refused.0)
            opening.now.settings opening.now.rows.items now refused.1) }
        ensures untouched { IfErr result (λ refused. WroteNothing refused.1 → IsUntouched D.Disk disk refused.0) }
        ensures any_moment { IsTrue (D.tells disk) → LeavesOnly D.moment D.left_since disk (book_disk_after result)
            (λ image. D.may_leave disk image
            ⊎ HasOpening (D.seen disk) opening.now.settings opening.now.rows.items now image) }
        ensures same { IsSameDisk D.Disk disk (book_disk_after result) }
    {
        let (journal, log) = match Journal::start(alloc, disk) {
            Ok(opened) => opened,
            Err((disk, fault)) => return Err((disk, open_fault(fault))),
        };
        match prepare(alloc, log, opening, now) {
            Ok(prepared) => Book::open(journal, prepared),
            Err(fault) => Err((journal.close(), fault)),
        }
    }

    // Writes what opening adds.
    fn open(journal: Journal<D>, prepared: Prepared) -> Result<(Book<D>, Vec<u32>), (D, OpenFault)>
        requires stands { IsTrue (D.tells (disk_of journal)) → HasLog D.may_leave journal prepared.desk.log.items }
        requires nothing_pending { pending_of journal ≡ [] }
        requires reach { reach_of journal ≤ end_limit (length prepared.desk.log.items) }
        requires prepared { (log : List Entry) × (settings : Settings) × (rows : List Row) × (now : Option ℕ) × IsPrepared log settings rows now prepared }
        ensures opened { IfOk result (λ opened. (log : List Entry) (settings : Settings) (rows : List Row) (now : Option ℕ)
            → IsPrepared log settings rows now prepared → IsOpenBook log settings rows now opened.0 opened.1.items) }
        ensures log { IfOk result (λ opened. log_of opened.0 ≡ prepared.desk.log.items ++ prepared.plan.entries.items) }
        ensures kept { IsTrue (D.tells (disk_of journal)) → IfOk result (λ opened. IsKept D.may_leave opened.0) }
        ensures fault { IfErr result (λ refused. IsDiskFault (D.fault_count (disk_of journal)) (D.fault_count refused.0) refused.1) }
        ensures any_moment { IsTrue (D.tells (disk_of journal))
            → LeavesOnly D.moment D.left_since (disk_of journal) (book_disk_after result) (HasPrefix (length prepared.desk.log.items) (prepared.desk.log.items ++ prepared.plan.entries.items)) }
        ensures same { IsSameDisk D.Disk (disk_of journal) (book_disk_after result) }
    {
        let Prepared { mut desk, plan } = prepared;
        let mut press = Press::new(journal);
        let Ok(()) = press.put_all(&plan.entries) else {
            let faults = press.journal.faults();
            return Err((press.journal.close(), OpenFault::Disk(faults)));
        };
        desk.add_all(&plan.entries);
        Ok((Book { desk, press }, plan.contexts))
    }

    /// Decides the request of this context and number at the time that the clock says, after settling what is pending.
    pub fn decide(&mut self, context: u32, number: u64, want: Want, now: u64) -> Decided
        requires kept { IsTrue (D.tells (book_disk self.old)) → IsKept D.may_leave self.old }
        requires context { IsEnrolled (state_of self.old) context }
        requires settings { HasSettings (state_of self.old) }
        requires number { number < number_end }
        requires want { IsWish want }
        ensures adds { (g : List Entry) → StandsFor (state_of self.old) g → Adds self.old self.new g now context number want result }
        ensures sure { IsDurableUnlessUnsure result (durable_of self.new) (length (log_of self.new)) }
        ensures kept { IsTrue (D.tells (book_disk self.old)) → IsKept D.may_leave self.new }
        ensures any_moment { IsTrue (D.tells (book_disk self.old))
            → LeavesOnly D.moment D.left_since (book_disk self.old) (book_disk self.new)
            (HasPrefix (durable_of self.old) (log_of self.new)) }
        ensures cause { HasDecidedCause (D.fault_count (book_disk self.old)) (D.fault_count (book_disk self.new)) result }
        ensures counted { D.fault_count (book_disk self.old) ≤ D.fault_count (book_disk self.new) }
        ensures tells { D.tells (book_disk self.new) ≡ D.tells (book_disk self.old) }
    {
        let Ok(()) = self.press.settle() else {
            return Decided::Unsure(self.desk.len(), self.faults());
        };
        self.desk.settled();
        match self.desk.state.due(context, number, want, now) {
            Due::Again => Decided::Again(self.desk.len()),
            Due::Quiet(why) => Decided::Quiet(why, self.desk.len()),
            Due::Add(entry) => self.add(&entry),
        }
    }

    // Adds an entry that is due, after a log that is durable.
    fn add(&mut self, entry: &Entry) -> Decided
        requires stands { IsTrue (D.tells (book_disk self.old)) → HasLog D.may_leave self.old.press.journal (log_of self.old) }
        requires nothing_pending { pending_of self.old.press.journal ≡ [] }
        requires durable { durable_of self.old ≡ length (log_of self.old) }
        requires may_follow { CanFollow (state_of self.old) entry.now }
        requires spellable { IsSpellable entry.now }
        requires room { 0 < (spare_room (state_of self.old)).entries → HasRoomFor (spare_room (state_of self.old)) entry.now }
        ensures adds { AddsEntry self.old self.new entry.now result }
        ensures sure { IsDurableUnlessUnsure result (durable_of self.new) (length (log_of self.new)) }
        ensures kept { IsTrue (D.tells (book_disk self.old)) → IsKept D.may_leave self.new }
        ensures any_moment { IsTrue (D.tells (book_disk self.old))
            → LeavesOnly D.moment D.left_since (book_disk self.old) (book_disk self.new)
            (HasPrefix (length (log_of self.old)) (log_of self.new)) }
        ensures cause { HasDecidedCause (D.fault_count (book_disk self.old)) (D.fault_count (book_disk self.new)) result }
        ensures counted { D.fault_count (book_disk self.old) ≤ D.fault_count (book_disk self.new) }
        ensures tells { D.tells (book_disk self.new) ≡ D.tells (book_disk self.old) }
    {
        if self.desk.len() >= ENTRY_LIMIT {
            return Decided::Full(self.desk.len());
        }
        self.desk.add(entry);
        let Ok(()) = self.press.put(slice::from_ref(entry)) else {
            return Decided::Unsure(self.desk.len(), self.faults());
        };
        self.desk.settled();
        Decided::Made(self.desk.len())
    }

    /// The state of the history so far.
    pub fn state(&self) -> &RegState
        ensures { result.now ≡ state_of self.now }
    {
        &self.desk.state
    }

    /// How many calls on the disk failed so far.
    pub fn faults(&self) -> u64
        ensures { result ≡ D.fault_count (book_disk self.now) }
    {
        self.press.journal.faults()
    }

    /// Gives the disk, the log and the state back as they are.
    pub fn close(self) -> Closed<D>
        ensures disk { result.disk ≡ book_disk self }
        ensures log { result.log.items ≡ log_of self }
        ensures state { result.state ≡ state_of self }
    {
        let Book { desk, press } = self;
        Closed {
            disk: press.journal.close(),
            log: desk.log,
            state: desk.state,
        }
    }
}
