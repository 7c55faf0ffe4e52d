//! The top call.
ghost use Rattle.std.specs.Prelude.{◌≡◌, ◌≢◌, ◌⊎◌, ◌↔◌, ◌≤◌, [], ℕ, IsTrue, OnOk, OnErr, List, length, map, string_bytes, codes};
ghost use Rattle.edge_traits.specs.Runs.{IsSameDisk, CrashLeaves, IsUntouched};
ghost use Rattle.edge_traits.specs.declared.names.Area.TheVariants.{Left};
ghost use Rattle.edge_traits.specs.Faults.{Rose, HasCause};
ghost use Rattle.edge_traits.specs.Sink.{Appends, AppendsPrefix};
ghost use Rattle.journal_text.specs.declared.settings.Settings.{Settings};
ghost use Rattle.join_history.specs.Legal.{IsInRange};
ghost use Rattle.journal_store.specs.Area.{IsOnTheWay};
ghost use Rattle.journal_store.specs.Fault.{IsThere};
ghost use Rattle.journal_store.specs.Store.{EachIn};
ghost use Rattle.registrar_book.specs.declared.answers.OpenFault.{OpenFault};
ghost use Rattle.registrar_book.specs.declared.answers.OpenFault.TheVariants as fault;
ghost use Rattle.registrar_tool.specs.declared.status.Status.TheVariants.{Done, Usage, ReadFault, WriteFault, DiskFault, BadScript, AlreadyThere, NoMemory};
ghost use Rattle.registrar_tool.specs.Words.{IsDecide, IsInit};
ghost use Rattle.registrar_tool.specs.Script.{IsScriptRead};
ghost use Rattle.registrar_tool.specs.Run.{IsRun, IsWhole, IsWrongFrom, IsCut, IsNotOpened, IsFormatted, IsSomething, AreFormatted, AreDone, AreCutShort, IsBeforeLines, IsBeforeDisk, IsInitStatus, IsDecideStatus, IsScriptStatus, LeavesDisk, open_status, script_limit};
ghost use Rattle.registrar_tool.specs.Opened.{IsReady, AreAskable, standing_of};
ghost use Rattle.registrar_book.specs.Books.{log_of, durable_of, book_disk};

use crate::Status;
use crate::decide::decide_lines;
use crate::ids::Ids;
use crate::opening::{list_ids, rows_of};
use crate::script::{ReadError, read_lines, read_script};
use crate::words::{Command, read_words};
use edge_traits::{Disk, Failed, Sink, Source, write_all};
use journal_store::{Journal, StoreFault};
use journal_text::Settings;
use registrar_book::{Book, OpenFault};
use registrar_state::Opening;
use std::alloc::Global;
use tool_text::Line;

/// Does what the words ask for, and gives the disk back. `init` makes an empty journal and writes `formatted`.
/// `decide first count hours` opens the journal with the identifiers of the script's good lines and these settings, and decides these
/// lines. Each outcome but `unsure` is durable before it is written, and written before the next line is done. It waits for nobody.
pub fn run<S: Source, T: Source, K: Sink, D: Disk>(
    alloc: Global,
    words: &[String],
    _inventory: &mut S,
    script: &mut T,
    out: &mut K,
    disk: D,
) -> (D, Status)
    // The journal was made; or each line was done, and what was written is the text of the outcomes.
    ensures done { result.1 ≡ Done
        → (IsFormatted D.Disk (map string_bytes words.now) disk result.0 × Appends (K.written out.old) (K.written out.new) (codes "formatted\n"))
        ⊎ IsRun (map string_bytes words.now) (T.left script.old) (T.left script.new)
        (λ settings bytes. IsWhole D.Disk settings bytes disk result.0 (K.written out.old) (K.written out.new)) }

    // Line k is the first outside the grammar; what was written is the text of the outcomes of the lines before it.
    ensures bad_script { (k : ℕ) → result.1 ≡ BadScript k
        → IsRun (map string_bytes words.now) (T.left script.old) (T.left script.new)
        (λ settings bytes. IsWrongFrom D.Disk settings bytes disk result.0 (K.written out.old) (K.written out.new) k) }

    // The sink failed in this call; what was written ends within the text of the last line that was done.
    ensures write_fault { (f : ℕ) → result.1 ≡ WriteFault f
        → (IsFormatted D.Disk (map string_bytes words.now) disk result.0 × AppendsPrefix (K.written out.old) (K.written out.new) (codes "formatted\n"))
        ⊎ IsRun (map string_bytes words.now) (T.left script.old) (T.left script.new)
        (λ settings bytes. IsCut D.Disk settings bytes disk result.0 (K.written out.old) (K.written out.new)) }
    ensures write_cause { (f : ℕ) → result.1 ≡ WriteFault f
        → Rose (K.fault_count out.old) f × (f ≡ K.fault_count out.new) }

    // The words are no command, exactly then.
    ensures usage { (result.1 ≡ Usage) ↔ ((IsInit (map string_bytes words.now) → ⊥)
        × ((settings : Settings) → IsDecide (map string_bytes words.now) settings → ⊥)) }

    // The script failed in this call.
    ensures read_cause { (f : ℕ) → result.1 ≡ ReadFault f
        → Rose (T.fault_count script.old) f × (f ≡ T.fault_count script.new) }

    // The disk failed in this call.
    ensures disk_cause { (f : ℕ) → result.1 ≡ DiskFault f
        → Rose (D.fault_count disk) f × (f ≡ D.fault_count result.0) }

    // There is something to make a journal of.
    ensures there { (n : ℕ) → result.1 ≡ AlreadyThere n
        → IsInit (map string_bytes words.now) × (IsTrue (D.tells disk) → IsThere (D.seen disk) n) }

    // The journal wasn't opened, and why.
    ensures not_opened { (why : OpenFault) → result.1 ≡ open_status why → why ≢ fault.NoMemory
        → (IsInit (map string_bytes words.now) × (f : ℕ) × (why ≡ fault.Disk f))
        ⊎ IsRun (map string_bytes words.now) (T.left script.old) (T.left script.new)
        (λ settings bytes. IsNotOpened D.Disk disk result.0 settings bytes why) }

    // Where no line was done the sink is as it was, and where the words are no command the script is too.
    ensures nothing { IsBeforeLines result.1 → out.new ≡ out.old }
    ensures usage_reads { result.1 ≡ Usage → script.new ≡ script.old }
    ensures init_reads { IsInit (map string_bytes words.now) → script.new ≡ script.old }
    ensures init_takes { IsInit (map string_bytes words.now) → result.1 ≢ NoMemory }

    // The disk as it was, and as it reads.
    ensures no_call { IsBeforeDisk result.1 → result.0 ≡ disk }
    ensures untouched { LeavesDisk result.1 → IsUntouched D.Disk disk result.0 }

    // What `init` leaves where there is something, and what a crash at any moment leaves where there is nothing.
    ensures kept { IsInit (map string_bytes words.now) → IsSomething (D.seen disk) → IsUntouched D.Disk disk result.0 }
    ensures order { IsInit (map string_bytes words.now) → EachIn Left (D.may_leave disk) (λ left. left ≡ [])
        → CrashLeaves D.Disk disk result.0 IsOnTheWay }
    ensures inventory { _inventory.new ≡ _inventory.old }
    ensures same { IsSameDisk D.Disk disk result.0 }
{
    match read_words(words) {
        Some(Command::Init) => init(out, disk),
        Some(Command::Decide(settings)) => decide(alloc, settings, script, out, disk),
        None => (disk, Status::Usage),
    }
}

/// Makes an empty journal.
fn init<K: Sink, D: Disk>(out: &mut K, disk: D) -> (D, Status)
    ensures formatted { (result.1 ≡ Done) ⊎ ((f : ℕ) × (result.1 ≡ WriteFault f)) → AreFormatted D.Disk disk result.0 }
    ensures done { result.1 ≡ Done → Appends (K.written out.old) (K.written out.new) (codes "formatted\n") }
    ensures write_fault { (f : ℕ) → result.1 ≡ WriteFault f → AppendsPrefix (K.written out.old) (K.written out.new) (codes "formatted\n") }
    ensures write_cause { (f : ℕ) → result.1 ≡ WriteFault f
        → Rose (K.fault_count out.old) f × (f ≡ K.fault_count out.new) }
    ensures disk_cause { (f : ℕ) → result.1 ≡ DiskFault f
        → Rose (D.fault_count disk) f × (f ≡ D.fault_count result.0) }
    ensures there { (n : ℕ) → result.1 ≡ AlreadyThere n → IsTrue (D.tells disk) → IsThere (D.seen disk) n }
    ensures statuses { IsInitStatus result.1 }
    ensures nothing { IsBeforeLines result.1 → out.new ≡ out.old }
    ensures untouched { LeavesDisk result.1 → IsUntouched D.Disk disk result.0 }
    ensures kept { IsSomething (D.seen disk) → IsUntouched D.Disk disk result.0 }
    ensures order { EachIn Left (D.may_leave disk) (λ left. left ≡ []) → CrashLeaves D.Disk disk result.0 IsOnTheWay }
    ensures same { IsSameDisk D.Disk disk result.0 }
{
    let mut disk = disk;
    let status = match Journal::format(&mut disk) {
        Ok(()) => match write_all(out, b"formatted\n") {
            Ok(()) => Status::Done,
            Err(_) => Status::WriteFault(out.faults()),
        },
        Err(StoreFault::Disk(faults)) => Status::DiskFault(faults),
        Err(StoreFault::AlreadyThere(length)) => Status::AlreadyThere(length),
        Err(StoreFault::NotAJournal(_)) => unreachable!(),
        Err(StoreFault::NoMemory) => unreachable!(),
    };
    (disk, status)
}

/// Reads the script, and decides its lines.
fn decide<T: Source, K: Sink, D: Disk>(
    alloc: Global,
    settings: Settings,
    script: &mut T,
    out: &mut K,
    disk: D,
) -> (D, Status)
    requires { IsInRange settings }
    ensures done { result.1 ≡ Done → (bytes : List ℕ) × IsScriptRead script_limit (T.left script.old) (T.left script.new) bytes
        × IsWhole D.Disk settings bytes disk result.0 (K.written out.old) (K.written out.new) }
    ensures bad_script { (k : ℕ) → result.1 ≡ BadScript k
        → (bytes : List ℕ) × IsScriptRead script_limit (T.left script.old) (T.left script.new) bytes
        × IsWrongFrom D.Disk settings bytes disk result.0 (K.written out.old) (K.written out.new) k }
    ensures write_fault { (f : ℕ) → result.1 ≡ WriteFault f
        → (bytes : List ℕ) × IsScriptRead script_limit (T.left script.old) (T.left script.new) bytes
        × IsCut D.Disk settings bytes disk result.0 (K.written out.old) (K.written out.new) }
    ensures write_cause { (f : ℕ) → result.1 ≡ WriteFault f
        → Rose (K.fault_count out.old) f × (f ≡ K.fault_count out.new) }
    ensures read_cause { (f : ℕ) → result.1 ≡ ReadFault f
        → Rose (T.fault_count script.old) f × (f ≡ T.fault_count script.new) }
    ensures disk_cause { (f : ℕ) → result.1 ≡ DiskFault f
        → Rose (D.fault_count disk) f × (f ≡ D.fault_count result.0) }
    ensures not_opened { (why : OpenFault) → result.1 ≡ open_status why → why ≢ fault.NoMemory
        → (bytes : List ℕ) × IsScriptRead script_limit (T.left script.old) (T.left script.new) bytes
        × IsNotOpened D.Disk disk result.0 settings bytes why }
    ensures statuses { IsDecideStatus result.1 }
    ensures nothing { IsBeforeLines result.1 → out.new ≡ out.old }
    ensures no_call { IsBeforeDisk result.1 → result.0 ≡ disk }
    ensures untouched { LeavesDisk result.1 → IsUntouched D.Disk disk result.0 }
    ensures same { IsSameDisk D.Disk disk result.0 }
{
    match read_script(alloc, script) {
        Ok(bytes) => decide_script(alloc, settings, &bytes, out, disk),
        Err(ReadError::Fault) => (disk, Status::ReadFault(script.faults())),
        Err(ReadError::NoMemory) => (disk, Status::NoMemory),
    }
}

/// Decides the lines of a script.
fn decide_script<K: Sink, D: Disk>(
    alloc: Global,
    settings: Settings,
    bytes: &[u8],
    out: &mut K,
    disk: D,
) -> (D, Status)
    requires range { IsInRange settings }
    requires short { length bytes.now ≤ 16777217 }
    ensures done { result.1 ≡ Done → IsWhole D.Disk settings bytes.now disk result.0 (K.written out.old) (K.written out.new) }
    ensures bad_script { (k : ℕ) → result.1 ≡ BadScript k
        → IsWrongFrom D.Disk settings bytes.now disk result.0 (K.written out.old) (K.written out.new) k }
    ensures write_fault { (f : ℕ) → result.1 ≡ WriteFault f
        → IsCut D.Disk settings bytes.now disk result.0 (K.written out.old) (K.written out.new) }
    ensures write_cause { (f : ℕ) → result.1 ≡ WriteFault f
        → Rose (K.fault_count out.old) f × (f ≡ K.fault_count out.new) }
    ensures disk_cause { (f : ℕ) → result.1 ≡ DiskFault f
        → Rose (D.fault_count disk) f × (f ≡ D.fault_count result.0) }
    ensures not_opened { (why : OpenFault) → result.1 ≡ open_status why → why ≢ fault.NoMemory
        → IsNotOpened D.Disk disk result.0 settings bytes.now why }
    ensures statuses { IsScriptStatus result.1 }
    ensures nothing { IsBeforeLines result.1 → out.new ≡ out.old }
    ensures untouched { LeavesDisk result.1 → IsUntouched D.Disk disk result.0 }
    ensures same { IsSameDisk D.Disk disk result.0 }
{
    let Ok((lines, wrong)) = read_lines(alloc, bytes) else {
        return (disk, Status::NoMemory);
    };
    let Ok(ids) = list_ids(alloc, &lines) else {
        return (disk, Status::NoMemory);
    };
    let Ok(rows) = rows_of(alloc, ids.all()) else {
        return (disk, Status::NoMemory);
    };
    let opening = Opening { settings, rows };
    let (book, contexts) = match Book::start(alloc, disk, &opening, None) {
        Ok(opened) => opened,
        Err((disk, fault)) => return (disk, status_of(fault)),
    };
    let (disk, done) = decide_on(book, &ids, &contexts, &lines, out);
    match (done, wrong) {
        (Err(_), _) => (disk, Status::WriteFault(out.faults())),
        (Ok(()), Some(number)) => (disk, Status::BadScript(number)),
        (Ok(()), None) => (disk, Status::Done),
    }
}

/// Decides the lines on a book, and closes it.
fn decide_on<K: Sink, D: Disk>(
    book: Book<D>,
    ids: &Ids,
    contexts: &[u32],
    lines: &[Line],
    out: &mut K,
) -> (D, Result<(), Failed>)
    requires askable { AreAskable ids.now lines.now }
    requires ready { IsReady book ids.now contexts.now }
    requires durable { durable_of book ≡ length (log_of book) }
    ensures done { OnOk result.1 (AreDone D.Disk (standing_of book) lines.now (K.written out.old) (K.written out.new) result.0) }
    ensures cut { OnErr result.1 (AreCutShort D.Disk (standing_of book) lines.now (K.written out.old) (K.written out.new) result.0) }
    ensures cause { HasCause (K.fault_count out.old) (K.fault_count out.new) result.1 }
    ensures counted { D.fault_count (book_disk book) ≤ D.fault_count result.0 }
{
    let mut book = book;
    let done = decide_lines(&mut book, ids, contexts, lines, out);
    (book.close().disk, done)
}

/// The status of a journal that wasn't opened.
fn status_of(fault: OpenFault) -> Status
    ensures { result ≡ open_status fault }
{
    match fault {
        OpenFault::Disk(faults) => Status::DiskFault(faults),
        OpenFault::NotAJournal(spot) => Status::NotAJournal(spot),
        OpenFault::SameKey(first, second) => Status::SameKey(first, second),
        OpenFault::ContextsFull(count) => Status::ContextsFull(count),
        OpenFault::JournalFull(count) => Status::JournalFull(count),
        OpenFault::NoMemory => Status::NoMemory,
    }
}
