//! The lines of `decide`: one decision for each request, and its outcome.
ghost use Rattle.std.specs.Prelude.{◌≡◌, ◌<◌, ◌≤◌, ◌+◌, ◌^◌, ◌∷◌, [], ℕ, List, IfSome, IfNone, OnOk, OnErr, length, Contains};
ghost use Rattle.std.specs.List.{AllZip};
ghost use Rattle.edge_traits.specs.Faults.{HasCause};
ghost use Rattle.journal_text.specs.declared.entry.Entry.{Entry};
ghost use Rattle.journal_text.specs.declared.entry.Entry.TheVariants.{Enroll};
ghost use Rattle.join_history.specs.Limits.{number_end};
ghost use Rattle.registrar_book.specs.Books.{log_of, durable_of, book_disk};
ghost use Rattle.tool_text.specs.declared.line.Line.TheVariants.{Ask};
ghost use Rattle.registrar_tool.specs.Told.{Standing, IsAnswered, IsTold, decide_check, granted_of, again_of};
ghost use Rattle.registrar_tool.specs.Opened.{HasIdContext, IsReady, AreAskable, standing_of};
ghost use Rattle.registrar_tool.specs.Run.{AreDone, AreCutShort};
ghost use Rattle.registrar_tool.specs.Lines.{IsLineDone, IsLineCut};

use crate::ids::Ids;
use edge_traits::{Disk, Failed, PledgeId, Sink};
use registrar_book::{Book, Decided};
use registrar_state::{Last, Want};
use tool_text::{Line, Outcome, write_outcome};

/// The context of an identifier.
fn context_of(ids: &Ids, contexts: &[u32], id: PledgeId) -> Option<u32>
    requires { length ids.now ≡ length contexts.now }
    ensures found { IfSome result (λ context. (h : List Entry) → AllZip (HasIdContext h) ids.now contexts.now → HasIdContext h id context) }
    ensures none { IfNone result (Contains ids.now id → ⊥) }
{
    let Some(place) = ids.find(id) else {
        return None;
    };
    Some(contexts[place])
}

/// The outcome of an answer that was just decided.
fn granted_outcome(last: Last) -> Outcome
    ensures { result ≡ granted_of last }
{
    match last {
        Last::Grant(address, until) => Outcome::Grant { address, until },
        Last::Refuse(code) => Outcome::Refuse { code },
    }
}

/// The outcome where the last answer is repeated.
fn again_outcome(last: Last) -> Outcome
    ensures { result ≡ again_of last }
{
    match last {
        Last::Grant(address, until) => Outcome::AgainGrant { address, until },
        Last::Refuse(code) => Outcome::AgainRefuse { code },
    }
}

/// Decides one request, and answers its outcome.
fn decide_ask<D: Disk>(
    book: &mut Book<D>,
    ids: &Ids,
    contexts: &[u32],
    time: u64,
    id: PledgeId,
    number: u64,
) -> Outcome
    requires listed { Contains ids.now id }
    requires number { number < number_end }
    requires ready { IsReady book.old ids.now contexts.now }
    ensures told { (context : ℕ) × Contains (log_of book.old) (Enroll context id (decide_check id))
        × IsAnswered D.Disk (standing_of book.old) time context number result (standing_of book.new) }
    ensures ready { IsReady book.new ids.now contexts.now }
    ensures counted { D.fault_count (book_disk book.old) ≤ D.fault_count (book_disk book.new) }
{
    let context = context_of(ids, contexts, id).unwrap();
    match book.decide(context, number, Want::Join, time) {
        Decided::Made(_) => granted_outcome(book.state().last_of(context).unwrap()),
        Decided::Again(_) => again_outcome(book.state().last_of(context).unwrap()),
        Decided::Quiet(why, _) => Outcome::Quiet(why),
        Decided::Unsure(_, faults) => Outcome::Unsure { faults },
        Decided::Full(entries) => Outcome::Full { entries },
    }
}

/// Does one line, and writes its outcome.
fn decide_line<K: Sink, D: Disk>(
    book: &mut Book<D>,
    ids: &Ids,
    contexts: &[u32],
    line: &Line,
    out: &mut K,
) -> Result<(), Failed>
    requires askable { AreAskable ids.now (line.now ∷ []) }
    requires ready { IsReady book.old ids.now contexts.now }
    ensures done { OnOk result (IsLineDone D.Disk (standing_of book.old) line.now (K.written out.old) (K.written out.new) (standing_of book.new)) }
    ensures cut { OnErr result (IsLineCut D.Disk (standing_of book.old) line.now (K.written out.old) (K.written out.new) (standing_of book.new)) }
    ensures ready { IsReady book.new ids.now contexts.now }
    ensures cause { HasCause (K.fault_count out.old) (K.fault_count out.new) result }
    ensures counted { D.fault_count (book_disk book.old) ≤ D.fault_count (book_disk book.new) }
{
    match line {
        Line::Skipped => Ok(()),
        Line::Ask { time, id, number } => {
            let outcome = decide_ask(book, ids, contexts, *time, *id, *number);
            write_outcome(out, &outcome)
        }
    }
}

/// Does the lines in order, and writes the outcome of each before the next one is done.
pub(crate) fn decide_lines<K: Sink, D: Disk>(
    book: &mut Book<D>,
    ids: &Ids,
    contexts: &[u32],
    lines: &[Line],
    out: &mut K,
) -> Result<(), Failed>
    requires askable { AreAskable ids.now lines.now }
    requires ready { IsReady book.old ids.now contexts.now }
    requires durable { durable_of book.old ≡ length (log_of book.old) }
    ensures done { OnOk result (AreDone D.Disk (standing_of book.old) lines.now (K.written out.old) (K.written out.new) (book_disk book.new)) }
    ensures cut { OnErr result (AreCutShort D.Disk (standing_of book.old) lines.now (K.written out.old) (K.written out.new) (book_disk book.new)) }
    ensures cause { HasCause (K.fault_count out.old) (K.fault_count out.new) result }
    ensures counted { D.fault_count (book_disk book.old) ≤ D.fault_count (book_disk book.new) }
{
    let mut rest = lines;
    while let Some((line, after)) = rest.split_first() {
        if let Err(failed) = decide_line(book, ids, contexts, line, out) {
            return Err(failed);
        }
        rest = after;
    }
    Ok(())
}
