//! Opening a book: what a log lacks of settings and contexts is added.
ghost use Rattle.std.specs.Prelude.{◌≡◌, ◌≤◌, ◌<◌, ◌+◌, ◌++◌, ◌^◌, ◌-◌, ◌↔◌, Option, Some, List, IfOk, IfErr, IsTrue, MatchOption, length, drop, vec_capacity};
ghost use Rattle.journal_text.specs.declared.entry.Entry.{Entry};
ghost use Rattle.join_history.specs.Leases.{current_settings};
ghost use Rattle.join_history.specs.Limits.{context_limit};
ghost use Rattle.join_history.specs.Legal.{IsLegal, IsInRange};
ghost use Rattle.registrar_state.specs.State.{StandsFor};
ghost use Rattle.registrar_book.specs.Opening.{OpenCause};
ghost use Rattle.registrar_book.specs.Known.{enrolls, first_entries, IsNewSettings, IsPlan};
ghost use Rattle.registrar_book.specs.Prepared.{IsPrepared};

use crate::OpenFault;
use crate::desk::Desk;
use crate::known::Row;
use crate::replay::replay;
use crate::rows::{known_contexts, place_rows};
use join_history::{CONTEXT_LIMIT, ENTRY_LIMIT};
use journal_text::{Entry, Settings};
use registrar_state::{Opening, RegState};
use std::alloc::{AllocError, Global};

/// What opening adds: its entries, and the context of each row.
#[derive(Drop)]
pub struct Plan {
    pub entries: Vec<Entry>,
    pub contexts: Vec<u32>,
}

fn are_in_force(state: &RegState, settings: &Settings) -> bool
    ensures { (log : List Entry) → StandsFor state.now log → IsTrue result ↔ (current_settings log ≡ Some settings.now) }
{
    match state.settings() {
        Some(current) => *current == *settings,
        None => false,
    }
}

/// The entry of these settings, where they aren't in force.
fn new_settings(state: &RegState, settings: &Settings, now: Option<u64>) -> Option<Entry>
    ensures { (log : List Entry) → StandsFor state.now log
        → MatchOption result (current_settings log ≡ Some settings.now) (IsNewSettings log settings.now now) }
{
    if are_in_force(state, settings) {
        return None;
    }
    Some(Entry::Settings {
        time: state.moment(now.unwrap_or(0)),
        settings: settings.clone().unwrap(),
    })
}

/// The entries that opening adds: settings, where they changed, and a context for each row from the first new one on.
fn opening_entries(
    alloc: Global,
    settings: Option<Entry>,
    known: &[Row],
    first: usize,
) -> Result<Vec<Entry>, AllocError>
    requires first { first ≤ length known.now }
    requires few { length known.now ≤ context_limit }
    ensures entries { IfOk result (λ entries. entries.items ≡ first_entries settings ++ enrolls first (drop first known.now)) }
{
    let mut entries = Vec::new(alloc);
    if let Some(entry) = settings {
        entries.push(entry)?;
    }
    let mut context = first as u32;
    let mut rest = &known[first..];
    while let Some((row, after)) = rest.split_first() {
        let (id, check) = *row;
        entries.push(Entry::Enroll { context, id, check })?;
        context += 1;
        rest = after;
    }
    Ok(entries)
}

/// What opening adds after this log.
pub fn make_plan(
    alloc: Global,
    log: &[Entry],
    state: &RegState,
    opening: &Opening,
    now: Option<u64>,
) -> Result<Plan, OpenFault>
    requires stands { StandsFor state.now log.now }
    requires settings { IsInRange opening.now.settings }
    requires short { length log.now < 2 ^ 31 }
    requires few { length opening.now.rows.items < 2 ^ 31 }
    ensures ok { IfOk result (λ plan. IsPlan log.now opening.now.settings opening.now.rows.items now plan.entries.items plan.contexts.items) }
    ensures err { IfErr result (OpenCause log.now opening.now.settings opening.now.rows.items now) }
{
    let Ok(mut known) = known_contexts(alloc, log) else {
        return Err(OpenFault::NoMemory);
    };
    let first = known.rows().len();
    let contexts = match place_rows(alloc, &mut known, &opening.rows) {
        Ok(contexts) => contexts,
        Err(fault) => return Err(fault),
    };
    let count = known.rows().len();
    if count > CONTEXT_LIMIT as usize {
        return Err(OpenFault::ContextsFull(count as u32));
    }
    let settings = new_settings(state, &opening.settings, now);
    let Ok(entries) = opening_entries(alloc, settings, known.rows(), first) else {
        return Err(OpenFault::NoMemory);
    };
    let length = log.len() + entries.as_slice().len();
    if length > ENTRY_LIMIT as usize {
        return Err(OpenFault::JournalFull(length as u32));
    }
    Ok(Plan { entries, contexts })
}

/// A log that opening adds to: the desk that stands for it, and what is added.
#[derive(Drop)]
pub struct Prepared {
    pub desk: Desk,
    pub plan: Plan,
}

/// Prepares the opening of a log. All memory is taken here, and nothing is written.
pub fn prepare(
    alloc: Global,
    log: Vec<Entry>,
    opening: &Opening,
    now: Option<u64>,
) -> Result<Prepared, OpenFault>
    requires settings { IsInRange opening.now.settings }
    requires few { length opening.now.rows.items < 2 ^ 31 }
    ensures ok { IfOk result (λ prepared. IsPrepared log.items opening.now.settings opening.now.rows.items now prepared) }
    ensures err { IfErr result (OpenCause log.items opening.now.settings opening.now.rows.items now) }
{
    let state = match replay(alloc, &log) {
        Ok(state) => state,
        Err(fault) => return Err(fault),
    };
    let plan = match make_plan(alloc, &log, &state, opening, now) {
        Ok(plan) => plan,
        Err(fault) => return Err(fault),
    };
    let mut log = log;
    log.reserve(ENTRY_LIMIT as usize - log.len())?;
    let durable = log.len() as u32;
    let desk = Desk {
        state,
        log,
        durable,
    };
    Ok(Prepared { desk, plan })
}
