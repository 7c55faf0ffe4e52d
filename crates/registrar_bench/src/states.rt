//! The state of 16,384 pledges, each with a context and a live lease.
ghost use Rattle.std.specs.Prelude.{◌≡◌, ◌<◌, ◌≤◌, ◌+◌, ◌++◌, ◌∷◌, [], ◌^◌, List, IsTrue, IfSome};
ghost use Rattle.journal_text.specs.declared.entry.Entry.{Entry as AnEntry};
ghost use Rattle.registrar_state.specs.Room.{HasRoomFor, TakesRoom};
ghost use Rattle.registrar_state.specs.State.{StandsFor, IsSome, spare_room};
ghost use Rattle.registrar_bench.specs.States.{AreEnrolled};

use crate::parts::{Draws, pledge};
use arrayvec::ArrayVec;
use join_history::ENTRY_LIMIT;
use journal_text::{Entry, Settings};
use key_sets::KeySet;
use registrar_state::{Due, RegState, Want};
use std::alloc::Global;

/// How many pledges there are.
const PLEDGES: u16 = 16_384;

/// How many renewals fit after the settings and the first Grants.
const RENEWALS: u64 = 245_759;

/// When the first Grants are made.
const START: u64 = 1000;

/// The seconds of a lease.
const LEASE: u64 = 86_400;

/// How many pledges, the first ones, don't wait for keys.
const STALE: u16 = 8192;

/// A call of the state that changes nothing.
#[derive(Clone, Copy)]
pub enum Question {
    /// What a fresh join is due: its lease anew.
    Fresh,
    /// What a repeat of the last request is due: its answer again.
    Repeat,
    /// The update that a pledge is owed.
    Job,
    /// The first pledge that waits for keys.
    Waiting,
}

/// A pool of all addresses.
fn settings() -> Settings {
    Settings {
        first: 1,
        count: 65_533,
        hours: 24,
        rate: None,
        jrc: None,
        refused: ArrayVec::new(),
    }
}

/// The Grant that a join of this context is due: the address is one more than the context.
fn grant(context: u16, number: u64, now: u64) -> Entry
    requires { context < 16384 }
{
    Entry::Grant {
        time: now,
        context: u32::from(context),
        number,
        address: context + 1,
        until: now.saturating_add(LEASE),
    }
}

/// Adds the entry where it may follow, and says whether it may.
fn add(state: &mut RegState, entry: &Entry) -> bool
    requires some { IsSome state.old }
    requires room { HasRoomFor (spare_room state.old) entry.now }
    ensures stands { IsTrue result → (h : List AnEntry) → StandsFor state.old h → StandsFor state.new (h ++ entry.now ∷ []) }
    ensures room { IsTrue result → TakesRoom (spare_room state.old) (spare_room state.new) entry.now }
{
    if !state.may_follow(entry) {
        return false;
    }
    state.apply(entry);
    true
}

/// A state with settings and no context.
fn opened(alloc: Global) -> Option<RegState>
    ensures enrolled { IfSome result (λ state. AreEnrolled state 0) }
    ensures room { IfSome result (λ state. 262143 ≤ (spare_room state).entries) }
{
    let Ok(mut state) = RegState::empty(alloc, PLEDGES as u32, ENTRY_LIMIT) else {
        return None;
    };
    let entry = Entry::Settings {
        time: 0,
        settings: settings(),
    };
    if add(&mut state, &entry) {
        Some(state)
    } else {
        None
    }
}

/// Enrolls the next pledge. Its check is its number and zeros.
fn enroll(state: &mut RegState, number: u16) -> bool
    requires enrolled { AreEnrolled state.old number }
    requires most { number < 16384 }
    ensures enrolled { IsTrue result → AreEnrolled state.new (number + 1) }
    ensures room { IsTrue result → (spare_room state.new).entries ≡ (spare_room state.old).entries }
{
    let mut check = [0; 32];
    check[..2].copy_from_slice(&number.to_be_bytes());
    let entry = Entry::Enroll {
        context: u32::from(number),
        id: pledge(number),
        check,
    };
    add(state, &entry)
}

/// A state in which each pledge is enrolled.
fn enrolled(alloc: Global) -> Option<RegState>
    ensures enrolled { IfSome result (λ state. AreEnrolled state 16384) }
    ensures room { IfSome result (λ state. 262143 ≤ (spare_room state).entries) }
{
    let mut state = opened(alloc)?;
    for number in 0..PLEDGES {
        if !enroll(&mut state, number) {
            return None;
        }
    }
    Some(state)
}

/// Adds what a join is due, and says whether that is its Grant.
fn join(state: &mut RegState, context: u16, number: u64, now: u64) -> bool
    requires enrolled { AreEnrolled state.old 16384 }
    requires context { context < 16384 }
    requires number { number < 2 ^ 40 }
    requires room { 0 < (spare_room state.old).entries }
    ensures enrolled { AreEnrolled state.new 16384 }
    ensures room { (spare_room state.old).entries ≤ (spare_room state.new).entries + 1 }
{
    match state.due(u32::from(context), number, Want::Join, now) {
        Due::Add(entry) => {
            state.apply(&entry);
            entry == grant(context, number, now)
        }
        Due::Again | Due::Quiet(_) => false,
    }
}

/// A state in which each pledge has a lease.
fn granted(alloc: Global) -> Option<RegState>
    ensures enrolled { IfSome result (λ state. AreEnrolled state 16384) }
    ensures room { IfSome result (λ state. 245759 ≤ (spare_room state).entries) }
{
    let mut state = enrolled(alloc)?;
    for number in 0..PLEDGES {
        if !join(&mut state, number, 0, START) {
            return None;
        }
    }
    Some(state)
}

/// How many joins were due their Grant: the pledges ask in turn, a second apart.
fn renew(state: &mut RegState, count: u64) -> u64
    requires enrolled { AreEnrolled state.old 16384 }
    requires room { count ≤ (spare_room state.old).entries }
    requires few { count ≤ 245759 }
{
    let mut right = 0u64;
    'turns: for turn in 0..count {
        let context = (turn % PLEDGES as u64) as u16;
        if join(state, context, turn / PLEDGES as u64 + 1, START + turn) {
            right = right.saturating_add(1);
        }
    }
    right
}

/// How many joins were due their Grant. Each was added, in as many states as it takes.
pub fn decisions(alloc: Global, count: u64) -> Option<u64> {
    let mut right = 0u64;
    let mut left = count;
    while left > 0 {
        let turns = left.min(RENEWALS);
        let mut state = granted(alloc)?;
        right = right.saturating_add(renew(&mut state, turns));
        left -= turns;
    }
    Some(right)
}

/// Brings a key set of this epoch, with one key.
fn roll(state: &mut RegState, epoch: u32) -> bool
    requires enrolled { AreEnrolled state.old 16384 }
    requires room { 0 < (spare_room state.old).entries }
    ensures enrolled { IsTrue result → AreEnrolled state.new 16384 }
    ensures room { IsTrue result → (spare_room state.new).entries + 1 ≡ (spare_room state.old).entries }
{
    let mut keys = ArrayVec::new();
    keys.push(*b"sixteen key byte");
    let entry = Entry::Roll {
        time: START,
        set: KeySet { epoch, keys },
    };
    add(state, &entry)
}

/// Marks a pledge as one that doesn't answer the updates of epoch 2.
fn mark_stale(state: &mut RegState, number: u16) -> bool
    requires enrolled { AreEnrolled state.old 16384 }
    requires room { 0 < (spare_room state.old).entries }
    ensures enrolled { IsTrue result → AreEnrolled state.new 16384 }
    ensures room { IsTrue result → (spare_room state.new).entries + 1 ≡ (spare_room state.old).entries }
{
    let entry = Entry::Stale {
        time: START,
        id: pledge(number),
        epoch: 2,
    };
    add(state, &entry)
}

/// A state in which the keys of epoch 2 are handed out, and the second half of the pledges waits.
fn spreading(alloc: Global) -> Option<RegState>
    ensures { IfSome result (λ state. AreEnrolled state 16384) }
{
    let mut state = granted(alloc)?;
    if !roll(&mut state, 1) {
        return None;
    }
    if !roll(&mut state, 2) {
        return None;
    }
    for number in 0..STALE {
        if !mark_stale(&mut state, number) {
            return None;
        }
    }
    Some(state)
}

/// Whether the pledge is owed an update just where it isn't stale.
fn is_job_right(state: &RegState, context: u16, now: u64) -> bool
    requires { context < 16384 }
{
    match state.job_for(pledge(context), now) {
        None => context < STALE,
        Some(job) => {
            context >= STALE
                && job.context == u32::from(context)
                && job.address == context + 1
                && job.epoch == 2
        }
    }
}

/// Whether the call answers what the rules say.
fn is_right(state: &RegState, question: Question, context: u16, now: u64) -> bool
    requires enrolled { AreEnrolled state.now 16384 }
    requires context { context < 16384 }
{
    match question {
        Question::Fresh => {
            state.due(u32::from(context), 1, Want::Join, now) == Due::Add(grant(context, 1, now))
        }
        Question::Repeat => state.due(u32::from(context), 0, Want::Join, now) == Due::Again,
        Question::Job => is_job_right(state, context, now),
        Question::Waiting => state.waiting(now) == Some(pledge(STALE)),
    }
}

/// How many times the call answered right, at pledges that are drawn.
pub fn questions(alloc: Global, question: Question, count: u64) -> Option<u64> {
    let state = spreading(alloc)?;
    let mut draws = Draws { state: count };
    let mut right = 0u64;
    for turn in 0..count {
        let context = (draws.next() % PLEDGES as u64) as u16;
        if is_right(&state, question, context, START + turn % 600) {
            right = right.saturating_add(1);
        }
    }
    Some(right)
}
