//! States of short histories, before and after they go through a summary. What is expected is worked out by hand from the rules.
ghost use Rattle.std.specs.Prelude.{IfOk, IsTrue};
ghost use Rattle.registrar_state.specs.Room.{HasRoomFor};
ghost use Rattle.registrar_state.specs.State.{IsSome, spare_room};

use crate::{Last, RegState};
use arrayvec::ArrayVec;
use edge_traits::PledgeId;
use join_history::{Due, Quiet, Want};
use journal_text::{Entry, Refusal, RegSummary, Settings};
use key_sets::KeySet;
use std::alloc::Global;
use std::test::Fail;

/// A pool of `count` addresses from 1 on.
fn settings(count: u16, hours: u16) -> Settings {
    Settings {
        first: 1,
        count,
        hours,
        rate: None,
        jrc: None,
        refused: ArrayVec::new(),
    }
}

fn pledge(number: u32) -> PledgeId {
    PledgeId(u64::from(number).to_be_bytes())
}

/// An Enroll of this pledge. Its check is the identifier and zeros.
fn enroll(context: u32, number: u32) -> Entry {
    let [a, b, c, d] = number.to_be_bytes();
    let mut check = [0; 32];
    (check[4], check[5], check[6], check[7]) = (a, b, c, d);
    Entry::Enroll {
        context,
        id: pledge(number),
        check,
    }
}

fn grant(time: u64, context: u32, number: u64, address: u16, until: u64) -> Entry {
    Entry::Grant {
        time,
        context,
        number,
        address,
        until,
    }
}

fn refuse(time: u64, context: u32, number: u64) -> Entry {
    Entry::Refuse {
        time,
        context,
        number,
        why: Refusal::NoAddress,
    }
}

/// Whether there is room for the entry.
#[tactic(auto, unfolding(crate::specs::State::spare_room))]
fn has_room(state: &RegState, entry: &Entry) -> bool
    ensures { IsTrue result → HasRoomFor (spare_room state.now) entry.now }
{
    match entry {
        Entry::Enroll { .. } => state.room.contexts > 0,
        _ => state.room.entries > 0,
    }
}

/// Adds the entry where the rules let it follow.
fn add(state: &mut RegState, entry: &Entry) -> Result<(), Fail>
    requires { IsSome state.old }
    ensures { IsSome state.new }
{
    if !state.may_follow(entry) {
        return Err("an entry that may not follow")?;
    }
    if !has_room(state, entry) {
        return Err("no room")?;
    }
    state.apply(entry);
    Ok(())
}

fn add_all(state: &mut RegState, entries: &[Entry]) -> Result<(), Fail>
    requires { IsSome state.old }
    ensures { IsSome state.new }
{
    for entry in entries {
        add(state, entry)?;
    }
    Ok(())
}

/// The state of these entries, with room for 8 contexts and 64 other entries.
fn state_of(alloc: Global, entries: &[Entry]) -> Result<RegState, Fail>
    ensures { IfOk result IsSome }
{
    let mut state = RegState::empty(alloc, 8, 64)?;
    add_all(&mut state, entries)?;
    Ok(state)
}

/// What a request to join is due, where its context is enrolled and there are settings.
fn due_of(state: &RegState, context: u32, number: u32, now: u64) -> Option<Due>
    requires { IsSome state.now }
{
    match state.pledge_of(context) {
        None => None,
        Some(_pledge) => match state.settings() {
            None => None,
            Some(_settings) => Some(state.due(context, u64::from(number), Want::Join, now)),
        },
    }
}

/// Whether a request to join is due this.
fn is_due(state: &RegState, context: u32, number: u32, now: u64, due: &Due) -> bool
    requires { IsSome state.now }
{
    match due_of(state, context, number, now) {
        None => false,
        Some(found) => found == *due,
    }
}

/// The last answer of a context that is enrolled.
fn told_last(state: &RegState, context: u32) -> Option<Last>
    requires { IsSome state.now }
{
    match state.pledge_of(context) {
        None => None,
        Some(_pledge) => state.last_of(context),
    }
}

/// Whether this is the last answer of a context.
fn has_last(state: &RegState, context: u32, last: Last) -> bool
    requires { IsSome state.now }
{
    match told_last(state, context) {
        None => false,
        Some(found) => found == last,
    }
}

/// The bytes of the last answer of a context, where it has one.
fn answer_bytes(state: &RegState, context: u32) -> &[u8] {
    match state.row(context) {
        None => &[],
        Some(row) => match &row.last {
            None => &[],
            Some(last) => last.answer.as_slice(),
        },
    }
}

/// The state of the state's summary.
fn reopened(alloc: Global, state: &RegState) -> Result<RegState, Fail>
    requires { IsSome state.now }
    ensures { IfOk result IsSome }
{
    let summary = state.summary(alloc)?;
    if summary.contexts.len() > 8 {
        return Err("more contexts than there is room for")?;
    }
    let state = RegState::of_summary(alloc, &summary, 8, 64)?;
    Ok(state)
}

/// Whether the state has this summary.
fn has_summary(alloc: Global, state: &RegState, summary: &RegSummary) -> Result<bool, Fail> {
    let found = state.summary(alloc)?;
    Ok(found == *summary)
}

/// Settings at 0, the pledges a1 and a2 with the contexts 0 and 1, and a Grant to a1 at 100.
fn granted(alloc: Global, count: u16, hours: u16, until: u64) -> Result<RegState, Fail>
    ensures { IfOk result IsSome }
{
    let entries = [
        Entry::Settings {
            time: 0,
            settings: settings(count, hours),
        },
        enroll(0, 0xa1),
        enroll(1, 0xa2),
        grant(100, 0, 0, 1, until),
    ];
    let state = state_of(alloc, &entries)?;
    Ok(state)
}

/// The first answer of a Grant of the address 1 for 24 hours: 2.04 and a Configuration of the address and the hours.
const GRANTED: [u8; 10] = *b"\x44\xff\xa1\x03\x82\x42\x00\x01\x18\x18";

#[test]
fn a_refusal_and_a_grant_are_answered_again_from_a_summary(rt: HostRuntime) -> Result<(), Fail> {
    let alloc = rt.alloc();
    let mut state = granted(alloc, 1, 24, 86_500)?;
    assert!(rt; is_due(&state, 1, 0, 200, &Due::Add(refuse(200, 1, 0))));
    add(&mut state, &refuse(200, 1, 0))?;
    let state = reopened(alloc, &state)?;
    assert!(rt; is_due(&state, 1, 0, 800, &Due::Again));
    assert!(rt; is_due(&state, 1, 0, 801, &Due::Quiet(Quiet::Late)));
    assert!(rt; has_last(&state, 1, Last::Refuse(0xa3)));
    assert!(rt; answer_bytes(&state, 1) == b"\xa3".as_slice());
    assert!(rt; is_due(&state, 0, 0, 700, &Due::Again));
    assert!(rt; is_due(&state, 0, 0, 701, &Due::Quiet(Quiet::Late)));
    assert!(rt; has_last(&state, 0, Last::Grant(1, 86_500)));
    assert!(rt; answer_bytes(&state, 0) == GRANTED.as_slice());
    assert!(rt; is_due(&state, 0, 1, 800, &Due::Add(grant(800, 0, 1, 1, 87_200))));
    Ok(())
}

#[test]
fn the_window_goes_through_a_summary(rt: HostRuntime) -> Result<(), Fail> {
    let alloc = rt.alloc();
    let mut state = granted(alloc, 1, 24, 86_500)?;
    add(&mut state, &grant(100, 0, 40, 1, 86_500))?;
    let state = reopened(alloc, &state)?;
    assert!(rt; is_due(&state, 0, 8, 100, &Due::Quiet(Quiet::Old)));
    assert!(rt; is_due(&state, 0, 9, 100, &Due::Add(grant(100, 0, 9, 1, 86_500))));
    assert!(rt; is_due(&state, 0, 40, 100, &Due::Again));
    Ok(())
}

#[test]
fn a_number_in_the_window_is_taken(rt: HostRuntime) -> Result<(), Fail> {
    let alloc = rt.alloc();
    let mut state = granted(alloc, 1, 24, 86_500)?;
    add(&mut state, &grant(100, 0, 5, 1, 86_500))?;
    let state = reopened(alloc, &state)?;
    assert!(rt; is_due(&state, 0, 0, 100, &Due::Quiet(Quiet::Taken)));
    assert!(rt; is_due(&state, 0, 4, 100, &Due::Add(grant(100, 0, 4, 1, 86_500))));
    Ok(())
}

/// A Roll of this epoch, with one key.
fn roll(time: u64, epoch: u32, byte: u8) -> Entry {
    let mut keys = ArrayVec::new();
    keys.push([byte; 16]);
    Entry::Roll {
        time,
        set: KeySet { epoch, keys },
    }
}

/// a1 has a lease and a Block, and the keys of epoch 2 are handed out.
fn spreading(alloc: Global) -> Result<RegState, Fail>
    ensures { IfOk result IsSome }
{
    let mut state = granted(alloc, 2, 24, 86_500)?;
    add(&mut state, &Entry::Block { context: 0, to: 64 })?;
    add(&mut state, &roll(101, 1, 1))?;
    add(&mut state, &roll(102, 2, 2))?;
    Ok(state)
}

#[test]
fn who_waits_for_keys_goes_through_a_summary(rt: HostRuntime) -> Result<(), Fail> {
    let alloc = rt.alloc();
    let state = spreading(alloc)?;
    let mut state = reopened(alloc, &state)?;
    assert!(rt; state.waiting(103) == Some(pledge(0xa1)));
    assert!(rt; state.job_for(pledge(0xa1), 103).is_some());
    assert!(rt; state.waiting(86_500).is_none());
    let given = Entry::Given {
        time: 103,
        context: 0,
        number: 63,
        epoch: 2,
    };
    add(&mut state, &given)?;
    let state = reopened(alloc, &state)?;
    assert!(rt; state.waiting(104).is_none());
    Ok(())
}

#[test]
fn a_number_from_the_block_end_on_is_not_given(rt: HostRuntime) -> Result<(), Fail> {
    let alloc = rt.alloc();
    let state = spreading(alloc)?;
    let given = Entry::Given {
        time: 103,
        context: 0,
        number: 64,
        epoch: 2,
    };
    assert!(rt; !state.may_follow(&given));
    Ok(())
}

#[test]
fn a_summary_is_that_of_its_state_again(rt: HostRuntime) -> Result<(), Fail> {
    let alloc = rt.alloc();
    let mut state = spreading(alloc)?;
    add(&mut state, &grant(103, 1, 7, 2, 86_503))?;
    add(
        &mut state,
        &Entry::Stale {
            time: 104,
            id: pledge(0xa1),
            epoch: 2,
        },
    )?;
    let first = state.summary(alloc)?;
    let state = reopened(alloc, &state)?;
    assert!(rt; has_summary(alloc, &state, &first)?);
    assert!(rt; first.grants.len() == 2 && first.nodes.len() == 2);
    Ok(())
}

#[test]
fn a_lease_without_end_ends_by_a_release(rt: HostRuntime) -> Result<(), Fail> {
    let alloc = rt.alloc();
    let mut state = granted(alloc, 1, 0, u64::MAX)?;
    let release = |time| Entry::Release {
        time,
        id: pledge(0xa1),
    };
    assert!(rt;
        is_due(
            &state,
            1,
            0,
            10_000_000,
            &Due::Add(refuse(10_000_000, 1, 0))
        )
    );
    assert!(rt; !state.may_follow(&release(700)));
    add(&mut state, &release(701))?;
    let state = reopened(alloc, &state)?;
    assert!(rt; is_due(&state, 1, 0, 701, &Due::Add(grant(701, 1, 0, 1, u64::MAX))));
    Ok(())
}
