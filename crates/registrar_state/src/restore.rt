//! The state of a summary.
ghost use Rattle.std.specs.Prelude.{◌≡◌, ℕ, ◌+◌, ◌<◌, ◌≤◌, List, [], ◌∷◌, Some, None, IfOk, MatchOption, length, map};
ghost use Rattle.address_leases.specs.Steps.{IsEmpty};
ghost use Rattle.journal_text.specs.declared.entry.Entry.{Entry};
ghost use Rattle.join_history.specs.Legal.{IsLegal};
ghost use Rattle.join_history.specs.Summary.{IsSumRequest, AreSumRequests, IsSummary, said_by};
ghost use Rattle.registrar_state.specs.Contexts.{IsLastRequest, IsLastOf, IsRow};
ghost use Rattle.registrar_state.specs.Leases.{AreLeases};
ghost use Rattle.registrar_state.specs.Restore.{IsReadableRequest, AreReadable, IsReadable, IsRowFor, AreRowsFor, GivesAll, leases_in};
ghost use Rattle.registrar_state.specs.State.{StandsFor, spare_room};
ghost use Rattle.registrar_state.specs.Summary.{lease_of};

use crate::contexts::{Contexts, LastRequest, Row};
use crate::last::told_of;
use crate::pledges::Pledges;
use crate::room::Room;
use crate::state::RegState;
use crate::summary::{copy_of_answer, copy_of_phase, copy_of_settings};
use crate::updates::spread_epoch;
use address_leases::Leases;
use edge_traits::NoMemory;
use journal_text::{RegSummary, SumContext, SumGrant, SumNode, SumRequest};
use replay_window::Window;
use std::alloc::{AllocError, Global};

/// The last request of a context.
fn last_request(request: &SumRequest) -> LastRequest
    ensures { (h : List Entry) (c : ℕ) → IsLegal h → IsSumRequest h c request.now → IsLastRequest h c result }
{
    LastRequest {
        number: request.number,
        time: request.time,
        told: told_of(request.answer.as_slice(), request.time),
        answer: copy_of_answer(&request.answer),
    }
}

fn last_of(last: &Option<SumRequest>) -> Option<LastRequest>
    ensures { (h : List Entry) (c : ℕ) → IsLegal h → AreSumRequests h c last.now → IsLastOf h c result }
{
    match last {
        None => None,
        Some(request) => Some(last_request(request)),
    }
}

/// The window of the requests of a context.
fn window_of(last: &Option<SumRequest>) -> Window
    requires { IsReadableRequest last.now }
    ensures { MatchOption last.now (result ≡ None) (λ r. result ≡ Some (r.greatest, r.window)) }
{
    match last {
        None => Window::empty(),
        Some(request) => Window::of_parts(request.greatest, request.window),
    }
}

fn row_of(context: &SumContext) -> Row
    requires { IsReadableRequest context.now.last }
    ensures { IsRowFor context.now result }
{
    Row {
        id: context.id,
        check: context.check,
        end: context.end,
        window: window_of(&context.last),
        last: last_of(&context.last),
    }
}

/// The contexts of a summary, with room for contexts up to `most` in all.
fn contexts_of(alloc: Global, contexts: &[SumContext], most: u32) -> Result<Contexts, AllocError>
    requires readable { AreReadable contexts.now }
    requires most { length contexts.now ≤ most }
    ensures rows { IfOk result (λ table. AreRowsFor contexts.now table.rows) }
    ensures all { IfOk result (λ table. length table.rows ≡ length contexts.now) }
    ensures room { IfOk result (λ table. table.room + length contexts.now ≡ most) }
{
    let mut table = Contexts::empty(alloc, most)?;
    for at in 0..contexts.len() {
        table.add(row_of(&contexts[at]));
    }
    Ok(table)
}

/// No lease, and room for as many as these together.
fn spare_leases(alloc: Global, grants: usize, nodes: usize, room: u32) -> Result<Leases, NoMemory>
    ensures { IfOk result (IsEmpty (grants + nodes + room)) }
{
    let Some(leases) = grants.checked_add(nodes) else {
        return Err(NoMemory);
    };
    let Some(all) = leases.checked_add(room as usize) else {
        return Err(NoMemory);
    };
    if all > u32::MAX as usize {
        return Err(NoMemory);
    }
    match Leases::empty(alloc, all as u32) {
        Ok(leases) => Ok(leases),
        Err(_) => Err(NoMemory),
    }
}

fn give_grants(leases: &mut Leases, grants: &[SumGrant])
    requires { length grants.now ≤ leases.old.room }
    ensures { GivesAll leases.old (map lease_of grants.now) leases.new }
{
    let mut rest = grants;
    while let [grant, after @ ..] = rest {
        leases.grant(grant.id, grant.address, grant.until);
        rest = after;
    }
}

fn give_nodes(leases: &mut Leases, nodes: &[SumNode])
    requires { length nodes.now ≤ leases.old.room }
    ensures { GivesAll leases.old (leases_in nodes.now) leases.new }
{
    let mut rest = nodes;
    while let [node, after @ ..] = rest {
        if node.address != 0 {
            leases.grant(node.id, node.address, node.until);
        }
        rest = after;
    }
}

/// The leases of a summary, with room for `room` further ones. Each pledge's last lease comes last.
fn leases_of(alloc: Global, summary: &RegSummary, room: u32) -> Result<Leases, NoMemory>
    ensures leases { IfOk result (λ leases. (h : List Entry) → IsLegal h → IsSummary h (said_by summary.now) → AreLeases h leases) }
    ensures passed { IfOk result (λ leases. leases.passed ≡ summary.now.time) }
    ensures room { IfOk result (λ leases. room ≤ leases.room) }
{
    let mut leases = spare_leases(alloc, summary.grants.len(), summary.nodes.len(), room)?;
    give_grants(&mut leases, &summary.grants);
    give_nodes(&mut leases, &summary.nodes);
    leases.pass(summary.time);
    Ok(leases)
}

impl RegState {
    /// The state of each history that has this summary, with room for contexts up to `contexts` in
    /// all and for `entries` other entries. It takes memory.
    #[tactic(auto, unfolding(crate::specs::State::spare_room))]
    pub fn of_summary(
        alloc: Global,
        summary: &RegSummary,
        contexts: u32,
        entries: u32,
    ) -> Result<RegState, NoMemory>
        requires readable { IsReadable (said_by summary.now) }
        requires contexts { length summary.now.contexts.items ≤ contexts }
        ensures stands { IfOk result (λ state. (h : List Entry) → IsLegal h → IsSummary h (said_by summary.now) → StandsFor state h) }
        ensures contexts { IfOk result (λ state. (spare_room state).contexts + length summary.now.contexts.items ≡ contexts) }
        ensures entries { IfOk result (λ state. (spare_room state).entries ≡ entries) }
    {
        let table = contexts_of(alloc, &summary.contexts, contexts)?;
        let leases = leases_of(alloc, summary, entries)?;
        let mut pledges = Pledges::of_nodes(alloc, &summary.nodes, contexts)?;
        pledges.spread(spread_epoch(&summary.phase));
        Ok(RegState {
            time: summary.time,
            settings: copy_of_settings(&summary.settings),
            phase: copy_of_phase(&summary.phase),
            contexts: table,
            leases,
            pledges,
            room: Room {
                contexts: contexts - summary.contexts.len() as u32,
                entries,
            },
        })
    }
}
