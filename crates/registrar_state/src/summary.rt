//! The summary of the history, which a checkpoint keeps.
ghost use Rattle.std.specs.Prelude.{◌≡◌, ◌↔◌, ℕ, ◌+◌, ◌<◌, List, Some, Contains, IfOk, map};
ghost use Rattle.std.specs.List.{AllZip};
ghost use Rattle.replay_window.specs.Parts.{AreBitsOf};
ghost use Rattle.journal_text.specs.declared.entry.Entry.{Entry};
ghost use Rattle.journal_text.specs.declared.summary.SumGrant.{SumGrant as AGrant};
ghost use Rattle.join_history.specs.Summary.{Ascends, AreSumRequests, IsGrantBefore, IsSumRequest, IsSummary, said_by};
ghost use Rattle.registrar_state.specs.declared.summary.HeldLease.{HeldLease as ALease};
ghost use Rattle.registrar_state.specs.Contexts.{AreNumbersOf, IsLastRequest, IsRow};
ghost use Rattle.registrar_state.specs.State.{StandsFor};
ghost use Rattle.registrar_state.specs.Summary.{IsContextOf, IsKept, IsLeaseBefore, IsNumbered, AreHeld, grant_of, node_in};

use crate::contexts::{LastRequest, Row};
use crate::follow::is_held_until;
use crate::pledges::{LastGrant, Pledges, number_of};
use crate::state::RegState;
use address_leases::Leases;
use arrayvec::ArrayVec;
use edge_traits::{NoMemory, PledgeId};
use journal_text::{RegSummary, Settings, SumContext, SumGrant, SumNode, SumRequest};
use key_sets::Phase;
use std::alloc::Global;

/// A lease that holds its address. They go by address, then by identifier, then by end.
#[derive(Clone, Copy, Debug, PartialEq, Eq, PartialOrd, Ord)]
struct HeldLease {
    address: u16,
    /// The identifier's bytes as one number.
    number: u64,
    until: u64,
}

pub(crate) fn copy_of_answer(answer: &ArrayVec<u8, 512>) -> ArrayVec<u8, 512>
    ensures { result.items ≡ answer.now.items }
{
    let mut copy = ArrayVec::new();
    match copy.try_extend_from_slice(answer.as_slice()) {
        Ok(()) => {}
        Err(_) => unreachable!(),
    }
    copy
}

/// The requests of a context, by its last one and the parts of its window.
fn sum_request(last: &LastRequest, greatest: u64, window: u32) -> SumRequest
    ensures { (h : List Entry) (c : ℕ) (numbers : List ℕ) → AreNumbersOf h c numbers → AreBitsOf numbers greatest window
        → IsLastRequest h c last.now → IsSumRequest h c result }
{
    SumRequest {
        greatest,
        window,
        number: last.number,
        time: last.time,
        answer: copy_of_answer(&last.answer),
    }
}

/// The requests of a context. Its window has parts just where it has a last request.
fn sum_requests(row: &Row) -> Option<SumRequest>
    ensures { (h : List Entry) (c : ℕ) → IsRow h c row.now → AreSumRequests h c result }
{
    match &row.last {
        None => None,
        Some(last) => match row.window.parts() {
            None => None,
            Some(parts) => Some(sum_request(last, parts.0, parts.1)),
        },
    }
}

fn sum_context(row: &Row) -> SumContext
    ensures { IsContextOf row.now result }
{
    SumContext {
        id: row.id,
        check: row.check,
        end: row.end,
        last: sum_requests(row),
    }
}

/// The contexts by their numbers.
fn sum_contexts(alloc: Global, rows: &[Row]) -> Result<Vec<SumContext>, NoMemory>
    ensures { IfOk result (λ contexts. AllZip IsContextOf rows.now contexts.items) }
{
    let mut contexts = Vec::new(alloc);
    for row in rows {
        match contexts.push(sum_context(row)) {
            Ok(()) => {}
            Err(_) => return Err(NoMemory),
        }
    }
    Ok(contexts)
}

impl HeldLease {
    #[tactic(auto, unfolding(crate::specs::Summary::grant_of, crate::specs::Summary::IsNumbered))]
    fn new(id: PledgeId, address: u16, until: u64) -> HeldLease
        ensures grant { grant_of result ≡ record { id = id; address = address; until = until } }
        ensures numbered { IsNumbered result }
    {
        HeldLease {
            address,
            number: number_of(id),
            until,
        }
    }

    #[tactic(auto, unfolding(crate::specs::Summary::grant_of))]
    fn grant(&self) -> SumGrant
        ensures { result ≡ grant_of self.now }
    {
        SumGrant {
            id: PledgeId(self.number.to_be_bytes()),
            address: self.address,
            until: self.until,
        }
    }
}

/// The leases that hold their addresses at this time, in the leases' order.
fn held_leases(alloc: Global, leases: &Leases, time: u64) -> Result<Vec<HeldLease>, NoMemory>
    ensures { IfOk result (λ held. AreHeld leases.now.grants time held.items) }
{
    let mut held = Vec::new(alloc);
    for at in 0..leases.kept() {
        let kept = leases.kept_at(at);
        if is_held_until(kept.2, time) {
            match held.push(HeldLease::new(kept.0, kept.1, kept.2)) {
                Ok(()) => {}
                Err(_) => return Err(NoMemory),
            }
        }
    }
    Ok(held)
}

/// Puts the leases in their order, each once.
fn put_in_order(held: &mut Vec<HeldLease>)
    ensures ascend { Ascends IsLeaseBefore held.new.items }
    ensures same { (l : ALease) → Contains held.new.items l ↔ Contains held.old.items l }
{
    held.sort_unstable();
    held.dedup();
}

/// The leases as the summary has them.
fn grants_of(alloc: Global, held: &[HeldLease]) -> Result<Vec<SumGrant>, NoMemory>
    ensures { IfOk result (λ grants. grants.items ≡ map grant_of held.now) }
{
    Ok(held.iter().map(|lease| lease.grant()).collect(alloc)?)
}

/// The Grants whose addresses are held at this time, in order, each once.
fn sum_grants(alloc: Global, leases: &Leases, time: u64) -> Result<Vec<SumGrant>, NoMemory>
    ensures ascend { IfOk result (λ grants. Ascends IsGrantBefore grants.items) }
    ensures each { IfOk result (λ grants. (x : AGrant) → Contains grants.items x ↔ IsKept leases.now.grants time x) }
{
    let mut held = held_leases(alloc, leases, time)?;
    put_in_order(&mut held);
    grants_of(alloc, &held)
}

fn sum_node(pledges: &Pledges, last: &LastGrant) -> SumNode
    ensures { result ≡ node_in pledges.now.holders last.now }
{
    let epochs = pledges.epochs(last.id);
    SumNode {
        id: last.id,
        context: last.context,
        address: last.address,
        until: last.until,
        has: epochs.0,
        stale: epochs.1,
    }
}

/// The pledges that had a Grant, in order of identifier.
fn sum_nodes(alloc: Global, pledges: &Pledges) -> Result<Vec<SumNode>, NoMemory>
    ensures { IfOk result (λ nodes. nodes.items ≡ map (node_in pledges.now.holders) pledges.now.grants.items) }
{
    Ok(
        pledges
            .last_grants()
            .iter()
            .map(|last| sum_node(pledges, last))
            .collect(alloc)?,
    )
}

pub(crate) fn copy_of_phase(phase: &Phase) -> Phase
    ensures { result ≡ phase.now }
{
    phase.clone().unwrap()
}

/// A copy of the settings with their time.
pub(crate) fn copy_of_settings(settings: &Option<(u64, Settings)>) -> Option<(u64, Settings)>
    ensures { result ≡ settings.now }
{
    match settings {
        None => None,
        Some(timed) => Some((timed.0, timed.1.clone().unwrap())),
    }
}

impl RegState {
    /// The summary of the history. It takes memory.
    pub fn summary(&self, alloc: Global) -> Result<RegSummary, NoMemory>
        ensures { IfOk result (λ summary. (h : List Entry) → StandsFor self.now h → IsSummary h (said_by summary)) }
    {
        let contexts = sum_contexts(alloc, self.contexts.rows())?;
        let grants = sum_grants(alloc, &self.leases, self.time)?;
        let nodes = sum_nodes(alloc, &self.pledges)?;
        Ok(RegSummary {
            time: self.time,
            settings: copy_of_settings(&self.settings),
            phase: copy_of_phase(&self.phase),
            contexts,
            grants,
            nodes,
        })
    }
}
