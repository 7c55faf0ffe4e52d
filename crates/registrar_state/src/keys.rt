//! The rolling of keys: its phase and which of its entries may follow; and the last answers.
ghost use Rattle.std.specs.Prelude.{◌≡◌, ◌↔◌, ◌≤◌, ℕ, List, length, IsTrue, All, MatchOption};
ghost use Rattle.key_sets.specs.declared.set.KeySet.{KeySet as AKeySet};
ghost use Rattle.journal_text.specs.declared.entry.Entry.{Entry as AnEntry};
ghost use Rattle.journal_text.specs.declared.entry.Entry.TheVariants.{Roll, Given, Stale, Switch};
ghost use Rattle.join_history.specs.Phases as spec;
ghost use Rattle.join_history.specs.Blocks.{block_end};
ghost use Rattle.join_history.specs.Decisions.{IsLastDecision};
ghost use Rattle.join_history.specs.Legal.{IsTimely, Lacks, MayFollow};
ghost use Rattle.registrar_state.specs.Last.{IsLastAnswer};
ghost use Rattle.registrar_state.specs.Decisions.{HasDecision, IsAnswered};
ghost use Rattle.registrar_state.specs.State.{StandsFor, IsEnrolled};

use crate::last::Last;
use crate::state::RegState;
use edge_traits::PledgeId;
use key_sets::{KeySet, Phase};

/// The phase after a Roll with this set.
pub(crate) fn rolled(before: &Phase, set: &KeySet) -> Phase
    ensures { result ≡ spec.rolled before.now set.now }
{
    match before {
        Phase::None => Phase::Steady(set.clone().unwrap()),
        Phase::Steady(old) => Phase::Spreading(old.clone().unwrap(), set.clone().unwrap()),
        Phase::Spreading(old, new) => {
            Phase::Spreading(old.clone().unwrap(), new.clone().unwrap())
        }
    }
}

/// The phase after a Switch.
pub(crate) fn switched(before: &Phase) -> Phase
    ensures { result ≡ spec.switched before.now }
{
    match before {
        Phase::None => Phase::None,
        Phase::Steady(set) => Phase::Steady(set.clone().unwrap()),
        Phase::Spreading(_, new) => Phase::Steady(new.clone().unwrap()),
    }
}

/// Whether the set of this epoch is being handed out.
pub(crate) fn is_spreading(phase: &Phase, epoch: u32) -> bool
    ensures { IsTrue result ↔ spec.IsSpreading phase.now epoch }
{
    match phase {
        Phase::Spreading(_, new) => new.epoch == epoch,
        _ => false,
    }
}

/// Whether the next Roll has this epoch.
fn is_next_epoch(phase: &Phase, epoch: u32) -> bool
    ensures { IsTrue result ↔ spec.IsNextEpoch phase.now epoch }
{
    match phase {
        Phase::None => epoch == 1,
        Phase::Steady(set) => u64::from(epoch) == u64::from(set.epoch) + 1,
        Phase::Spreading(_, _) => false,
    }
}

/// Whether there is a key. What is read here is known to have 16 bytes.
fn has_keys(keys: &[[u8; 16]]) -> bool
    ensures { IsTrue result ↔ ((1 ≤ length keys.now) × All (λ key. length key ≡ 16) keys.now) }
{
    match keys {
        [] => false,
        [_, ..] => true,
    }
}

/// Whether a Roll may bring this set.
pub(crate) fn is_next_set(phase: &Phase, set: &KeySet) -> bool
    ensures { IsTrue result ↔ spec.IsNextSet phase.now set.now }
{
    let _few_keys = set.keys.len();
    let epoch = set.epoch;
    is_next_epoch(phase, epoch) && has_keys(set.keys.as_slice())
}

impl RegState {
    /// How far the rolling of keys has come.
    pub fn phase(&self) -> &Phase
        ensures { (h : List AnEntry) → StandsFor self.now h → result.now ≡ spec.phase h }
    {
        &self.phase
    }

    /// The block end of a context.
    pub fn end_of(&self, context: u32) -> u64
        requires { IsEnrolled self.now context }
        ensures { (h : List AnEntry) → StandsFor self.now h → result ≡ block_end h context }
    {
        self.enrolled(context).end
    }

    /// The last answer to a context.
    pub fn last_of(&self, context: u32) -> Option<Last>
        requires { IsEnrolled self.now context }
        ensures { (h : List AnEntry) → StandsFor self.now h
            → MatchOption result ((e : AnEntry) → IsLastDecision h context e → ⊥) (IsLastAnswer h context) }
    {
        match &self.enrolled(context).last {
            None => None,
            Some(last) => Some(last.told),
        }
    }

    /// The inner answer of the last decision of a context that has one.
    pub fn answer_of(&self, context: u32) -> &[u8]
        requires { HasDecision self.now context }
        ensures { (h : List AnEntry) → StandsFor self.now h → IsAnswered h context result.now }
    {
        match self.row(context) {
            None => unreachable!(),
            Some(row) => match &row.last {
                None => unreachable!(),
                Some(last) => last.answer.as_slice(),
            },
        }
    }

    /// Whether the keys of this epoch may be brought at this time.
    pub(crate) fn may_roll(&self, time: u64, set: &KeySet) -> bool
        ensures { (h : List AnEntry) → StandsFor self.now h → IsTrue result ↔ MayFollow h (Roll time set.now) }
    {
        self.is_timely(time) && is_next_set(&self.phase, set)
    }

    /// Whether the keys of the epoch are being handed out at this time.
    fn is_handed_out(&self, time: u64, epoch: u32) -> bool
        ensures { (h : List AnEntry) → StandsFor self.now h → IsTrue result ↔ (IsTimely h time × spec.IsSpreading (spec.phase h) epoch) }
    {
        self.is_timely(time) && is_spreading(&self.phase, epoch)
    }

    /// Whether the pledge is live at this time and hasn't the keys that are being handed out.
    fn lacks(&self, time: u64, pledge: PledgeId, epoch: u32) -> bool
        ensures { (h : List AnEntry) → StandsFor self.now h → IsTrue result ↔ Lacks h time pledge epoch }
    {
        self.is_handed_out(time, epoch) && self.pledges.lacks(pledge, epoch, time)
    }

    pub(crate) fn may_give(&self, time: u64, context: u32, number: u64, epoch: u32) -> bool
        ensures { (h : List AnEntry) → StandsFor self.now h → IsTrue result ↔ MayFollow h (Given time context number epoch) }
    {
        match self.row(context) {
            None => false,
            Some(row) => number < row.end && self.lacks(time, row.id, epoch),
        }
    }

    pub(crate) fn may_be_stale(&self, time: u64, pledge: PledgeId, epoch: u32) -> bool
        ensures { (h : List AnEntry) → StandsFor self.now h → IsTrue result ↔ MayFollow h (Stale time pledge epoch) }
    {
        self.lacks(time, pledge, epoch) && !self.pledges.is_stale(pledge, epoch)
    }

    pub(crate) fn may_switch(&self, time: u64, epoch: u32) -> bool
        ensures { (h : List AnEntry) → StandsFor self.now h → IsTrue result ↔ MayFollow h (Switch time epoch) }
    {
        self.is_handed_out(time, epoch) && self.pledges.first_waiting(time).is_none()
    }
}
