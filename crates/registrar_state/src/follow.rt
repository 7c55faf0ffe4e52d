//! Whether an entry may follow, whatever its kind.
ghost use Rattle.std.specs.Prelude.{◌≡◌, ◌↔◌, ◌<◌, ◌≤◌, ◌+◌, ℕ, List, IsTrue, Contains};
ghost use Rattle.address_leases.specs.declared.grant.Grant.{Grant as Lease};
ghost use Rattle.journal_text.specs.declared.entry.Entry.{Entry as AnEntry};
ghost use Rattle.journal_text.specs.declared.entry.Entry.TheVariants.{Settings as SettingsEntry, Release};
ghost use Rattle.join_history.specs.Limits.{grace, repeat_span};
ghost use Rattle.join_history.specs.Decisions.{IsDecisionFor};
ghost use Rattle.join_history.specs.Leases as spec;
ghost use Rattle.join_history.specs.Legal.{IsLegal, IsTimely, HasAged, MayFollow};
ghost use Rattle.registrar_state.specs.Contexts.{IsRow};
ghost use Rattle.registrar_state.specs.Decisions.{AreAged};
ghost use Rattle.registrar_state.specs.State.{StandsFor, IsSome};

use crate::contexts::Row;
use crate::legal::is_in_range;
use crate::state::RegState;
use address_leases::{GRACE, Leases};
use edge_traits::PledgeId;
use join_history::REPEAT_SPAN;
use journal_text::{Entry, Settings};

/// Whether a lease that ends then still holds its address at this time.
pub(crate) fn is_held_until(until: u64, time: u64) -> bool
    ensures { IsTrue result ↔ (time < until + grace) }
{
    time.saturating_sub(until) < GRACE
}

/// Whether a decision that was made then is more than 600 seconds old at this time.
fn has_aged(made: u64, time: u64) -> bool
    ensures { IsTrue result ↔ (made + repeat_span < time) }
{
    made.saturating_add(REPEAT_SPAN) < time
}

/// Whether some lease of the pledge still holds its address at this time.
fn holds_some(leases: &Leases, pledge: PledgeId, time: u64) -> bool
    ensures { IsTrue result ↔ ((g : Lease) × Contains leases.now.grants g × (g.id ≡ pledge) × (time < g.until + grace)) }
{
    for at in 0..leases.kept() {
        let kept = leases.kept_at(at);
        if kept.0 == pledge && is_held_until(kept.2, time) {
            return true;
        }
    }
    false
}

impl Row {
    /// Whether each decision of the context was made more than 600 seconds before this time, where
    /// the context is the pledge's.
    fn is_aged(&self, pledge: PledgeId, time: u64) -> bool
        ensures { (h : List AnEntry) (c : ℕ) → IsLegal h → IsRow h c self.now → IsTrue result ↔ AreAged h c pledge time }
    {
        match &self.last {
            None => true,
            Some(last) => self.id != pledge || has_aged(last.time, time),
        }
    }
}

impl RegState {
    pub(crate) fn may_set(&self, time: u64, settings: &Settings) -> bool
        ensures { (h : List AnEntry) → StandsFor self.now h → IsTrue result ↔ MayFollow h (SettingsEntry time settings.now) }
    {
        self.is_timely(time) && is_in_range(settings)
    }

    /// Whether each decision of this context was made more than 600 seconds before this time, where
    /// the context is the pledge's.
    fn is_aged(&self, context: u32, pledge: PledgeId, time: u64) -> bool
        ensures { (h : List AnEntry) → StandsFor self.now h → IsTrue result ↔ AreAged h context pledge time }
    {
        match self.row(context) {
            None => true,
            Some(row) => row.is_aged(pledge, time),
        }
    }

    /// Whether no answer to the pledge may still be on its way.
    fn are_aged(&self, pledge: PledgeId, time: u64) -> bool
        requires { IsSome self.now }
        ensures { (h : List AnEntry) → StandsFor self.now h
            → IsTrue result ↔ ((e : AnEntry) → Contains h e → IsDecisionFor h pledge e → HasAged e time) }
    {
        for context in 0..self.contexts.len() as u32 {
            if !self.is_aged(context, pledge, time) {
                return false;
            }
        }
        true
    }

    pub(crate) fn may_release(&self, time: u64, pledge: PledgeId) -> bool
        requires { IsSome self.now }
        ensures { (h : List AnEntry) → StandsFor self.now h → IsTrue result ↔ MayFollow h (Release time pledge) }
    {
        self.is_holding(time, pledge) && self.are_aged(pledge, time)
    }

    /// Whether the time may follow, and the pledge holds some address then.
    fn is_holding(&self, time: u64, pledge: PledgeId) -> bool
        ensures { (h : List AnEntry) → StandsFor self.now h
            → IsTrue result ↔ (IsTimely h time × ((a : ℕ) × spec.Holds h time a pledge)) }
    {
        self.is_timely(time) && holds_some(&self.leases, pledge, time)
    }

    /// Whether the rules let the entry follow.
    pub fn may_follow(&self, entry: &Entry) -> bool
        requires { IsSome self.now }
        ensures { (h : List AnEntry) → StandsFor self.now h → IsTrue result ↔ MayFollow h entry.now }
    {
        match entry {
            Entry::Settings { time, settings } => self.may_set(*time, settings),
            Entry::Enroll { context, id, check } => self.may_enroll(*context, *id, check),
            Entry::Grant {
                time,
                context,
                number,
                address,
                until,
            } => self.may_grant(*time, *context, *number, *address, *until),
            Entry::Refuse {
                time,
                context,
                number,
                why,
            } => self.may_refuse(*time, *context, *number, *why),
            Entry::Block { context, to } => self.may_block(*context, *to),
            Entry::Roll { time, set } => self.may_roll(*time, set),
            Entry::Given {
                time,
                context,
                number,
                epoch,
            } => self.may_give(*time, *context, *number, *epoch),
            Entry::Stale { time, id, epoch } => self.may_be_stale(*time, *id, *epoch),
            Entry::Switch { time, epoch } => self.may_switch(*time, *epoch),
            Entry::Release { time, id } => self.may_release(*time, *id),
        }
    }
}
