//! What the state says of times, settings and contexts.
ghost use Rattle.std.specs.Prelude.{◌≡◌, ◌≤◌, List, MatchOption};
ghost use Rattle.std.specs.Option.{option_copied};
ghost use Rattle.journal_text.specs.declared.entry.Entry.{Entry};
ghost use Rattle.join_history.specs.Times as times;
ghost use Rattle.join_history.specs.Contexts as contexts;
ghost use Rattle.join_history.specs.Leases.{current_settings};
ghost use Rattle.registrar_state.specs.Contexts.{IsRow};
ghost use Rattle.registrar_state.specs.State.{StandsFor, IsEnrolled};

use crate::contexts::Row;
use crate::state::RegState;
use edge_traits::PledgeId;
use join_history::TIME_END;
use journal_text::Settings;

impl RegState {
    /// The moment of a decision that is made when the clock says `now`.
    #[tactic(auto, unfolding(crate::specs::State::StandsFor))]
    pub fn moment(&self, now: u64) -> u64
        ensures { (h : List Entry) → StandsFor self.now h → result ≡ times.moment h now }
    {
        self.time.max(now.min(TIME_END - 1))
    }

    /// The settings in force.
    pub fn settings(&self) -> Option<&Settings>
        ensures { (h : List Entry) → StandsFor self.now h → option_copied result ≡ current_settings h }
    {
        match &self.settings {
            None => None,
            Some(timed) => Some(&timed.1),
        }
    }

    /// What is kept of a context.
    pub(crate) fn row(&self, context: u32) -> Option<&Row>
        ensures { (h : List Entry) → StandsFor self.now h
            → MatchOption result (contexts.context_count h ≤ context) (λ row. IsRow h context row.now) }
    {
        match self.contexts.get(context) {
            None => None,
            Some(row) => Some(row),
        }
    }

    /// What is kept of a context that is enrolled.
    pub(crate) fn enrolled(&self, context: u32) -> &Row
        requires { IsEnrolled self.now context }
        ensures { (h : List Entry) → StandsFor self.now h → IsRow h context result.now }
    {
        self.row(context).unwrap()
    }

    /// The pledge of a context.
    pub(crate) fn pledge_of(&self, context: u32) -> Option<PledgeId>
        ensures { (h : List Entry) → StandsFor self.now h → result ≡ contexts.pledge_of h context }
    {
        match self.row(context) {
            None => None,
            Some(row) => Some(row.id),
        }
    }
}
