//! What a request is due.
ghost use Rattle.std.specs.Prelude.{◌≡◌, ◌<◌, ◌≤◌, ◌^◌, ◌+◌, ℕ, List, Some, MatchOption};
ghost use Rattle.journal_text.specs.declared.entry.Entry.{Entry};
ghost use Rattle.join_history.specs.Limits.{number_end, time_end, pool_end};
ghost use Rattle.join_history.specs.Contexts.{pledge_of};
ghost use Rattle.join_history.specs.Leases.{current_settings, IsDueAddress, HasNoAddress};
ghost use Rattle.join_history.specs.Due.{IsRepeat, IsNoRepeat, IsWish, IsDueEntry, IsDue, IsAddable};
ghost use Rattle.registrar_state.specs.Contexts.{IsRow};
ghost use Rattle.registrar_state.specs.Due.{IsJudgedOf};
ghost use Rattle.registrar_state.specs.State.{StandsFor, IsEnrolled, HasSettings, IsNow};

use crate::contexts::Row;
use crate::legal::lease_end;
use crate::state::RegState;
use edge_traits::PledgeId;
use join_history::{Due, Quiet, REPEAT_SPAN, Want};
use journal_text::{Entry, Refusal, Settings};
use replay_window::Judged;

impl Row {
    /// When the last request of the context was decided, where it has this number.
    fn repeat_time(&self, number: u64) -> Option<u64>
        ensures { (h : List Entry) (c : ℕ) → IsRow h c self.now → MatchOption result (IsNoRepeat h c number) (IsRepeat h c number) }
    {
        match &self.last {
            None => None,
            Some(last) => {
                if last.number == number {
                    Some(last.time)
                } else {
                    None
                }
            }
        }
    }

    /// What the number is judged to be.
    pub(crate) fn judge(&self, number: u64) -> Judged
        ensures { (h : List Entry) (c : ℕ) → IsRow h c self.now → IsJudgedOf h c number result }
    {
        self.window.judge(number)
    }
}

impl RegState {
    /// The live address of a pledge, or else the least address of the pool that no other pledge holds.
    pub(crate) fn due_address(&self, settings: &Settings, at: u64, pledge: PledgeId) -> Option<u16>
        requires current { (h : List Entry) → StandsFor self.now h → current_settings h ≡ Some settings.now }
        requires pool { (1 ≤ settings.now.first) × (settings.now.first + settings.now.count ≤ pool_end) }
        requires moment { IsNow self.now at }
        ensures { (h : List Entry) → StandsFor self.now h → MatchOption result (HasNoAddress h at pledge) (IsDueAddress h at pledge) }
    {
        self.leases.ask(pledge, settings.first, settings.count, at)
    }

    /// The entry that a fresh join gets.
    fn join_entry(&self, context: u32, number: u64, at: u64, pledge: PledgeId) -> Entry
        requires fits { at < time_end }
        requires moment { IsNow self.now at }
        requires pledge { (h : List Entry) → StandsFor self.now h → pledge_of h context ≡ Some pledge }
        requires settings { HasSettings self.now }
        ensures { (h : List Entry) → StandsFor self.now h → IsDueEntry h at context number Want.Join result }
    {
        let settings = self.settings().unwrap();
        match self.due_address(settings, at, pledge) {
            Some(address) => Entry::Grant {
                time: at,
                context,
                number,
                address,
                until: lease_end(at, settings.hours),
            },
            None => Entry::Refuse {
                time: at,
                context,
                number,
                why: Refusal::NoAddress,
            },
        }
    }

    /// The entry that a fresh request gets.
    fn due_entry(&self, context: u32, number: u64, want: Want, at: u64, pledge: PledgeId) -> Entry
        requires fits { at < time_end }
        requires moment { IsNow self.now at }
        requires pledge { (h : List Entry) → StandsFor self.now h → pledge_of h context ≡ Some pledge }
        requires settings { HasSettings self.now }
        ensures { (h : List Entry) → StandsFor self.now h → IsDueEntry h at context number want result }
    {
        match want {
            Want::Join => self.join_entry(context, number, at, pledge),
            Want::Refuse(why) => Entry::Refuse {
                time: at,
                context,
                number,
                why,
            },
        }
    }

    /// What the request of this context and number is due when the clock says `now`.
    pub fn due(&self, context: u32, number: u64, want: Want, now: u64) -> Due
        requires context { IsEnrolled self.now context }
        requires settings { HasSettings self.now }
        requires number { number < number_end }
        requires want { IsWish want }
        ensures due { (h : List Entry) → StandsFor self.now h → IsDue h now context number want result }
        ensures may_follow { (h : List Entry) → StandsFor self.now h → IsAddable h result }
    {
        self.due_of(self.enrolled(context), context, number, want, now)
    }

    /// What a request of the context of this row is due.
    fn due_of(&self, row: &Row, context: u32, number: u64, want: Want, now: u64) -> Due
        requires row { (h : List Entry) → StandsFor self.now h → IsRow h context row.now }
        requires settings { HasSettings self.now }
        requires number { number < number_end }
        requires want { IsWish want }
        ensures due { (h : List Entry) → StandsFor self.now h → IsDue h now context number want result }
        ensures may_follow { (h : List Entry) → StandsFor self.now h → IsAddable h result }
    {
        let at = self.moment(now);
        if let Some(time) = row.repeat_time(number) {
            return if at <= time.saturating_add(REPEAT_SPAN) {
                Due::Again
            } else {
                Due::Quiet(Quiet::Late)
            };
        }
        match row.judge(number) {
            Judged::Old => Due::Quiet(Quiet::Old),
            Judged::Taken => Due::Quiet(Quiet::Taken),
            Judged::Fresh => Due::Add(self.due_entry(context, number, want, at, row.id)),
        }
    }
}
