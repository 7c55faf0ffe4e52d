//! Which entries may follow.
ghost use Rattle.std.specs.Prelude.{◌≡◌, ◌↔◌, ◌≤◌, ◌<◌, ◌^◌, ◌+◌, ℕ, List, length, Some, IsTrue, All, IfSome, MatchOption};
ghost use Rattle.edge_traits.specs.declared.names.PledgeId.{PledgeId as Id};
ghost use Rattle.journal_text.specs.declared.settings.Settings.{Settings as ASettings};
ghost use Rattle.journal_text.specs.declared.entry.Entry.{Entry as AnEntry};
ghost use Rattle.journal_text.specs.declared.entry.Entry.TheVariants.{Enroll, Grant, Refuse, Block};
ghost use Rattle.join_history.specs.Contexts.{HasCheck};
ghost use Rattle.join_history.specs.Decisions.{IsFresh};
ghost use Rattle.join_history.specs.Limits.{block_size, context_limit, number_end, time_end};
ghost use Rattle.join_history.specs.Legal.{IsInRange, IsTimely, IsTrueReason, MayDecide, MayFollow};
ghost use Rattle.join_history.specs.Leases as leases;
ghost use Rattle.join_history.specs.Leases.{current_settings, IsDueAddress, HasNoAddress};
ghost use Rattle.registrar_state.specs.State.{StandsFor, IsNow, IsSome};

use crate::state::RegState;
use edge_traits::PledgeId;
use join_history::{BLOCK_SIZE, CONTEXT_LIMIT, HOURS_LIMIT, NUMBER_END, POOL_END, TIME_END};
use journal_text::{Refusal, Settings};
use replay_window::Judged;

/// The bytes of the registrar's address.
const ADDRESS_BYTES: usize = 16;

/// The bytes of an identifier.
const ID_BYTES: usize = 8;

/// How many pledges may be refused.
const MOST_REFUSED: usize = 16;

/// The seconds of an hour.
const SECONDS_AN_HOUR: u64 = 3600;

/// The second at which a lease of `hours` hours ends, or 2^64 - 1 where it has no end.
pub(crate) fn lease_end(at: u64, hours: u16) -> u64
    requires { at < time_end }
    ensures { result ≡ leases.lease_end at hours }
{
    if hours == 0 {
        u64::MAX
    } else {
        at + SECONDS_AN_HOUR * u64::from(hours)
    }
}

/// Whether the rate has 32 bits, which is known of what is read here.
fn is_rate(rate: Option<u32>) -> bool
    ensures { IsTrue result ↔ IfSome rate (λ n. n < 2 ^ 32) }
{
    match rate {
        None => true,
        Some(_rate) => true,
    }
}

/// Whether the registrar's address has 16 bytes.
fn is_jrc(jrc: Option<[u8; 16]>) -> bool
    ensures { IsTrue result ↔ IfSome jrc (λ address. length address ≡ 16) }
{
    match jrc {
        None => true,
        Some(address) => address.len() == ADDRESS_BYTES,
    }
}

/// Whether the identifier has 8 bytes.
fn is_identifier(id: PledgeId) -> bool
    ensures { IsTrue result ↔ (length id.0 ≡ 8) }
{
    id.0.len() == ID_BYTES
}

/// Whether each of the refused pledges has an identifier of 8 bytes.
fn are_identifiers(ids: &[PledgeId]) -> bool
    ensures { IsTrue result ↔ All (λ p. length p.0 ≡ 8) ids.now }
{
    ids.iter().all(|id| is_identifier(*id))
}

pub(crate) fn is_in_range(settings: &Settings) -> bool
    ensures { IsTrue result ↔ IsInRange settings.now }
{
    1 <= settings.first
        && 1 <= settings.count
        && u32::from(settings.first) + u32::from(settings.count) <= POOL_END
        && settings.hours <= HOURS_LIMIT
        && is_rate(settings.rate)
        && is_jrc(settings.jrc)
        && settings.refused.len() <= MOST_REFUSED
        && are_identifiers(settings.refused.as_slice())
}

/// Whether the time isn't before the last one, and fits 40 bits.
fn is_from(last: u64, time: u64) -> bool
    ensures { IsTrue result ↔ ((last ≤ time) × (time < time_end)) }
{
    last <= time && time < TIME_END
}

/// Whether a Block may bring this end after the old one.
fn is_next_end(old: u64, to: u64) -> bool
    ensures { IsTrue result ↔ ((to ≡ old + block_size) × (to ≤ number_end)) }
{
    to <= NUMBER_END && to == old.saturating_add(BLOCK_SIZE)
}

/// Whether the next context may have this number, where `count` are enrolled.
fn is_next_context(count: usize, context: u32) -> bool
    ensures { IsTrue result ↔ ((context ≡ count) × (context < context_limit)) }
{
    context < CONTEXT_LIMIT && context as usize == count
}

impl RegState {
    pub(crate) fn is_timely(&self, time: u64) -> bool
        ensures { (h : List AnEntry) → StandsFor self.now h → IsTrue result ↔ IsTimely h time }
    {
        is_from(self.time, time)
    }

    /// Whether the number is fresh.
    fn is_fresh(&self, context: u32, number: u64) -> bool
        ensures { (h : List AnEntry) → StandsFor self.now h → IsTrue result ↔ IsFresh h context number }
    {
        match self.row(context) {
            None => true,
            Some(row) => match row.judge(number) {
                Judged::Fresh => true,
                Judged::Taken => false,
                Judged::Old => false,
            },
        }
    }

    /// The pledge and the settings under which a request may be decided, where it may.
    fn deciding(&self, time: u64, context: u32, number: u64) -> Option<(PledgeId, &Settings)>
        requires { IsSome self.now }
        ensures decides { (h : List AnEntry) → StandsFor self.now h → MatchOption result
            ((p : Id) (s : ASettings) → MayDecide h time context number p s → ⊥)
            (λ found. MayDecide h time context number found.0 found.1.now) }
        ensures pool { IfSome result (λ found. (1 ≤ found.1.now.first) × (found.1.now.first + found.1.now.count ≤ 65534)) }
        ensures moment { IfSome result (λ found. (time < time_end) × IsNow self.now time) }
    {
        let pledge = self.pledge_of(context)?;
        let settings = self.settings()?;
        if self.is_timely(time) && number < NUMBER_END && self.is_fresh(context, number) {
            Some((pledge, settings))
        } else {
            None
        }
    }

    fn is_due_address(&self, settings: &Settings, at: u64, pledge: PledgeId, address: u16) -> bool
        requires current { (h : List AnEntry) → StandsFor self.now h → current_settings h ≡ Some settings.now }
        requires pool { (1 ≤ settings.now.first) × (settings.now.first + settings.now.count ≤ 65534) }
        requires moment { IsNow self.now at }
        ensures { (h : List AnEntry) → StandsFor self.now h → IsTrue result ↔ IsDueAddress h at pledge address }
    {
        self.due_address(settings, at, pledge) == Some(address)
    }

    fn has_no_address(&self, settings: &Settings, at: u64, pledge: PledgeId) -> bool
        requires current { (h : List AnEntry) → StandsFor self.now h → current_settings h ≡ Some settings.now }
        requires pool { (1 ≤ settings.now.first) × (settings.now.first + settings.now.count ≤ 65534) }
        requires moment { IsNow self.now at }
        ensures { (h : List AnEntry) → StandsFor self.now h → IsTrue result ↔ HasNoAddress h at pledge }
    {
        self.due_address(settings, at, pledge).is_none()
    }

    pub(crate) fn may_grant(
        &self,
        time: u64,
        context: u32,
        number: u64,
        address: u16,
        until: u64,
    ) -> bool
        requires { IsSome self.now }
        ensures { (h : List AnEntry) → StandsFor self.now h → IsTrue result ↔ MayFollow h (Grant time context number address until) }
    {
        match self.deciding(time, context, number) {
            Some((pledge, settings)) => {
                until == lease_end(time, settings.hours)
                    && self.is_due_address(settings, time, pledge, address)
            }
            None => false,
        }
    }

    fn is_true_reason(&self, settings: &Settings, at: u64, pledge: PledgeId, why: Refusal) -> bool
        requires current { (h : List AnEntry) → StandsFor self.now h → current_settings h ≡ Some settings.now }
        requires pool { (1 ≤ settings.now.first) × (settings.now.first + settings.now.count ≤ 65534) }
        requires moment { IsNow self.now at }
        ensures { (h : List AnEntry) → StandsFor self.now h → IsTrue result ↔ IsTrueReason h at pledge why }
    {
        match why {
            Refusal::NoAddress => self.has_no_address(settings, at, pledge),
            _ => why.is_reason(),
        }
    }

    pub(crate) fn may_refuse(&self, time: u64, context: u32, number: u64, why: Refusal) -> bool
        requires { IsSome self.now }
        ensures { (h : List AnEntry) → StandsFor self.now h → IsTrue result ↔ MayFollow h (Refuse time context number why) }
    {
        match self.deciding(time, context, number) {
            Some((pledge, settings)) => self.is_true_reason(settings, time, pledge, why),
            None => false,
        }
    }

    pub(crate) fn may_block(&self, context: u32, to: u64) -> bool
        ensures { (h : List AnEntry) → StandsFor self.now h → IsTrue result ↔ MayFollow h (Block context to) }
    {
        match self.row(context) {
            None => false,
            Some(row) => is_next_end(row.end, to),
        }
    }

    pub(crate) fn may_enroll(&self, context: u32, id: PledgeId, check: &[u8; 32]) -> bool
        ensures { (h : List AnEntry) → StandsFor self.now h → IsTrue result ↔ MayFollow h (Enroll context id check.now) }
    {
        is_next_context(self.contexts.len(), context) && self.is_new_check(check)
    }

    /// Whether no context has the check.
    fn is_new_check(&self, check: &[u8; 32]) -> bool
        ensures { (h : List AnEntry) → StandsFor self.now h → IsTrue result ↔ (HasCheck h check.now → ⊥) }
    {
        self.contexts.find(check).is_none()
    }
}
