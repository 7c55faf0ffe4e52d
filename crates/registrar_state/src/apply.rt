//! Adding an entry.
ghost use Rattle.std.specs.Prelude.{◌≡◌, ◌<◌, ◌≤◌, ◌++◌, ◌∷◌, [], ℕ, List, Some};
ghost use Rattle.edge_traits.specs.declared.names.PledgeId.{PledgeId as Id};
ghost use Rattle.journal_text.specs.declared.entry.Entry.{Entry as AnEntry};
ghost use Rattle.journal_text.specs.declared.entry.Entry.TheVariants as entry;
ghost use Rattle.join_history.specs.Contexts.{pledge_of};
ghost use Rattle.registrar_state.specs.Room.{HasRoomFor, TakesRoom, TakesContext, TakesEntry};
ghost use Rattle.journal_text.specs.declared.settings.Settings.{Settings as ASettings};
ghost use Rattle.join_history.specs.Leases.{current_settings};
ghost use Rattle.join_history.specs.Phases.{phase};
ghost use Rattle.join_history.specs.Answers as spec;
ghost use Rattle.registrar_state.specs.State.{StandsFor, spare_room, reserved_of, CanFollow, HasSettings, IsSome};

use crate::answer::{grant_answer, refusal_answer};
use crate::contexts::LastRequest;
use crate::keys::{rolled, switched};
use crate::last::Last;
use crate::state::RegState;
use arrayvec::ArrayVec;
use edge_traits::PledgeId;
use journal_text::{Entry, Refusal, Settings};
use key_sets::KeySet;

impl RegState {
    /// Adds the entry.
    pub fn apply(&mut self, entry: &Entry)
        requires may_follow { CanFollow self.old entry.now }
        requires room { HasRoomFor (spare_room self.old) entry.now }
        ensures stands { (h : List AnEntry) → StandsFor self.old h → StandsFor self.new (h ++ entry.now ∷ []) }
        ensures room { TakesRoom (spare_room self.old) (spare_room self.new) entry.now }
        ensures memory { reserved_of self.new ≡ reserved_of self.old }
    {
        self.add(entry);
        self.settle();
    }

    /// Adds the entry to what it changes.
    fn add(&mut self, entry: &Entry)
        requires may { CanFollow self.old entry.now }
        requires room { HasRoomFor (spare_room self.old) entry.now }
        ensures stands { (h : List AnEntry) → StandsFor self.old h → StandsFor self.new (h ++ entry.now ∷ []) }
        ensures room { TakesRoom (spare_room self.old) (spare_room self.new) entry.now }
        ensures memory { reserved_of self.new ≡ reserved_of self.old }
    {
        match entry {
            Entry::Settings { time, settings } => self.add_settings(*time, settings),
            Entry::Enroll { context, id, check } => self.add_context(*context, *id, *check),
            Entry::Grant {
                time,
                context,
                number,
                address,
                until,
            } => {
                let pledge = self.pledge_of(*context).unwrap();
                self.add_grant(*time, *context, *number, *address, *until, pledge);
            }
            Entry::Refuse {
                time,
                context,
                number,
                why,
            } => self.add_refusal(*time, *context, *number, *why),
            Entry::Block { context, to } => self.add_block(*context, *to),
            Entry::Roll { time, set } => self.add_roll(*time, set),
            Entry::Given {
                time,
                context,
                number,
                epoch,
            } => {
                let pledge = self.pledge_of(*context).unwrap();
                self.add_given(*time, *context, *number, *epoch, pledge);
            }
            Entry::Stale { time, id, epoch } => self.add_stale(*time, *id, *epoch),
            Entry::Switch { time, epoch } => self.add_switch(*time, *epoch),
            Entry::Release { time, id } => self.add_release(*time, *id),
        }
    }

    /// Forgets the leases that are over at the last time.
    #[tactic(auto, unfolding(crate::specs::State::spare_room, crate::specs::State::reserved_of))]
    fn settle(&mut self)
        requires { IsSome self.old }
        ensures stands { (h : List AnEntry) → StandsFor self.old h → StandsFor self.new h }
        ensures room { spare_room self.new ≡ spare_room self.old }
        ensures memory { reserved_of self.new ≡ reserved_of self.old }
    {
        self.leases.pass(self.time);
    }

    /// Adds settings.
    #[tactic(auto, unfolding(crate::specs::State::spare_room, crate::specs::State::reserved_of))]
    fn add_settings(&mut self, time: u64, settings: &Settings)
        requires may { CanFollow self.old (entry.Settings time settings.now) }
        requires room { 0 < (spare_room self.old).entries }
        ensures stands { (h : List AnEntry) → StandsFor self.old h → StandsFor self.new (h ++ entry.Settings time settings.now ∷ []) }
        ensures room { TakesEntry (spare_room self.old) (spare_room self.new) }
        ensures memory { reserved_of self.new ≡ reserved_of self.old }
    {
        self.settings = Some((time, settings.clone().unwrap()));
        self.time = time;
        self.room.entries -= 1;
    }

    /// Adds the next context.
    #[tactic(auto, unfolding(crate::specs::State::spare_room, crate::specs::State::reserved_of))]
    fn add_context(&mut self, context: u32, id: PledgeId, check: [u8; 32])
        requires may { CanFollow self.old (entry.Enroll context id check) }
        requires room { 0 < (spare_room self.old).contexts }
        ensures stands { (h : List AnEntry) → StandsFor self.old h → StandsFor self.new (h ++ entry.Enroll context id check ∷ []) }
        ensures room { TakesContext (spare_room self.old) (spare_room self.new) }
        ensures memory { reserved_of self.new ≡ reserved_of self.old }
    {
        self.contexts.enroll(id, check);
        self.room.contexts -= 1;
    }

    /// Adds a Block.
    #[tactic(auto, unfolding(crate::specs::State::spare_room, crate::specs::State::reserved_of))]
    fn add_block(&mut self, context: u32, to: u64)
        requires may { CanFollow self.old (entry.Block context to) }
        requires room { 0 < (spare_room self.old).entries }
        ensures stands { (h : List AnEntry) → StandsFor self.old h → StandsFor self.new (h ++ entry.Block context to ∷ []) }
        ensures room { TakesEntry (spare_room self.old) (spare_room self.new) }
        ensures memory { reserved_of self.new ≡ reserved_of self.old }
    {
        self.contexts.set_end(context, to);
        self.room.entries -= 1;
    }

    /// Adds a refusal.
    #[tactic(auto, unfolding(crate::specs::State::spare_room, crate::specs::State::reserved_of))]
    fn add_refusal(&mut self, time: u64, context: u32, number: u64, why: Refusal)
        requires may { CanFollow self.old (entry.Refuse time context number why) }
        requires room { 0 < (spare_room self.old).entries }
        ensures stands { (h : List AnEntry) → StandsFor self.old h → StandsFor self.new (h ++ entry.Refuse time context number why ∷ []) }
        ensures room { TakesEntry (spare_room self.old) (spare_room self.new) }
        ensures memory { reserved_of self.new ≡ reserved_of self.old }
    {
        self.contexts.decide(
            context,
            LastRequest {
                number,
                time,
                told: Last::Refuse(why.code()),
                answer: refusal_answer(why),
            },
        );
        self.time = time;
        self.room.entries -= 1;
    }

    /// Adds a Grant.
    #[tactic(auto, unfolding(crate::specs::State::spare_room, crate::specs::State::reserved_of))]
    fn add_grant(
        &mut self,
        time: u64,
        context: u32,
        number: u64,
        address: u16,
        until: u64,
        pledge: PledgeId,
    )
        requires may { CanFollow self.old (entry.Grant time context number address until) }
        requires pledge { (h : List AnEntry) → StandsFor self.old h → pledge_of h context ≡ Some pledge }
        requires room { 0 < (spare_room self.old).entries }
        ensures stands { (h : List AnEntry) → StandsFor self.old h → StandsFor self.new (h ++ entry.Grant time context number address until ∷ []) }
        ensures room { TakesEntry (spare_room self.old) (spare_room self.new) }
        ensures memory { reserved_of self.new ≡ reserved_of self.old }
    {
        let answer = self.granted_answer(address);
        self.contexts.decide(
            context,
            LastRequest {
                number,
                time,
                told: Last::Grant(address, until),
                answer,
            },
        );
        self.leases.pass(time);
        self.leases.grant(pledge, address, until);
        self.pledges
            .grant(pledge, context, address, until, self.phase.epoch());
        self.time = time;
        self.room.entries -= 1;
    }

    /// The inner answer of a Grant of the address that follows.
    fn granted_answer(&self, address: u16) -> ArrayVec<u8, 512>
        requires settings { HasSettings self.now }
        requires address { (1 ≤ address) × (address ≤ 65533) }
        ensures { (h : List AnEntry) (s : ASettings) → StandsFor self.now h → current_settings h ≡ Some s → result.items ≡ spec.grant_answer (phase h) s address }
    {
        grant_answer(&self.phase, self.settings().unwrap(), address)
    }

    /// Adds a Roll.
    #[tactic(auto, unfolding(crate::specs::State::spare_room, crate::specs::State::reserved_of))]
    fn add_roll(&mut self, time: u64, set: &KeySet)
        requires may { CanFollow self.old (entry.Roll time set.now) }
        requires room { 0 < (spare_room self.old).entries }
        ensures stands { (h : List AnEntry) → StandsFor self.old h → StandsFor self.new (h ++ entry.Roll time set.now ∷ []) }
        ensures room { TakesEntry (spare_room self.old) (spare_room self.new) }
        ensures memory { reserved_of self.new ≡ reserved_of self.old }
    {
        self.phase = rolled(&self.phase, set);
        self.pledges.roll(set.epoch);
        self.time = time;
        self.room.entries -= 1;
    }

    /// Adds a Given, of a context of the pledge.
    #[tactic(auto, unfolding(crate::specs::State::spare_room, crate::specs::State::reserved_of))]
    fn add_given(&mut self, time: u64, context: u32, number: u64, epoch: u32, pledge: PledgeId)
        requires may { CanFollow self.old (entry.Given time context number epoch) }
        requires pledge { (h : List AnEntry) → StandsFor self.old h → pledge_of h context ≡ Some pledge }
        requires room { 0 < (spare_room self.old).entries }
        ensures stands { (h : List AnEntry) → StandsFor self.old h → StandsFor self.new (h ++ entry.Given time context number epoch ∷ []) }
        ensures room { TakesEntry (spare_room self.old) (spare_room self.new) }
        ensures memory { reserved_of self.new ≡ reserved_of self.old }
    {
        self.pledges.give(pledge, epoch);
        self.time = time;
        self.room.entries -= 1;
    }

    /// Adds a Stale.
    #[tactic(auto, unfolding(crate::specs::State::spare_room, crate::specs::State::reserved_of))]
    fn add_stale(&mut self, time: u64, pledge: PledgeId, epoch: u32)
        requires may { CanFollow self.old (entry.Stale time pledge epoch) }
        requires room { 0 < (spare_room self.old).entries }
        ensures stands { (h : List AnEntry) → StandsFor self.old h → StandsFor self.new (h ++ entry.Stale time pledge epoch ∷ []) }
        ensures room { TakesEntry (spare_room self.old) (spare_room self.new) }
        ensures memory { reserved_of self.new ≡ reserved_of self.old }
    {
        self.pledges.mark_stale(pledge, epoch);
        self.time = time;
        self.room.entries -= 1;
    }

    /// Adds a Switch.
    #[tactic(auto, unfolding(crate::specs::State::spare_room, crate::specs::State::reserved_of))]
    fn add_switch(&mut self, time: u64, epoch: u32)
        requires may { CanFollow self.old (entry.Switch time epoch) }
        requires room { 0 < (spare_room self.old).entries }
        ensures stands { (h : List AnEntry) → StandsFor self.old h → StandsFor self.new (h ++ entry.Switch time epoch ∷ []) }
        ensures room { TakesEntry (spare_room self.old) (spare_room self.new) }
        ensures memory { reserved_of self.new ≡ reserved_of self.old }
    {
        self.phase = switched(&self.phase);
        self.time = time;
        self.room.entries -= 1;
    }

    /// Adds a Release.
    #[tactic(auto, unfolding(crate::specs::State::spare_room, crate::specs::State::reserved_of))]
    fn add_release(&mut self, time: u64, pledge: PledgeId)
        requires may { CanFollow self.old (entry.Release time pledge) }
        requires room { 0 < (spare_room self.old).entries }
        ensures stands { (h : List AnEntry) → StandsFor self.old h → StandsFor self.new (h ++ entry.Release time pledge ∷ []) }
        ensures room { TakesEntry (spare_room self.old) (spare_room self.new) }
        ensures memory { reserved_of self.new ≡ reserved_of self.old }
    {
        self.leases.release(pledge);
        self.pledges.release(pledge);
        self.time = time;
        self.room.entries -= 1;
    }
}
