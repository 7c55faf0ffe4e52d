//! The last Grant of each pledge, and who has which epoch.
ghost use Rattle.std.specs.Prelude.{◌≡◌, ◌+◌, ◌<◌, ◌≤◌, length, vec_len, vec_capacity, MatchResult};
ghost use Rattle.std.specs.Int.{w64, from_be_bytes, to_be_bytes};
ghost use Rattle.join_history.specs.Summary.{Ascends};
ghost use Rattle.registrar_state.specs.LastGrants.{IsBefore, IsPlaceOf, IsGapFor, unheld};

use crate::owed::fill;
use edge_traits::{NoMemory, PledgeId};
use journal_text::SumNode;
use rekey_core::{Holders, UpdateQueue};
use std::alloc::Global;

/// The last Grant of a pledge: its context, and its address and end, both 0 once it was released.
#[derive(Clone, Copy, Debug, PartialEq, Eq)]
pub(crate) struct LastGrant {
    pub id: PledgeId,
    pub context: u32,
    pub address: u16,
    pub until: u64,
}

/// The pledges that had a Grant, in order of identifier, who has which epoch, and who is owed the
/// keys of the epoch that is spread.
#[derive(Drop)]
pub(crate) struct Pledges {
    grants: Vec<LastGrant>,
    holders: Holders,
    queue: UpdateQueue,
    room: u32,
    ghost reserved: { vec_len grants + room ≤ vec_capacity grants },
    ghost held: { unheld holders grants.items + room ≤ holders.room },
    ghost queued: { length grants.items + room ≤ queue.limit },
}

impl Pledges {
    ghost use Rattle.registrar_state.specs.declared.pledges.LastGrant.{LastGrant as Last};
    ghost use Rattle.std.specs.Prelude.{◌↔◌, ℕ, List, [], ◌∷◌, ◌++◌, Some, None, Any, IsTrue, IfOk, MatchOption, map};
    ghost use Rattle.key_sets.specs.declared.set.KeySet.{KeySet};
    ghost use Rattle.key_sets.specs.Keys.{epoch_of};
    ghost use Rattle.edge_traits.specs.declared.names.PledgeId.{PledgeId as Id};
    ghost use Rattle.journal_text.specs.declared.entry.Entry.{Entry};
    ghost use Rattle.journal_text.specs.declared.entry.Entry.TheVariants as entry;
    ghost use Rattle.join_history.specs.Times.{last_time};
    ghost use Rattle.join_history.specs.Contexts.{pledge_of};
    ghost use Rattle.join_history.specs.Leases.{IsGrantTo, IsLive};
    ghost use Rattle.join_history.specs.Phases.{phase, IsSpreading};
    ghost use Rattle.join_history.specs.Epochs.{Has, IsStaleFor};
    ghost use Rattle.join_history.specs.Legal.{IsLegal, MayFollow};
    ghost use Rattle.join_history.specs.Updates.{Waits, IsFirstWaiting};
    ghost use Rattle.rekey_core.specs.Held.{known_of, epochs_of, Sets};
    ghost use Rattle.join_history.specs.Summary.{IsNodeBefore};
    ghost use Rattle.registrar_state.specs.Restore.{AreSumNodes};
    ghost use Rattle.registrar_state.specs.Restore.{last_in, RestoresAll};
    ghost use Rattle.registrar_state.specs.LastGrants.{IsLastGrant, IsNewIn, Replaces};
    ghost use Rattle.registrar_state.specs.Pledges.{KnowPledges, KnowGrants, KnowsBefore, room_of, limit_of, capacity_of, IsNewPledge};

    /// No pledge had a Grant, and there is room for `pledges` of them.
    pub(crate) fn empty(alloc: Global, pledges: u32) -> Result<Pledges, NoMemory>
        ensures empty { IfOk result (λ made. KnowPledges [] made) }
        ensures room { IfOk result (λ made. room_of made ≡ pledges) }
        ensures limit { IfOk result (λ made. limit_of made ≡ pledges) }
    {
        let made = Pledges::make(alloc, pledges)?;
        Ok(made)
    }

    fn make(alloc: Global, pledges: u32) -> Result<Pledges, NoMemory>
        ensures none { IfOk result (λ made. made.grants.items ≡ []) }
        ensures unknown { IfOk result (λ made. (p : Id) → known_of made.holders p ≡ None) }
        ensures queue { IfOk result (λ made. made.queue.waiters ≡ []) }
        ensures room { IfOk result (λ made. made.room ≡ pledges) }
    {
        let queue = UpdateQueue::empty(alloc, pledges)?;
        match Holders::empty(alloc, pledges) {
            Ok(holders) => Ok(Pledges {
                grants: Vec::with_capacity(alloc, pledges as usize)?,
                holders,
                queue,
                room: pledges,
            }),
            Err(_) => Err(NoMemory),
        }
    }

    /// The pledges of the nodes of a summary, with room for pledges up to `pledges` in all. None is
    /// in the queue yet.
    pub(crate) fn of_nodes(
        alloc: Global,
        nodes: &[SumNode],
        pledges: u32,
    ) -> Result<Pledges, NoMemory>
        requires { Ascends IsNodeBefore nodes.now }
        ensures know { IfOk result (λ made. (h : List Entry) → IsLegal h → AreSumNodes h nodes.now → KnowGrants h made) }
        ensures ascend { IfOk result (λ made. Ascends IsBefore made.grants.items) }
        ensures limit { IfOk result (λ made. pledges ≤ limit_of made) }
    {
        if nodes.len() > u32::MAX as usize {
            return Err(NoMemory);
        }
        let mut made = Pledges::make(alloc, pledges.max(nodes.len() as u32))?;
        made.add_nodes(nodes);
        Ok(made)
    }

    /// Adds nodes whose pledges aren't there yet.
    fn add_nodes(&mut self, nodes: &[SumNode])
        requires { length nodes.now ≤ self.old.room }
        ensures grants { self.new.grants.items ≡ self.old.grants.items ++ map last_in nodes.now }
        ensures epochs { RestoresAll self.old.holders nodes.now self.new.holders }
        ensures limit { limit_of self.new ≡ limit_of self.old }
    {
        let mut rest = nodes;
        while let [node, after @ ..] = rest {
            self.add_node(node);
            rest = after;
        }
    }

    fn add_node(&mut self, node: &SumNode)
        requires { 0 < self.old.room }
        ensures grants { self.new.grants.items ≡ self.old.grants.items ++ last_in node.now ∷ [] }
        ensures epochs { Sets node.now.id (record { has = node.now.has; stale = node.now.stale }) self.old.holders self.new.holders }
        ensures room { self.new.room + 1 ≡ self.old.room }
        ensures limit { limit_of self.new ≡ limit_of self.old }
    {
        self.holders.restore(node.id, node.has, node.stale);
        self.grants.push_reserved(LastGrant {
            id: node.id,
            context: node.context,
            address: node.address,
            until: node.until,
        });
        self.room -= 1;
    }

    /// The last Grants, in order of identifier.
    pub(crate) fn last_grants(&self) -> &[LastGrant]
        ensures { result.now ≡ self.now.grants.items }
    {
        self.grants.as_slice()
    }

    /// The greatest epoch of which the pledge has the keys and the greatest for which it is stale.
    pub(crate) fn epochs(&self, id: PledgeId) -> (u32, u32)
        ensures { (result.0 ≡ (epochs_of self.now.holders id).has) × (result.1 ≡ (epochs_of self.now.holders id).stale) }
    {
        self.holders.epochs(id)
    }

    /// Whether the pledge has the keys of the epoch that is spread.
    pub(crate) fn has(&self, id: PledgeId, epoch: u32) -> bool
        ensures { (h : List Entry) → IsLegal h → KnowPledges h self.now → IsSpreading (phase h) epoch
            → IsTrue result ↔ Has h id epoch }
    {
        self.holders.epochs(id).0 == epoch
    }

    /// Whether the pledge is stale for the epoch that is spread.
    pub(crate) fn is_stale(&self, id: PledgeId, epoch: u32) -> bool
        ensures { (h : List Entry) → IsLegal h → KnowPledges h self.now → IsSpreading (phase h) epoch
            → IsTrue result ↔ IsStaleFor h id epoch }
    {
        self.holders.epochs(id).1 == epoch
    }

    /// The last Grant of the pledge.
    pub(crate) fn last_grant(&self, id: PledgeId) -> Option<LastGrant>
        ensures { (h : List Entry) → KnowPledges h self.now
            → MatchOption result (Any (IsGrantTo h id) h → ⊥) (λ x. IsLastGrant h x × (x.id ≡ id)) }
    {
        match find(&self.grants, id) {
            Ok(place) => Some(self.grants[place]),
            Err(_) => None,
        }
    }

    /// Whether the pledge is live.
    pub(crate) fn is_live(&self, id: PledgeId, now: u64) -> bool
        ensures { (h : List Entry) → IsLegal h → KnowPledges h self.now → IsTrue result ↔ ((a : ℕ) × IsLive h now id a) }
    {
        match self.last_grant(id) {
            Some(last) => now < last.until,
            None => false,
        }
    }

    /// Whether the pledge is live and hasn't the keys of the epoch that is spread.
    pub(crate) fn lacks(&self, id: PledgeId, epoch: u32, now: u64) -> bool
        ensures { (h : List Entry) → IsLegal h → KnowPledges h self.now → IsSpreading (phase h) epoch
            → IsTrue result ↔ (((a : ℕ) × IsLive h now id a) × (Has h id epoch → ⊥)) }
    {
        self.is_live(id, now) && !self.has(id, epoch)
    }

    /// Whether the pledge waits for the keys of the epoch that is spread.
    pub(crate) fn waits(&self, id: PledgeId, epoch: u32, now: u64) -> bool
        ensures { (h : List Entry) → IsLegal h → KnowPledges h self.now → IsSpreading (phase h) epoch
            → IsTrue result ↔ Waits h now id epoch }
    {
        self.lacks(id, epoch, now) && !self.is_stale(id, epoch)
    }

    /// The first pledge, in the order of identifiers, that waits for the keys of the epoch that is
    /// spread.
    pub(crate) fn first_waiting(&self, now: u64) -> Option<PledgeId>
        ensures { (h : List Entry) (epoch : ℕ) → IsLegal h → KnowPledges h self.now → IsSpreading (phase h) epoch → last_time h ≤ now
            → MatchOption result ((p : Id) → Waits h now p epoch → ⊥) (IsFirstWaiting h now) }
    {
        match self.queue.first_after(now) {
            Some(number) => Some(PledgeId(number.to_be_bytes())),
            None => None,
        }
    }

    /// A Roll of the epoch follows: from now on each pledge may wait. It takes linear time.
    pub(crate) fn roll(&mut self, epoch: u32)
        requires { (h : List Entry) × KnowPledges h self.old }
        ensures know { (h : List Entry) (time : ℕ) (set : KeySet) → KnowsBefore self.old h (entry.Roll time set) → epoch ≡ set.epoch
            → KnowPledges (h ++ entry.Roll time set ∷ []) self.new }
        ensures room { room_of self.new ≡ room_of self.old }
        ensures limit { limit_of self.new ≡ limit_of self.old }
        ensures memory { capacity_of self.new ≡ capacity_of self.old }
    {
        fill(&mut self.queue, &self.holders, &self.grants, epoch);
    }

    /// Puts those that are owed the keys of the epoch that is spread into the queue.
    pub(crate) fn spread(&mut self, epoch: Option<u32>)
        requires { Ascends IsBefore self.old.grants.items }
        ensures know { (h : List Entry) → MatchOption epoch ((e : ℕ) → IsSpreading (phase h) e → ⊥) (IsSpreading (phase h))
            → KnowGrants h self.old → KnowPledges h self.new }
        ensures limit { limit_of self.new ≡ limit_of self.old }
    {
        match epoch {
            Some(epoch) => fill(&mut self.queue, &self.holders, &self.grants, epoch),
            None => {},
        }
    }

    /// The pledge answered an update of the epoch.
    pub(crate) fn give(&mut self, id: PledgeId, epoch: u32)
        requires { (h : List Entry) × (time context number : ℕ) × KnowsBefore self.old h (entry.Given time context number epoch)
            × (pledge_of h context ≡ Some id) }
        ensures know { (h : List Entry) (time context number : ℕ) → KnowsBefore self.old h (entry.Given time context number epoch)
            → pledge_of h context ≡ Some id → KnowPledges (h ++ entry.Given time context number epoch ∷ []) self.new }
        ensures room { room_of self.new ≡ room_of self.old }
        ensures limit { limit_of self.new ≡ limit_of self.old }
        ensures memory { capacity_of self.new ≡ capacity_of self.old }
    {
        self.holders.given(id, epoch);
        self.queue.remove(number_of(id));
    }

    /// The pledge is stale for the epoch.
    pub(crate) fn mark_stale(&mut self, id: PledgeId, epoch: u32)
        requires { (h : List Entry) × (time : ℕ) × KnowsBefore self.old h (entry.Stale time id epoch) }
        ensures know { (h : List Entry) (time : ℕ) → KnowsBefore self.old h (entry.Stale time id epoch)
            → KnowPledges (h ++ entry.Stale time id epoch ∷ []) self.new }
        ensures room { room_of self.new ≡ room_of self.old }
        ensures limit { limit_of self.new ≡ limit_of self.old }
        ensures memory { capacity_of self.new ≡ capacity_of self.old }
    {
        self.holders.stale(id, epoch);
        self.queue.remove(number_of(id));
    }

    /// An address was granted to the pledge, under this context, while this was the newest epoch.
    /// There is room where the pledge is new.
    pub(crate) fn grant(&mut self, id: PledgeId, context: u32, address: u16, until: u64, epoch: u32)
        requires known { (h : List Entry) × (time number : ℕ) × KnowsBefore self.old h (entry.Grant time context number address until)
            × (pledge_of h context ≡ Some id) × (epoch ≡ epoch_of (phase h)) }
        requires room { IsNewPledge self.old id → 0 < room_of self.old }
        ensures know { (h : List Entry) (time number : ℕ) → KnowsBefore self.old h (entry.Grant time context number address until)
            → pledge_of h context ≡ Some id → epoch ≡ epoch_of (phase h)
            → KnowPledges (h ++ entry.Grant time context number address until ∷ []) self.new }
        ensures limit { limit_of self.new ≡ limit_of self.old }
        ensures memory { capacity_of self.new ≡ capacity_of self.old }
    {
        self.put(LastGrant {
            id,
            context,
            address,
            until,
        });
        self.queue.remove(number_of(id));
        if epoch > 0 {
            self.holders.granted(id, epoch);
        }
    }

    /// The pledge was released.
    pub(crate) fn release(&mut self, id: PledgeId)
        requires { (h : List Entry) × (time : ℕ) × KnowsBefore self.old h (entry.Release time id) }
        ensures know { (h : List Entry) (time : ℕ) → KnowsBefore self.old h (entry.Release time id)
            → KnowPledges (h ++ entry.Release time id ∷ []) self.new }
        ensures limit { limit_of self.new ≡ limit_of self.old }
        ensures memory { capacity_of self.new ≡ capacity_of self.old }
    {
        match self.last_grant(id) {
            Some(last) => {
                self.put(LastGrant {
                    id,
                    context: last.context,
                    address: 0,
                    until: 0,
                });
                self.queue.remove(number_of(id));
            },
            None => {},
        }
    }

    /// Puts in a last Grant.
    fn put(&mut self, last: LastGrant)
        requires ascend { Ascends IsBefore self.old.grants.items }
        requires room { IsNewIn self.old.grants.items last.id → 0 < self.old.room }
        ensures replaces { Replaces self.old.grants.items self.new.grants.items last }
        ensures holders { self.new.holders ≡ self.old.holders }
        ensures queue { self.new.queue ≡ self.old.queue }
        ensures limit { length self.new.grants.items + self.new.room ≡ length self.old.grants.items + self.old.room }
        ensures memory { vec_capacity self.new.grants ≡ vec_capacity self.old.grants }
    {
        match find(&self.grants, last.id) {
            Ok(place) => self.grants[place] = last,
            Err(place) => {
                self.room -= 1;
                match self.grants.insert(place, last) {
                    Ok(()) => {},
                    Err(_) => unreachable!(),
                }
            },
        }
    }
}

/// The identifier as a number.
pub(crate) fn number_of(id: PledgeId) -> u64
    ensures number { result ≡ from_be_bytes w64 id.0 }
    ensures id { to_be_bytes w64 result ≡ id.0 }
{
    u64::from_be_bytes(id.0)
}

/// The place of the pledge, or else the place that it would have.
fn find(grants: &[LastGrant], id: PledgeId) -> Result<usize, usize>
    ensures place { MatchResult result (λ i. i < length grants.now) (λ i. i ≤ length grants.now) }
    ensures finds { Ascends IsBefore grants.now → MatchResult result (IsPlaceOf grants.now id) (IsGapFor grants.now id) }
{
    let number = number_of(id);
    let place = grants.partition_point(|x| number_of(x.id) < number);
    match grants.get(place) {
        Some(x) => if number_of(x.id) == number {
            Ok(place)
        } else {
            Err(place)
        },
        None => Err(place),
    }
}
