//! Who is owed the keys of the epoch that is spread.
ghost use Rattle.std.specs.Prelude.{◌≡◌, ◌⊎◌, ◌+◌, ◌<◌, ◌≤◌, List, [], ◌∷◌, ◌++◌, Contains, length};
ghost use Rattle.join_history.specs.Summary.{Ascends};
ghost use Rattle.rekey_core.specs.declared.waiter.Waiter.{Waiter};
ghost use Rattle.registrar_state.specs.declared.pledges.LastGrant.{LastGrant as Last};
ghost use Rattle.registrar_state.specs.LastGrants.{IsBefore, AreWaiting, number_of as id_number};

use crate::pledges::{LastGrant, number_of};
use rekey_core::{Holders, UpdateQueue};

/// Adds a pledge to the queue where it is owed the keys of the epoch.
fn add(queue: &mut UpdateQueue, holders: &Holders, last: &LastGrant, epoch: u32)
    requires above { (w : Waiter) → Contains queue.old.waiters w → w.number < id_number last.now.id }
    requires room { length queue.old.waiters < queue.old.limit }
    ensures waiting { (xs : List Last) → AreWaiting xs holders.now epoch queue.old.waiters
        → AreWaiting (xs ++ last.now ∷ []) holders.now epoch queue.new.waiters }
    ensures added { (w : Waiter) → Contains queue.new.waiters w → Contains queue.old.waiters w ⊎ (w.number ≡ id_number last.now.id) }
    ensures few { length queue.new.waiters ≤ length queue.old.waiters + 1 }
    ensures limit { queue.new.limit ≡ queue.old.limit }
{
    let (has, stale) = holders.epochs(last.id);
    if has != epoch && stale != epoch {
        queue.push(number_of(last.id), last.until);
    }
}

/// Fills the queue with the pledges that are owed the keys of the epoch.
pub(crate) fn fill(queue: &mut UpdateQueue, holders: &Holders, grants: &[LastGrant], epoch: u32)
    requires ascend { Ascends IsBefore grants.now }
    requires room { length grants.now ≤ queue.old.limit }
    ensures waiting { AreWaiting grants.now holders.now epoch queue.new.waiters }
    ensures limit { queue.new.limit ≡ queue.old.limit }
{
    queue.clear();
    for place in 0..grants.len() {
        add(queue, holders, &grants[place], epoch);
    }
}
