//! Three pledges over a roll of the keys, what a grant does to a stale pledge, and three pledges in
//! the queue.
ghost use Rattle.std.specs.Prelude.{◌+◌, ◌<◌, ◌≤◌, ◌↔◌, IsTrue, IfOk};
ghost use Rattle.rekey_core.specs.Held.{IsLatest};

use crate::holders::Holders;
use crate::queue::UpdateQueue;
use edge_traits::{NoMemory, PledgeId};
use std::alloc::Global;
use std::test::Fail;

fn pledge(last: u8) -> PledgeId {
    PledgeId([0, 0, 0, 0, 0, 0, 0, last])
}

#[derive(Clone, Copy)]
enum Kind {
    Granted,
    Given,
    Stale,
}

fn is_latest(holders: &Holders, id: PledgeId, epoch: u32) -> bool
    ensures { IsTrue result ↔ IsLatest holders.now id epoch }
{
    let (has, stale) = holders.epochs(id);
    1 <= epoch && has <= epoch && stale <= epoch
}

/// Writes where the epoch is not below those of the pledge.
fn write(holders: &mut Holders, kind: Kind, id: PledgeId, epoch: u32)
    requires { 0 < holders.old.room }
    ensures { holders.old.room ≤ holders.new.room + 1 }
{
    if is_latest(holders, id, epoch) {
        match kind {
            Kind::Granted => holders.granted(id, epoch),
            Kind::Given => holders.given(id, epoch),
            Kind::Stale => holders.stale(id, epoch),
        }
    }
}

/// Whether the pledge has the epoch, is stale for it, and is ready for it.
fn answers(holders: &Holders, id: PledgeId, epoch: u32) -> Option<(bool, bool, bool)> {
    if is_latest(holders, id, epoch) {
        Some((
            holders.has(id, epoch),
            holders.is_stale(id, epoch),
            holders.ready(id, epoch),
        ))
    } else {
        None
    }
}

#[test]
fn two_of_three_are_ready_and_the_third_once_it_is_stale(rt: HostRuntime) -> Result<(), Fail> {
    let mut holders = Holders::empty(rt.alloc(), 20)?;
    let [a1, a2, a3] = [pledge(0xa1), pledge(0xa2), pledge(0xa3)];
    write(&mut holders, Kind::Granted, a1, 1);
    write(&mut holders, Kind::Granted, a2, 1);
    write(&mut holders, Kind::Granted, a3, 1);
    write(&mut holders, Kind::Given, a1, 2);
    write(&mut holders, Kind::Granted, a2, 2);
    assert_eq!(rt; answers(&holders, a1, 2), Some((true, false, true)));
    assert_eq!(rt; answers(&holders, a2, 2), Some((true, false, true)));
    assert_eq!(rt; answers(&holders, a3, 2), Some((false, false, false)));
    write(&mut holders, Kind::Stale, a3, 2);
    assert_eq!(rt; answers(&holders, a3, 2), Some((false, true, true)));
    assert_eq!(rt; holders.epochs(a3), (1, 2));
    write(&mut holders, Kind::Granted, a3, 2);
    assert_eq!(rt; answers(&holders, a3, 2), Some((true, false, true)));
    assert_eq!(rt; holders.epochs(a3), (2, 0));
    assert_eq!(rt; holders.epochs(pledge(0xa4)), (0, 0));
    assert_eq!(rt; answers(&holders, a3, 3), Some((false, false, false)));
    Ok(())
}

/// A queue of three pledges, of which the second has the longest lease.
fn three_waiters(alloc: Global) -> Result<UpdateQueue, NoMemory>
    ensures { IfOk result (λ q. 3 ≤ q.limit) }
{
    let mut queue = UpdateQueue::empty(alloc, 3)?;
    queue.push(3, 50);
    queue.push(5, 200);
    queue.push(9, 100);
    Ok(queue)
}

#[test]
fn the_first_whose_lease_goes_on_is_found(rt: HostRuntime) -> Result<(), Fail> {
    let mut queue = three_waiters(rt.alloc())?;
    assert_eq!(rt; queue.first_after(49), Some(3));
    assert_eq!(rt; queue.first_after(50), Some(5));
    assert_eq!(rt; queue.first_after(200), None);
    queue.remove(5);
    queue.remove(6);
    assert_eq!(rt; queue.first_after(49), Some(3));
    assert_eq!(rt; queue.first_after(50), Some(9));
    assert_eq!(rt; queue.first_after(100), None);
    queue.clear();
    assert_eq!(rt; queue.first_after(0), None);
    queue.push(1, 7);
    assert_eq!(rt; queue.first_after(6), Some(1));
    Ok(())
}
