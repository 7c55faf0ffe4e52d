//! The indices beside the plain lists, and grants at the edges of their time.
ghost use Rattle.std.specs.Prelude.{◌≡◌, ◌+◌, ◌^◌, ◌<◌, ◌≤◌, length};

use crate::leases::Leases;
use crate::plain::Plain;
use edge_traits::{NoMemory, PledgeId};
use std::alloc::Global;
use std::test::Fail;

/// How many grants fit in the tests.
const ROOM: u32 = 100_000;

fn pledge(number: u64) -> PledgeId {
    PledgeId(number.to_be_bytes())
}

/// Numbers from a fixed seed.
#[derive(Drop)]
struct Draws {
    state: u64,
}

impl Draws {
    fn below(&mut self, bound: u64) -> u64 {
        self.state = self
            .state
            .wrapping_mul(6364136223846793005)
            .wrapping_add(1442695040888963407);
        if bound == 0 {
            0
        } else {
            (self.state >> 33) % bound
        }
    }
}

/// What the calls are drawn from.
#[derive(Clone, Copy)]
struct World {
    first: u16,
    count: u16,
    /// How many pledges there are. At first each address is held by the one of its number.
    pledges: u64,
    /// One in this many leases ends, within this many hours.
    ending: u64,
    hours: u64,
}

/// A time at the edge of an end that is a multiple of 3600, of its grace, or between.
fn next_time(now: u64, draws: &mut Draws) -> u64
    requires { now < 2 ^ 60 }
    ensures { (now ≤ result) × (result ≤ now + 10800) }
{
    let edge = now - now % 3600 + 3600;
    match draws.below(64) {
        0 => edge - 1,
        1 => edge,
        2 => edge + 1,
        3 => edge + 3599,
        4 => now + draws.below(60).min(60),
        _ => now,
    }
}

/// An end: within the second, after 1 to 3 hours, or never.
fn end_after(now: u64, draws: &mut Draws) -> u64
    requires { now < 2 ^ 60 }
{
    let hour = now - now % 3600;
    match draws.below(8) {
        0 => now,
        1 => hour + 3600,
        2 => hour + 7200,
        3 => hour + 10800,
        _ => u64::MAX,
    }
}

/// A pledge that held an address at first, or one of the others.
fn next_pledge(world: World, draws: &mut Draws) -> PledgeId {
    let others = world.pledges.saturating_sub(world.count as u64);
    if others == 0 || draws.below(2) == 0 {
        pledge(draws.below(world.pledges))
    } else {
        pledge(draws.below(others).saturating_add(world.count as u64 + 1))
    }
}

/// Whether the grant at this place of the one is kept by the other too.
fn is_in_both(leases: &Leases, plain: &Plain, place: u64, now: u64) -> bool
    requires { plain.now.passed ≤ now }
{
    if place >= leases.kept() as u64 {
        return true;
    }
    let (id, address, until) = leases.kept_at(place as u32);
    now >= until.saturating_add(3600) || plain.holds(id, address, now)
}

/// One call on both. The count of differences.
fn call(leases: &mut Leases, plain: &mut Plain, world: World, now: u64, draws: &mut Draws) -> u32
    requires pool { (1 ≤ world.first) × (world.first + world.count ≤ 65534) }
    requires time { (leases.old.passed ≤ now) × (plain.old.passed ≤ now) × (now < 2 ^ 60) }
    requires room { (length leases.old.grants + leases.old.room ≡ 100000) × (length plain.old.grants + plain.old.room ≡ 100000) }
    ensures time { (leases.new.passed ≤ now) × (plain.new.passed ≤ now) }
    ensures room { (length leases.new.grants + leases.new.room ≡ 100000) × (length plain.new.grants + plain.new.room ≡ 100000) }
{
    let id = next_pledge(world, draws);
    let address = world
        .first
        .saturating_add((draws.below(world.count as u64) % 65536) as u16);
    let mut differ = (leases.kept() != plain.kept()) as u32;
    match draws.below(64) {
        0 => {
            leases.release(id);
            plain.release(id);
        },
        1..12 => {
            leases.pass(now);
            plain.pass(now);
        },
        12..24 => {
            differ += (leases.holds(id, address, now) != plain.holds(id, address, now)) as u32;
        },
        24..32 => {
            differ += (leases.live(id, now) != plain.live(id, now)) as u32;
        },
        32..36 => {
            let place = draws.below(leases.kept() as u64);
            differ += !is_in_both(leases, plain, place, now) as u32;
        },
        _ => {
            let asked = leases.ask(id, world.first, world.count, now);
            differ += (asked != plain.ask(id, world.first, world.count, now)) as u32;
            if let Some(address) = asked
                && leases.kept() < ROOM
                && plain.kept() < ROOM
            {
                let until = end_after(now, draws);
                leases.grant(id, address, until);
                plain.grant(id, address, until);
            }
        },
    }
    differ
}

/// Calls drawn from a seed, over leases of which each address of the pool is held at first. The
/// count of differences.
fn compare(alloc: Global, world: World, calls: u32, seed: u64) -> Result<u32, NoMemory>
    requires { (1 ≤ world.first) × (world.first + world.count ≤ 65534) }
{
    let mut leases = Leases::empty(alloc, ROOM)?;
    let mut plain = Plain::empty(alloc, ROOM)?;
    let mut draws = Draws { state: seed };
    'fill: for address in world.first..world.first + world.count {
        if leases.kept() < ROOM && plain.kept() < ROOM {
            let until = match draws.below(world.ending) {
                0 => 3600 * (1 + draws.below(world.hours).min(10_000)),
                _ => u64::MAX,
            };
            leases.grant(pledge(address as u64), address, until);
            plain.grant(pledge(address as u64), address, until);
        }
    }
    let mut now = 0;
    let mut differ = 0u32;
    'calls: for _ in 0..calls {
        let next = next_time(now, &mut draws);
        now = next.min(1 << 40);
        let differs = call(&mut leases, &mut plain, world, now, &mut draws);
        differ = differ.saturating_add(differs);
    }
    Ok(differ)
}

#[test]
fn a_full_pool_of_all_addresses_is_as_the_list(rt: HostRuntime) -> Result<(), Fail> {
    let world = World {
        first: 1,
        count: 65533,
        pledges: 70_000,
        ending: 256,
        hours: 1200,
    };
    assert_eq!(rt; compare(rt.alloc(), world, 20_000, 1)?, 0);
    Ok(())
}

#[test]
fn a_pool_of_5_with_8_pledges_is_as_the_list(rt: HostRuntime) -> Result<(), Fail> {
    let world = World {
        first: 1,
        count: 5,
        pledges: 8,
        ending: 2,
        hours: 4,
    };
    assert_eq!(rt; compare(rt.alloc(), world, 20_000, 2)?, 0);
    Ok(())
}

/// Grants what a Join gets from the `count` addresses from 1 on, for 3600 seconds.
fn join(leases: &mut Leases, number: u64, count: u16, now: u64) -> Option<(u16, u64)>
    requires pool { count < 65534 }
    requires time { (leases.old.passed ≤ now) × (now < 2 ^ 60) }
    requires room { length leases.old.grants + leases.old.room ≡ 100000 }
    ensures time { leases.new.passed ≡ leases.old.passed }
    ensures room { length leases.new.grants + leases.new.room ≡ 100000 }
{
    let address = leases.ask(pledge(number), 1, count, now)?;
    if leases.kept() < ROOM {
        leases.grant(pledge(number), address, now + 3600);
        Some((address, now + 3600))
    } else {
        None
    }
}

/// Joins over one pool, as the pledge's number, the second, and what it gets.
fn joins(leases: &mut Leases, count: u16, cases: &[(u64, u64, Option<(u16, u64)>)]) -> u32
    requires pool { count < 65534 }
    requires time { leases.old.passed ≡ 0 }
    requires room { length leases.old.grants + leases.old.room ≡ 100000 }
{
    let mut differ = 0u32;
    'cases: for (number, now, want) in cases {
        if *now < 100_000 && join(leases, *number, count, *now) != *want {
            differ = differ.saturating_add(1);
        }
    }
    differ
}

#[test]
fn an_address_is_held_for_the_grace(rt: HostRuntime) -> Result<(), Fail> {
    let mut leases = Leases::empty(rt.alloc(), ROOM)?;
    let cases = [
        (1, 0, Some((1, 3600))),
        (2, 10, None),
        (2, 7199, None),
        (2, 7200, Some((1, 10800))),
    ];
    assert_eq!(rt; joins(&mut leases, 1, &cases), 0);
    Ok(())
}

#[test]
fn a_live_lease_keeps_its_address_though_a_lesser_one_is_free(rt: HostRuntime) -> Result<(), Fail> {
    let mut leases = Leases::empty(rt.alloc(), ROOM)?;
    let cases = [
        (1, 0, Some((1, 3600))),
        (2, 0, Some((2, 3600))),
        (2, 3599, Some((2, 7199))),
        (2, 7198, Some((2, 10798))),
        (2, 7200, Some((2, 10800))),
    ];
    assert_eq!(rt; joins(&mut leases, 2, &cases), 0);
    let mut leases = Leases::empty(rt.alloc(), ROOM)?;
    let cases = [
        (1, 0, Some((1, 3600))),
        (2, 0, Some((2, 3600))),
        (2, 3599, Some((2, 7199))),
        (2, 7200, Some((1, 10800))),
    ];
    assert_eq!(rt; joins(&mut leases, 2, &cases), 0);
    Ok(())
}

#[test]
fn the_least_address_whose_grace_is_over_comes_first(rt: HostRuntime) -> Result<(), Fail> {
    let mut leases = Leases::empty(rt.alloc(), ROOM)?;
    let cases = [
        (1, 0, Some((1, 3600))),
        (2, 0, Some((2, 3600))),
        (3, 0, Some((3, 3600))),
        (4, 7200, Some((1, 10800))),
        (3, 7200, Some((2, 10800))),
        (2, 7200, Some((3, 10800))),
    ];
    assert_eq!(rt; joins(&mut leases, 3, &cases), 0);
    Ok(())
}

#[test]
fn kept_grants_are_reported_each(rt: HostRuntime) -> Result<(), Fail> {
    let mut leases = Leases::empty(rt.alloc(), 2)?;
    assert_eq!(rt; leases.kept(), 0);
    leases.grant(pledge(7), 9, u64::MAX);
    assert_eq!(rt; leases.kept(), 1);
    assert_eq!(rt; leases.kept_at(0), (pledge(7), 9, u64::MAX));
    assert_eq!(rt; leases.live(pledge(7), u64::MAX - 1), Some(9));
    assert!(rt; leases.holds(pledge(7), 9, u64::MAX));
    Ok(())
}

#[test]
fn a_lease_without_end_is_held_until_its_release(rt: HostRuntime) -> Result<(), Fail> {
    let mut leases = Leases::empty(rt.alloc(), 2)?;
    leases.grant(pledge(7), 1, u64::MAX);
    leases.pass(u64::MAX);
    assert_eq!(rt; leases.kept(), 1);
    assert_eq!(rt; leases.ask(pledge(8), 1, 1, u64::MAX), None);
    leases.release(pledge(7));
    assert_eq!(rt; leases.kept(), 0);
    assert_eq!(rt; leases.ask(pledge(8), 1, 1, u64::MAX), Some(1));
    Ok(())
}
