//! The parts of the state: leases of which all addresses are held, and a replay window.
ghost use Rattle.std.specs.Prelude.{◌≡◌, ◌+◌, ◌≤◌, length, IfSome};

use address_leases::Leases;
use edge_traits::PledgeId;
use replay_window::{Judged, Window};
use std::alloc::Global;

/// How many addresses there are.
const ADDRESSES: u16 = 65533;

/// How many grants fit.
const ROOM: u32 = 131_066;

/// A call of leases that changes nothing.
#[derive(Clone, Copy)]
pub enum Look {
    /// What a stranger gets from a pool of which each address is held: none.
    Ask,
    Holds,
    Live,
}

/// Leases of which all addresses are held until second 38,067 at least.
fn filled(alloc: Global) -> Option<Leases>
    ensures { IfSome result (λ l. (l.passed ≡ 0) × (length l.grants + l.room ≡ 131066)) }
{
    let Ok(mut leases) = Leases::empty(alloc, ROOM) else {
        return None;
    };
    'fill: for address in 1..=ADDRESSES {
        if leases.kept() < ROOM {
            leases.grant(pledge(address), address, address as u64 + 34_467);
        }
    }
    Some(leases)
}

/// How many times all was as it is: each time one grant is forgotten, a stranger asks and gets
/// none, a pledge is live and holds its address, and is granted it anew. All addresses are held all
/// the time.
pub fn leases(alloc: Global, count: u64) -> Option<u64> {
    let mut leases = filled(alloc)?;
    let mut right = 0u64;
    'calls: for now in 0..count {
        let address = (now % ADDRESSES as u64) as u16 + 1;
        let before = looks_right(&leases, address, now);
        renew(&mut leases, address, now);
        if before {
            right = right.saturating_add(1);
        }
    }
    Some(right)
}

/// How many times the call answered right, at addresses that are drawn.
pub fn looks(alloc: Global, look: Look, count: u64) -> Option<u64> {
    let leases = filled(alloc)?;
    let mut draws = Draws { state: count };
    let mut right = 0u64;
    for turn in 0..count {
        let address = (draws.next() % ADDRESSES as u64) as u16 + 1;
        if is_right(&leases, look, address, turn % 30_000) {
            right = right.saturating_add(1);
        }
    }
    Some(right)
}

/// How many grants are kept after `count` renewals, with each of which one grant is forgotten once
/// the first ones are over.
pub fn renewals(alloc: Global, count: u64) -> Option<u32> {
    let mut leases = filled(alloc)?;
    'calls: for now in 0..count {
        let address = (now % ADDRESSES as u64) as u16 + 1;
        renew(&mut leases, address, now);
    }
    Some(leases.kept())
}

/// How many grants are kept after `count` releases, after each of which the address is granted
/// anew.
pub fn releases(alloc: Global, count: u64) -> Option<u32> {
    let mut leases = filled(alloc)?;
    'calls: for turn in 0..count {
        let address = (turn % ADDRESSES as u64) as u16 + 1;
        leases.release(pledge(address));
        if leases.kept() < ROOM {
            leases.grant(pledge(address), address, 100_000);
        }
    }
    Some(leases.kept())
}

fn is_right(leases: &Leases, look: Look, address: u16, now: u64) -> bool
    requires { leases.now.passed ≤ now }
{
    let id = pledge(address);
    match look {
        Look::Ask => leases.ask(pledge(0), 1, ADDRESSES, now).is_none(),
        Look::Holds => leases.holds(id, address, now),
        Look::Live => leases.live(id, now) == Some(address),
    }
}

fn looks_right(leases: &Leases, address: u16, now: u64) -> bool
    requires { leases.now.passed ≤ now }
{
    is_right(leases, Look::Ask, address, now)
        && is_right(leases, Look::Holds, address, now)
        && is_right(leases, Look::Live, address, now)
}

fn renew(leases: &mut Leases, address: u16, now: u64)
    requires time { leases.old.passed ≤ now }
    requires room { length leases.old.grants + leases.old.room ≡ 131066 }
    ensures time { leases.new.passed ≡ now }
    ensures room { length leases.new.grants + leases.new.room ≡ 131066 }
{
    leases.pass(now);
    if leases.kept() < ROOM {
        leases.grant(pledge(address), address, now.saturating_add(100_000));
    }
}

pub(crate) fn pledge(number: u16) -> PledgeId {
    PledgeId((number as u64).to_be_bytes())
}

/// Numbers that a compiler can't foresee: the seed is known at run time only.
#[derive(Drop)]
pub(crate) struct Draws {
    pub(crate) state: u64,
}

impl Draws {
    pub(crate) fn next(&mut self) -> u64 {
        self.state = self
            .state
            .wrapping_mul(6364136223846793005)
            .wrapping_add(1442695040888963407);
        self.state >> 33
    }
}

/// The window after `count` numbers, each of which is judged and, where it is fresh, taken. A
/// number is a fourth of those before it and up to 39 more.
pub fn windows(count: u64, seed: u64) -> Option<(u64, u32)> {
    let mut window = Window::empty();
    let mut draws = Draws { state: seed };
    for turn in 0..count {
        let number = turn / 4 + draws.next() % 40;
        match window.judge(number) {
            Judged::Fresh => window.take(number),
            Judged::Taken | Judged::Old => {},
        }
    }
    window.parts()
}
