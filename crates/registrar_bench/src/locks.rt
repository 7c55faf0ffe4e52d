//! A lock that nobody else wants, taken and given back.
ghost use Rattle.std.specs.Prelude.{◌≡◌, false};

use std::alloc::Global;
use std::sync::{Mutex, Wait};
use turn_lock::{Numbers, Pass, TurnLock, end};

/// Takes the lock by turns `count` times, and returns the count that its value kept.
pub fn turns<R: Wait>(rt: &R, alloc: Global, count: u64) -> Option<u64> {
    let Ok(numbers) = Numbers::new(alloc, 0, 0) else {
        return None;
    };
    let Ok((lock, mut passes)) = TurnLock::make(alloc, numbers, 1) else {
        return None;
    };
    let mut pass = passes.pop()?;
    hold(rt, &lock, &mut pass, count);
    if passes.push(pass).is_err() {
        return None;
    }
    Some(end(lock, passes).tries)
}

fn hold<R: Wait>(rt: &R, lock: &TurnLock<Numbers>, pass: &mut Pass<Numbers>, count: u64)
    requires lock { pass.old.lock ≡ lock.now }
    requires ended { pass.old.has_turn ≡ false }
    ensures lock { pass.new.lock ≡ lock.now }
    ensures ended { pass.new.has_turn ≡ false }
{
    for _ in 0..count {
        let mut held = lock.take(rt, pass);
        let numbers = held.value();
        numbers.tries = numbers.tries.saturating_add(1);
        held.give(pass);
    }
}

/// Locks a mutex `count` times, and returns the count that its value kept.
pub fn mutexes<R: Wait>(rt: &R, count: u64) -> u64 {
    let mutex = Mutex::new(0u64);
    for _ in 0..count {
        let mut held = mutex.lock(rt);
        *held = held.wrapping_add(1);
    }
    let held = mutex.lock(rt);
    *held
}
