//! A lock over any value that may go to another thread.
ghost use Rattle.std.specs.Prelude.{◌≡◌, All, false, length};

use crate::{Numbers, Pass, Reports, TurnLock, end};
use std::sync::Wait;
use std::test::Fail;
use std::thread;
use std::thread::Threads;

/// Each pass takes a turn and gives it back, in at most eight threads.
#[tactic(auto, using(crate::proofs::Sent::pass_send, crate::proofs::Sent::lock_sync, crate::proofs::Growth::follows_itself))]
fn take_turns<V: Reports + Send, R: Threads + Wait + Sync>(
    rt: &R,
    lock: &TurnLock<V>,
    passes: &mut Vec<Pass<V>>,
)
    requires lock { All (λ pass. pass.lock ≡ lock.now) passes.old.items }
    requires ended { All (λ pass. pass.has_turn ≡ false) passes.old.items }
    ensures lock { All (λ pass. pass.lock ≡ lock.now) passes.new.items }
    ensures ended { All (λ pass. pass.has_turn ≡ false) passes.new.items }
    ensures all { length passes.new.items ≡ length passes.old.items }
{
    thread::for_each_mut(
        rt,
        passes.as_mut_slice(),
        8,
        &|_: usize, pass: &mut Pass<V>|
            requires { (pass.now.lock ≡ lock.now) × (pass.now.has_turn ≡ false) }
            ensures { (pass.exit.now.lock ≡ lock.entry.now) × (pass.exit.now.has_turn ≡ false) }
        {
            take_turn(rt, lock, pass);
        },
    );
}

fn take_turn<V: Reports, R: Wait>(rt: &R, lock: &TurnLock<V>, pass: &mut Pass<V>)
    requires lock { pass.old.lock ≡ lock.now }
    requires ended { pass.old.has_turn ≡ false }
    ensures lock { pass.new.lock ≡ lock.now }
    ensures ended { pass.new.has_turn ≡ false }
{
    let held = lock.take(rt, pass);
    held.give(pass);
}

#[test]
fn passes_of_any_value_take_turns_in_threads(rt: HostRuntime) -> Result<(), Fail> {
    let alloc = rt.alloc();
    let Ok((lock, mut passes)) = TurnLock::make(alloc, Numbers::new(alloc, 3, 8)?, 12) else {
        panic!(rt; "no memory")
    };
    take_turns(&rt, &lock, &mut passes);
    let numbers = end(lock, passes);
    assert_eq!(rt; (numbers.items.len(), numbers.name), (0, 3));
    Ok(())
}
