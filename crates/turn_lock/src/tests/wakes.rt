//! A pass that parks is woken at its turn. No clause promises it.
ghost use Rattle.std.specs.Prelude.{◌≡◌, All, IfOk, false, length};

use crate::{Numbers, Pass, TurnLock, end};
use edge_traits::NoMemory;
use std::sync::Wait;
use std::test::Fail;
use std::thread;
use std::thread::Threads;
use std::time::{Clock, Duration};

/// Takes turns that last far longer than a pass looks before it parks.
fn hold_long<R: Wait + Clock>(
    rt: &R,
    lock: &TurnLock<Numbers>,
    mut pass: Pass<Numbers>,
    turns: u64,
) -> Pass<Numbers>
    requires lock { pass.lock ≡ lock.now }
    requires ended { pass.has_turn ≡ false }
    ensures lock { result.lock ≡ lock.now }
    ensures ended { result.has_turn ≡ false }
{
    for number in 0..turns {
        let mut held = lock.take(rt, &mut pass);
        thread::sleep(rt, Duration::from_millis(20));
        held.value().push(number);
        held.give(&mut pass);
    }
    pass
}

/// Each pass in a thread of its own: all but one park at any time.
#[tactic(auto, using(crate::proofs::Sent::pass_send))]
fn hold_in_threads<R: Threads + Wait + Clock + Sync>(
    rt: &R,
    lock: &TurnLock<Numbers>,
    passes: Vec<Pass<Numbers>>,
    turns: u64,
) -> Result<Vec<Pass<Numbers>>, NoMemory>
    requires lock { All (λ pass. pass.lock ≡ lock.now) passes.items }
    requires ended { All (λ pass. pass.has_turn ≡ false) passes.items }
    ensures lock { IfOk result (λ back. All (λ pass. pass.lock ≡ lock.now) back.items) }
    ensures ended { IfOk result (λ back. All (λ pass. pass.has_turn ≡ false) back.items) }
    ensures all { IfOk result (λ back. length back.items ≡ length passes.items) }
{
    let back = thread::map_vec(
        rt,
        passes,
        &|pass: Pass<Numbers>| -> Pass<Numbers>
            requires { (pass.lock ≡ lock.now) × (pass.has_turn ≡ false) }
            ensures { (result.lock ≡ lock.entry.now) × (result.has_turn ≡ false) }
        { hold_long(rt, lock, pass, turns) },
    )?;
    Ok(back)
}

#[test]
fn each_ticket_s_sleeper_is_woken(rt: HostRuntime) -> Result<(), Fail> {
    let alloc = rt.alloc();
    let Ok((lock, passes)) = TurnLock::make(alloc, Numbers::new(alloc, 1, 15)?, 5) else {
        panic!(rt; "no memory")
    };
    let passes = hold_in_threads(&rt, &lock, passes, 3)?;
    let numbers = end(lock, passes);
    assert_eq!(rt; (numbers.tries, numbers.items.len()), (15, 15));
    Ok(())
}
