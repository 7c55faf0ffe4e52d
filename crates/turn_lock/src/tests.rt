ghost use Rattle.std.specs.Prelude.{◌≡◌, ◌≤◌, ◌<◌, All, IfOk, IfSome, MatchBool, false, true, length, replicate, vec_len};
ghost use Rattle.turn_lock.specs.Report.{GrowsTo};
ghost use Rattle.turn_lock.specs.Numbers.{report_of};
ghost use Rattle.turn_lock.specs.Locks.{new_pass};

mod any_value;
mod two_locks;
mod wakes;

use crate::{Numbers, Pass, TurnLock, add, end};
use edge_traits::NoMemory;
use std::alloc::Global;
use std::sync::Wait;
use std::sync::atomic::AtomicU64;
use std::sync::atomic::Ordering::SeqCst;
use std::test::Fail;
use std::thread;
use std::thread::Threads;

/// Adds `count` numbers, beginning at `from`, and counts those whose place isn't past the last one's.
fn add_many<R: Wait>(
    rt: &R,
    lock: &TurnLock<Numbers>,
    mut pass: Pass<Numbers>,
    from: u64,
    count: u64,
    wrong: &AtomicU64,
) -> Pass<Numbers>
    requires lock { pass.lock ≡ lock.now }
    requires ended { pass.has_turn ≡ false }
    ensures lock { result.lock ≡ lock.now }
    ensures ended { result.has_turn ≡ false }
{
    let mut next = 0;
    for number in from..from.saturating_add(count) {
        match add(rt, lock, &mut pass, number) {
            Some(place) if place >= next => next = place.saturating_add(1),
            _ => {
                wrong.fetch_add(1, SeqCst);
            }
        }
    }
    pass
}

/// Each pass in a thread of its own, with numbers of its own.
#[tactic(auto, using(crate::proofs::Sent::pass_send))]
fn add_in_threads<R: Threads + Wait + Sync>(
    rt: &R,
    lock: &TurnLock<Numbers>,
    passes: Vec<Pass<Numbers>>,
    count: u64,
    wrong: &AtomicU64,
) -> Result<Vec<Pass<Numbers>>, NoMemory>
    requires lock { All (λ pass. pass.lock ≡ lock.now) passes.items }
    requires ended { All (λ pass. pass.has_turn ≡ false) passes.items }
    ensures lock { IfOk result (λ back. All (λ pass. pass.lock ≡ lock.now) back.items) }
    ensures ended { IfOk result (λ back. All (λ pass. pass.has_turn ≡ false) back.items) }
    ensures all { IfOk result (λ back. length back.items ≡ length passes.items) }
{
    let started = AtomicU64::new(0);
    let back = thread::map_vec(
        rt,
        passes,
        &|pass: Pass<Numbers>| -> Pass<Numbers>
            requires { (pass.lock ≡ lock.now) × (pass.has_turn ≡ false) }
            ensures { (result.lock ≡ lock.entry.now) × (result.has_turn ≡ false) }
        {
            let from = started.fetch_add(1, SeqCst).saturating_mul(count);
            add_many(rt, lock, pass, from, count, wrong)
        },
    )?;
    Ok(back)
}

/// The numbers that `threads` threads added.
fn fill<R: Threads + Wait + Sync>(
    rt: &R,
    alloc: Global,
    threads: u32,
    count: u64,
    wrong: &AtomicU64,
) -> Result<Numbers, NoMemory>
    requires { (1 ≤ threads) × (threads ≤ 65535) }
{
    let room = (threads as u64).saturating_mul(count) as usize;
    let numbers = Numbers::new(alloc, 7, room)?;
    let Ok((lock, passes)) = TurnLock::make(alloc, numbers, threads) else {
        return Err(NoMemory);
    };
    let passes = add_in_threads(rt, &lock, passes, count, wrong)?;
    Ok(end(lock, passes))
}

#[test]
fn all_threads_end_with_every_place_owned_once(rt: HostRuntime) -> Result<(), Fail> {
    for (threads, count) in [(8, 50_000), (32, 500)] {
        let wrong = AtomicU64::new(0);
        let mut numbers = fill(&rt, rt.alloc(), threads, count, &wrong)?;
        let all = threads as u64 * count;
        assert_eq!(rt; wrong.load(SeqCst), 0);
        assert_eq!(rt;
            (numbers.tries, numbers.most, numbers.name),
            (all, all - 1, 7)
        );
        numbers.items.sort()?;
        assert_eq!(rt; numbers.items.len() as u64, all);
        for (place, number) in numbers.items.iter().enumerate() {
            assert_eq!(rt; *number, place as u64);
        }
    }
    Ok(())
}

/// Numbers that passes add in turn, and their places.
fn add_in_turn<R: Wait>(
    rt: &R,
    lock: &TurnLock<Numbers>,
    passes: &mut Vec<Pass<Numbers>>,
    numbers: &[u64],
) -> Option<usize>
    requires passes { 0 < vec_len passes.old }
    requires lock { All (λ pass. pass.lock ≡ lock.now) passes.old.items }
    requires ended { All (λ pass. pass.has_turn ≡ false) passes.old.items }
    ensures lock { All (λ pass. pass.lock ≡ lock.now) passes.new.items }
    ensures ended { All (λ pass. pass.has_turn ≡ false) passes.new.items }
    ensures all { length passes.new.items ≡ length passes.old.items }
{
    let mut last = None;
    for turn in 0..numbers.len() {
        let at = turn % passes.len();
        let pass = &mut passes[at];
        last = add(rt, lock, pass, numbers[turn]);
    }
    last
}

#[test]
fn passes_add_in_turn_and_the_value_comes_back(rt: HostRuntime) -> Result<(), Fail> {
    let alloc = rt.alloc();
    let Ok((lock, mut passes)) = TurnLock::make(alloc, Numbers::new(alloc, 3, 8)?, 3) else {
        panic!(rt; "no memory")
    };
    assert_eq!(rt; passes.len(), 3);
    let last = add_in_turn(&rt, &lock, &mut passes, &[5, 9, 2, 9, 4]);
    assert_eq!(rt; last, Some(4));
    let numbers = end(lock, passes);
    assert_eq!(rt; numbers.items.as_slice(), [5, 9, 2, 9, 4].as_slice());
    assert_eq!(rt; (numbers.tries, numbers.most, numbers.name), (5, 9, 3));
    Ok(())
}
