//! Workers add numbers to a list while a press copies it.
ghost use Rattle.std.specs.Prelude.{◌≡◌, ◌≤◌, All, IfOk, false, length};

use crate::{Numbers, Pass, Press, TurnLock, Worker, add, copy_all, end_both, is_copied};
use edge_traits::NoMemory;
use std::alloc::Global;
use std::sync::Wait;
use std::sync::atomic::AtomicU64;
use std::sync::atomic::Ordering::SeqCst;
use std::test::Fail;
use std::thread;
use std::thread::Threads;

/// Adds a number, has it copied, and reports whether the worker then knows it in the copy.
fn add_and_copy<R: Wait>(
    rt: &R,
    desk: &TurnLock<Numbers>,
    press: &TurnLock<Press>,
    worker: &mut Worker,
    number: u64,
) -> bool
    requires locks { press.now.opening.pass.lock ≡ desk.now }
    requires desk { (worker.old.desk.lock ≡ desk.now) × (worker.old.desk.has_turn ≡ false) }
    requires press { (worker.old.press.lock ≡ press.now) × (worker.old.press.has_turn ≡ false) }
    ensures desk { (worker.new.desk.lock ≡ desk.now) × (worker.new.desk.has_turn ≡ false) }
    ensures press { (worker.new.press.lock ≡ press.now) × (worker.new.press.has_turn ≡ false) }
{
    let Some(place) = add(rt, desk, &mut worker.desk, number) else {
        return false;
    };
    copy_all(rt, desk, press, &mut worker.press) && is_copied(rt, desk, press, worker, place)
}

/// Adds a number, and reports whether the worker knows it in the copy at once.
fn add_alone<R: Wait>(
    rt: &R,
    desk: &TurnLock<Numbers>,
    press: &TurnLock<Press>,
    worker: &mut Worker,
    number: u64,
) -> bool
    requires locks { press.now.opening.pass.lock ≡ desk.now }
    requires desk { (worker.old.desk.lock ≡ desk.now) × (worker.old.desk.has_turn ≡ false) }
    requires press { (worker.old.press.lock ≡ press.now) × (worker.old.press.has_turn ≡ false) }
    ensures desk { (worker.new.desk.lock ≡ desk.now) × (worker.new.desk.has_turn ≡ false) }
    ensures press { (worker.new.press.lock ≡ press.now) × (worker.new.press.has_turn ≡ false) }
{
    let Some(place) = add(rt, desk, &mut worker.desk, number) else {
        return true;
    };
    is_copied(rt, desk, press, worker, place)
}

/// Adds the numbers below `count`, with a copy after each, and counts those that the worker then knows in the copy.
fn work<R: Wait>(
    rt: &R,
    desk: &TurnLock<Numbers>,
    press: &TurnLock<Press>,
    mut worker: Worker,
    count: u64,
    known: &AtomicU64,
) -> Worker
    requires locks { press.now.opening.pass.lock ≡ desk.now }
    requires desk { (worker.desk.lock ≡ desk.now) × (worker.desk.has_turn ≡ false) }
    requires press { (worker.press.lock ≡ press.now) × (worker.press.has_turn ≡ false) }
    ensures desk { (result.desk.lock ≡ desk.now) × (result.desk.has_turn ≡ false) }
    ensures press { (result.press.lock ≡ press.now) × (result.press.has_turn ≡ false) }
{
    for number in 0..count {
        if add_and_copy(rt, desk, press, &mut worker, number) {
            known.fetch_add(1, SeqCst);
        }
    }
    worker
}

/// A worker for each pass of the press's lock.
fn pair_passes(
    alloc: Global,
    desk: &TurnLock<Numbers>,
    press: &TurnLock<Press>,
    mut desks: Vec<Pass<Numbers>>,
    mut presses: Vec<Pass<Press>>,
) -> Result<Vec<Worker>, NoMemory>
    requires desks { All (λ pass. (pass.lock ≡ desk.now) × (pass.has_turn ≡ false)) desks.items }
    requires presses { All (λ pass. (pass.lock ≡ press.now) × (pass.has_turn ≡ false)) presses.items }
    ensures desk { IfOk result (λ made. All (λ worker. (worker.desk.lock ≡ desk.now) × (worker.desk.has_turn ≡ false)) made.items) }
    ensures press { IfOk result (λ made. All (λ worker. (worker.press.lock ≡ press.now) × (worker.press.has_turn ≡ false)) made.items) }
    ensures all { IfOk result (λ made. length made.items ≡ length presses.items) }
{
    let mut workers = Vec::with_capacity(alloc, presses.len())?;
    while let Some(pass) = presses.pop() {
        let Some(other) = desks.pop() else {
            return Err(NoMemory);
        };
        workers.push_reserved(Worker {
            desk: other,
            press: pass,
        });
    }
    Ok(workers)
}

/// Each worker in a thread of its own.
fn work_in_threads<R: Threads + Wait + Sync>(
    rt: &R,
    desk: &TurnLock<Numbers>,
    press: &TurnLock<Press>,
    workers: Vec<Worker>,
    count: u64,
    known: &AtomicU64,
) -> Result<Vec<Worker>, NoMemory>
    requires locks { press.now.opening.pass.lock ≡ desk.now }
    requires desk { All (λ worker. (worker.desk.lock ≡ desk.now) × (worker.desk.has_turn ≡ false)) workers.items }
    requires press { All (λ worker. (worker.press.lock ≡ press.now) × (worker.press.has_turn ≡ false)) workers.items }
    ensures desk { IfOk result (λ back. All (λ worker. (worker.desk.lock ≡ desk.now) × (worker.desk.has_turn ≡ false)) back.items) }
    ensures press { IfOk result (λ back. All (λ worker. (worker.press.lock ≡ press.now) × (worker.press.has_turn ≡ false)) back.items) }
    ensures all { IfOk result (λ back. length back.items ≡ length workers.items) }
{
    let back = thread::map_vec(
        rt,
        workers,
        &|worker: Worker| -> Worker
            requires locks { press.now.opening.pass.lock ≡ desk.now }
            requires desk { (worker.desk.lock ≡ desk.now) × (worker.desk.has_turn ≡ false) }
            requires press { (worker.press.lock ≡ press.now) × (worker.press.has_turn ≡ false) }
            ensures desk { (result.desk.lock ≡ desk.entry.now) × (result.desk.has_turn ≡ false) }
            ensures press { (result.press.lock ≡ press.entry.now) × (result.press.has_turn ≡ false) }
        { work(rt, desk, press, worker, count, known) },
    )?;
    Ok(back)
}

/// The list and the copy that `threads` workers leave.
fn copy_in_threads<R: Threads + Wait + Sync>(
    rt: &R,
    alloc: Global,
    threads: u32,
    count: u64,
    known: &AtomicU64,
) -> Result<(Numbers, Vec<u64>), NoMemory>
    requires { (1 ≤ threads) × (threads ≤ 65534) }
{
    let room = (threads as u64).saturating_mul(count) as usize;
    let numbers = Numbers::new(alloc, 5, room)?;
    let Ok((desk, mut desks)) = TurnLock::make(alloc, numbers, threads + 1) else {
        return Err(NoMemory);
    };
    let Some(own) = desks.pop() else {
        return Err(NoMemory);
    };
    let Ok((press, presses)) = TurnLock::make(alloc, Press::new(alloc, own), threads) else {
        return Err(NoMemory);
    };
    let workers = pair_passes(alloc, &desk, &press, desks, presses)?;
    let workers = work_in_threads(rt, &desk, &press, workers, count, known)?;
    Ok(end_both(desk, press, workers))
}

#[test]
fn each_worker_in_a_thread_knows_its_numbers_in_the_copy(rt: HostRuntime) -> Result<(), Fail> {
    let known = AtomicU64::new(0);
    let (numbers, copy) = copy_in_threads(&rt, rt.alloc(), 8, 500, &known)?;
    assert_eq!(rt; known.load(SeqCst), 4000);
    assert_eq!(rt; (numbers.tries, numbers.items.len()), (4000, 4000));
    assert_eq!(rt; copy.as_slice(), numbers.items.as_slice());
    Ok(())
}

/// Whether a lone worker knows a number before it is copied, and whether it knows the next one after.
fn copy_alone<R: Wait>(rt: &R, alloc: Global) -> Result<(bool, bool), NoMemory> {
    let Ok((desk, mut desks)) = TurnLock::make(alloc, Numbers::new(alloc, 5, 2)?, 2) else {
        return Err(NoMemory);
    };
    let Some(own) = desks.pop() else {
        return Err(NoMemory);
    };
    let Ok((press, presses)) = TurnLock::make(alloc, Press::new(alloc, own), 1) else {
        return Err(NoMemory);
    };
    let mut workers = pair_passes(alloc, &desk, &press, desks, presses)?;
    let Some(mut worker) = workers.pop() else {
        return Err(NoMemory);
    };
    let before = add_alone(rt, &desk, &press, &mut worker, 0);
    Ok((before, add_and_copy(rt, &desk, &press, &mut worker, 1)))
}

#[test]
fn a_worker_knows_a_number_only_after_it_is_copied(rt: HostRuntime) -> Result<(), Fail> {
    assert_eq!(rt; copy_alone(&rt, rt.alloc())?, (false, true));
    Ok(())
}
