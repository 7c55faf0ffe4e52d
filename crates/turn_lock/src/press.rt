//! A use of two locks: a list of numbers, and a press that copies a prefix of it. The press has a pass of the list's lock.
ghost use Rattle.std.specs.Prelude.{◌≡◌, ◌+◌, ◌<◌, ◌↔◌, All, IsTrue, [], false, length, slice_index};
ghost use mathlib.Core.List.{IsPrefix};
ghost use Rattle.turn_lock.specs.Report.{GrowsTo};
ghost use Rattle.turn_lock.specs.Numbers.{report_of};
ghost use Rattle.turn_lock.specs.Locks.{with_seen};
ghost use Rattle.turn_lock.specs.Copying.{HasLooked, HasCopied, HasAsked, HaveEnded};

use crate::lock::TurnLock;
use crate::numbers::Numbers;
use crate::pass::Pass;
use crate::reports::Reports;
use std::alloc::Global;
use std::marker::Model;
use std::sync::Wait;

/// A copy of a prefix of a list that is under a lock.
#[derive(Drop)]
pub struct Press {
    copy: Vec<u64>,
    pass: Pass<Numbers>,
}

impl Model for Press {
    ghost use Rattle.std.specs.Prelude.{◌≡◌, false};
    ghost use mathlib.Core.List.{IsPrefix};
    ghost use Rattle.turn_lock.specs.Press.{PressView};

    ghost Value = { PressView };

    ghost view = { λ p. record { copy = p.copy.items; pass = p.pass } };

    ghost invariant = { λ p. (p.pass.has_turn ≡ false) × IsPrefix p.copy.items p.pass.seen.items.items };
}

impl Reports for Press {
    type Item = u64;

    type Origin = TurnLock<Numbers>;

    ghost use Rattle.turn_lock.specs.Press.{copy_report, copied_from};

    ghost report = { copy_report };

    ghost origin = { copied_from };
}

/// What one worker has: a pass of each lock.
#[derive(Drop)]
pub struct Worker {
    pub desk: Pass<Numbers>,
    pub press: Pass<Press>,
}

impl Press {
    /// An empty copy, which goes by this pass.
    pub fn new(alloc: Global, pass: Pass<Numbers>) -> Press
        requires ended { pass.has_turn ≡ false }
        ensures copy { result.copy ≡ [] }
        ensures pass { result.pass ≡ pass }
    {
        Press {
            copy: Vec::new(alloc),
            pass,
        }
    }

    /// Copies what the list has more, and reports whether there was memory.
    fn copy_rest<R: Wait>(&mut self, rt: &R, desk: &TurnLock<Numbers>) -> bool
        requires desk { self.old.pass.lock ≡ desk.now }
        ensures desk { HasLooked self.old.pass self.new.pass }
        ensures grown { IsPrefix self.old.copy self.new.copy }
        ensures copied { IsTrue result → self.new.copy ≡ self.new.pass.seen.items.items }
    {
        let mut held = desk.take(rt, &mut self.pass);
        let numbers = held.value();
        let copied = extend(&mut self.copy, &numbers.items);
        held.give(&mut self.pass);
        copied
    }

    /// Whether the copy has the place of the list that the pass has seen. The press and the pass share what they have seen.
    fn has(&mut self, desk: &TurnLock<Numbers>, pass: &mut Pass<Numbers>, place: usize) -> bool
        requires desk { self.old.pass.lock ≡ desk.now }
        requires pass { (pass.old.lock ≡ desk.now) × (pass.old.has_turn ≡ false) }
        requires place { place < length pass.old.seen.items.items }
        ensures desk { self.new.pass ≡ with_seen self.old.pass pass.new.seen }
        ensures copy { self.new.copy ≡ self.old.copy }
        ensures pass { pass.new ≡ with_seen pass.old pass.new.seen }
        ensures grown { GrowsTo (report_of pass.old.seen) (report_of pass.new.seen) }
        ensures inside { IsTrue result ↔ (place < length self.new.copy) }
        ensures known { IsTrue result → slice_index self.new.copy place ≡ slice_index pass.old.seen.items.items place }
    {
        desk.share(&mut self.pass, pass);
        place < self.copy.len()
    }
}

/// Makes the copy the whole list, and reports whether there was memory.
fn extend(copy: &mut Vec<u64>, list: &Vec<u64>) -> bool
    requires { IsPrefix copy.old.items list.now.items }
    ensures grown { IsPrefix copy.old.items copy.new.items }
    ensures prefix { IsPrefix copy.new.items list.now.items }
    ensures whole { IsTrue result → copy.new.items ≡ list.now.items }
{
    let from = copy.len();
    match copy.extend_from_slice(&list[from..]) {
        Ok(()) => true,
        Err(_) => false,
    }
}

/// Copies all that the list has, and reports whether there was memory. The press's lock is taken first, then the list's.
pub fn copy_all<R: Wait>(
    rt: &R,
    desk: &TurnLock<Numbers>,
    press: &TurnLock<Press>,
    pass: &mut Pass<Press>,
) -> bool
    requires desk { press.now.opening.pass.lock ≡ desk.now }
    requires press { (pass.old.lock ≡ press.now) × (pass.old.has_turn ≡ false) }
    ensures press { (pass.new.lock ≡ press.now) × (pass.new.has_turn ≡ false) }
    ensures grown { IsPrefix pass.old.seen.copy pass.new.seen.copy }
    ensures turn { HasCopied pass.old pass.new }
    ensures copied { IsTrue result → pass.new.seen.copy ≡ pass.new.seen.pass.seen.items.items }
{
    let mut held = press.take(rt, pass);
    let copied = held.value().copy_rest(rt, desk);
    held.give(pass);
    copied
}

/// Whether the copy has a place of the list that the worker has seen, with the number that the worker saw there.
pub fn is_copied<R: Wait>(
    rt: &R,
    desk: &TurnLock<Numbers>,
    press: &TurnLock<Press>,
    worker: &mut Worker,
    place: usize,
) -> bool
    requires locks { press.now.opening.pass.lock ≡ desk.now }
    requires desk { (worker.old.desk.lock ≡ desk.now) × (worker.old.desk.has_turn ≡ false) }
    requires press { (worker.old.press.lock ≡ press.now) × (worker.old.press.has_turn ≡ false) }
    requires place { place < length worker.old.desk.seen.items.items }
    ensures desk { worker.new.desk ≡ with_seen worker.old.desk worker.new.desk.seen }
    ensures press { (worker.new.press.lock ≡ press.now) × (worker.new.press.has_turn ≡ false) }
    ensures grown { GrowsTo (report_of worker.old.desk.seen) (report_of worker.new.desk.seen) }
    ensures turn { HasAsked worker.old.press worker.new.press worker.new.desk.seen }
    ensures inside { IsTrue result ↔ (place < length worker.new.press.seen.copy) }
    ensures known { IsTrue result → slice_index worker.new.press.seen.copy place ≡ slice_index worker.old.desk.seen.items.items place }
{
    let mut held = press.take(rt, &mut worker.press);
    let copied = held.value().has(desk, &mut worker.desk, place);
    held.give(&mut worker.press);
    copied
}

/// Ends both locks, and gives the list and the copy as the last holdings left them. The copy is a prefix of the list.
pub fn end_both(
    desk: TurnLock<Numbers>,
    press: TurnLock<Press>,
    mut workers: Vec<Worker>,
) -> (Numbers, Vec<u64>)
    requires locks { press.opening.pass.lock ≡ desk }
    requires desk { All (λ worker. (worker.desk.lock ≡ desk) × (worker.desk.has_turn ≡ false)) workers.items }
    requires press { All (λ worker. (worker.press.lock ≡ press) × (worker.press.has_turn ≡ false)) workers.items }
    requires all { (length workers.items ≡ press.passes) × (length workers.items + 1 ≡ desk.passes) }
    ensures prefix { IsPrefix result.1.items result.0.items.items }
    ensures desk { All (λ worker. IsPrefix worker.desk.seen.items.items result.0.items.items) workers.items }
    ensures press { All (λ worker. IsPrefix worker.press.seen.copy result.1.items) workers.items }
    ensures last { HaveEnded desk press workers.items result.0 result.1.items }
{
    let mut at_desk = desk.close();
    let mut at_press = press.close();
    while let Some(worker) = workers.pop() {
        let Worker { desk, press } = worker;
        let next_desk = at_desk.take_back(desk);
        at_desk = next_desk;
        let next_press = at_press.take_back(press);
        at_press = next_press;
    }
    let Press { copy, pass } = at_press.finish();
    let all_back = at_desk.take_back(pass);
    (all_back.finish(), copy)
}
