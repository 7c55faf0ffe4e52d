//! The table of a new lock.
ghost use Rattle.std.specs.Prelude.{◌≡◌, ℕ, ◌+◌, ◌-◌, ◌≤◌, ◌++◌, ◌∷◌, [], IfOk, IfErr, Some, length, replicate, vec_len, vec_capacity};
ghost use Rattle.turn_lock.specs.Locks.{new_pass};
ghost use Rattle.turn_lock.specs.Views.{first_view};
ghost use Rattle.turn_lock.specs.Seated.{IsLaid, lock_of};

use crate::lock::Table;
use crate::pass::{LocalState, Pass, Seat};
use crate::reports::Reports;
use crate::rule::{Apart, Start};
use crate::steps::Words;
use atomic_table::Refused;
use edge_traits::NoMemory;
use std::alloc::{AllocError, Global};
use std::snapshot::Snapshot;

/// The words at the start: no ticket and no turn, one report, and one word for each pass to park on.
fn first_words(alloc: Global, passes: u32) -> Result<Vec<u64>, AllocError>
    ensures { IfOk result (λ words. words.items ≡ (0 ∷ 0 ∷ 1 ∷ []) ++ replicate passes 0) }
{
    let mut words = Vec::with_capacity(alloc, (passes as usize).saturating_add(3))?;
    words.extend_from_slice(&[0, 0, 1])?;
    words.extend_from_slice(vec![in alloc; 0; passes as usize]?.as_slice())?;
    Ok(words)
}

/// The slot at the start.
fn one_slot<V: Reports>(alloc: Global, value: V) -> Result<Vec<Option<V>>, V>
    ensures slot { IfOk result (λ slots. slots.items ≡ Some value ∷ []) }
    ensures value { IfErr result (λ back. back ≡ value) }
{
    let mut slots = Vec::new(alloc);
    match slots.push(Some(value)) {
        Ok(()) => Ok(slots),
        Err(failed) => Err(failed.value.unwrap()),
    }
}

/// The value of a slot that was given back.
fn only<V: Reports>(mut slots: Vec<Option<V>>) -> V
    requires { (value : V) × (slots.items ≡ Some value ∷ []) }
    ensures { slots.items ≡ Some result ∷ [] }
{
    slots.pop().unwrap().unwrap()
}

/// A pass over the seat.
fn pass_of<V: Reports>(seat: Seat<V>, start: &Start<V>) -> Pass<V>
    requires { seat.me ≡ (first_view 1 start.now.opening.value, []) }
    ensures { result ≡ new_pass (lock_of seat.table_id start.now) }
{
    Pass {
        seat,
        local: LocalState {
            start: Snapshot::of(start),
            turns: 0,
        },
    }
}

/// Splits the first seat into one for each pass.
fn split_passes<V: Reports>(
    words: &Words<V>,
    mut first: Seat<V>,
    start: &Start<V>,
    all: &mut Vec<Pass<V>>,
)
    requires seat { (first.table_id ≡ words.now.table_id) × (first.me ≡ (first_view start.now.passes start.now.opening.value, [])) }
    requires laid { IsLaid words.now.table_id start.now.passes × (words.now.key ≡ start.now) }
    requires passes { 1 ≤ start.now.passes }
    requires room { (all.old.items ≡ []) × (vec_len all.old ≡ 0) × (vec_capacity all.old ≡ start.now.passes) }
    ensures { all.new.items ≡ replicate start.now.passes (new_pass (lock_of words.now.table_id start.now)) }
{
    for _ in 1..start.passes {
        let seat = words.split_seat::<Apart>(&mut first);
        all.push_reserved(pass_of(seat, start));
    }
    all.push_reserved(pass_of(first, start));
}

/// The table of a lock over the value, and its passes.
pub(crate) fn make_table<V: Reports>(
    alloc: Global,
    value: V,
    passes: u32,
) -> Result<(Table<V>, Vec<Pass<V>>), (V, NoMemory)>
    requires passes { (1 ≤ passes) × (passes ≤ 65535) }
    ensures key { IfOk result (λ made. (made.0.shared.key.passes ≡ passes) × (made.0.shared.key.opening.value ≡ value)) }
    ensures laid { IfOk result (λ made. IsLaid made.0.shared.table_id passes) }
    ensures passes { IfOk result (λ made. made.1.items ≡ replicate passes (new_pass (lock_of made.0.shared.table_id made.0.shared.key))) }
    ensures value { IfErr result (λ refused. refused.0 ≡ value) }
{
    let Ok(mut all) = Vec::with_capacity(alloc, passes as usize) else {
        return Err((value, NoMemory));
    };
    let Ok(words) = first_words(alloc, passes) else {
        return Err((value, NoMemory));
    };
    let start = Start {
        passes,
        opening: Snapshot::of(&value),
    };
    let slots = match one_slot(alloc, value) {
        Ok(slots) => slots,
        Err(value) => return Err((value, NoMemory)),
    };
    match Table::new(alloc, words.as_slice(), slots, &start) {
        Ok((table, first)) => {
            split_passes(&table.shared, first, &start, &mut all);
            Ok((table, all))
        }
        Err(Refused { slots }) => Err((only(slots), NoMemory)),
    }
}
