//! What a pass does at the words of its lock.
ghost use Rattle.std.specs.Prelude.{◌≡◌, ℕ, ◌+◌, ◌*◌, ◌^◌, ◌<◌, ◌≤◌, true, false, [], ◌∷◌, ◌++◌, List, Some, None, MatchBool, length, IsTrue};
ghost use Rattle.turn_lock.specs.Report.{MayFollow};
ghost use Rattle.turn_lock.specs.Views.{Took, IsOne, heard, with_ticket, without_ticket};
ghost use Rattle.turn_lock.specs.Seated.{IsLaid, TookTurn, Reports, EndedTurn, IsLast, last_seen};

use crate::pass::Seat;
use crate::reports::Reports;
use crate::rule::{Advance, ByTurns, Draw, Hear, Leave, Look, Recall, Start, Tell, View, Wake};
use atomic_table::Shared;
use std::snapshot::Snapshot;
use std::sync::Wait;
use std::{hint, thread};

/// The shared words of a lock, and the slot with its value.
pub(crate) type Words<V> = Shared<Option<V>, View<V>, Start<V>, ByTurns>;

/// The word with the next ticket.
const TICKET: usize = 0;

/// The word with the ticket whose turn it is.
const TURN: usize = 1;

/// The word with the count of reports.
const COUNT: usize = 2;

/// The first of the words that passes park on, one for each pass.
const PARKING: usize = 3;

/// How often a pass looks before it parks.
const LOOKS: u32 = 64;

/// How many turns one pass takes before it blocks for ever. So the words stay below 2^64.
const TURNS: u64 = 1 << 47;

/// Blocks for ever where a pass has taken all its turns.
pub(crate) fn block_without_turns<R: Wait>(rt: &R, turns: u64)
    ensures { turns < 2 ^ 47 }
{
    if turns < TURNS {
        return;
    }
    for _ in rt.forever() {
        thread::yield_now();
    }
    unreachable!()
}

/// The word that the pass with this ticket parks on. Passes that have a ticket at one time have different words.
fn parking_word(ticket: u64, passes: u32) -> usize
    requires { 1 ≤ passes }
    ensures { (3 ≤ result) × (result < passes + 3) }
{
    (ticket % passes as u64) as usize + PARKING
}

/// Draws a ticket.
fn draw<V: Reports>(words: &Words<V>, seat: &mut Seat<V>) -> u64
    requires table { seat.old.table_id ≡ words.now.table_id }
    requires laid { IsLaid words.now.table_id words.now.key.passes }
    requires idle { (seat.old.me.0.tickets ≡ []) × (seat.old.me.0.turn ≡ false) × (seat.old.me.1 ≡ []) }
    requires turns { seat.old.me.0.turns < 2 ^ 47 * seat.old.me.0.passes }
    ensures table { seat.new.table_id ≡ seat.old.table_id }
    ensures me { seat.new.me ≡ (with_ticket seat.old.me.0 result, []) }
{
    words.fetch_add::<Draw>(seat, TICKET, 1)
}

/// Looks whether it is this ticket's turn.
fn look<V: Reports>(words: &Words<V>, seat: &mut Seat<V>, ticket: u64) -> bool
    requires table { seat.old.table_id ≡ words.now.table_id }
    requires laid { IsLaid words.now.table_id words.now.key.passes }
    requires waits { (seat.old.me.0.tickets ≡ ticket ∷ []) × (seat.old.me.0.turn ≡ false) × (seat.old.me.1 ≡ []) }
    ensures table { seat.new.table_id ≡ seat.old.table_id }
    ensures turn { MatchBool result (Took V.report V.origin seat.old.me seat.new.me) (seat.new.me ≡ seat.old.me) }
{
    words.load::<Look>(seat, TURN) == ticket
}

/// Looks a few times whether it is this ticket's turn.
fn spin<V: Reports>(words: &Words<V>, seat: &mut Seat<V>, ticket: u64) -> bool
    requires table { seat.old.table_id ≡ words.now.table_id }
    requires laid { IsLaid words.now.table_id words.now.key.passes }
    requires waits { (seat.old.me.0.tickets ≡ ticket ∷ []) × (seat.old.me.0.turn ≡ false) × (seat.old.me.1 ≡ []) }
    ensures table { seat.new.table_id ≡ seat.old.table_id }
    ensures turn { MatchBool result (Took V.report V.origin seat.old.me seat.new.me) (seat.new.me ≡ seat.old.me) }
{
    for _ in 0..LOOKS {
        if look(words, seat, ticket) {
            return true;
        }
        hint::spin_loop();
    }
    false
}

/// Parks until it is this ticket's turn. The word is read before the look, so a wake after the look isn't lost.
fn park<V: Reports, R: Wait>(rt: &R, words: &Words<V>, seat: &mut Seat<V>, ticket: u64, word: usize)
    requires table { seat.old.table_id ≡ words.now.table_id }
    requires laid { IsLaid words.now.table_id words.now.key.passes }
    requires waits { (seat.old.me.0.tickets ≡ ticket ∷ []) × (seat.old.me.0.turn ≡ false) × (seat.old.me.1 ≡ []) }
    requires word { word < words.now.table_id.words }
    ensures table { seat.new.table_id ≡ seat.old.table_id }
    ensures turn { Took V.report V.origin seat.old.me seat.new.me }
{
    for _ in rt.forever() {
        let wakes = words.peek(word);
        if look(words, seat, ticket) {
            return;
        }
        words.park(rt, word, (wakes % (1 << 32)) as u32);
    }
    unreachable!()
}

/// Blocks until it is this ticket's turn: it looks a few times, and then parks.
fn wait<V: Reports, R: Wait>(rt: &R, words: &Words<V>, seat: &mut Seat<V>, ticket: u64, word: usize)
    requires table { seat.old.table_id ≡ words.now.table_id }
    requires laid { IsLaid words.now.table_id words.now.key.passes }
    requires waits { (seat.old.me.0.tickets ≡ ticket ∷ []) × (seat.old.me.0.turn ≡ false) × (seat.old.me.1 ≡ []) }
    requires word { word < words.now.table_id.words }
    ensures table { seat.new.table_id ≡ seat.old.table_id }
    ensures turn { Took V.report V.origin seat.old.me seat.new.me }
{
    if spin(words, seat, ticket) {
        return;
    }
    park(rt, words, seat, ticket, word);
}

/// Moves the value out of its slot.
fn move_out<V: Reports>(words: &Words<V>, seat: &mut Seat<V>) -> V
    requires table { seat.old.table_id ≡ words.now.table_id }
    requires value { (value : V) × (seat.old.me.1 ≡ (0, Some value) ∷ []) }
    ensures table { seat.new.table_id ≡ seat.old.table_id }
    ensures value { seat.old.me.1 ≡ (0, Some result) ∷ [] }
    ensures me { seat.new.me ≡ (seat.old.me.0, (0, None) ∷ []) }
{
    words.exchange(seat, 0, None).unwrap()
}

/// Draws a ticket, blocks until its turn, and gives the value.
pub(crate) fn take_turn<V: Reports, R: Wait>(
    rt: &R,
    words: &Words<V>,
    seat: &mut Seat<V>,
    passes: u32,
) -> V
    requires table { seat.old.table_id ≡ words.now.table_id }
    requires laid { IsLaid words.now.table_id words.now.key.passes }
    requires passes { (1 ≤ passes) × (passes ≡ words.now.key.passes) }
    requires idle { (seat.old.me.0.tickets ≡ []) × (seat.old.me.0.turn ≡ false) × (seat.old.me.1 ≡ []) }
    requires turns { seat.old.me.0.turns < 2 ^ 47 * seat.old.me.0.passes }
    ensures table { seat.new.table_id ≡ seat.old.table_id }
    ensures took { TookTurn V.report V.origin result seat.old.me seat.new.me }
{
    let ticket = draw(words, seat);
    wait(rt, words, seat, ticket, parking_word(ticket, passes));
    move_out(words, seat)
}

/// Moves the value back into its slot.
fn move_back<V: Reports>(words: &Words<V>, seat: &mut Seat<V>, value: V)
    requires table { seat.old.table_id ≡ words.now.table_id }
    requires out { seat.old.me.1 ≡ (0, None) ∷ [] }
    ensures table { seat.new.table_id ≡ seat.old.table_id }
    ensures me { seat.new.me ≡ (seat.old.me.0, (0, Some value) ∷ []) }
{
    let None = words.exchange(seat, 0, Some(value)) else {
        unreachable!()
    };
}

/// Reports the value that is back, and which may follow the one that the seat saw last.
fn advance<V: Reports>(words: &Words<V>, seat: &mut Seat<V>, value: &Snapshot<V>)
    requires table { seat.old.table_id ≡ words.now.table_id }
    requires laid { IsLaid words.now.table_id words.now.key.passes }
    requires turn { seat.old.me.0.turn ≡ true }
    requires found { IsLast seat.old.me.0.seen (last_seen words.now.key seat.old.me.0) }
    requires back { seat.old.me.1 ≡ (0, Some value.now.value) ∷ [] }
    requires follows { MayFollow V.report V.origin (last_seen words.now.key seat.old.me.0) value.now.value }
    requires room { length seat.old.me.0.own < 2 ^ 47 * seat.old.me.0.passes }
    ensures table { seat.new.table_id ≡ seat.old.table_id }
    ensures reported { Reports (last_seen words.now.key seat.old.me.0) value.now.value seat.old.me seat.new.me }
{
    words.fetch_add::<Advance>(seat, COUNT, 1);
}

/// Ends the turn, and gives its ticket.
fn leave<V: Reports>(words: &Words<V>, seat: &mut Seat<V>, value: &Snapshot<V>) -> u64
    requires table { seat.old.table_id ≡ words.now.table_id }
    requires laid { IsLaid words.now.table_id words.now.key.passes }
    requires turn { seat.old.me.0.turn ≡ true }
    requires last { IsLast seat.old.me.0.seen value.now.value }
    requires back { seat.old.me.1 ≡ (0, Some value.now.value) ∷ [] }
    ensures table { seat.new.table_id ≡ seat.old.table_id }
    ensures me { seat.new.me ≡ (without_ticket seat.old.me.0, []) }
{
    words.fetch_add::<Leave>(seat, TURN, 1)
}

/// Wakes the pass with this ticket, if one has it.
fn wake_next<V: Reports>(words: &Words<V>, seat: &mut Seat<V>, next: u64, passes: u32)
    requires table { seat.old.table_id ≡ words.now.table_id }
    requires laid { IsLaid words.now.table_id words.now.key.passes }
    requires passes { (1 ≤ passes) × (passes ≡ words.now.key.passes) }
    ensures table { seat.new.table_id ≡ seat.old.table_id }
    ensures me { seat.new.me ≡ seat.old.me }
{
    if words.peek(TICKET) > next {
        let word = parking_word(next, passes);
        words.fetch_add::<Wake>(seat, word, 1);
        words.wake_one(word);
    }
}

/// Gives the value back, reports it, and ends the turn.
pub(crate) fn end_turn<V: Reports>(words: &Words<V>, seat: &mut Seat<V>, value: V, passes: u32)
    requires table { seat.old.table_id ≡ words.now.table_id }
    requires laid { IsLaid words.now.table_id words.now.key.passes }
    requires passes { (1 ≤ passes) × (passes ≡ words.now.key.passes) }
    requires turn { seat.old.me.0.turn ≡ true }
    requires found { IsLast seat.old.me.0.seen (last_seen words.now.key seat.old.me.0) }
    requires out { seat.old.me.1 ≡ (0, None) ∷ [] }
    requires follows { MayFollow V.report V.origin (last_seen words.now.key seat.old.me.0) value }
    requires room { length seat.old.me.0.own < 2 ^ 47 * seat.old.me.0.passes }
    ensures table { seat.new.table_id ≡ seat.old.table_id }
    ensures ended { EndedTurn (last_seen words.now.key seat.old.me.0) value seat.old.me seat.new.me }
{
    let now = Snapshot::of(&value);
    move_back(words, seat, value);
    advance(words, seat, &now);
    let turn = leave(words, seat, &now);
    wake_next(words, seat, turn.wrapping_add(1), passes);
}

/// Reports to the seat `to` what the seat `from` has seen.
fn tell<V: Reports>(words: &Words<V>, from: &mut Seat<V>, to: &mut Seat<V>)
    requires tables { (from.old.table_id ≡ words.now.table_id) × (to.old.table_id ≡ words.now.table_id) }
    requires laid { IsLaid words.now.table_id words.now.key.passes }
    ensures from { (from.new.table_id ≡ from.old.table_id) × (from.new.me ≡ from.old.me) }
    ensures to { (to.new.table_id ≡ to.old.table_id) × (to.new.me ≡ (heard to.old.me.0 from.old.me.0, to.old.me.1)) }
{
    let told = words.split_seat::<Tell>(from);
    words.join_seat::<Hear>(to, told);
}

/// Recalls that the lists that the seat compared last are prefixes of one list.
fn recall<V: Reports>(words: &Words<V>, seat: &mut Seat<V>)
    requires table { seat.old.table_id ≡ words.now.table_id }
    requires laid { IsLaid words.now.table_id words.now.key.passes }
    ensures seat { (seat.new.table_id ≡ seat.old.table_id) × (seat.new.me ≡ seat.old.me) }
    ensures known { IsOne V.report V.origin seat.old.me.0 }
{
    words.load::<Recall>(seat, COUNT);
}

/// Reports to each of two seats what the other has seen.
pub(crate) fn share_seen<V: Reports>(words: &Words<V>, one: &mut Seat<V>, other: &mut Seat<V>)
    requires tables { (one.old.table_id ≡ words.now.table_id) × (other.old.table_id ≡ words.now.table_id) }
    requires laid { IsLaid words.now.table_id words.now.key.passes }
    ensures one { (one.new.table_id ≡ one.old.table_id) × (one.new.me ≡ (heard one.old.me.0 other.old.me.0, one.old.me.1)) }
    ensures other { (other.new.table_id ≡ other.old.table_id) × (other.new.me ≡ (heard other.old.me.0 one.new.me.0, other.old.me.1)) }
    ensures known { IsOne V.report V.origin one.new.me.0 }
{
    tell(words, other, one);
    recall(words, one);
    tell(words, one, other);
}
