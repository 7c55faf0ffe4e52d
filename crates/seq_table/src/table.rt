//! The table of the contexts' words.
ghost use Rattle.std.specs.Prelude.{◌≡◌, ℕ, ◌+◌, ◌-◌, ◌^◌, ◌<◌, ◌≤◌, ◌≢◌, ◌↔◌, ◌∷◌, ◌++◌, [], All, AllPairs, MatchOption, IfOk, IfErr, IfSome, IfNone, IsOk, IsErr, IsNone, OnOk, length, replicate, slice_index};
ghost use Rattle.seq_table.specs.Views.{numbers_of};
ghost use Rattle.seq_table.specs.Draws.{number_of, IsNamed};
ghost use Rattle.std.specs.Mem.Slots.{slots_items, slots_len, IsFull};
ghost use Rattle.seq_table.specs.Ends.{Gathers, EndsWith};
ghost use Rattle.seq_table.specs.Seats.{numbers_over, parts_over, new_seat, with_draw, with_one_split_less, joined};

use crate::draw::Draw;
use crate::rule::{Apart, DrawnOnce, Draws, Together, View};
use crate::seat::{Place, Seat};
use crate::seat_full::SeatFull;
use atomic_table::{Closed, Shared, Table};
use edge_traits::NoMemory;
use std::alloc::{AllocError, Global};
use std::marker::Model;

/// The first number that no message may bear (RFC 8613, section 7.2.1).
const NUMBERS: u64 = 1 << 40;

/// All draws that one seat makes.
const DRAWS: u32 = 1 << 24;

type Words = Table<(), View, Vec<u64>, DrawnOnce, Global>;

/// The words at the start: each base, and one word more, which a split or a join loads.
fn first_words(alloc: Global, bases: &[u64]) -> Result<Vec<u64>, AllocError>
    ensures { IfOk result (λ words. words.items ≡ bases.now ++ 0 ∷ []) }
{
    let mut words = Vec::with_capacity(alloc, bases.len().saturating_add(1))?;
    words.extend_from_slice(bases)?;
    words.push(0)?;
    Ok(words)
}

/// A word for each context, from which seats draw.
#[derive(Drop)]
pub struct SeqTable {
    table: Words,
    room: Vec<u64>,
}

impl Model for SeqTable {
    ghost use Rattle.std.specs.Prelude.{◌≡◌, ◌+◌, length};
    ghost use Rattle.seq_table.specs.Seats.{Table as TableView};

    ghost Value = { TableView };

    ghost view = { λ t. record { id = t.table.shared.table_id; bases = t.room.items } };

    ghost invariant = { λ t. (t.table.shared.key.items ≡ t.room.items) × (t.table.shared.table_id.words ≡ length t.room.items + 1) × (t.table.shared.table_id.slots ≡ 0) };
}

impl SeqTable {
    /// A table with a word for each context, which starts at the context's base, and `seats` seats. The first seat may be
    /// split until there are 65,535 in all.
    pub fn new(alloc: Global, bases: &[u64], seats: u32) -> Result<(SeqTable, Vec<Seat>), NoMemory>
        requires bases { All (λ base. base ≤ 2 ^ 40) bases.now }
        requires seats { (1 ≤ seats) × (seats ≤ 65535) }
        ensures bases { IfOk result (λ made. made.0.bases ≡ bases.now) }
        ensures seats { IfOk result (λ made. made.1.items ≡ new_seat made.0 (65535 - seats) ∷ replicate (seats - 1) (new_seat made.0 0)) }
    {
        let room = Vec::from_slice(alloc, bases)?;
        let words = first_words(alloc, bases)?;
        let (table, place) = Table::of_words(alloc, words.as_slice(), &room)?;
        let table = SeqTable { table, room };
        let seats = table.deal(alloc, Seat { place, made: 0 }, seats)?;
        Ok((table, seats))
    }

    /// `seats` seats, cut from the first.
    fn deal(&self, alloc: Global, mut first: Seat, seats: u32) -> Result<Vec<Seat>, AllocError>
        requires first { first ≡ new_seat self.now 65534 }
        requires seats { (1 ≤ seats) × (seats ≤ 65535) }
        ensures { IfOk result (λ dealt. dealt.items ≡ new_seat self.now (65535 - seats) ∷ replicate (seats - 1) (new_seat self.now 0)) }
    {
        let mut dealt = Vec::with_capacity(alloc, seats as usize)?;
        for _ in 1..seats {
            dealt.push(self.split_off(&mut first))?;
        }
        dealt.insert(0, first)?;
        Ok(dealt)
    }

    /// Draws a number of the context for the seat.
    pub fn draw(&self, seat: &mut Seat, context: u32) -> Draw
        requires seat { seat.old.table ≡ self.now }
        requires context { context < length self.now.bases }
        ensures table { seat.new.table ≡ seat.old.table }
        ensures named { IsNamed result }
        ensures full { IsNone (number_of result) ↔ (length seat.old.drawn ≡ 2 ^ 24) }
        ensures drawn { IfSome (number_of result) (λ number. seat.new ≡ with_draw seat.old context number) }
        ensures from_base { IfSome (number_of result) (λ number. slice_index self.now.bases context ≤ number) }
        ensures rising { IfSome (number_of result) (λ number. All (λ n. n < number) (numbers_of context seat.old.drawn)) }
        ensures unchanged { IfNone (number_of result) (seat.new ≡ seat.old) }
    {
        if seat.made == DRAWS {
            return Draw::SeatFull(seat.made);
        }
        let number = self
            .table
            .shared
            .fetch_add::<Draws>(&mut seat.place, context as usize, 1);
        seat.made += 1;
        if number >= NUMBERS {
            Draw::Spent(number)
        } else {
            Draw::Number(number)
        }
    }

    /// A second seat, which has drawn nothing and may not be split. It takes no memory.
    pub fn split(&self, seat: &mut Seat) -> Result<Seat, NoMemory>
        requires seat { seat.old.table ≡ self.now }
        requires left { 0 < seat.old.splits }
        ensures new { IfOk result (λ new. new ≡ new_seat self.now 0) }
        ensures seat { seat.new ≡ with_one_split_less seat.old }
        ensures always { IsOk result }
    {
        Ok(self.split_off(seat))
    }

    fn split_off(&self, seat: &mut Seat) -> Seat
        requires seat { seat.old.table ≡ self.now }
        requires left { 0 < seat.old.splits }
        ensures new { result ≡ new_seat self.now 0 }
        ensures seat { seat.new ≡ with_one_split_less seat.old }
    {
        let place = self.table.shared.split_seat::<Apart>(&mut seat.place);
        Seat { place, made: 0 }
    }

    /// One seat for two, unless they have made more draws than a seat makes: then both stay as they are.
    pub fn join(&self, seat: &mut Seat, other: Seat) -> Result<(), (Seat, SeatFull)>
        requires seat { seat.old.table ≡ self.now }
        requires other { other.table ≡ self.now }
        ensures table { seat.new.table ≡ seat.old.table }
        ensures joined { OnOk result (seat.new ≡ joined seat.old other) }
        ensures full { IsErr result ↔ (2 ^ 24 < length seat.old.drawn + length other.drawn) }
        ensures unchanged { IfErr result (λ refused. (seat.new ≡ seat.old) × (refused.0 ≡ other)) }
        ensures draws { IfErr result (λ refused. refused.1.draws ≡ length seat.old.drawn + length other.drawn) }
    {
        let draws = seat.made + other.made;
        if draws > DRAWS {
            return Err((other, SeatFull { draws }));
        }
        let Seat { place, made: _ } = other;
        self.table
            .shared
            .join_seat::<Together>(&mut seat.place, place);
        seat.made = draws;
        Ok(())
    }

    /// Ends the table, and gives the words as they are. It takes no memory. `whole` is for a caller that hands in all
    /// seats that were made.
    pub fn close(self, seats: Vec<Seat>) -> Vec<u64>
        requires { All (λ seat. seat.table ≡ self) seats.items }
        ensures words { length result.items ≡ length self.bases }
        ensures distinct { (context : ℕ) → context < length self.bases → AllPairs (λ m n. m ≢ n) (numbers_over context seats.items) }
        ensures within { (context : ℕ) → context < length self.bases
            → All (λ n. (slice_index self.bases context ≤ n) × (n < slice_index result.items context)) (numbers_over context seats.items) }
        ensures counted { (context : ℕ) → context < length self.bases
            → slice_index self.bases context + length (numbers_over context seats.items) ≤ slice_index result.items context }
        ensures whole { parts_over seats.items ≡ 65535 → (context : ℕ) → context < length self.bases
            → slice_index result.items context ≡ slice_index self.bases context + length (numbers_over context seats.items) }
    {
        let SeqTable { table, mut room } = self;
        let closed = close_words(table, seats);
        read_words(&closed, &mut room);
        closed.free();
        room
    }
}

/// Closes the table with all seats joined into one.
fn close_words(table: Words, seats: Vec<Seat>) -> Closed<(), Global>
    requires seats { All (λ seat. seat.table ≡ record { id = table.shared.table_id; bases = table.shared.key.items }) seats.items }
    requires words { table.shared.table_id.words ≡ length table.shared.key.items + 1 }
    ensures counts { (slots_len result.words ≡ table.shared.table_id.words) × (slots_len result.slots ≡ table.shared.table_id.slots) }
    ensures full { IsFull result.words }
    ensures ends { EndsWith table.shared.key.items (slots_items result.words) seats.items }
{
    match gather(&table.shared, seats) {
        Some(place) => table.close_with(place),
        None => table.close(),
    }
}

/// One seat of the table for all of these.
fn gather(shared: &Shared<(), View, Vec<u64>, DrawnOnce>, mut seats: Vec<Seat>) -> Option<Place>
    requires seats { All (λ seat. seat.table ≡ record { id = shared.now.table_id; bases = shared.now.key.items }) seats.items }
    requires words { 0 < shared.now.table_id.words }
    ensures { MatchOption result (seats.items ≡ []) (λ place. (place.table_id ≡ shared.now.table_id) × Gathers place.me.0 [] seats.items) }
{
    let Seat { mut place, made: _ } = seats.pop()?;
    while let Some(other) = seats.pop() {
        let Seat {
            place: next,
            made: _,
        } = other;
        shared.join_seat::<Together>(&mut place, next);
    }
    Some(place)
}

/// The contexts' words.
fn read_words(closed: &Closed<(), Global>, room: &mut Vec<u64>)
    requires words { IsFull closed.now.words × (length room.old.items < slots_len closed.now.words) }
    ensures length { length room.new.items ≡ length room.old.items }
    ensures words { (context : ℕ) → context < length room.new.items → slice_index room.new.items context ≡ slice_index (slots_items closed.now.words) context }
{
    for context in 0..room.len() {
        room[context] = closed.word(context);
    }
}
