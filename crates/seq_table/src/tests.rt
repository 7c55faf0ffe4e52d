ghost use Rattle.std.specs.Prelude.{◌≡◌, ◌<◌, All, IfOk, IfSome, length, vec_len};
ghost use Rattle.seq_table.specs.Seats.{new_seat};

use crate::{Draw, Seat, SeqTable};
use edge_traits::NoMemory;
use std::alloc::{AllocError, Global};
use std::test::Fail;
use std::thread;

/// Each draw in turn by the next seat.
fn draw_in_turn(
    alloc: Global,
    table: &SeqTable,
    seats: &mut Vec<Seat>,
    draws: usize,
) -> Result<Vec<Draw>, AllocError>
    requires seats { (0 < vec_len seats.old) × All (λ seat. seat.table ≡ table.now) seats.old.items }
    requires context { 0 < length table.now.bases }
    ensures { IfOk result (λ _. All (λ seat. seat.table ≡ table.now) seats.new.items) }
{
    let mut drawn = Vec::new(alloc);
    for turn in 0..draws {
        let place = turn % seats.len();
        let seat = &mut seats[place];
        drawn.push(table.draw(seat, 0))?;
    }
    Ok(drawn)
}

/// Two contexts in turn.
fn draw_many(
    alloc: Global,
    table: &SeqTable,
    mut seat: Seat,
    draws: u32,
) -> Result<Vec<(u32, u64)>, AllocError>
    requires seat { seat.table ≡ table.now }
    requires contexts { length table.now.bases ≡ 2 }
{
    let mut drawn = Vec::new(alloc);
    for turn in 0..draws {
        let context = turn % 2;
        if let Draw::Number(number) = table.draw(&mut seat, context) {
            drawn.push((context, number))?;
        }
    }
    Ok(drawn)
}

#[test]
fn seats_of_one_table_share_its_numbers(rt: HostRuntime) -> Result<(), Fail> {
    let (table, mut seats) = SeqTable::new(rt.alloc(), &[0, 7], 3)?;
    assert_eq!(rt; seats.len(), 3);
    let drawn = draw_in_turn(rt.alloc(), &table, &mut seats, 64)?;
    for (at, draw) in drawn.iter().enumerate() {
        assert_eq!(rt; *draw, Draw::Number(at as u64));
    }
    assert_eq!(rt; table.close(seats).as_slice(), [64, 7].as_slice());
    Ok(())
}

#[test]
fn numbers_end_below_two_to_the_fortieth(rt: HostRuntime) -> Result<(), Fail> {
    let last = (1 << 40) - 1;
    let cases = [
        (
            last,
            [
                Draw::Number(last),
                Draw::Spent(1 << 40),
                Draw::Spent((1 << 40) + 1),
            ],
        ),
        (
            1 << 40,
            [
                Draw::Spent(1 << 40),
                Draw::Spent((1 << 40) + 1),
                Draw::Spent((1 << 40) + 2),
            ],
        ),
    ];
    for (base, wanted) in cases {
        assert!(rt; base <= 1 << 40);
        let (table, mut seats) = SeqTable::new(rt.alloc(), &[base], 1)?;
        let drawn = draw_in_turn(rt.alloc(), &table, &mut seats, 3)?;
        assert_eq!(rt; drawn.as_slice(), wanted.as_slice());
    }
    Ok(())
}

/// All draws of the context that the seat has left.
fn fill(table: &SeqTable, seat: &mut Seat)
    requires seat { seat.old.table ≡ table.now }
    requires context { 0 < length table.now.bases }
    ensures { seat.new.table ≡ table.now }
{
    for _ in 0..(1 << 24) {
        table.draw(seat, 0);
    }
}

/// The last seat of these.
fn take_seat(table: &SeqTable, seats: &mut Vec<Seat>) -> Option<Seat>
    requires { All (λ seat. seat.table ≡ table.now) seats.old.items }
    ensures taken { IfSome result (λ seat. seat.table ≡ table.now) }
    ensures rest { All (λ seat. seat.table ≡ table.now) seats.new.items }
{
    seats.pop()
}

#[test]
fn a_seat_makes_two_to_the_twenty_fourth_draws(rt: HostRuntime) -> Result<(), Fail> {
    let (table, mut seats) = SeqTable::new(rt.alloc(), &[0], 2)?;
    let Some(mut full) = take_seat(&table, &mut seats) else {
        return Ok(())
    };
    let Some(mut seat) = take_seat(&table, &mut seats) else {
        return Ok(())
    };
    assert_eq!(rt; table.draw(&mut seat, 0), Draw::Number(0));
    fill(&table, &mut full);
    assert_eq!(rt; (seat.draws(), full.draws()), (1, 16_777_216));
    assert_eq!(rt; table.draw(&mut full, 0), Draw::SeatFull(16_777_216));
    let Err((mut seat, refused)) = table.join(&mut full, seat) else {
        panic!(rt; "a seat took more draws than it makes")
    };
    assert_eq!(rt; refused.draws, 16_777_217);
    assert_eq!(rt; table.draw(&mut seat, 0), Draw::Number(16_777_217));
    seats.push(seat)?;
    seats.push(full)?;
    assert_eq!(rt; table.close(seats).as_slice(), [16_777_218].as_slice());
    Ok(())
}

/// A draw of a new seat, one of the seat that is split off from it, and how many draws both have made once they are one.
fn split_and_join(table: &SeqTable, seat: &mut Seat) -> Result<(Draw, Draw, u32), NoMemory>
    requires seat { seat.old ≡ new_seat table.now 65534 }
    requires context { 0 < length table.now.bases }
{
    let first = table.draw(seat, 0);
    let mut other = table.split(seat)?;
    let second = table.draw(&mut other, 0);
    if table.join(seat, other).is_err() {
        return Err(NoMemory);
    }
    Ok((first, second, seat.draws()))
}

#[test]
fn a_seat_that_is_split_off_draws_the_next_number(rt: HostRuntime) -> Result<(), Fail> {
    let (table, mut seats) = SeqTable::new(rt.alloc(), &[0], 1)?;
    let (first, second, draws) = split_and_join(&table, &mut seats[0])?;
    assert_eq!(rt; (first, second), (Draw::Number(0), Draw::Number(1)));
    assert_eq!(rt; draws, 2);
    Ok(())
}

#[test]
fn numbers_that_four_threads_draw_differ(rt: HostRuntime) -> Result<(), Fail> {
    let alloc = rt.alloc();
    let (table, seats) = SeqTable::new(alloc, &[0, 0], 4)?;
    let lists = thread::map_vec(
        &rt,
        seats,
        &|seat: Seat| -> Result<Vec<(u32, u64)>, AllocError>
            requires { (seat.table ≡ table) × (length table.bases ≡ 2) }
        { draw_many(alloc, &table, seat, 100_000) },
    )?;
    let mut drawn = Vec::new(alloc);
    for list in lists {
        drawn.extend_from_slice(list?.as_slice())?;
    }
    drawn.sort()?;
    assert_eq!(rt; drawn.len(), 400_000);
    for (at, draw) in drawn.iter().enumerate() {
        assert_eq!(rt; *draw, ((at / 200_000) as u32, (at % 200_000) as u64));
    }
    assert_eq!(rt;
        table.close(Vec::new(alloc)).as_slice(),
        [200_000, 200_000].as_slice()
    );
    Ok(())
}
