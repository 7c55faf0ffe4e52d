//! A window beside the list of its numbers, and its parts at their edges.
use crate::judged::Judged;
use crate::window::Window;
use std::alloc::{AllocError, Global};
use std::test::Fail;

/// Judges the number, and takes it where it is fresh.
fn offer(window: &mut Window, number: u64) -> Judged {
    let judged = window.judge(number);
    match judged {
        Judged::Fresh => window.take(number),
        Judged::Taken | Judged::Old => {},
    }
    judged
}

/// The judgement by the whole list.
fn judge_by_list(numbers: &[u64], number: u64) -> Judged {
    if numbers
        .iter()
        .any(|taken| *taken >= 32 && *taken - 32 >= number)
    {
        return Judged::Old;
    }
    if numbers.contains(&number) {
        Judged::Taken
    } else {
        Judged::Fresh
    }
}

#[test]
fn old_is_32_below_the_greatest(rt: HostRuntime) {
    let mut window = Window::empty();
    let offers = [
        (40, Judged::Fresh),
        (8, Judged::Old),
        (9, Judged::Fresh),
        (40, Judged::Taken),
        (9, Judged::Taken),
        (41, Judged::Fresh),
        (9, Judged::Old),
        (10, Judged::Fresh),
        (1000, Judged::Fresh),
        (968, Judged::Old),
        (969, Judged::Fresh),
        (41, Judged::Old),
        (u64::MAX, Judged::Fresh),
        (u64::MAX - 31, Judged::Fresh),
        (u64::MAX - 32, Judged::Old),
    ];
    for (number, want) in offers {
        assert_eq!(rt; offer(&mut window, number), want, "at {number}");
    }
}

#[test]
fn bit_i_is_the_greatest_minus_i(rt: HostRuntime) {
    let mut window = Window::empty();
    assert_eq!(rt; window.parts(), None);
    offer(&mut window, 9);
    assert_eq!(rt; window.parts(), Some((9, 1)));
    offer(&mut window, 40);
    assert_eq!(rt; window.parts(), Some((40, 0x8000_0001)));
    offer(&mut window, 38);
    assert_eq!(rt; window.parts(), Some((40, 0x8000_0005)));
    offer(&mut window, 41);
    assert_eq!(rt; window.parts(), Some((41, 0x0000_000b)));
    offer(&mut window, 72);
    assert_eq!(rt; window.parts(), Some((72, 0x8000_0001)));
    offer(&mut window, 104);
    assert_eq!(rt; window.parts(), Some((104, 1)));
}

#[test]
fn parts_give_the_same_window(rt: HostRuntime) {
    let mut window = Window::of_parts(40, 0x8000_0001);
    assert_eq!(rt; window.parts(), Some((40, 0x8000_0001)));
    assert_eq!(rt; offer(&mut window, 9), Judged::Taken);
    assert_eq!(rt; offer(&mut window, 8), Judged::Old);
    assert_eq!(rt; offer(&mut window, 39), Judged::Fresh);
}

/// The judgements of 2,000 numbers that wander, beside those of the list.
fn judge_many(alloc: Global) -> Result<u32, AllocError> {
    let mut window = Window::empty();
    let mut numbers = Vec::new(alloc);
    let mut seed = 7u64;
    let mut differ = 0u32;
    for turn in 0..2000u64 {
        seed = seed
            .wrapping_mul(6364136223846793005)
            .wrapping_add(1442695040888963407);
        let number = turn / 4 + (seed >> 33) % 40;
        let want = judge_by_list(numbers.as_slice(), number);
        if offer(&mut window, number) != want {
            differ = differ.saturating_add(1);
        }
        if want == Judged::Fresh {
            numbers.push(number)?;
        }
    }
    Ok(differ)
}

#[test]
fn judges_as_the_list_does(rt: HostRuntime) -> Result<(), Fail> {
    assert_eq!(rt; judge_many(rt.alloc())?, 0);
    Ok(())
}
