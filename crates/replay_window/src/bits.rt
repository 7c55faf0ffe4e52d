//! The 32 bits of a window: bit 0 is the greatest number, bit i the number i below it.
ghost use Rattle.std.specs.Prelude.{◌≡◌, ◌==◌, ◌<◌};
ghost use Rattle.std.specs.Int.{bit_at};
ghost use Rattle.replay_window.specs.Bits.{AreMovedUp, AreMarked};

/// How many numbers a window has, from the greatest down.
pub(crate) const SIZE: u64 = 32;

/// Whether the bit at this place, from 0, is set.
pub(crate) fn is_marked(bits: u32, place: u64) -> bool
    requires { place < 32 }
    ensures { result ≡ (bit_at bits place == 1) }
{
    bits >> place & 1 == 1
}

/// Sets the bit at this place, from 0.
pub(crate) fn mark(bits: u32, place: u64) -> u32
    requires { place < 32 }
    ensures { AreMarked bits place result }
{
    bits | 1 << place
}

/// Moves each bit `by` places up, by at least one, and sets bit 0. Bits past place 31 are lost.
///
/// ```text
/// before   31 .. i .. 1 0        the greatest number g at place 0
/// after    31 .. i + by .. by .. 0        g + by at place 0, g at place by, none between
/// ```
pub(crate) fn move_up(bits: u32, by: u64) -> u32
    requires { 0 < by }
    ensures { AreMovedUp bits by result }
{
    if by < SIZE { bits << by | 1 } else { 1 }
}
