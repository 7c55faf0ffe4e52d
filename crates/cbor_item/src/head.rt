//! Heads of items (RFC 8949, 3).
ghost use Rattle.std.specs.Prelude.{◌≡◌, ◌<◌, ◌-◌, length, OnOk};
ghost use Rattle.std.specs.Int.{w8, w16, w32, w64};
ghost use Rattle.cbor_item.specs.Input.{Gives};
ghost use Rattle.cbor_item.specs.Head.{code_of, major_of, number_at, argument_by, argument_at, argument_of};

use crate::fault::ItemFault;

/// The major types (RFC 8949, 3.1).
#[derive(Clone, Copy, Debug, PartialEq, Eq)]
pub enum Major {
    Unsigned,
    Negative,
    Bytes,
    Text,
    Array,
    Map,
    Tag,
    Simple,
}

impl Major {
    /// The number in the upper three bits of a head's first byte.
    pub const fn code(self) -> u8
        ensures code { result ≡ code_of self }
        ensures small { result < 8 }
    {
        match self {
            Major::Unsigned => 0,
            Major::Negative => 1,
            Major::Bytes => 2,
            Major::Text => 3,
            Major::Array => 4,
            Major::Map => 5,
            Major::Tag => 6,
            Major::Simple => 7,
        }
    }

    /// The major type of the head that begins with this byte.
    pub const fn of(first: u8) -> Major
        ensures { result ≡ major_of first }
    {
        match first / 32 {
            0 => Major::Unsigned,
            1 => Major::Negative,
            2 => Major::Bytes,
            3 => Major::Text,
            4 => Major::Array,
            5 => Major::Map,
            6 => Major::Tag,
            _ => Major::Simple,
        }
    }
}

fn u8_at(bytes: &[u8], at: usize) -> Result<(u64, &[u8]), ItemFault>
    ensures { Gives (λ x. (x.0, x.1.now)) result (number_at w8 at bytes.now) }
{
    match bytes {
        [first, rest @ ..] => Ok((u64::from(*first), rest)),
        [] => Err(ItemFault::Truncated(at)),
    }
}

fn u16_at(bytes: &[u8], at: usize) -> Result<(u64, &[u8]), ItemFault>
    ensures { Gives (λ x. (x.0, x.1.now)) result (number_at w16 at bytes.now) }
{
    if bytes.len() < 2 {
        return Err(ItemFault::Truncated(at));
    }
    let (front, rest) = bytes.split_at(2);
    let number = u16::from_be_bytes([front[0], front[1]]);
    Ok((u64::from(number), rest))
}

fn u32_at(bytes: &[u8], at: usize) -> Result<(u64, &[u8]), ItemFault>
    ensures { Gives (λ x. (x.0, x.1.now)) result (number_at w32 at bytes.now) }
{
    if bytes.len() < 4 {
        return Err(ItemFault::Truncated(at));
    }
    let (front, rest) = bytes.split_at(4);
    let number = u32::from_be_bytes([front[0], front[1], front[2], front[3]]);
    Ok((u64::from(number), rest))
}

fn u64_at(bytes: &[u8], at: usize) -> Result<(u64, &[u8]), ItemFault>
    ensures { Gives (λ x. (x.0, x.1.now)) result (number_at w64 at bytes.now) }
{
    if bytes.len() < 8 {
        return Err(ItemFault::Truncated(at));
    }
    let (front, rest) = bytes.split_at(8);
    let number = u64::from_be_bytes([
        front[0], front[1], front[2], front[3], front[4], front[5], front[6], front[7],
    ]);
    Ok((number, rest))
}

#[tactic(auto, unfolding(crate::specs::Head::argument_by))]
fn argument_by(info: u8, bytes: &[u8], at: usize) -> Result<(u64, &[u8]), ItemFault>
    ensures { Gives (λ x. (x.0, x.1.now)) result (argument_by info at bytes.now) }
{
    match info {
        0..=23 => Ok((u64::from(info), bytes)),
        24 => u8_at(bytes, at),
        25 => u16_at(bytes, at),
        26 => u32_at(bytes, at),
        27 => u64_at(bytes, at),
        31 => Err(ItemFault::Indefinite(at)),
        _ => Err(ItemFault::Kind(at)),
    }
}

/// How many bytes of an input of `end` bytes come before these, its last ones.
pub fn place(bytes: &[u8], end: usize) -> usize
    ensures { result ≡ end - length bytes.now }
{
    end.saturating_sub(bytes.len())
}

/// The argument of the head at the start of the last bytes of an input of `end` bytes, and the bytes after the head.
#[tactic(auto, unfolding(crate::specs::Head::argument_at))]
pub fn read_argument(bytes: &[u8], end: usize) -> Result<(u64, &[u8]), ItemFault>
    ensures exact { Gives (λ x. (x.0, x.1.now)) result (argument_at end bytes.now) }
    ensures begun { OnOk result (0 < length bytes.now) }
{
    let at = place(bytes, end);
    match bytes {
        [] => Err(ItemFault::Truncated(at)),
        [first, rest @ ..] => argument_by(*first % 32, rest, at),
    }
}

/// The same where the head is of this major type.
#[tactic(auto, unfolding(crate::specs::Head::argument_of))]
pub fn read_argument_of(major: Major, bytes: &[u8], end: usize) -> Result<(u64, &[u8]), ItemFault>
    ensures { Gives (λ x. (x.0, x.1.now)) result (argument_of major end bytes.now) }
{
    let at = place(bytes, end);
    match bytes {
        [] => Err(ItemFault::Truncated(at)),
        [first, ..] => {
            if Major::of(*first).code() == major.code() {
                read_argument(bytes, end)
            } else {
                Err(ItemFault::Kind(at))
            }
        }
    }
}
