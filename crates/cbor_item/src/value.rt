//! Values of one kind: whole numbers with a sign, strings, null.
ghost use Rattle.std.specs.Prelude.{◌<◌, ◌^◌, IfOk};
ghost use Rattle.cbor_item.specs.Input.{Gives};
ghost use Rattle.cbor_item.specs.Reading.{magnitude_at, int_at, string_at, null_at};

use crate::fault::ItemFault;
use crate::head::{Major, place, read_argument, read_argument_of};
use crate::item::skip_string;

/// The byte of simple value 22.
const NULL: u8 = 0xf6;

fn read_magnitude(bytes: &[u8], end: usize) -> Result<(u64, &[u8]), ItemFault>
    ensures exact { Gives (λ x. (x.0, x.1.now)) result (magnitude_at end bytes.now) }
    ensures small { IfOk result (λ x. x.0 < 2 ^ 63) }
{
    let (argument, rest) = read_argument(bytes, end)?;
    if argument > i64::MAX as u64 {
        return Err(ItemFault::Kind(place(bytes, end)));
    }
    Ok((argument, rest))
}

/// The whole number at the start.
#[tactic(auto, unfolding(crate::specs::Reading::int_at))]
pub fn read_int(bytes: &[u8], end: usize) -> Result<(i64, &[u8]), ItemFault>
    ensures { Gives (λ x. (x.0, x.1.now)) result (int_at end bytes.now) }
{
    let at = place(bytes, end);
    let [first, ..] = bytes else {
        return Err(ItemFault::Truncated(at));
    };
    match Major::of(*first) {
        Major::Unsigned => {
            let (magnitude, rest) = read_magnitude(bytes, end)?;
            Ok((magnitude as i64, rest))
        }
        Major::Negative => {
            let (magnitude, rest) = read_magnitude(bytes, end)?;
            Ok((-1 - magnitude as i64, rest))
        }
        _ => Err(ItemFault::Kind(at)),
    }
}

/// The bytes of the string of this kind at the start.
#[tactic(auto, unfolding(crate::specs::Reading::string_at))]
pub fn read_string(kind: Major, bytes: &[u8], end: usize) -> Result<(&[u8], &[u8]), ItemFault>
    ensures { Gives (λ x. (x.0.now, x.1.now)) result (string_at kind end bytes.now) }
{
    let at = place(bytes, end);
    let (len, content) = read_argument_of(kind, bytes, end)?;
    let rest = skip_string(content, len, at)?;
    Ok((&content[..len as usize], rest))
}

/// What is left after the null at the start.
#[tactic(auto, unfolding(crate::specs::Reading::null_at))]
pub fn read_null(bytes: &[u8], end: usize) -> Result<&[u8], ItemFault>
    ensures { Gives (λ x. (tt, x.now)) result (null_at end bytes.now) }
{
    let at = place(bytes, end);
    let [first, ..] = bytes else {
        return Err(ItemFault::Truncated(at));
    };
    let (_, rest) = read_argument_of(Major::Simple, bytes, end)?;
    if *first != NULL {
        return Err(ItemFault::Kind(at));
    }
    Ok(rest)
}
