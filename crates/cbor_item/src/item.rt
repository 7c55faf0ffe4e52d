//! Items of every kind, passed over without a look at what they hold.
ghost use Rattle.std.specs.Prelude.{◌*◌, length};
ghost use Rattle.cbor_item.specs.Input.{Gives};
ghost use Rattle.cbor_item.specs.Item.{after_item, after_inside, after_string};

use crate::fault::ItemFault;
use crate::head::{Major, place, read_argument};

/// How many arrays, maps and tags may be inside one another.
pub const MAX_DEPTH: u8 = 8;

/// What is left after a string of this length, for the item at this place.
pub fn skip_string(bytes: &[u8], len: u64, at: usize) -> Result<&[u8], ItemFault>
    ensures { Gives (λ x. x.now) result (after_string at len bytes.now) }
{
    if (bytes.len() as u64) < len {
        return Err(ItemFault::Truncated(at));
    }
    Ok(&bytes[len as usize..])
}

/// What is left after the item at the start of the last bytes of an input of `end` bytes, if at most `depth` arrays,
/// maps and tags are inside one another.
#[cycle(skip)]
#[tactic(auto, using(crate::proofs::Skipping::item_is))]
pub fn skip_item(bytes: &[u8], end: usize, depth: u8) -> Result<&[u8], ItemFault>
    ensures { Gives (λ x. x.now) result (after_item depth end bytes.now) }
{
    let (argument, rest) = read_argument(bytes, end)?;
    let at = place(bytes, end);
    match Major::of(bytes[0]) {
        Major::Unsigned => Ok(rest),
        Major::Negative => Ok(rest),
        Major::Bytes => skip_string(rest, argument, at),
        Major::Text => skip_string(rest, argument, at),
        Major::Array => skip_inside(rest, end, argument, depth, at),
        Major::Map => skip_pairs(rest, end, argument, depth, at),
        Major::Tag => skip_inside(rest, end, 1, depth, at),
        Major::Simple => Ok(rest),
    }
}

#[cycle(skip)]
fn skip_pairs(
    bytes: &[u8],
    end: usize,
    count: u64,
    depth: u8,
    at: usize,
) -> Result<&[u8], ItemFault>
    ensures { Gives (λ x. x.now) result (after_inside depth end at (2 * count) bytes.now) }
{
    let half = skip_inside(bytes, end, count, depth, at)?;
    skip_inside(half, end, count, depth, at)
}

#[cycle(skip)]
fn skip_inside(
    bytes: &[u8],
    end: usize,
    count: u64,
    depth: u8,
    at: usize,
) -> Result<&[u8], ItemFault>
    ensures { Gives (λ x. x.now) result (after_inside depth end at count bytes.now) }
{
    if depth == 0 {
        return Err(ItemFault::Deep(at));
    }
    let mut rest = bytes;
    for _ in 0..count {
        rest = skip_item(rest, end, depth - 1)?;
    }
    Ok(rest)
}
