//! Link-layer keys, and sets of them (RFC 9031, 8.4.3).
ghost use Rattle.std.specs.Prelude.{◌≡◌, []};
ghost use Rattle.cbor_cojp.specs.Fault.{Reads};
ghost use Rattle.cbor_cojp.specs.Key.{used_view, made_view, is_next, usage_at, info_at, key_at, extra_item, keys_at, key_set_at};

use crate::fault::CojpFault;
use crate::value::{bounded_array, bounded_uint, bytes_within, int_within, sized};
use arrayvec::ArrayVec;
use cbor_item::{ItemFault, Major, Reader};

/// A key for frames of the link layer.
#[derive(Clone, Copy, Debug, Default, PartialEq, Eq)]
pub struct LinkKey {
    /// The key index, 1 to 255.
    pub id: u8,
    /// What frames the key is for, 0 to 14 (RFC 9031, 8.4.3.1).
    pub usage: u8,
    pub value: [u8; 16],
}

fn is_next(reader: &Reader<'_>, major: Major) -> bool
    ensures { result ≡ is_next major reader.now.left }
{
    match reader.peek() {
        None => false,
        Some(first) => Major::of(first).code() == major.code(),
    }
}

/// The usage, if there is one, and how many items are left beside the key's id and value. An absent usage is 0.
#[tactic(auto, unfolding(crate::specs::Key::usage_at))]
fn read_usage(reader: &mut Reader<'_>, spare: u64) -> Result<(u8, u64), CojpFault>
    ensures { Reads used_view reader.old reader.new result (usage_at spare reader.old.end reader.old.left) }
{
    if spare == 0 {
        return Ok((0, 0));
    }
    if !is_next(reader, Major::Unsigned) && !is_next(reader, Major::Negative) {
        return Ok((0, spare));
    }
    match int_within(reader, 2)? {
        usage @ 0..=14 => Ok((usage as u8, spare - 1)),
        _ => Err(CojpFault::Malformed(2)),
    }
}

/// Passes over additional information, if there is some, and gives how many items are left of the array.
#[tactic(auto, unfolding(crate::specs::Key::info_at))]
fn skip_info(reader: &mut Reader<'_>, left: u64) -> Result<u64, CojpFault>
    ensures { Reads (λ x. x) reader.old reader.new result (info_at left reader.old.end reader.old.left) }
{
    if left == 0 || !is_next(reader, Major::Bytes) {
        return Ok(left);
    }
    bytes_within(reader, 2)?;
    Ok(left - 1)
}

/// A key, where `spare` items are left beside its id and its value, and how many items of the array remain.
#[tactic(auto, unfolding(crate::specs::Key::key_at))]
fn read_key(reader: &mut Reader<'_>, spare: u64) -> Result<(LinkKey, u64), CojpFault>
    ensures { Reads made_view reader.old reader.new result (key_at spare reader.old.end reader.old.left) }
{
    let id = bounded_uint(reader, 2, 1, 255)? as u8;
    let (usage, spare) = read_usage(reader, spare)?;
    let value = sized(reader, 2)?;
    let left = skip_info(reader, spare)?;
    Ok((LinkKey { id, usage, value }, left))
}

/// The fault where items are left in which no key fits.
fn extra_item(reader: &Reader<'_>) -> CojpFault
    ensures { result ≡ extra_item reader.now.end reader.now.left }
{
    match reader.peek() {
        None => CojpFault::Form(ItemFault::Truncated(reader.place())),
        Some(_) => CojpFault::Malformed(2),
    }
}

fn read_keys(reader: &mut Reader<'_>, count: u64) -> Result<ArrayVec<LinkKey, 8>, CojpFault>
    ensures { Reads (λ v. v.items) reader.old reader.new result (keys_at 8 count [] reader.old.end reader.old.left) }
{
    let mut keys = ArrayVec::new();
    let mut left = count;
    while left > 0 {
        if left == 1 || keys.is_full() {
            return Err(extra_item(reader));
        }
        let (key, after) = read_key(reader, left - 2)?;
        keys.push(key);
        left = after;
    }
    Ok(keys)
}

/// A set of one to eight keys.
#[tactic(auto, unfolding(crate::specs::Key::key_set_at))]
pub fn read_key_set(reader: &mut Reader<'_>) -> Result<ArrayVec<LinkKey, 8>, CojpFault>
    ensures { Reads (λ v. v.items) reader.old reader.new result (key_set_at reader.old.end reader.old.left) }
{
    let count = bounded_array(reader, 2, 2, 32)?;
    read_keys(reader, count)
}
