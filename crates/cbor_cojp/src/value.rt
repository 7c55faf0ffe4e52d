//! Values of known labels, read from a reader. Each fault of kind or range is one of the label.
ghost use Rattle.std.specs.Prelude.{◌≡◌, ◌≤◌, IfOk, length};
ghost use Rattle.cbor_item.specs.declared.head.Major.TheVariants.{Unsigned, Bytes, Array};
ghost use Rattle.cbor_item.specs.Head.{argument_of};
ghost use Rattle.cbor_item.specs.Reading.{int_at, string_at, length_at, skip_at};
ghost use Rattle.cbor_cojp.specs.Fault.{fault_within, form, within, Reads};
ghost use Rattle.cbor_cojp.specs.Values.{bounded_at, sized_at};

use crate::fault::CojpFault;
use cbor_item::{ItemFault, Reader};

/// The fault of an item in the value of this label.
pub fn fault_within(label: u8, fault: ItemFault) -> CojpFault
    ensures { result ≡ fault_within label fault }
{
    match fault {
        ItemFault::Kind(_) => CojpFault::Malformed(label),
        other => CojpFault::Form(other),
    }
}

pub fn int_within(reader: &mut Reader<'_>, label: u8) -> Result<i64, CojpFault>
    ensures { Reads (λ z. z) reader.old reader.new result (within label (int_at reader.old.end reader.old.left)) }
{
    reader.int().map_err(|fault| fault_within(label, fault))
}

pub fn array_within(reader: &mut Reader<'_>, label: u8) -> Result<u64, CojpFault>
    ensures { Reads (λ n. n) reader.old reader.new result (within label (argument_of Array reader.old.end reader.old.left)) }
{
    reader.array().map_err(|fault| fault_within(label, fault))
}

pub fn uint_within(reader: &mut Reader<'_>, label: u8) -> Result<u64, CojpFault>
    ensures { Reads (λ n. n) reader.old reader.new result (within label (argument_of Unsigned reader.old.end reader.old.left)) }
{
    reader.uint().map_err(|fault| fault_within(label, fault))
}

pub fn bytes_within<'a>(reader: &mut Reader<'a>, label: u8) -> Result<&'a [u8], CojpFault>
    ensures { Reads (λ v. v.now) reader.old reader.new result (within label (string_at Bytes reader.old.end reader.old.left)) }
{
    reader.bytes().map_err(|fault| fault_within(label, fault))
}

pub fn skip_within(reader: &mut Reader<'_>, label: u8) -> Result<(), CojpFault>
    ensures { Reads (λ _. tt) reader.old reader.new result (within label (skip_at reader.old.end reader.old.left)) }
{
    reader.skip().map_err(|fault| fault_within(label, fault))
}

/// An unsigned number in a range.
#[tactic(auto, unfolding(crate::specs::Values::bounded_at))]
pub fn bounded_uint(
    reader: &mut Reader<'_>,
    label: u8,
    low: u64,
    high: u64,
) -> Result<u64, CojpFault>
    ensures exact { Reads (λ n. n) reader.old reader.new result (bounded_at label Unsigned low high reader.old.end reader.old.left) }
    ensures bounded { IfOk result (λ n. (low ≤ n) × (n ≤ high)) }
{
    let n = uint_within(reader, label)?;
    if low <= n && n <= high {
        Ok(n)
    } else {
        Err(CojpFault::Malformed(label))
    }
}

/// The head of an array whose count is in a range.
#[tactic(auto, unfolding(crate::specs::Values::bounded_at))]
pub fn bounded_array(
    reader: &mut Reader<'_>,
    label: u8,
    low: u64,
    high: u64,
) -> Result<u64, CojpFault>
    ensures exact { Reads (λ n. n) reader.old reader.new result (bounded_at label Array low high reader.old.end reader.old.left) }
    ensures bounded { IfOk result (λ n. (low ≤ n) × (n ≤ high)) }
{
    let n = array_within(reader, label)?;
    if low <= n && n <= high {
        Ok(n)
    } else {
        Err(CojpFault::Malformed(label))
    }
}

/// The length of the byte string at the start, as its head says it. Nothing is read.
pub fn len_within(reader: &Reader<'_>, label: u8) -> Result<u64, CojpFault>
    ensures { result ≡ within label (length_at Bytes reader.now.end reader.now.left) }
{
    reader
        .bytes_len()
        .map_err(|fault| fault_within(label, fault))
}

/// A byte string of `N` bytes.
#[tactic(auto, unfolding(crate::specs::Values::sized_at))]
pub fn sized<const N: usize>(reader: &mut Reader<'_>, label: u8) -> Result<[u8; N], CojpFault>
    ensures { Reads (λ v. v) reader.old reader.new result (sized_at label N reader.old.end reader.old.left) }
{
    let len = len_within(reader, label)?;
    if len != N as u64 {
        return Err(CojpFault::Malformed(label));
    }
    let bytes = bytes_within(reader, label)?;
    match <[u8; N]>::try_from(bytes) {
        Ok(value) => Ok(value),
        Err(_) => unreachable!(),
    }
}
