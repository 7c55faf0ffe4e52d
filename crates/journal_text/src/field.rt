//! The fields of entries, each read from the start of the last bytes of an input of `end` bytes.
ghost use Rattle.std.specs.Prelude.{◌≡◌, ◌<◌, ◌≤◌, ◌^◌, ℕ, length, IfOk};
ghost use Rattle.journal_text.specs.Numbers.{number_of};
ghost use Rattle.journal_text.specs.Reading.{Gives, number_at, bytes_at, place};

use crate::Bad;
use byteorder::{BigEndian, ByteOrder};

/// The fault at the start of these bytes.
pub fn bad(end: usize, bytes: &[u8]) -> Bad
    ensures { result.0 ≡ place end bytes.now }
{
    Bad(end.saturating_sub(bytes.len()))
}

fn prefix_number(size: usize, bytes: &[u8]) -> u64
    requires some { 1 ≤ size }
    requires most { size ≤ 8 }
    requires whole { size ≤ length bytes.now }
    ensures value { result ≡ number_of size bytes.now }
    ensures fits { result < 256 ^ size }
{
    BigEndian::read_uint(bytes, size)
}

/// A number of this many bytes.
fn read_number(size: usize, end: usize, bytes: &[u8]) -> Result<(u64, &[u8]), Bad>
    requires some { 1 ≤ size }
    requires most { size ≤ 8 }
    ensures exact { Gives (λ x. (x.0, x.1.now)) result (number_at size end bytes.now) }
    ensures fits { IfOk result (λ x. x.0 < 256 ^ size) }
{
    if bytes.len() < size {
        return Err(bad(end, bytes));
    }
    Ok((prefix_number(size, bytes), &bytes[size..]))
}

pub fn read_u64(end: usize, bytes: &[u8]) -> Result<(u64, &[u8]), Bad>
    ensures { Gives (λ x. (x.0, x.1.now)) result (number_at 8 end bytes.now) }
{
    read_number(8, end, bytes)
}

/// A number of 40 bits.
pub fn read_u40(end: usize, bytes: &[u8]) -> Result<(u64, &[u8]), Bad>
    ensures { Gives (λ x. (x.0, x.1.now)) result (number_at 5 end bytes.now) }
{
    read_number(5, end, bytes)
}

pub fn read_u32(end: usize, bytes: &[u8]) -> Result<(u32, &[u8]), Bad>
    ensures { Gives (λ x. (x.0, x.1.now)) result (number_at 4 end bytes.now) }
{
    let (number, rest) = read_number(4, end, bytes)?;
    Ok((number as u32, rest))
}

pub fn read_u16(end: usize, bytes: &[u8]) -> Result<(u16, &[u8]), Bad>
    ensures { Gives (λ x. (x.0, x.1.now)) result (number_at 2 end bytes.now) }
{
    let (number, rest) = read_number(2, end, bytes)?;
    Ok((number as u16, rest))
}

/// `N` bytes as they are.
pub fn read_bytes<const N: usize>(end: usize, bytes: &[u8]) -> Result<([u8; N], &[u8]), Bad>
    ensures { Gives (λ x. (x.0, x.1.now)) result (bytes_at N end bytes.now) }
{
    if bytes.len() < N {
        return Err(bad(end, bytes));
    }
    let (prefix, rest) = bytes.split_at(N);
    let mut copy = [0; N];
    copy.copy_from_slice(prefix);
    Ok((copy, rest))
}
