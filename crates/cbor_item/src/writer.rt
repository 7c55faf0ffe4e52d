//! A writer of items into a buffer of fixed capacity.
ghost use Rattle.std.specs.Prelude.{◌≡◌, ◌+◌, ◌≤◌, List, ℕ, [], ◌∷◌, ◌++◌, length};
ghost use Rattle.arrayvec.specs.ArrayVec.{array_vec_len};
ghost use Rattle.cbor_item.specs.declared.head.Major.TheVariants.{Unsigned, Bytes, Text, Array, Map};
ghost use Rattle.cbor_item.specs.Head.{IsHead, head_text};
ghost use Rattle.cbor_item.specs.Reading.{IsInt, IsString, IsNull};
ghost use Rattle.cbor_item.specs.Spelling.{int_text, string_text, null_text, Writes, IsSpelled};

use crate::fault::Full;
use crate::head::Major;
use arrayvec::ArrayVec;
use std::marker::Model;

/// Appends bytes that fit.
fn extend<const N: usize>(out: &mut ArrayVec<u8, N>, bytes: &[u8])
    requires { array_vec_len out.old + length bytes.now ≤ N }
    ensures { out.new.items ≡ out.old.items ++ bytes.now }
{
    match out.try_extend_from_slice(bytes) {
        Ok(()) => {}
        Err(_) => unreachable!(),
    }
}

fn head_of(first: u8, bytes: &[u8]) -> ArrayVec<u8, 9>
    requires { length bytes.now ≤ 8 }
    ensures { result.items ≡ first ∷ bytes.now }
{
    let mut head = ArrayVec::new();
    head.push(first);
    extend(&mut head, bytes);
    head
}

/// The shortest head of this major type and argument.
fn head_bytes(major: Major, argument: u64) -> ArrayVec<u8, 9>
    ensures { result.items ≡ head_text major argument }
{
    let first = 32 * major.code();
    if argument < 24 {
        head_of(first + argument as u8, &[])
    } else if argument < 0x100 {
        head_of(first + 24, &(argument as u8).to_be_bytes())
    } else if argument < 0x1_0000 {
        head_of(first + 25, &(argument as u16).to_be_bytes())
    } else if argument < 0x1_0000_0000 {
        head_of(first + 26, &(argument as u32).to_be_bytes())
    } else {
        head_of(first + 27, &argument.to_be_bytes())
    }
}

/// A buffer that items are written into, with the shortest heads. A call that finds no room changes nothing.
#[derive(Drop)]
pub struct Writer<const N: usize> {
    out: ArrayVec<u8, N>,
}

impl<const N: usize> Model for Writer<N> {
    ghost Value = { List ℕ };

    ghost view = { λ w. w.out.items };
}

impl<const N: usize> Writer<N> {
    /// An empty buffer.
    pub fn new() -> Writer<N>
        ensures { result ≡ [] }
    {
        Writer {
            out: ArrayVec::new(),
        }
    }

    /// Writes an unsigned number.
    pub fn uint(&mut self, value: u64) -> Result<(), Full>
        ensures spelled { IsSpelled (λ text. IsHead text Unsigned value) self.old self.new result }
        ensures exact { Writes N (head_text Unsigned value) self.old self.new result }
    {
        self.write_head(Major::Unsigned, value)
    }

    /// Writes a whole number.
    pub fn int(&mut self, value: i64) -> Result<(), Full>
        ensures spelled { IsSpelled (λ text. IsInt text value) self.old self.new result }
        ensures exact { Writes N (int_text value) self.old self.new result }
    {
        self.write_int(value)
    }

    /// Writes a byte string.
    pub fn bytes(&mut self, value: &[u8]) -> Result<(), Full>
        ensures spelled { IsSpelled (λ text. IsString Bytes text value.now) self.old self.new result }
        ensures exact { Writes N (string_text Bytes value.now) self.old self.new result }
    {
        self.write_string(Major::Bytes, value)
    }

    /// Writes a text string.
    pub fn text(&mut self, value: &str) -> Result<(), Full>
        ensures spelled { IsSpelled (λ text. IsString Text text value.now) self.old self.new result }
        ensures exact { Writes N (string_text Text value.now) self.old self.new result }
    {
        self.write_string(Major::Text, value.as_bytes())
    }

    /// Writes the head of an array of this many items, which are to follow.
    pub fn array(&mut self, count: u64) -> Result<(), Full>
        ensures spelled { IsSpelled (λ text. IsHead text Array count) self.old self.new result }
        ensures exact { Writes N (head_text Array count) self.old self.new result }
    {
        self.write_head(Major::Array, count)
    }

    /// Writes the head of a map of this many pairs, which are to follow.
    pub fn map(&mut self, count: u64) -> Result<(), Full>
        ensures spelled { IsSpelled (λ text. IsHead text Map count) self.old self.new result }
        ensures exact { Writes N (head_text Map count) self.old self.new result }
    {
        self.write_head(Major::Map, count)
    }

    /// Writes null, the one byte `f6`.
    pub fn null(&mut self) -> Result<(), Full>
        ensures spelled { IsSpelled (λ text. IsNull text tt) self.old self.new result }
        ensures exact { Writes N null_text self.old self.new result }
    {
        self.append(&[0xf6], &[])
    }

    /// What was written so far.
    pub fn written(&self) -> &[u8]
        ensures { result.now ≡ self.now }
    {
        self.out.as_slice()
    }

    fn write_head(&mut self, major: Major, argument: u64) -> Result<(), Full>
        ensures { Writes N (head_text major argument) self.old self.new result }
    {
        let head = head_bytes(major, argument);
        self.append(&head, &[])
    }

    fn write_int(&mut self, value: i64) -> Result<(), Full>
        ensures { Writes N (int_text value) self.old self.new result }
    {
        if value < 0 {
            self.write_head(Major::Negative, (-1 - value) as u64)
        } else {
            self.write_head(Major::Unsigned, value as u64)
        }
    }

    fn write_string(&mut self, kind: Major, value: &[u8]) -> Result<(), Full>
        ensures { Writes N (string_text kind value.now) self.old self.new result }
    {
        let head = head_bytes(kind, value.len() as u64);
        self.append(&head, value)
    }

    fn append(&mut self, head: &[u8], content: &[u8]) -> Result<(), Full>
        requires { length head.now ≤ 9 }
        ensures { Writes N (head.now ++ content.now) self.old self.new result }
    {
        let need = head.len() + content.len();
        if self.out.remaining_capacity() < need {
            return Err(Full(need));
        }
        extend(&mut self.out, head);
        extend(&mut self.out, content);
        Ok(())
    }
}
