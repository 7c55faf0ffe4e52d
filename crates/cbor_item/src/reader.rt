//! A reader of items: the bytes that are left, and the length of the whole input.
ghost use Rattle.std.specs.Prelude.{◌≡◌, ◌↔◌, [], length, slice_get, IsOk, IfErr};
ghost use Rattle.cbor_item.specs.declared.fault.ItemFault.TheVariants.{Trailing};
ghost use Rattle.cbor_item.specs.declared.head.Major.TheVariants.{Unsigned, Bytes, Text, Array, Map};
ghost use Rattle.cbor_item.specs.Input.{place, Gives, Reads, IsFound, IsOnly};
ghost use Rattle.cbor_item.specs.Head.{IsHead, argument_of};
ghost use Rattle.cbor_item.specs.Reading.{IsInt, IsString, IsNull, IsSkipped, int_at, string_at, length_at, null_at, skip_at};

use crate::fault::ItemFault;
use crate::head::{Major, place, read_argument_of};
use crate::item::{MAX_DEPTH, skip_item};
use crate::value::{read_int, read_null, read_string};
use std::marker::Model;

/// A slice and how far it was read. After a fault a reader is as it was before the call.
#[derive(Drop)]
pub struct Reader<'a> {
    left: &'a [u8],
    end: usize,
}

impl<'a> Model for Reader<'a> {
    ghost use Rattle.cbor_item.specs.Input.{Input};

    ghost Value = { Input };

    ghost view = { λ r. record { left = r.left.now; end = r.end } };
}

impl<'a> Reader<'a> {
    /// A reader at the start of these bytes.
    pub fn new(bytes: &'a [u8]) -> Reader<'a>
        ensures { result ≡ record { left = bytes.now; end = length bytes.now } }
    {
        Reader {
            left: bytes,
            end: bytes.len(),
        }
    }

    /// Reads an unsigned number.
    pub fn uint(&mut self) -> Result<u64, ItemFault>
        ensures found { IsFound (λ n. n) (λ text n. IsHead text Unsigned n) self.old self.new result }
        ensures only { IsOnly (λ n. n) (λ text n. IsHead text Unsigned n) self.old self.new result }
        ensures exact { Reads (λ n. n) self.old self.new result (argument_of Unsigned self.old.end self.old.left) }
    {
        self.read_argument_of(Major::Unsigned)
    }

    /// Reads a whole number. One that doesn't fit 64 bits with a sign is of another kind.
    pub fn int(&mut self) -> Result<i64, ItemFault>
        ensures found { IsFound (λ z. z) IsInt self.old self.new result }
        ensures only { IsOnly (λ z. z) IsInt self.old self.new result }
        ensures exact { Reads (λ z. z) self.old self.new result (int_at self.old.end self.old.left) }
    {
        self.read_int()
    }

    /// Reads a byte string, and gives its bytes as they lie in the input.
    pub fn bytes(&mut self) -> Result<&'a [u8], ItemFault>
        ensures found { IsFound (λ v. v.now) (IsString Bytes) self.old self.new result }
        ensures only { IsOnly (λ v. v.now) (IsString Bytes) self.old self.new result }
        ensures exact { Reads (λ v. v.now) self.old self.new result (string_at Bytes self.old.end self.old.left) }
    {
        self.read_string(Major::Bytes)
    }

    /// The length of the byte string at the start, as its head says it. Nothing is read, and the bytes may be cut short.
    pub fn bytes_len(&self) -> Result<u64, ItemFault>
        ensures { Gives (λ n. n) result (length_at Bytes self.now.end self.now.left) }
    {
        let (len, _) = read_argument_of(Major::Bytes, self.left, self.end)?;
        Ok(len)
    }

    /// Reads a text string, and gives its bytes as they lie in the input. Whether they are UTF-8 isn't looked at.
    pub fn text(&mut self) -> Result<&'a [u8], ItemFault>
        ensures found { IsFound (λ v. v.now) (IsString Text) self.old self.new result }
        ensures only { IsOnly (λ v. v.now) (IsString Text) self.old self.new result }
        ensures exact { Reads (λ v. v.now) self.old self.new result (string_at Text self.old.end self.old.left) }
    {
        self.read_string(Major::Text)
    }

    /// Reads the head of an array, and gives the number of items that follow.
    pub fn array(&mut self) -> Result<u64, ItemFault>
        ensures found { IsFound (λ n. n) (λ text n. IsHead text Array n) self.old self.new result }
        ensures only { IsOnly (λ n. n) (λ text n. IsHead text Array n) self.old self.new result }
        ensures exact { Reads (λ n. n) self.old self.new result (argument_of Array self.old.end self.old.left) }
    {
        self.read_argument_of(Major::Array)
    }

    /// Reads the head of a map, and gives the number of pairs that follow.
    pub fn map(&mut self) -> Result<u64, ItemFault>
        ensures found { IsFound (λ n. n) (λ text n. IsHead text Map n) self.old self.new result }
        ensures only { IsOnly (λ n. n) (λ text n. IsHead text Map n) self.old self.new result }
        ensures exact { Reads (λ n. n) self.old self.new result (argument_of Map self.old.end self.old.left) }
    {
        self.read_argument_of(Major::Map)
    }

    /// Reads null, the one byte `f6`.
    pub fn null(&mut self) -> Result<(), ItemFault>
        ensures found { IsFound (λ _. tt) IsNull self.old self.new result }
        ensures only { IsOnly (λ _. tt) IsNull self.old self.new result }
        ensures exact { Reads (λ _. tt) self.old self.new result (null_at self.old.end self.old.left) }
    {
        self.read_null()
    }

    /// Passes over an item of any kind with all that is inside it, up to eight arrays, maps and tags inside one another.
    /// Tags, floats and simple values are passed over by their length.
    pub fn skip(&mut self) -> Result<(), ItemFault>
        ensures found { IsFound (λ _. tt) IsSkipped self.old self.new result }
        ensures only { IsOnly (λ _. tt) IsSkipped self.old self.new result }
        ensures exact { Reads (λ _. tt) self.old self.new result (skip_at self.old.end self.old.left) }
    {
        self.read_item()
    }

    /// Refuses bytes that are left, as [`ItemFault::Trailing`] at the first of them.
    pub fn finish(&self) -> Result<(), ItemFault>
        ensures ended { IsOk result ↔ (self.now.left ≡ []) }
        ensures trailing { IfErr result (λ fault. fault ≡ Trailing (place self.now.end self.now.left)) }
    {
        if self.left.is_empty() {
            Ok(())
        } else {
            Err(ItemFault::Trailing(self.place()))
        }
    }

    /// The first byte of what is left, if there is one.
    pub fn peek(&self) -> Option<u8>
        ensures { result ≡ slice_get self.now.left 0 }
    {
        self.left.first().copied()
    }

    /// The place of what is left: how many bytes of the whole input come before it.
    pub fn place(&self) -> usize
        ensures { result ≡ place self.now.end self.now.left }
    {
        place(self.left, self.end)
    }

    fn read_argument_of(&mut self, major: Major) -> Result<u64, ItemFault>
        ensures { Reads (λ n. n) self.old self.new result (argument_of major self.old.end self.old.left) }
    {
        let (argument, rest) = read_argument_of(major, self.left, self.end)?;
        self.left = rest;
        Ok(argument)
    }

    fn read_int(&mut self) -> Result<i64, ItemFault>
        ensures { Reads (λ z. z) self.old self.new result (int_at self.old.end self.old.left) }
    {
        let (value, rest) = read_int(self.left, self.end)?;
        self.left = rest;
        Ok(value)
    }

    fn read_string(&mut self, kind: Major) -> Result<&'a [u8], ItemFault>
        ensures { Reads (λ v. v.now) self.old self.new result (string_at kind self.old.end self.old.left) }
    {
        let (value, rest) = read_string(kind, self.left, self.end)?;
        self.left = rest;
        Ok(value)
    }

    fn read_null(&mut self) -> Result<(), ItemFault>
        ensures { Reads (λ _. tt) self.old self.new result (null_at self.old.end self.old.left) }
    {
        self.left = read_null(self.left, self.end)?;
        Ok(())
    }

    #[tactic(auto, unfolding(crate::specs::Reading::skip_at))]
    fn read_item(&mut self) -> Result<(), ItemFault>
        ensures { Reads (λ _. tt) self.old self.new result (skip_at self.old.end self.old.left) }
    {
        self.left = skip_item(self.left, self.end, MAX_DEPTH)?;
        Ok(())
    }
}
