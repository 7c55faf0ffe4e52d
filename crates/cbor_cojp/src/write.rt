//! Writing items of an object into its buffer.
ghost use Rattle.std.specs.Prelude.{◌≡◌, ◌++◌, ◌≤◌, length};
ghost use Rattle.arrayvec.specs.ArrayVec.{array_vec_len};
ghost use Rattle.cbor_cojp.specs.Spelling.{Puts, number, string, array, map};

use arrayvec::ArrayVec;
use cbor_item::{Full, Writer};

#[tactic(auto, unfolding(crate::specs::Spelling::number))]
pub fn put_number(writer: &mut Writer<512>, value: u64) -> Result<(), Full>
    ensures { Puts (number value) writer.old writer.new result }
{
    writer.uint(value)
}

#[tactic(auto, unfolding(crate::specs::Spelling::string))]
pub fn put_string(writer: &mut Writer<512>, value: &[u8]) -> Result<(), Full>
    ensures { Puts (string value.now) writer.old writer.new result }
{
    writer.bytes(value)
}

#[tactic(auto, unfolding(crate::specs::Spelling::array))]
pub fn put_array(writer: &mut Writer<512>, count: u64) -> Result<(), Full>
    ensures { Puts (array count) writer.old writer.new result }
{
    writer.array(count)
}

#[tactic(auto, unfolding(crate::specs::Spelling::map))]
pub fn put_map(writer: &mut Writer<512>, count: u64) -> Result<(), Full>
    ensures { Puts (map count) writer.old writer.new result }
{
    writer.map(count)
}

pub fn put_uint(writer: &mut Writer<512>, label: u64, value: u64) -> Result<(), Full>
    ensures { Puts (number label ++ number value) writer.old writer.new result }
{
    put_number(writer, label)?;
    put_number(writer, value)
}

pub fn put_bytes(writer: &mut Writer<512>, label: u64, value: &[u8]) -> Result<(), Full>
    ensures { Puts (number label ++ string value.now) writer.old writer.new result }
{
    put_number(writer, label)?;
    put_string(writer, value)
}

/// Puts what was written into a buffer, in place of what it had.
pub fn copy_out(writer: &Writer<512>, out: &mut ArrayVec<u8, 512>)
    requires { length writer.now ≤ 512 }
    ensures { out.new.items ≡ writer.now }
{
    out.clear();
    match out.try_extend_from_slice(writer.written()) {
        Ok(()) => {}
        Err(_) => unreachable!(),
    }
}
