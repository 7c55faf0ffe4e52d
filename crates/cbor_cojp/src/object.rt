//! An object: one map and nothing after it.
ghost use Rattle.std.specs.Prelude.{◌≡◌};
ghost use Rattle.cbor_item.specs.Reading.{int_at};
ghost use Rattle.cbor_cojp.specs.Fault.{form, Reads};
ghost use Rattle.cbor_cojp.specs.Grammar.{map_at, ended_at};

use crate::fault::CojpFault;
use cbor_item::{Major, Reader};

/// The number of pairs of the map at the start.
#[tactic(auto, using(crate::proofs::Loops::map_at_end, crate::proofs::Loops::map_at_map, crate::proofs::Loops::map_at_other))]
pub fn read_map(reader: &mut Reader<'_>) -> Result<u64, CojpFault>
    ensures { Reads (λ n. n) reader.old reader.new result (map_at reader.old.end reader.old.left) }
{
    match reader.peek() {
        None => reader.map().map_err(CojpFault::Form),
        Some(first) => {
            if Major::of(first).code() == Major::Map.code() {
                reader.map().map_err(CojpFault::Form)
            } else {
                Err(CojpFault::NotAMap(reader.place()))
            }
        }
    }
}

/// The label of the next pair.
pub fn read_label(reader: &mut Reader<'_>) -> Result<i64, CojpFault>
    ensures { Reads (λ z. z) reader.old reader.new result (form (int_at reader.old.end reader.old.left)) }
{
    reader.int().map_err(CojpFault::Form)
}

/// Refuses bytes after the map.
pub fn end_object(reader: &Reader<'_>) -> Result<(), CojpFault>
    ensures { result ≡ ended_at reader.now.end reader.now.left }
{
    reader.finish().map_err(CojpFault::Form)
}
