//! A batch after its gate.
ghost use Rattle.std.specs.Prelude.{◌≡◌, ◌++◌, List, length, MatchOption, OnOk, IfErr};
ghost use Rattle.std.specs.List.{AllByRecursion};
ghost use Rattle.journal_text.specs.declared.entry.Entry.{Entry};
ghost use Rattle.journal_text.specs.Text.{Fits, entries_text};
ghost use Rattle.journal_store.specs.Fault.{HasNoLength, IsBody, BodyCause};

use crate::{Spot, StoreFault};
use byteorder::{BigEndian, ByteOrder};
use journal_text::{Entry, read_entry};

/// The entries of the batch at the start of these bytes, and what comes after them.
pub fn split_body(bytes: &[u8]) -> Option<(&[u8], &[u8])>
    ensures { MatchOption result (HasNoLength bytes.now) (λ parts. IsBody parts.0.now parts.1.now bytes.now) }
{
    if bytes.len() < 4 {
        return None;
    }
    let size = BigEndian::read_uint(bytes, 4) as usize;
    let after = &bytes[4..];
    if size < 1 || 4096 < size || after.len() < size {
        return None;
    }
    Some(after.split_at(size))
}

/// Appends the entries of a batch to the log.
#[tactic(auto, using(crate::proofs::Bodies::entry_some))]
pub fn read_entries(body: &[u8], log: &mut Vec<Entry>) -> Result<(), StoreFault>
    ensures read { OnOk result ((entries : List Entry) × AllByRecursion Fits entries
        × (body.now ≡ entries_text entries) × (log.new.items ≡ log.old.items ++ entries)) }
    ensures fault { IfErr result (BodyCause (length log.old.items) body.now) }
{
    let mut rest = body;
    while !rest.is_empty() {
        match read_entry(rest) {
            Ok((entry, size)) => {
                log.push(entry)?;
                rest = &rest[size..];
            }
            Err(_) => {
                let index = u32::try_from(log.len()).unwrap_or(u32::MAX);
                return Err(StoreFault::NotAJournal(Spot::Entry(index)));
            }
        }
    }
    Ok(())
}
