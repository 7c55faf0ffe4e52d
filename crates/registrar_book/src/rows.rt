//! The contexts of a log as rows, and the rows that a book is opened with.
ghost use Rattle.std.specs.Prelude.{◌≡◌, ◌<◌, ◌≤◌, ◌+◌, IfOk, IfErr, length};
ghost use Rattle.std.specs.List.{AllZip};
ghost use Rattle.registrar_book.specs.Known.{known_of, IsSameKey, RowsCause, PlacesRow, PlacesRows, IsRowAt};

use crate::OpenFault;
use crate::known::{KnownRows, Row};
use journal_text::Entry;
use std::alloc::{AllocError, Global};

/// The pledge and the check of each context of the log, in order.
pub fn known_contexts(alloc: Global, log: &[Entry]) -> Result<KnownRows, AllocError>
    ensures { IfOk result (λ known. known ≡ known_of log.now) }
{
    let mut known = KnownRows::new(alloc);
    let mut rest = log;
    while let Some((entry, after)) = rest.split_first() {
        if let Entry::Enroll { id, check, .. } = entry {
            known.add((*id, *check))?;
        }
        rest = after;
    }
    Ok(known)
}

/// The context of a row, which joins the known ones where its check is new.
fn place_row(known: &mut KnownRows, row: &Row) -> Result<u32, OpenFault>
    requires { length known.old < 4294967295 }
    ensures placed { IfOk result (λ place. PlacesRow known.old row.now known.new × IsRowAt known.new row.now place) }
    ensures same_key { IfErr result (IsSameKey known.old row.now) }
{
    let Some(place) = known.find(&row.1) else {
        known.add(*row)?;
        return Ok((known.rows().len() - 1) as u32);
    };
    let other = known.rows()[place].0;
    if other != row.0 {
        return Err(OpenFault::SameKey(other, row.0));
    }
    Ok(place as u32)
}

/// The context of each row. The rows whose checks are new join the known ones.
pub fn place_rows(alloc: Global, known: &mut KnownRows, rows: &[Row]) -> Result<Vec<u32>, OpenFault>
    requires { length known.old + length rows.now < 4294967295 }
    ensures placed { IfOk result (λ contexts. PlacesRows known.old rows.now known.new
        × AllZip (IsRowAt known.new) rows.now contexts.items) }
    ensures few { IfOk result (λ _. length known.new ≤ length known.old + length rows.now) }
    ensures same_key { IfErr result (RowsCause known.old rows.now) }
{
    let mut contexts = Vec::new(alloc);
    for row in rows {
        match place_row(known, row) {
            Ok(context) => contexts.push(context)?,
            Err(fault) => return Err(fault),
        }
    }
    Ok(contexts)
}
