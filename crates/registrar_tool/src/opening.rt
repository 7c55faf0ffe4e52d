//! What a run opens with: the identifiers of its lines, each with its check.
ghost use Rattle.std.specs.Prelude.{◌≡◌, ◌≢◌, ◌≤◌, ◌+◌, [], IfOk, AllPairs, length, map};
ghost use Rattle.registrar_tool.specs.Script.{ListsOnce, ask_count};
ghost use Rattle.registrar_tool.specs.Told.{decide_check, decide_row};

use crate::ids::Ids;
use edge_traits::PledgeId;
use std::alloc::{AllocError, Global};
use tool_text::Line;

/// The identifiers of the lines, each once, in the order of its first line.
pub(crate) fn list_ids(alloc: Global, lines: &[Line]) -> Result<Ids, AllocError>
    ensures listed { IfOk result (λ ids. ListsOnce [] lines.now ids) }
    ensures distinct { IfOk result (λ ids. AllPairs (λ p q. p ≢ q) ids) }
    ensures few { IfOk result (λ ids. length ids ≤ ask_count lines.now) }
{
    let mut ids = Ids::new(alloc);
    let mut rest = lines;
    while let [line, after @ ..] = rest {
        if let Line::Ask { id, .. } = line {
            ids.add_once(*id)?;
        }
        rest = after;
    }
    Ok(ids)
}

/// The check under which `decide` enrolls an identifier.
fn check_of(id: PledgeId) -> [u8; 32]
    ensures { result ≡ decide_check id }
{
    let mut check = [0; 32];
    check[..8].copy_from_slice(&id.0);
    check
}

/// The rows that `decide` opens with.
pub(crate) fn rows_of(
    alloc: Global,
    ids: &[PledgeId],
) -> Result<Vec<(PledgeId, [u8; 32])>, AllocError>
    ensures { IfOk result (λ rows. rows.items ≡ map decide_row ids.now) }
{
    let mut rows = Vec::new(alloc);
    let mut rest = ids;
    while let [id, after @ ..] = rest {
        rows.push((*id, check_of(*id)))?;
        rest = after;
    }
    Ok(rows)
}
