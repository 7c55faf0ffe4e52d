//! One line of a script.
ghost use Rattle.std.specs.Prelude.{◌≡◌, ◌++◌, ℕ, List, codes, IfSome, IfNone};
ghost use Rattle.tool_text.specs.declared.line.Line.{Line};
ghost use Rattle.tool_text.specs.Line.{IsLine};

use crate::field::{read_id, read_number};
use crate::split::split_once;
use edge_traits::PledgeId;

/// What a line of a script says. Times are whole seconds.
#[derive(Clone, Copy, Debug, PartialEq, Eq)]
pub enum Line {
    /// Nothing: the line is empty or a comment.
    Skipped,
    /// The pledge asks with the request of this number.
    Ask {
        time: u64,
        id: PledgeId,
        number: u64,
    },
}

/// Reads a line, given without its LF; `None` where the grammar has no such line.
pub fn read_line(bytes: &[u8]) -> Option<Line>
    ensures found { IfSome result (IsLine bytes.now) }
    ensures none { IfNone result ((line : Line) → IsLine bytes.now line → ⊥) }
{
    if bytes.is_empty() || bytes[0] == b'#' {
        return Some(Line::Skipped);
    }
    let (word, fields) = split_once(bytes, b' ')?;
    if word == b"ask".as_slice() {
        return read_ask(fields);
    }
    None
}

/// The fields of a line that begins with `ask`.
fn read_ask(fields: &[u8]) -> Option<Line>
    ensures found { IfSome result (IsLine (codes "ask " ++ fields.now)) }
    ensures none { IfNone result ((line : Line) → IsLine (codes "ask " ++ fields.now) line → ⊥) }
{
    let (time, fields) = split_once(fields, b' ')?;
    let (id, number) = split_once(fields, b' ')?;
    Some(Line::Ask {
        time: read_number(time)?,
        id: read_id(id)?,
        number: read_number(number)?,
    })
}

/// The bytes of a line have at most one reading.
pub fn one_line()
    ensures { (bytes : List ℕ) (a b : Line) → IsLine bytes a → IsLine bytes b → a ≡ b }
{}
