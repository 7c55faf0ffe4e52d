//! The script: read to its end or past the limit, and then line by line.
ghost use Rattle.std.specs.Prelude.{◌≡◌, ◌⊎◌, ◌≤◌, ◌*◌, ◌<◌, [], IfOk, IfSome, IfNone, IsSome, MatchOption, IsErrOf, length};
ghost use Rattle.edge_traits.specs.Faults.{Rose};
ghost use Rattle.tool_text.specs.declared.line.Line.{Line};
ghost use Rattle.tool_text.specs.Line.{IsLine};
ghost use Rattle.registrar_tool.specs.Run.{script_limit};
ghost use Rattle.registrar_tool.specs.Script.{IsScriptRead, IsScript, IsWrongAt, ask_count};

use edge_traits::Source;
use std::alloc::{AllocError, Global};
use tool_text::{Line, next_line, read_line};

/// The most bytes of a script: 16 MiB.
const LIMIT: usize = 16_777_216;

/// How many bytes are asked for at a time.
const PIECE: usize = 4096;

/// Why a script wasn't read.
#[derive(Clone, Copy, Debug, PartialEq, Eq)]
pub(crate) enum ReadError {
    Fault,
    NoMemory,
}

impl From<AllocError> for ReadError {
    ghost use Rattle.std.specs.Prelude.{◌≡◌};
    ghost use Rattle.registrar_tool.specs.declared.script.ReadError.TheVariants.{NoMemory};

    ghost from_gives = { λ _ e. e ≡ NoMemory };

    fn from(_: AllocError) -> Self {
        ReadError::NoMemory
    }
}

/// Reads the source to its end, or to one byte past the limit.
pub(crate) fn read_script<T: Source>(alloc: Global, source: &mut T) -> Result<Vec<u8>, ReadError>
    ensures read { IfOk result (λ bytes. IsScriptRead script_limit (T.left source.old) (T.left source.new) bytes.items) }
    ensures fault { IsErrOf result ReadError.Fault → Rose (T.fault_count source.old) (T.fault_count source.new) }
{
    let mut bytes = Vec::new(alloc);
    let mut piece = [0; PIECE];
    while bytes.len() <= LIMIT {
        let room = PIECE.min(LIMIT + 1 - bytes.len());
        let Ok(count) = source.read(&mut piece[..room]) else {
            return Err(ReadError::Fault);
        };
        if count == 0 {
            break;
        }
        bytes.extend_from_slice(&piece[..count])?;
    }
    Ok(bytes)
}

/// What a line says, unless it is outside the grammar or reaches past the limit: nothing comes after it then, and `total`
/// bytes were read.
fn read_within(line: &[u8], after: &[u8], total: usize) -> Option<Line>
    ensures found { IfSome result (IsLine line.now) }
    ensures within { IsSome result → script_limit < total → 0 < length after.now }
    ensures none { IfNone result (((read : Line) → IsLine line.now read → ⊥)
        ⊎ ((after.now ≡ []) × (script_limit < total))) }
{
    if total > LIMIT && after.is_empty() {
        return None;
    }
    read_line(line)
}

/// The lines before the first wrong one, and the number of that one, from 1, where there is one.
pub(crate) fn read_lines(
    alloc: Global,
    bytes: &[u8],
) -> Result<(Vec<Line>, Option<u64>), AllocError>
    ensures lines { IfOk result (λ read. MatchOption read.1 (IsScript script_limit bytes.now read.0.items)
        (IsWrongAt script_limit bytes.now read.0.items)) }
    ensures few { IfOk result (λ read. 23 * ask_count read.0.items ≤ length bytes.now) }
    ensures short { IfOk result (λ read. length read.0.items ≤ length bytes.now) }
{
    let mut lines = Vec::new(alloc);
    let mut rest = bytes;
    while let Some((line, after)) = next_line(rest) {
        let Some(read) = read_within(line, after, bytes.len()) else {
            let number = lines.len() as u64 + 1;
            return Ok((lines, Some(number)));
        };
        lines.push(read)?;
        rest = after;
    }
    Ok((lines, None))
}
