//! The lines of a script.
ghost use Rattle.std.specs.Prelude.{◌≡◌, ◌+◌, ◌<◌, ◌≤◌, [], ◌∷◌, length, MatchOption, IfSome};
ghost use Rattle.tool_text.specs.Lines.{lines_of, IsFirstLine};

use crate::split::split_once;

/// The first line without its LF, and the bytes after the LF.
pub fn next_line(bytes: &[u8]) -> Option<(&[u8], &[u8])>
    ensures lines { MatchOption result (bytes.now ≡ [])
        (λ next. lines_of bytes.now ≡ next.0.now ∷ lines_of next.1.now) }
    ensures parts { IfSome result (λ next. IsFirstLine bytes.now next.0.now next.1.now) }
    ensures within { IfSome result (λ next. length next.0.now + length next.1.now ≤ length bytes.now) }
    ensures shorter { IfSome result (λ next. length next.1.now < length bytes.now) }
{
    if bytes.is_empty() {
        return None;
    }
    match split_once(bytes, b'\n') {
        Some((line, rest)) => Some((line, rest)),
        None => Some((bytes, &[])),
    }
}
