//! Cuts of bytes.
ghost use Rattle.std.specs.Prelude.{◌≡◌, ◌∷◌, ◌++◌, IfSome, IfNone};
ghost use Rattle.tool_text.specs.Lines.{Lacks};

/// The bytes before the first byte of this value, and those after it.
pub(crate) fn split_once(bytes: &[u8], byte: u8) -> Option<(&[u8], &[u8])>
    ensures parts { IfSome result (λ cut. bytes.now ≡ cut.0.now ++ byte ∷ cut.1.now) }
    ensures first { IfSome result (λ cut. Lacks cut.0.now byte) }
    ensures none { IfNone result (Lacks bytes.now byte) }
{
    let at = bytes.iter().position(|b| *b == byte)?;
    Some((&bytes[..at], &bytes[at + 1..]))
}
