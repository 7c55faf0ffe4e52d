//! The fields of a line.
ghost use Rattle.std.specs.Prelude.{◌≡◌, ℕ, ◌^◌, ◌<◌, IfSome, IfNone, decimal};
ghost use Rattle.edge_traits.specs.declared.names.PledgeId.{PledgeId};
ghost use Rattle.tool_text.specs.Line.{SpellsId};

use edge_traits::PledgeId;
use hex::FromHex;

/// No number of a script is as large as this.
const NUMBER_END: u64 = 1 << 40;

/// The most digits of a number below 2^40.
const MOST_DIGITS: usize = 13;

/// Reads a number below 2^40 in decimal, without a sign or leading zeros.
pub(crate) fn read_number(digits: &[u8]) -> Option<u64>
    ensures small { IfSome result (λ number. number < 2 ^ 40) }
    ensures found { IfSome result (λ number. digits.now ≡ decimal number) }
    ensures none { IfNone result ((number : ℕ) → number < 2 ^ 40 → digits.now ≡ decimal number → ⊥) }
{
    if digits.is_empty() || digits.len() > MOST_DIGITS {
        return None;
    }
    if digits[0] == b'0' && digits.len() > 1 {
        return None;
    }
    let mut number: u64 = 0;
    for digit in digits {
        if !digit.is_ascii_digit() {
            return None;
        }
        number = number * 10 + u64::from(*digit - b'0');
    }
    (number < NUMBER_END).then_some(number)
}

/// Reads an identifier in sixteen hex digits, each in either case.
pub(crate) fn read_id(digits: &[u8]) -> Option<PledgeId>
    ensures found { IfSome result (SpellsId digits.now) }
    ensures none { IfNone result ((id : PledgeId) → SpellsId digits.now id → ⊥) }
{
    <[u8; 8]>::from_hex(digits).ok().map(PledgeId)
}
