//! Reading the value of the OSCORE option (RFC 8613, 6.1).
ghost use Rattle.std.specs.Prelude.{◌≡◌, ◌≤◌, ◌<◌, ◌%◌, ◌&&◌, ◌||◌, true, false, length, take, drop, nat_lt, Ok, Some, IfOk, MatchOption, MatchResult, None};
ghost use Rattle.std.specs.Option.{option_map};
ghost use Rattle.oscore_message.specs.OptionValue.{Fields, fields_of, IsOptionValue, first_fault, has_bad_flags, has_bad_number, has_context, has_cut_context, after_context};
ghost use Rattle.oscore_message.specs.Reading.{number_in, context_in, option_at, read_as};

use crate::option_value::{BadOption, H, K, OptionValue};
use crate::partial_iv::{begins_with_zero, number_in};

// A reserved bit or length, or no field after the flags.
fn has_bad_flags(flags: u8, rest: &[u8]) -> bool
    ensures { result ≡ has_bad_flags flags rest.now }
{
    flags > 31 || flags % 8 > 5 || (flags == 0 && rest.is_empty())
}

// The Partial IV of n bytes is cut short or has a leading zero.
fn has_bad_number(n: usize, rest: &[u8]) -> bool
    ensures { result ≡ has_bad_number n rest.now }
{
    if rest.len() < n {
        return true;
    }
    begins_with_zero(&rest[..n])
}

fn read_number(bytes: &[u8]) -> Option<u64>
    requires { length bytes.now ≤ 8 }
    ensures { result ≡ number_in (length bytes.now) bytes.now }
{
    if bytes.is_empty() {
        None
    } else {
        Some(number_in(bytes))
    }
}

// The kid context and what follows it; none where it is cut short.
fn split_context(bytes: &[u8]) -> Option<(&[u8], &[u8])>
    ensures { MatchOption result (has_cut_context bytes.now ≡ true) (λ x. (has_cut_context bytes.now ≡ false)
        × (context_in true bytes.now ≡ Some x.0.now) × (after_context true bytes.now ≡ x.1.now)) }
{
    match bytes {
        [] => None,
        [len, rest @ ..] => {
            let len = *len as usize;
            if rest.len() < len {
                return None;
            }
            Some((&rest[..len], &rest[len..]))
        }
    }
}

// The kid context where the flags have one, and what follows; none where it is cut short.
fn read_context(flags: u8, bytes: &[u8]) -> Option<(Option<&[u8]>, &[u8])>
    ensures { MatchOption result ((has_context flags && has_cut_context bytes.now) ≡ true)
        (λ x. ((has_context flags && has_cut_context bytes.now) ≡ false)
        × (option_map (λ c. c.now) x.0 ≡ context_in (has_context flags) bytes.now)
        × (x.1.now ≡ after_context (has_context flags) bytes.now)) }
{
    if flags / H % 2 != 1 {
        return Some((None, bytes));
    }
    match split_context(bytes) {
        None => None,
        Some((context, rest)) => Some((Some(context), rest)),
    }
}

#[tactic(auto, unfolding(crate::specs::Reading::option_at, crate::specs::Reading::fields_in, crate::specs::OptionValue::first_fault))]
fn read_value(value: &[u8]) -> Result<OptionValue<'_>, BadOption>
    ensures { read_as result ≡ option_at value.now }
{
    let [flags, rest @ ..] = value else {
        return Ok(OptionValue {
            number: None,
            context: None,
            kid: None,
        });
    };
    let flags = *flags;
    let n = (flags % 8) as usize;
    if has_bad_flags(flags, rest) {
        return Err(BadOption(0));
    }
    if has_bad_number(n, rest) {
        return Err(BadOption(1));
    }
    let number = read_number(&rest[..n]);
    let Some((context, left)) = read_context(flags, &rest[n..]) else {
        return Err(BadOption(1 + n));
    };
    if flags / K % 2 == 1 {
        return Ok(OptionValue {
            number,
            context,
            kid: Some(left),
        });
    }
    if !left.is_empty() {
        return Err(BadOption((1 + rest.len()).saturating_sub(left.len())));
    }
    Ok(OptionValue {
        number,
        context,
        kid: None,
    })
}

/// Reads the value of an OSCORE option (RFC 8613, 6.1). Nothing is copied. `BadOption` has the place of the first fault: the
/// flags, a Partial IV that is cut short or begins with a zero, a kid context that is cut short, or bytes after the last
/// field.
pub fn read_option(value: &[u8]) -> Result<OptionValue<'_>, BadOption>
    // What is read is what the bytes spell.
    ensures found { IfOk result (λ v. IsOptionValue value.now (fields_of v)) }
    // What the bytes spell is read.
    ensures spelled { (v : Fields) → IsOptionValue value.now v → read_as result ≡ Ok v }
    // The first fault is answered.
    ensures fault { MatchResult result (λ v. first_fault value.now ≡ None) (λ e. first_fault value.now ≡ Some e.0) }
{
    read_value(value)
}
