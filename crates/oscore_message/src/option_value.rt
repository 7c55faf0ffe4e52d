//! The value of the OSCORE option (RFC 8613, 6.1).
ghost use Rattle.std.specs.Prelude.{◌≡◌, ◌≤◌, ◌<◌, ◌+◌, ◌-◌, ◌*◌, ◌^◌, ◌↔◌, [], ◌++◌, length, min, IsOk, OnOk, OnErr, IfErr, IfSome};
ghost use Rattle.arrayvec.specs.ArrayVec.{array_vec_len};
ghost use Rattle.std.specs.Option.{option_map};
ghost use Rattle.oscore_message.specs.OptionValue.{fields_of, flag, flags_of, number_field, context_field, kid_field, option_text};

use crate::bytes::append;
use crate::partial_iv::partial_iv_of;
use arrayvec::ArrayVec;
use coap_message::TooLong;
use thiserror::Error;

// The flag bits of a kid context and of a kid.
pub(crate) const H: u8 = 16;

pub(crate) const K: u8 = 8;

// The bytes that a written value has at most.
const MAX_VALUE: usize = 64;

/// What the value of an OSCORE option says: the Partial IV's number, the kid context and the kid.
#[derive(Clone, Copy, Debug, PartialEq, Eq)]
pub struct OptionValue<'a> {
    pub number: Option<u64>,
    pub context: Option<&'a [u8]>,
    pub kid: Option<&'a [u8]>,
}

/// The value has its first fault at this place, counted in bytes from its start.
#[derive(Clone, Copy, Debug, PartialEq, Eq, Error)]
#[error("no OSCORE option at {0}")]
pub struct BadOption(pub usize);

// The Partial IV, or nothing.
fn number_bytes(number: Option<u64>) -> ArrayVec<u8, 5>
    requires { IfSome number (λ n. n < 2 ^ 40) }
    ensures { result.items ≡ number_field number }
{
    match number {
        None => ArrayVec::new(),
        Some(number) => partial_iv_of(number),
    }
}

fn flag_of(field: Option<&[u8]>, bit: u8) -> u8
    requires { bit ≤ 16 }
    ensures { result ≡ bit * flag (option_map (λ f. f.now) field.entry) }
{
    match field {
        None => 0,
        Some(_) => bit,
    }
}

fn context_length(context: Option<&[u8]>) -> usize
    ensures few { result ≤ 2 ^ 63 }
    ensures value { result ≡ length (context_field (option_map (λ c. c.now) context.entry)) }
{
    match context {
        None => 0,
        Some(context) => 1 + context.len(),
    }
}

fn kid_length(kid: Option<&[u8]>) -> usize
    ensures { result ≡ length (kid_field (option_map (λ k. k.now) kid.entry)) }
{
    match kid {
        None => 0,
        Some(kid) => kid.len(),
    }
}

// Appends a kid context after its length, or nothing.
fn push_context(out: &mut ArrayVec<u8, 64>, context: Option<&[u8]>)
    requires { array_vec_len out.old + length (context_field (option_map (λ c. c.now) context)) ≤ 64 }
    ensures items { out.new.items ≡ out.old.items ++ context_field (option_map (λ c. c.now) context.entry) }
    ensures len { array_vec_len out.new ≡ array_vec_len out.old + length (context_field (option_map (λ c. c.now) context.entry)) }
{
    match context {
        None => {}
        Some(context) => {
            out.push(context.len() as u8);
            append(out, context);
        }
    }
}

// Appends a kid, or nothing.
fn push_kid(out: &mut ArrayVec<u8, 64>, kid: Option<&[u8]>)
    requires { array_vec_len out.old + length (kid_field (option_map (λ k. k.now) kid)) ≤ 64 }
    ensures { out.new.items ≡ out.old.items ++ kid_field (option_map (λ k. k.now) kid.entry) }
{
    match kid {
        None => {}
        Some(kid) => append(out, kid),
    }
}

/// Puts the option's value in place of what `out` held (RFC 8613, 6.1). `TooLong` has the length that it would have.
#[tactic(auto, unfolding(crate::specs::OptionValue::option_text))]
pub fn write_option(value: &OptionValue<'_>, out: &mut ArrayVec<u8, 64>) -> Result<(), TooLong>
    requires { IfSome value.now.number (λ n. n < 2 ^ 40) }
    ensures ok { OnOk result (out.new.items ≡ option_text (fields_of value.now)) }
    ensures fits { IsOk result ↔ (length (option_text (fields_of value.now)) ≤ 64) }
    ensures need { IfErr result (λ e. e.0 ≡ min (length (option_text (fields_of value.now))) (2 ^ 64 - 1)) }
    ensures err { OnErr result (out.new.items ≡ []) }
{
    out.clear();
    let number = number_bytes(value.number);
    let flags = flag_of(value.context, H) + flag_of(value.kid, K) + number.len() as u8;
    if flags == 0 {
        return Ok(());
    }
    let need = (1 + number.len() + context_length(value.context)).saturating_add(kid_length(
        value.kid,
    ));
    if need > MAX_VALUE {
        return Err(TooLong(need));
    }
    out.push(flags);
    append(out, &number);
    push_context(out, value.context);
    push_kid(out, value.kid);
    Ok(())
}
