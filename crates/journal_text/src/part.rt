//! The parts of entries that are more than one field: flags and what they announce, lists, and reasons.
ghost use Rattle.std.specs.Prelude.{◌≡◌, ◌≤◌, ◌<◌, ℕ, IfOk, option_map};
ghost use Rattle.journal_text.specs.Reading.{Gives, options_by, options_at, items_at, list_at, id_of, key_of, reason_of, reason_at, settings_at, place};

use crate::field::{bad, read_bytes, read_u16, read_u32};
use crate::refusal::{
    BAD_OPTION, BAD_REQUEST, FORBIDDEN, METHOD_NOT_ALLOWED, NOT_FOUND, SERVICE_UNAVAILABLE,
};
use crate::{Bad, Refusal, Settings};
use arrayvec::ArrayVec;
use edge_traits::PledgeId;

/// The rate and the address of the registrar, where there are any.
type Options = (Option<u32>, Option<[u8; 16]>);

fn read_options_by(flags: u8, bad: Bad, end: usize, bytes: &[u8]) -> Result<(Options, &[u8]), Bad>
    ensures { Gives (λ x. (x.0, x.1.now)) result (options_by flags bad.0 end bytes.now) }
{
    match flags {
        0 => Ok(((None, None), bytes)),
        1 => {
            let (rate, rest) = read_u32(end, bytes)?;
            Ok(((Some(rate), None), rest))
        }
        2 => {
            let (address, rest) = read_bytes::<16>(end, bytes)?;
            Ok(((None, Some(address)), rest))
        }
        3 => {
            let (rate, rest) = read_u32(end, bytes)?;
            let (address, rest) = read_bytes::<16>(end, rest)?;
            Ok(((Some(rate), Some(address)), rest))
        }
        _ => Err(bad),
    }
}

#[tactic(auto, unfolding(crate::specs::Reading::options_at))]
fn read_options(end: usize, bytes: &[u8]) -> Result<(Options, &[u8]), Bad>
    ensures { Gives (λ x. (x.0, x.1.now)) result (options_at end bytes.now) }
{
    match bytes {
        [] => Err(bad(end, bytes)),
        [flags, rest @ ..] => read_options_by(*flags, bad(end, bytes), end, rest),
    }
}

fn read_id_items(
    count: usize,
    end: usize,
    bytes: &[u8],
) -> Result<(ArrayVec<PledgeId, 16>, &[u8]), Bad>
    requires { count ≤ 16 }
    ensures { Gives (λ x. (x.0.items, x.1.now)) result (items_at id_of 8 count end bytes.now) }
{
    let mut ids = ArrayVec::new();
    let mut rest = bytes;
    for _turn in 0..count {
        let (id, after) = read_bytes::<8>(end, rest)?;
        ids.push(PledgeId(id));
        rest = after;
    }
    Ok((ids, rest))
}

#[tactic(auto, unfolding(crate::specs::Reading::list_at))]
fn read_ids(end: usize, bytes: &[u8]) -> Result<(ArrayVec<PledgeId, 16>, &[u8]), Bad>
    ensures { Gives (λ x. (x.0.items, x.1.now)) result (list_at id_of 8 16 end bytes.now) }
{
    match bytes {
        [] => Err(bad(end, bytes)),
        [count, rest @ ..] => {
            if 16 < *count {
                return Err(bad(end, bytes));
            }
            read_id_items(usize::from(*count), end, rest)
        }
    }
}

fn read_key_items(
    count: usize,
    end: usize,
    bytes: &[u8],
) -> Result<(ArrayVec<[u8; 16], 4>, &[u8]), Bad>
    requires { count ≤ 4 }
    ensures { Gives (λ x. (x.0.items, x.1.now)) result (items_at key_of 16 count end bytes.now) }
{
    let mut keys = ArrayVec::new();
    let mut rest = bytes;
    for _turn in 0..count {
        let (key, after) = read_bytes::<16>(end, rest)?;
        keys.push(key);
        rest = after;
    }
    Ok((keys, rest))
}

#[tactic(auto, unfolding(crate::specs::Reading::list_at))]
pub fn read_keys(end: usize, bytes: &[u8]) -> Result<(ArrayVec<[u8; 16], 4>, &[u8]), Bad>
    ensures { Gives (λ x. (x.0.items, x.1.now)) result (list_at key_of 16 4 end bytes.now) }
{
    match bytes {
        [] => Err(bad(end, bytes)),
        [count, rest @ ..] => {
            if 4 < *count {
                return Err(bad(end, bytes));
            }
            read_key_items(usize::from(*count), end, rest)
        }
    }
}

#[tactic(auto, unfolding(crate::specs::Reading::settings_at))]
pub fn read_settings(end: usize, bytes: &[u8]) -> Result<(Settings, &[u8]), Bad>
    ensures { Gives (λ x. (x.0, x.1.now)) result (settings_at end bytes.now) }
{
    let (first, rest) = read_u16(end, bytes)?;
    let (count, rest) = read_u16(end, rest)?;
    let (hours, rest) = read_u16(end, rest)?;
    let ((rate, jrc), rest) = read_options(end, rest)?;
    let (refused, rest) = read_ids(end, rest)?;
    let settings = Settings {
        first,
        count,
        hours,
        rate,
        jrc,
        refused,
    };
    Ok((settings, rest))
}

/// The reason of a code and a label.
fn reason_by(code: u8, label: u8) -> Option<Refusal>
    ensures { result ≡ reason_of code label }
{
    match (code, label) {
        (BAD_REQUEST, 0) => Some(Refusal::Form),
        (BAD_REQUEST, 1 | 5 | 8) => Some(Refusal::Malformed(label)),
        (BAD_REQUEST, 65) => Some(Refusal::Unsupported(1)),
        (BAD_OPTION, 0) => Some(Refusal::Option),
        (FORBIDDEN, 1..=4) => Some(Refusal::Denied(label)),
        (NOT_FOUND, 0) => Some(Refusal::Path),
        (METHOD_NOT_ALLOWED, 0) => Some(Refusal::Method),
        (SERVICE_UNAVAILABLE, 0) => Some(Refusal::NoAddress),
        _ => None,
    }
}

#[tactic(auto, unfolding(crate::specs::Reading::reason_at))]
pub fn read_reason(end: usize, bytes: &[u8]) -> Result<(Refusal, &[u8]), Bad>
    ensures { Gives (λ x. (x.0, x.1.now)) result (reason_at end bytes.now) }
{
    match bytes {
        [code, label, rest @ ..] => match reason_by(*code, *label) {
            Some(why) => Ok((why, rest)),
            None => Err(bad(end, bytes)),
        },
        _ => Err(bad(end, bytes)),
    }
}
