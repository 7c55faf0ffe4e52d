//! The inner answers of decisions (RFC 9031, 8.4; RFC 7252, 3).
ghost use Rattle.std.specs.Prelude.{◌≡◌, ◌≤◌, ◌++◌, ◌∷◌, ◌+◌, length, map};
ghost use Rattle.edge_traits.specs.declared.names.PledgeId.{PledgeId as Id};
ghost use Rattle.join_history.specs.Answers as spec;

use arrayvec::ArrayVec;
use cbor_cojp::{Configuration, LinkKey, Short, write_config};
use edge_traits::PledgeId;
use journal_text::{Refusal, Settings};
use key_sets::Phase;

/// 2.04
const CHANGED: u8 = 68;

/// What is between the code and the payload.
const MARKER: u8 = 255;

/// Adds keys as a Configuration has them.
fn add_keys(in_force: &[(u8, [u8; 16])], keys: &mut ArrayVec<LinkKey, 8>)
    requires { length keys.old.items + length in_force.now ≤ 8 }
    ensures { keys.new.items ≡ keys.old.items ++ map spec.link_key in_force.now }
{
    let mut rest = in_force;
    while let [key, after @ ..] = rest {
        keys.push(LinkKey {
            id: key.0,
            usage: 0,
            value: key.1,
        });
        rest = after;
    }
}

/// The keys in force as a Configuration has them.
pub(crate) fn link_keys(phase: &Phase) -> ArrayVec<LinkKey, 8>
    ensures { result.items ≡ spec.link_keys phase.now }
{
    let in_force = phase.in_force();
    let mut keys = ArrayVec::new();
    add_keys(in_force.as_slice(), &mut keys);
    keys
}

/// Adds the identifiers of pledges as a Configuration has them.
fn add_identifiers(pledges: &[PledgeId], ids: &mut ArrayVec<[u8; 8], 16>)
    requires { length ids.old.items + length pledges.now ≤ 16 }
    ensures { ids.new.items ≡ ids.old.items ++ map (λ (p : Id). p.0) pledges.now }
{
    let mut rest = pledges;
    while let [pledge, after @ ..] = rest {
        ids.push(pledge.0);
        rest = after;
    }
}

/// The identifiers of pledges as a Configuration has them.
fn identifiers(pledges: &ArrayVec<PledgeId, 16>) -> ArrayVec<[u8; 8], 16>
    ensures { result.items ≡ map (λ (p : Id). p.0) pledges.now.items }
{
    let mut ids = ArrayVec::new();
    add_identifiers(pledges.as_slice(), &mut ids);
    ids
}

fn hours_of(hours: u16) -> Option<u32>
    ensures { result ≡ spec.hours_of hours }
{
    if hours == 0 {
        None
    } else {
        Some(u32::from(hours))
    }
}

/// What a Grant of the address brings.
fn configuration(phase: &Phase, settings: &Settings, address: u16) -> Configuration
    ensures { result ≡ spec.configuration phase.now settings.now address }
{
    Configuration {
        keys: link_keys(phase),
        short: Some(Short {
            address,
            hours: hours_of(settings.hours),
        }),
        jrc: settings.jrc,
        refused: identifiers(&settings.refused),
        rate: settings.rate,
    }
}

/// 2.04 with a payload.
fn changed(payload: &[u8]) -> ArrayVec<u8, 512>
    requires { length payload.now ≤ 510 }
    ensures { result.items ≡ 68 ∷ 255 ∷ payload.now }
{
    let mut answer = ArrayVec::new();
    answer.push(CHANGED);
    answer.push(MARKER);
    match answer.try_extend_from_slice(payload) {
        Ok(()) => {}
        Err(_) => unreachable!(),
    }
    answer
}

/// The inner answer of a Grant of the address, 1 to 65533.
pub(crate) fn grant_answer(phase: &Phase, settings: &Settings, address: u16) -> ArrayVec<u8, 512>
    requires { (1 ≤ address) × (address ≤ 65533) }
    ensures { result.items ≡ spec.grant_answer phase.now settings.now address }
{
    let config = configuration(phase, settings, address);
    let mut text = ArrayVec::new();
    write_config(&config, &mut text);
    changed(text.as_slice())
}

/// The inner answer of a refusal.
pub(crate) fn refusal_answer(why: Refusal) -> ArrayVec<u8, 512>
    ensures { result.items ≡ spec.refusal_answer why }
{
    let mut answer = ArrayVec::new();
    answer.push(why.code());
    match why {
        Refusal::Malformed(label) => add_unsupported(&mut answer, 1, label),
        Refusal::Unsupported(label) => add_unsupported(&mut answer, 0, label),
        _ => {}
    }
    answer
}

/// Adds the array of a parameter that isn't supported or is malformed, its label and null.
fn add_unsupported(answer: &mut ArrayVec<u8, 512>, code: u8, label: u8)
    requires { length answer.old.items ≤ 500 }
    ensures { answer.new.items ≡ answer.old.items ++ 255 ∷ spec.unsupported code label }
{
    answer.push(MARKER);
    answer.push(131);
    answer.push(code);
    answer.push(label);
    answer.push(246);
}
