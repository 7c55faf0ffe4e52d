//! What a context was answered last.
ghost use Rattle.std.specs.Prelude.{◌≡◌, ◌≢◌, ◌≤◌, ℕ};
ghost use Rattle.cbor_cojp.specs.Config.{IsConfig};
ghost use Rattle.join_history.specs.Answers.{hours_of};
ghost use Rattle.registrar_state.specs.declared.last.Last.TheVariants as last;
ghost use Rattle.registrar_state.specs.Last.{IsLeaseOf, IsLeaseBehind, IsToldBy};

use crate::legal::lease_end;
use cbor_cojp::{Configuration, read_config};
use join_history::TIME_END;

/// The code of a Grant's answer, 2.04.
const CHANGED: u8 = 68;

/// The last answer to a context: an address and the second at which its lease ends, or the code of a refusal.
#[derive(Clone, Copy, Debug, PartialEq, Eq)]
pub enum Last {
    Grant(u16, u64),
    Refuse(u8),
}

/// The hours of a lease as settings have them: 0 for one without end.
fn whole_hours(hours: Option<u32>) -> u16
    ensures { (h : ℕ) → h ≤ 65535 → hours ≡ hours_of h → result ≡ h }
{
    match hours {
        None => 0,
        Some(hours) => match u16::try_from(hours) {
            Ok(hours) => hours,
            Err(_) => u16::MAX,
        },
    }
}

/// The lease that a Configuration of this time brings, or a refusal where it brings none.
fn lease_of(config: &Configuration, time: u64) -> Last
    ensures { IsLeaseOf (λ x. config.now ≡ x) time result }
{
    match config.short {
        None => Last::Refuse(CHANGED),
        Some(short) => Last::Grant(
            short.address,
            lease_end(time.min(TIME_END - 1), whole_hours(short.hours)),
        ),
    }
}

/// The lease that a Configuration of this time brings, read from its bytes.
fn lease_in(bytes: &[u8], time: u64) -> Last
    ensures { IsLeaseOf (IsConfig bytes.now) time result }
{
    match read_config(bytes) {
        Ok(config) => lease_of(&config, time),
        Err(_) => Last::Refuse(CHANGED),
    }
}

/// The lease that comes after the marker of a Grant's payload.
fn lease_behind(payload: &[u8], time: u64) -> Last
    ensures { IsLeaseBehind payload.now time result }
{
    match payload.split_first() {
        None => Last::Refuse(CHANGED),
        Some((_marker, bytes)) => lease_in(bytes, time),
    }
}

/// What an answer of this code said.
fn told_by(code: u8, payload: &[u8], time: u64) -> Last
    ensures lease { code ≡ 68 → IsLeaseBehind payload.now time result }
    ensures refusal { code ≢ 68 → result ≡ last.Refuse code }
{
    if code == CHANGED {
        lease_behind(payload, time)
    } else {
        Last::Refuse(code)
    }
}

/// What the answer of a decision that was made at this time said: read from its bytes.
pub(crate) fn told_of(answer: &[u8], time: u64) -> Last
    ensures { IsToldBy answer.now time result }
{
    match answer.split_first() {
        None => Last::Refuse(0),
        Some((code, payload)) => told_by(*code, payload, time),
    }
}
