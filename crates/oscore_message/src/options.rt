//! The outer options of a message.
ghost use Rattle.std.specs.Prelude.{◌≡◌, [], ◌∷◌, List, ℕ, IfSome, MatchOption};
ghost use Rattle.coap_message.specs.OptionsLeft.{options_left};
ghost use Rattle.coap_message.specs.Message.{packet_of};
ghost use Rattle.oscore_message.specs.Finding.{is_taken, all_taken, asks, is_request, oscore_values};

use coap_message::{Kind, Message, Options};

/// Uri-Host, OSCORE and Proxy-Scheme (RFC 7252, 5.10; RFC 8613, 2).
pub(crate) const URI_HOST: u16 = 3;

pub(crate) const OSCORE: u16 = 9;

pub(crate) const PROXY_SCHEME: u16 = 39;

const URI_PORT: u16 = 7;

/// The codes of a request and of an answer that OSCORE protects, 0.02 and 2.04 (RFC 8613, 4.2).
pub(crate) const POST: u8 = 2;

pub(crate) const CHANGED: u8 = 68;

fn is_taken(number: u16) -> bool
    ensures { result ≡ is_taken number }
{
    number % 2 == 0
        || number == URI_HOST
        || number == URI_PORT
        || number == OSCORE
        || number == PROXY_SCHEME
}

fn are_taken(options: Options<'_>) -> bool
    ensures { result ≡ all_taken (options_left options.entry) }
{
    let mut rest = options;
    while let Some((number, _)) = rest.next() {
        if !is_taken(number) {
            return false;
        }
    }
    true
}

/// Whether a message is a request that OSCORE may protect.
pub(crate) fn is_request(message: &Message<'_>) -> bool
    ensures { result ≡ is_request (packet_of message.now) }
{
    match message.kind {
        Kind::Con => {}
        Kind::Non => {}
        Kind::Ack => return false,
        Kind::Rst => return false,
    }
    message.code == POST && are_taken(message.iter())
}

/// The value of the OSCORE option, where there is one and no second.
pub(crate) fn oscore_value<'a>(options: Options<'a>) -> Option<&'a [u8]>
    ensures { MatchOption result ((value : List ℕ) → oscore_values (options_left options.entry) ≡ value ∷ [] → ⊥)
        (λ value. oscore_values (options_left options.entry) ≡ value.now ∷ []) }
{
    let mut found = None;
    let mut rest = options;
    while let Some((number, value)) = rest.next() {
        if number == OSCORE {
            if found.is_some() {
                return None;
            }
            found = Some(value);
        }
    }
    found
}
