//! Messages: whether one is a request for a proxy, how long it would be, and writing it under
//! another header.
ghost use Rattle.std.specs.Prelude.{◌≡◌, ◌≤◌, ◌<◌, ◌+◌, ◌↔◌, length, IsTrue, ◌∷◌, [], ◌⊎◌, ◌&&◌, ◌==◌};
ghost use Rattle.coap_message.specs.Extended.{extension_len};
ghost use Rattle.coap_message.specs.Body.{payload_field};
ghost use Rattle.coap_message.specs.Message.{packet_of};
ghost use Rattle.coap_message.specs.Draft.{with_options};
ghost use Rattle.coap_message.specs.Header.{header_of};
ghost use Rattle.join_proxy.specs.Pieces.{sent, schemes, coap, IsRequest, message_with, text_of, options_len, proxy_scheme, need_of, IsRead, text_under};

use arrayvec::ArrayVec;
use coap_message::{Draft, Head, Kind, Message};

const POST: u8 = 2;

const PROXY_SCHEME: u16 = 39;

const COAP: &[u8] = b"coap";
/// How many bytes a sealed token has beside the client's.
const SEALING: usize = 39;
/// The bytes of a header before the token.
const FIXED: usize = 4;

/// Whether Proxy-Scheme is there once, and is `coap`.
fn has_scheme(message: &Message<'_>) -> bool
    ensures { IsTrue result ↔ (schemes (packet_of message.now).options ≡ coap ∷ []) }
{
    let mut options = message.iter();
    let mut seen = false;
    while let Some((number, value)) = options.next() {
        if number == PROXY_SCHEME {
            if seen || value != COAP {
                return false;
            }
            seen = true;
        }
    }
    seen
}

fn is_plain(kind: Kind) -> bool
    ensures { IsTrue result ↔ ((kind ≡ Kind.Con) ⊎ (kind ≡ Kind.Non)) }
{
    matches!(kind, Kind::Con | Kind::Non)
}

/// Whether the message is a request for a proxy.
pub(crate) fn is_request(message: &Message<'_>) -> bool
    ensures { IsTrue result ↔ IsRequest (packet_of message.now) }
{
    is_plain(message.kind) && message.code == POST && has_scheme(message)
}

/// How many bytes extend the nibble of a length or a delta (RFC 7252, 3.1).
fn extension_len(number: usize) -> usize
    ensures value { result ≡ extension_len number }
    ensures small { result ≤ 2 }
{
    if number < 13 {
        0
    } else if number < 269 {
        1
    } else {
        2
    }
}

/// Whether the option isn't sent on.
fn is_left_out(without: bool, number: u16) -> bool
    ensures { result ≡ (without && (number == proxy_scheme)) }
{
    without && number == PROXY_SCHEME
}

/// How many bytes the options are written with.
fn options_len(message: &Message<'_>, without: bool) -> usize
    requires { options_len 0 (sent without (packet_of message.now).options) ≤ 6400 }
    ensures { result ≡ options_len 0 (sent without (packet_of message.now).options) }
{
    let mut options = message.iter();
    let mut last = 0;
    let mut len = 0;
    while let Some((number, value)) = options.next() {
        if !is_left_out(without, number) {
            let delta = (number - last) as usize;
            len += 1 + extension_len(delta) + extension_len(value.len()) + value.len();
            last = number;
        }
    }
    len
}

fn payload_len(payload: &[u8]) -> usize
    ensures { result ≡ length (payload_field payload.now) }
{
    match payload {
        [] => 0,
        [_, ..] => 1 + payload.len(),
    }
}

/// How long the message is that goes on.
pub(crate) fn need_of(message: &Message<'_>) -> usize
    requires { IsRead (packet_of message.now) }
    ensures { result ≡ need_of (packet_of message.now) }
{
    let token_len = SEALING + message.token.len();
    FIXED
        + extension_len(token_len)
        + token_len
        + options_len(message, true)
        + payload_len(message.payload)
}

fn write_options(draft: Draft, message: &Message<'_>, without: bool) -> Draft
    requires start { draft.last ≡ 0 }
    requires fits { length (with_options draft (sent without (packet_of message.now).options)).spelled ≤ 1280 }
    ensures { result ≡ with_options draft (sent without (packet_of message.now).options) }
{
    let mut draft = draft;
    let mut options = message.iter();
    while let Some((number, value)) = options.next() {
        if !is_left_out(without, number) {
            match draft.option(number, value) {
                Ok(()) => {}
                Err(_) => unreachable!(),
            }
        }
    }
    draft
}

/// Puts the message under this header in place of what `out` held.
pub(crate) fn write_message(
    head: &Head<'_>,
    message: &Message<'_>,
    without: bool,
    out: &mut ArrayVec<u8, 1280>,
)
    requires token { length head.now.token.now ≤ 600 }
    requires fits { length (text_under (header_of head.now) without (packet_of message.now)) ≤ 1280 }
    ensures { out.new.items ≡ text_under (header_of head.now) without (packet_of message.now) }
{
    let draft = write_options(Draft::start(head), message, without);
    match draft.write(message.payload, out) {
        Ok(()) => {}
        Err(_) => unreachable!(),
    }
}
