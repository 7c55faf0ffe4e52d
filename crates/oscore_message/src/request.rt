//! Requests: protected by the side that asks, opened by the other (RFC 8613, 8.1 and 8.2).
ghost use Rattle.std.specs.Prelude.{◌≡◌, ◌≤◌, ◌<◌, ◌+◌, ◌^◌, ◌↔◌, ℕ, List, [], length, IsOk, OnOk, OnErr, IfErr, IfSome};
ghost use Rattle.std.specs.Option.{option_map};
ghost use Rattle.coap_message.specs.Header.{header_of};
ghost use Rattle.coap_message.specs.Draft.{draft_of, with_option, with_options, with_payload};
ghost use Rattle.oscore_context.specs.Context.{id_of, peer_of};
ghost use Rattle.oscore_message.specs.OptionValue.{option_text};
ghost use Rattle.oscore_message.specs.Sealing.{sealing, IsRequestPlaintext};
ghost use Rattle.oscore_message.specs.Wire.{datagram_of, context_of, request_fields, request_options, request_packet};

use crate::aad::aad_of;
use crate::found::Found;
use crate::option_value::{OptionValue, write_option};
use crate::options::{OSCORE, POST, PROXY_SCHEME, URI_HOST};
use crate::seal::{TAG, open_into, seal_into};
use arrayvec::ArrayVec;
use coap_message::{Draft, Head, TooLong};
use edge_traits::PledgeId;
use oscore_context::{Context, Side};
use thiserror::Error;

// What a Join Request says in its outer options (RFC 9031, 8.1.1).
const HOST: [u8; 11] = *b"6tisch.arpa";

const SCHEME: [u8; 4] = *b"coap";

// A longer plaintext fits no datagram.
const MAX_PLAIN: usize = 1280;

/// The payload is no sealing of the other side under this context and number, or that of no byte.
#[derive(Clone, Copy, Debug, PartialEq, Eq, Error)]
#[error("not genuine")]
pub struct NotGenuine;

// The kid context of this side's requests.
fn kid_context(side: Side, id: &PledgeId) -> Option<&[u8]>
    ensures value { option_map (λ c. c.now) result ≡ context_of side id.now }
    ensures few { IfSome result (λ c. length c.now ≤ 8) }
{
    match side {
        Side::Registrar => None,
        Side::Pledge => Some(id.0.as_slice()),
    }
}

// The value of this side's OSCORE option.
fn request_value(context: &Context, number: u64) -> ArrayVec<u8, 64>
    requires { number < 2 ^ 40 }
    ensures value { result.items ≡ option_text (request_fields context.now number) }
    ensures few { length result.items ≤ 18 }
{
    let id = context.id();
    let side = context.side();
    let value = OptionValue {
        number: Some(number),
        context: kid_context(side, &id),
        kid: Some(side.id()),
    };
    let mut out = ArrayVec::new();
    match write_option(&value, &mut out) {
        Ok(()) => out,
        Err(_) => unreachable!(),
    }
}

// Adds an option that fits.
fn put(draft: &mut Draft, number: u16, value: &[u8])
    requires above { draft.old.last ≤ number }
    requires room { length draft.old.spelled + 5 + length value.now ≤ 1280 }
    ensures option { draft.new ≡ with_option draft.old number value.now }
    ensures few { length draft.new.spelled ≤ length draft.old.spelled + 5 + length value.now }
{
    match draft.option(number, value) {
        Ok(()) => {}
        Err(_) => unreachable!(),
    }
}

// The request as far as its last option.
fn request_draft(context: &Context, number: u64, head: &Head<'_>) -> Draft
    requires number { number < 2 ^ 40 }
    requires token { length head.now.token.now ≤ 600 }
    ensures { result ≡ with_options (draft_of (request_packet context.now number [] (header_of head.now)).header)
        (request_options context.now.side (option_text (request_fields context.now number))) }
{
    let value = request_value(context, number);
    let mut draft = Draft::start(&Head {
        kind: head.kind,
        code: POST,
        mid: head.mid,
        token: head.token,
    });
    match context.side() {
        Side::Registrar => put(&mut draft, OSCORE, &value),
        Side::Pledge => {
            put(&mut draft, URI_HOST, &HOST);
            put(&mut draft, OSCORE, &value);
            put(&mut draft, PROXY_SCHEME, &SCHEME);
        }
    }
    draft
}

// The refusal of a plaintext that no datagram can hold.
fn refuse(draft: Draft, inner: &[u8], out: &mut ArrayVec<u8, 1280>) -> TooLong
    requires { 1280 < length inner.now }
    ensures need { (payload : List ℕ) → length payload ≡ length inner.now + 8 → result.0 ≡ length (with_payload draft payload) }
    ensures empty { out.new.items ≡ [] }
{
    match draft.write(inner, out) {
        Ok(()) => {
            out.clear();
            TooLong(0)
        }
        Err(TooLong(need)) => {
            out.clear();
            TooLong(need + TAG)
        }
    }
}

/// Protects this side's request of this number, and puts the datagram in place of what `out` held (RFC 8613, 8.1). A pledge's
/// request has the outer options of a Join Request. Its code is 0.02, whatever the head's code is. `TooLong` has the length
/// that the datagram would have.
#[tactic(auto, unfolding(crate::specs::Sealing::sealing))]
pub fn protect_request(
    context: &Context,
    number: u64,
    inner: &[u8],
    head: &Head<'_>,
    out: &mut ArrayVec<u8, 1280>,
) -> Result<(), TooLong>
    requires number { number < 2 ^ 40 }
    requires token { length head.now.token.now ≤ 600 }
    ensures ok { OnOk result (out.new.items ≡ datagram_of (request_packet context.now number inner.now (header_of head.now))) }
    ensures fits { IsOk result ↔ (length (datagram_of (request_packet context.now number inner.now (header_of head.now))) ≤ 1280) }
    ensures need { IfErr result (λ e. e.0 ≡ length (datagram_of (request_packet context.now number inner.now (header_of head.now)))) }
    ensures err { OnErr result (out.new.items ≡ []) }
{
    out.clear();
    let draft = request_draft(context, number, head);
    if inner.len() > MAX_PLAIN {
        return Err(refuse(draft, inner, out));
    }
    let id = context.side().id();
    let mut payload = ArrayVec::<u8, 1288>::new();
    seal_into(
        context.sender(),
        &context.nonce(id, number),
        &aad_of(id, number),
        inner,
        &mut payload,
    );
    match draft.write(&payload, out) {
        Ok(()) => Ok(()),
        Err(TooLong(need)) => {
            out.clear();
            Err(TooLong(need))
        }
    }
}

/// Opens a request of the other side that was found, and puts its plaintext in place of what `inner` held (RFC 8613, 8.2).
#[tactic(auto, unfolding(crate::specs::Sealing::sealing))]
pub fn open_request(
    context: &Context,
    found: &Found<'_>,
    inner: &mut ArrayVec<u8, 1280>,
) -> Result<(), NotGenuine>
    // What is opened was sealed.
    ensures ok { OnOk result (IsRequestPlaintext context.now found.now.number found.now.message.payload.now inner.new.items) }
    // What was sealed is opened, to the one plaintext.
    ensures genuine { (plain : List ℕ) → IsRequestPlaintext context.now found.now.number found.now.message.payload.now plain
        → IsOk result × (inner.new.items ≡ plain) }
    ensures err { OnErr result (inner.new.items ≡ []) }
{
    let id = context.side().peer().id();
    let opened = open_into(
        context.recipient(),
        &context.nonce(id, found.number),
        &aad_of(id, found.number),
        found.message.payload,
        inner,
    );
    if opened { Ok(()) } else { Err(NotGenuine) }
}
