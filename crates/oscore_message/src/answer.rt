//! Answers: protected by the side that was asked, opened by the side that asked (RFC 8613, 8.3 and 8.4).
ghost use Rattle.std.specs.Prelude.{◌≡◌, ◌≤◌, ◌<◌, ◌+◌, ◌^◌, ℕ, List, [], ◌∷◌, Result, Option, Ok, length, OnErr, IfSome, MatchBool, IsTrue};
ghost use Rattle.std.specs.Option.{option_map};
ghost use Rattle.aes_ccm.specs.Ccm.{sealed};
ghost use Rattle.oscore_message.specs.declared.answer.AnswerFault.{AnswerFault};
ghost use Rattle.oscore_context.specs.Context.{id_of, peer_of};
ghost use Rattle.oscore_message.specs.OptionValue.{Fields, fields_of};
ghost use Rattle.oscore_message.specs.Answering.{IsAnswer, IsAnswerPlaintext, filled, answer_source, IsAnswerFinding};
ghost use Rattle.oscore_message.specs.Wire.{datagram_of, answer_packet};

use crate::aad::aad_of;
use crate::option_value::{BadOption, OptionValue};
use crate::options::{CHANGED, OSCORE, oscore_value};
use crate::seal::{open_into, seal_into};
use crate::value_reader::read_option;
use arrayvec::ArrayVec;
use coap_message::{Draft, Head, Kind, Message, parse};
use oscore_context::{Context, Side};
use thiserror::Error;

/// Where an answer goes: the kind, the message ID and the token that its datagram has.
#[derive(Debug, PartialEq, Eq, Drop)]
pub struct Reply {
    pub kind: Kind,
    pub mid: u16,
    pub token: ArrayVec<u8, 600>,
}

/// Why bytes are no answer to a request. The first that applies, in this order, is answered.
#[derive(Clone, Copy, Debug, PartialEq, Eq, Error)]
pub enum AnswerFault {
    /// The bytes are no CoAP message.
    #[error("no CoAP message")]
    NotCoap,
    /// The code isn't 2.04.
    #[error("no answer")]
    NotAnswer,
    /// The OSCORE option doesn't occur exactly once.
    #[error("not one OSCORE option")]
    NoOscore,
    /// The option's value has its first fault at this place.
    #[error("no OSCORE option at {0}")]
    BadOption(usize),
    /// The payload is no sealing of an answer under this context and number.
    #[error("not genuine")]
    NotGenuine,
}

/// Protects this side's answer to the other side's request of this number, and puts the datagram in place of what `out` held
/// (RFC 8613, 8.3). Its code is 2.04 and its OSCORE option is empty.
#[tactic(auto, unfolding(crate::specs::Sealing::sealing))]
pub fn protect_answer(
    context: &Context,
    number: u64,
    inner: &[u8],
    reply: &Reply,
    out: &mut ArrayVec<u8, 1280>,
)
    requires number { number < 2 ^ 40 }
    requires some { 1 ≤ length inner.now }
    requires few { length inner.now ≤ 512 }
    ensures { out.new.items ≡ datagram_of (answer_packet context.now number inner.now reply.now) }
{
    let id = context.side().peer().id();
    let mut payload = ArrayVec::<u8, 520>::new();
    seal_into(
        context.sender(),
        &context.nonce(id, number),
        &aad_of(id, number),
        inner,
        &mut payload,
    );
    let mut draft = Draft::start(&Head {
        kind: reply.kind,
        code: CHANGED,
        mid: reply.mid,
        token: &reply.token,
    });
    match draft.option(OSCORE, &[]) {
        Ok(()) => {}
        Err(_) => unreachable!(),
    }
    match draft.write(&payload, out) {
        Ok(()) => {}
        Err(_) => unreachable!(),
    }
}

// The ID and the number of the answer's nonce, where its option has a form of an answer to this side's request.
fn source_of(option: &OptionValue<'_>, side: Side, number: u64) -> Option<(&'static [u8], u64)>
    ensures { option_map (λ s. (s.0.now, s.1)) result
        ≡ answer_source (fields_of option.now).number (fields_of option.now).context (fields_of option.now).kid side number }
{
    if option.context.is_some() {
        return None;
    }
    match option.number {
        None => {
            if option.kid.is_some() {
                return None;
            }
            Some((side.id(), number))
        }
        Some(own) => match side {
            Side::Registrar => Some((Side::Pledge.id(), own)),
            Side::Pledge => None,
        },
    }
}

// Opens the payload of an answer whose option says this.
fn open_payload(
    context: &Context,
    number: u64,
    option: &OptionValue<'_>,
    payload: &[u8],
    inner: &mut ArrayVec<u8, 1280>,
) -> bool
    requires number { number < 2 ^ 40 }
    requires own { IfSome option.now.number (λ n. n < 2 ^ 40) }
    requires payload { length payload.now ≤ 1280 }
    ensures answer { MatchBool result (IsAnswerPlaintext context.now number (fields_of option.now) payload.now inner.new.items)
        (inner.new.items ≡ []) }
    ensures genuine { (plain : List ℕ) → IsAnswerPlaintext context.now number (fields_of option.now) payload.now plain
        → IsTrue result × (inner.new.items ≡ plain) }
{
    let Some((id, source)) = source_of(option, context.side(), number) else {
        inner.clear();
        return false;
    };
    open_into(
        context.recipient(),
        &context.nonce(id, source),
        &aad_of(context.side().id(), number),
        payload,
        inner,
    )
}

// The message, and the value of its OSCORE option.
fn find_answer(bytes: &[u8]) -> Result<(Message<'_>, &[u8]), AnswerFault>
    requires { length bytes.now ≤ 1280 }
    ensures { IsAnswerFinding bytes.now result }
{
    let message = match parse(bytes) {
        Ok(message) => message,
        Err(_) => return Err(AnswerFault::NotCoap),
    };
    if message.code != CHANGED {
        return Err(AnswerFault::NotAnswer);
    }
    match oscore_value(message.iter()) {
        None => Err(AnswerFault::NoOscore),
        Some(value) => Ok((message, value)),
    }
}

fn open_from(
    context: &Context,
    number: u64,
    bytes: &[u8],
    inner: &mut ArrayVec<u8, 1280>,
) -> Result<(), AnswerFault>
    requires number { number < 2 ^ 40 }
    requires bytes { length bytes.now ≤ 1280 }
    ensures found { IsAnswer context.now number bytes.now (filled result inner.new.items) }
    ensures err { OnErr result (inner.new.items ≡ []) }
{
    inner.clear();
    let (message, value) = match find_answer(bytes) {
        Ok(found) => found,
        Err(fault) => return Err(fault),
    };
    let option = match read_option(value) {
        Ok(option) => option,
        Err(BadOption(at)) => return Err(AnswerFault::BadOption(at)),
    };
    if open_payload(context, number, &option, message.payload, inner) {
        Ok(())
    } else {
        Err(AnswerFault::NotGenuine)
    }
}

/// Opens the other side's answer to this side's request of this number, and puts its plaintext in place of what `inner` held
/// (RFC 8613, 8.4). A pledge's answer may have a number of its own. Kind, message ID, token and other outer options aren't
/// looked at.
pub fn open_answer(
    context: &Context,
    number: u64,
    bytes: &[u8],
    inner: &mut ArrayVec<u8, 1280>,
) -> Result<(), AnswerFault>
    requires number { number < 2 ^ 40 }
    requires bytes { length bytes.now ≤ 1280 }
    // What is opened was sealed as an answer, and a reason applies, with none before it.
    ensures found { IsAnswer context.now number bytes.now (filled result inner.new.items) }
    // What was sealed as an answer is opened, and the first reason that applies is answered.
    ensures only { (r : Result (List ℕ) AnswerFault) → IsAnswer context.now number bytes.now r → filled result inner.new.items ≡ r }
    ensures err { OnErr result (inner.new.items ≡ []) }
{
    open_from(context, number, bytes, inner)
}
