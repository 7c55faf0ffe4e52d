//! Reading a message in its datagram, and an inner message in its plaintext.
ghost use Rattle.std.specs.Prelude.{◌≡◌, Ok, IfOk, IfErr, IsErrOf};
ghost use Rattle.coap_message.specs.declared.fault.CoapFault.{CoapFault};
ghost use Rattle.coap_message.specs.Reading.{seen};
ghost use Rattle.coap_message.specs.Whole.{message_at, inner_at};
ghost use Rattle.coap_message.specs.Message.{Packet, packet_of, IsMessage, IsFault, InnerPacket, inner_packet_of, IsInner, IsInnerFault};

use crate::body::read_body;
use crate::fault::CoapFault;
use crate::header::read_header;
use crate::message::{Inner, Message};

#[tactic(auto, unfolding(crate::specs::Whole::message_at))]
fn read_message(bytes: &[u8]) -> Result<Message<'_>, CoapFault>
    ensures { seen packet_of result ≡ message_at bytes.now }
{
    let (head, rest) = read_header(bytes)?;
    let body = read_body(bytes.len() - rest.len(), rest)?;
    Ok(Message {
        kind: head.kind,
        code: head.code,
        mid: head.mid,
        token: head.token,
        options: body.options,
        payload: body.payload,
    })
}

/// The message that a datagram is (RFC 7252, 3; RFC 8974, 2.1). Nothing is copied.
pub fn parse(bytes: &[u8]) -> Result<Message<'_>, CoapFault>
    // What is read is what the bytes spell.
    ensures found { IfOk result (λ m. IsMessage bytes.now (packet_of m)) }
    // What the bytes spell is read.
    ensures spelled { (m : Packet) → IsMessage bytes.now m → seen packet_of result ≡ Ok m }
    // A fault applies, and none before it does.
    ensures fault { IfErr result (IsFault bytes.now) }
    // The first fault that applies is answered.
    ensures first_fault { (e : CoapFault) → IsFault bytes.now e → IsErrOf result e }
    // The same as a function of the bytes.
    ensures exact { seen packet_of result ≡ message_at bytes.now }
{
    read_message(bytes)
}

#[tactic(auto, unfolding(crate::specs::Whole::inner_at))]
fn read_inner(bytes: &[u8]) -> Result<Inner<'_>, CoapFault>
    ensures { seen inner_packet_of result ≡ inner_at bytes.now }
{
    match bytes {
        [] => Err(CoapFault::Short),
        [code, rest @ ..] => {
            let body = read_body(1, rest)?;
            Ok(Inner {
                code: *code,
                options: body.options,
                payload: body.payload,
            })
        }
    }
}

/// The inner message that an OSCORE plaintext is (RFC 8613, 5.3): a code, options and a payload. Nothing is copied.
pub fn parse_inner(bytes: &[u8]) -> Result<Inner<'_>, CoapFault>
    // What is read is what the bytes spell.
    ensures found { IfOk result (λ m. IsInner bytes.now (inner_packet_of m)) }
    // What the bytes spell is read.
    ensures spelled { (m : InnerPacket) → IsInner bytes.now m → seen inner_packet_of result ≡ Ok m }
    // A fault applies, and none before it does.
    ensures fault { IfErr result (IsInnerFault bytes.now) }
    // The first fault that applies is answered.
    ensures first_fault { (e : CoapFault) → IsInnerFault bytes.now e → IsErrOf result e }
    // The same as a function of the bytes.
    ensures exact { seen inner_packet_of result ≡ inner_at bytes.now }
{
    read_inner(bytes)
}
