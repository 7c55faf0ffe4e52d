//! Requests that are opened and answers that are protected, of a pledge and the registrar.
use arrayvec::ArrayVec;
use coap_message::Kind;
use edge_traits::PledgeId;
use oscore_context::{Context, Side};
use oscore_message::{Reply, find, open_request, protect_answer};

const PSK: &[u8; 16] = b"\x8f\xa7\x75\x67\xc5\x96\xf8\xd5\x58\xb1\x8f\x2a\xbe\xe3\x6a\x4b";

const ID: PledgeId = PledgeId(*b"\xe0\x46\x56\xc7\xe6\xe2\x05\xae");

// A request and its plaintext of 23 bytes, as an independent implementation makes them.
const REQUEST: &[u8; 66] =
    b"\x50\x02\x19\x21\x3b\x36\x74\x69\x73\x63\x68\x2e\x61\x72\x70\x61\x6b\x19\xff\x08\xe0\x46\
    \x56\xc7\xe6\xe2\x05\xae\xd4\x11\x63\x6f\x61\x70\xff\x1a\xf1\x8f\x9c\xe8\x1e\x87\xb3\xb2\
    \xb8\x25\xe6\x82\xcf\x72\x47\x44\x91\x13\x62\x6a\x34\xb9\x32\x2c\xe4\xde\xab\xfb\x30\xb8";

const ASKED: &[u8; 23] =
    b"\x02\xb1\x6a\xff\xa1\x05\x50\xab\xab\xab\xab\xab\xab\xab\xab\xab\xab\xab\xab\xab\xab\xab\
    \xab";

// An answer and its plaintext of 28 bytes, likewise.
const ANSWERED: &[u8; 28] =
    b"\x44\xff\xa2\x02\x82\x01\x50\xe6\xbf\x42\x87\xc2\xd7\x61\x8d\x6a\x96\x87\x44\x5f\xfd\x33\
    \xe6\x03\x81\x42\xaf\x93";

const TOKEN: &[u8; 8] = b"\x45\x62\xd3\x8e\xbe\x0e\x06\x95";

const NUMBER: u64 = 4294967295;

const MESSAGE_ID: u16 = 56247;

const ANSWER: &[u8; 50] =
    b"\x68\x44\xdb\xb7\x45\x62\xd3\x8e\xbe\x0e\x06\x95\x90\xff\x06\x50\x7a\xc6\x3d\xb8\xb5\xad\
    \xa1\xa1\xf6\x53\x42\xd5\x2f\x5e\x8f\x37\xa3\x50\x4f\x99\x4c\x86\xa8\x85\x22\x86\xd2\x58\
    \x54\x23\x0f\x15\x95\xca";

/// The plaintext of the request, and nothing before it was opened.
fn opened(count: u64) -> ArrayVec<u8, 1280> {
    let context = Context::derive(PSK, ID, Side::Registrar);
    let mut inner = ArrayVec::new();
    let Ok(found) = find(REQUEST) else {
        return inner;
    };
    for _ in 0..count {
        let _ = open_request(&context, &found, &mut inner);
    }
    inner
}

/// The datagram of the answer, and nothing before it was protected.
fn protected(count: u64) -> ArrayVec<u8, 1280> {
    let context = Context::derive(PSK, ID, Side::Registrar);
    let mut out = ArrayVec::new();
    let mut token = ArrayVec::new();
    if token.try_extend_from_slice(TOKEN).is_err() {
        return out;
    }
    let reply = Reply {
        kind: Kind::Ack,
        mid: MESSAGE_ID,
        token,
    };
    for _ in 0..count {
        protect_answer(&context, NUMBER, ANSWERED, &reply, &mut out);
    }
    out
}

/// Whether the plaintext is the known one.
pub fn opens_right(count: u64) -> bool {
    opened(count).as_slice() == ASKED.as_slice()
}

/// Whether the datagram is the known one.
pub fn protects_right(count: u64) -> bool {
    protected(count).as_slice() == ANSWER.as_slice()
}
