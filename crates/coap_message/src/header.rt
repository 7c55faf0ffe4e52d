//! The header of a message, and its token (RFC 7252, 3; RFC 8974, 2.1).
ghost use Rattle.std.specs.Prelude.{◌≡◌, ◌≤◌, length};
ghost use Rattle.coap_message.specs.Header.{header_of, header_spelling, kind_number};
ghost use Rattle.coap_message.specs.Reading.{seen, kind_at, fault_at, header_at};

use crate::extended::{append, nibble_for, push_extension, read_sized};
use crate::fault::CoapFault;
use arrayvec::ArrayVec;

const VERSION: u8 = 1;

const MAX_TOKEN: usize = 600;
// The nibble that stands for no length of a token.
const RESERVED: u8 = 15;

/// Whether a message is confirmable, non-confirmable, an acknowledgement or a reset (RFC 7252, 4.2 and 4.3).
#[derive(Clone, Copy, Debug, PartialEq, Eq)]
pub enum Kind {
    Con,
    Non,
    Ack,
    Rst,
}

/// What a message begins with. A code c.dd is `32 * c + dd`; a token has at most 600 bytes.
#[derive(Clone, Copy, Debug, PartialEq, Eq)]
pub struct Head<'a> {
    pub kind: Kind,
    pub code: u8,
    /// The message ID.
    pub mid: u16,
    pub token: &'a [u8],
}

fn read_kind(first: u8) -> Kind
    ensures { result ≡ kind_at first }
{
    match first / 16 % 4 {
        0 => Kind::Con,
        1 => Kind::Non,
        2 => Kind::Ack,
        _ => Kind::Rst,
    }
}

fn kind_bits(kind: Kind) -> u8
    ensures { result ≡ kind_number kind }
{
    match kind {
        Kind::Con => 0,
        Kind::Non => 1,
        Kind::Ack => 2,
        Kind::Rst => 3,
    }
}

// The fault where no token comes after the header: its length is reserved, or it is cut.
fn fault_without_token(first: u8) -> CoapFault
    ensures { result ≡ fault_at first }
{
    if first % 16 != RESERVED {
        CoapFault::Short
    } else if first / 64 == VERSION {
        CoapFault::TokenLength
    } else {
        CoapFault::Version
    }
}

/// The header and the token at the start, and what follows.
#[tactic(auto, unfolding(crate::specs::Reading::header_at))]
pub(crate) fn read_header(bytes: &[u8]) -> Result<(Head<'_>, &[u8]), CoapFault>
    ensures { seen (λ x. (header_of x.0, x.1.now)) result ≡ header_at bytes.now }
{
    let [first, code, high, low, rest @ ..] = bytes else {
        return Err(CoapFault::Short);
    };
    let mid = 256 * *high as u16 + *low as u16;
    match read_sized(*first % 16, rest) {
        None => Err(fault_without_token(*first)),
        Some((token, body)) => {
            if *first / 64 != VERSION {
                return Err(CoapFault::Version);
            }
            if token.len() > MAX_TOKEN {
                return Err(CoapFault::TokenLength);
            }
            let kind = read_kind(*first);
            Ok((
                Head {
                    kind,
                    code: *code,
                    mid,
                    token,
                },
                body,
            ))
        }
    }
}

/// A header and a token as they are written.
pub(crate) fn written_header(head: &Head<'_>) -> ArrayVec<u8, 1280>
    requires { length head.now.token.now ≤ 600 }
    ensures { result.items ≡ header_spelling (header_of head.now) }
{
    let mut written = ArrayVec::new();
    let length = head.token.len();
    let first = 64 * VERSION + 16 * kind_bits(head.kind) + nibble_for(length);
    written.push(first);
    written.push(head.code);
    written.push((head.mid / 256) as u8);
    written.push((head.mid % 256) as u8);
    push_extension(&mut written, length);
    append(&mut written, head.token);
    written
}
