//! The additional authenticated data of a message (RFC 8613, 5.4).
ghost use Rattle.std.specs.Prelude.{◌≡◌, ◌≤◌, ◌<◌, ◌^◌, length};
ghost use Rattle.oscore_message.specs.Aad.{aad};

use crate::bytes::append;
use crate::partial_iv::partial_iv_of;
use arrayvec::ArrayVec;

// ["Encrypt0", h'', ..], as far as the head of the string that holds the rest.
const ENC_STRUCTURE: [u8; 11] = *b"\x83\x68Encrypt0\x40";

// [1, [10], ..], as far as the request's kid.
const VERSION_AND_ALGORITHM: [u8; 4] = *b"\x85\x01\x81\x0a";

// The head of a byte string below 24 bytes, without its length.
const BYTES: u8 = 0x40;

/// The AAD of the request of this kid and number, and of its answers.
pub(crate) fn aad_of(kid: &[u8], number: u64) -> ArrayVec<u8, 32>
    requires kid { length kid.now ≤ 7 }
    requires number { number < 2 ^ 40 }
    ensures aad { result.items ≡ aad kid.now number }
    ensures len { length result.items ≤ 32 }
{
    let bytes = partial_iv_of(number);
    let piv = bytes.as_slice();
    let mut out = ArrayVec::new();
    append(&mut out, &ENC_STRUCTURE);
    out.push(BYTES + 7 + kid.len() as u8 + piv.len() as u8);
    append(&mut out, &VERSION_AND_ALGORITHM);
    out.push(BYTES + kid.len() as u8);
    append(&mut out, kid);
    out.push(BYTES + piv.len() as u8);
    append(&mut out, piv);
    out.push(BYTES);
    out
}
