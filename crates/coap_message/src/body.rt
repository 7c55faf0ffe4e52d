//! What follows a token: options, and after a marker a payload (RFC 7252, 3).
ghost use Rattle.std.specs.Prelude.{◌≡◌, ◌≤◌, ◌+◌, ◌++◌, ◌<◌, ◌^◌, length, []};
ghost use Rattle.arrayvec.specs.ArrayVec.{array_vec_len};
ghost use Rattle.coap_message.specs.Body.{payload_field};
ghost use Rattle.coap_message.specs.Reading.{seen, payload_at, body_at, options_of, behind_options};

use crate::extended::append;
use crate::fault::CoapFault;
use crate::option::skip_options;
use arrayvec::ArrayVec;

// The payload's marker.
const MARKER: u8 = 255;

/// Options and a payload.
#[derive(Clone, Copy)]
pub(crate) struct Body<'a> {
    pub(crate) options: &'a [u8],
    pub(crate) payload: &'a [u8],
    pub(crate) ghost whole: { behind_options 0 options.now ≡ [] },
}

/// The payload, where these bytes are left of a message; `at` is their place.
#[tactic(auto, unfolding(crate::specs::Reading::payload_at))]
fn read_payload(at: usize, bytes: &[u8]) -> Result<&[u8], CoapFault>
    ensures { seen (λ x. x.now) result ≡ payload_at at bytes.now }
{
    match bytes {
        [] => Ok(bytes),
        [byte, rest @ ..] => {
            if *byte != MARKER {
                return Err(CoapFault::OptionForm(at));
            }
            if rest.is_empty() {
                return Err(CoapFault::EmptyPayload);
            }
            Ok(rest)
        }
    }
}

/// The options and the payload of these bytes, which come after `before` others.
#[tactic(auto, unfolding(crate::specs::Reading::body_at))]
pub(crate) fn read_body(before: usize, bytes: &[u8]) -> Result<Body<'_>, CoapFault>
    requires { before + length bytes.now < 2 ^ 64 }
    ensures { seen (λ x. (options_of 0 x.options.now, x.payload.now)) result ≡ body_at before bytes.now }
{
    let rest = skip_options(bytes);
    let length = bytes.len() - rest.len();
    let payload = read_payload(before + length, rest)?;
    let options = &bytes[..length];
    Ok(Body { options, payload })
}

/// How many bytes a payload and its marker have.
pub(crate) fn payload_length(payload: &[u8]) -> usize
    ensures { result ≡ length (payload_field payload.now) }
{
    match payload {
        [] => 0,
        [_, ..] => 1 + payload.len(),
    }
}

/// Appends a payload after its marker, or nothing where it is empty.
pub(crate) fn push_payload(out: &mut ArrayVec<u8, 1280>, payload: &[u8])
    requires { array_vec_len out.old + length (payload_field payload.now) ≤ 1280 }
    ensures { out.new.items ≡ out.old.items ++ payload_field payload.now }
{
    match payload {
        [] => {}
        [_, ..] => {
            out.push(MARKER);
            append(out, payload);
        }
    }
}
