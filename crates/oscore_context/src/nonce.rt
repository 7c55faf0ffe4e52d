//! Nonces (RFC 8613, 5.2).
ghost use Rattle.std.specs.Prelude.{◌≡◌, ◌≤◌, ◌<◌, ◌^◌, length};
ghost use Rattle.aes_ccm.specs.Bytes.{xor};
ghost use Rattle.oscore_context.specs.Nonce.{padded_id, unmasked, nonce};

// The bytes that an ID is padded to.
const ID: usize = 7;

// The ID with zeros on its left.
fn left_padded(id: &[u8]) -> [u8; ID]
    requires { length id.now ≤ 7 }
    ensures { result ≡ padded_id id.now }
{
    let mut padded = [0; ID];
    padded[ID - id.len()..].copy_from_slice(id);
    padded
}

// The nonce before the Common IV is xored into it.
fn before_mask(id: &[u8], number: u64) -> [u8; 13]
    requires { length id.now ≤ 7 }
    ensures { result ≡ unmasked id.now number }
{
    let mut input = [0; 13];
    input[0] = id.len() as u8;
    input[1..8].copy_from_slice(&left_padded(id));
    input[8..].copy_from_slice(&number.to_be_bytes()[3..]);
    input
}

// Xors as many bytes of the mask as the text has.
fn add(text: &mut [u8], mask: &[u8; 13])
    requires { length text.old ≤ 13 }
    ensures { text.new ≡ xor text.old mask.now }
{
    'bytes: for i in 0..text.len() {
        text[i] ^= mask[i];
    }
}

/// The nonce of the message that the endpoint with this ID numbered so (RFC 8613, 5.2). The ID has at most 7 bytes, and the
/// number is below 2^40.
#[tactic(auto, unfolding(crate::specs::Nonce::nonce))]
pub fn nonce_of(iv: &[u8; 13], id: &[u8], number: u64) -> [u8; 13]
    requires id { length id.now ≤ 7 }
    requires number { number < 2 ^ 40 }
    ensures { result ≡ nonce iv.now id.now number }
{
    let mut nonce = before_mask(id, number);
    add(&mut nonce, iv);
    nonce
}
