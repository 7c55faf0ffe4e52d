//! The keys of a context (RFC 8613, 3.2.1).
ghost use Rattle.std.specs.Prelude.{◌≡◌, ◌≤◌, length, IfSome};
ghost use Rattle.std.specs.Option.{option_map};
ghost use Rattle.hkdf_sha256.specs.Hkdf.{output_keying_material};
ghost use Rattle.oscore_context.specs.Derivation.{info_text, keys_of};

use crate::info::write_info;
use cbor_item::Writer;
use hkdf_sha256::{expand, extract};

/// A Sender Key, a Recipient Key and a Common IV. They aren't printed and aren't copied.
#[derive(PartialEq, Eq, Drop)]
pub struct Keys {
    pub sender: [u8; 16],
    pub recipient: [u8; 16],
    pub iv: [u8; 13],
}

// `L` bytes for this ID, ID Context and type.
fn expanded<const L: usize>(
    prk: &[u8; 32],
    id: &[u8],
    id_context: Option<&[u8]>,
    kind: &str,
) -> [u8; L]
    requires length { L ≤ 8160 }
    requires id { length id.now ≤ 7 }
    requires context { IfSome id_context (λ c. length c.now ≤ 32) }
    requires kind { length kind.now ≤ 3 }
    ensures { result ≡ output_keying_material prk.now
        (info_text id.now (option_map (λ c. c.now) id_context.entry) kind.now L) L }
{
    let mut writer = Writer::new();
    write_info(&mut writer, id, id_context, kind, L as u64);
    expand(prk, writer.written())
}

/// The keys of a Master Secret, a Master Salt and an ID Context, for a Sender ID and a Recipient ID (RFC 8613, 3.2.1).
/// The key derivation is HKDF with SHA-256, and the algorithm AES-CCM-16-64-128.
#[tactic(auto, unfolding(crate::specs::Derivation::keys_of, crate::specs::Derivation::derived))]
pub fn derive_keys(
    secret: &[u8],
    salt: &[u8],
    id_context: Option<&[u8]>,
    sender: &[u8],
    recipient: &[u8],
) -> Keys
    requires sender { length sender.now ≤ 7 }
    requires recipient { length recipient.now ≤ 7 }
    requires context { IfSome id_context (λ c. length c.now ≤ 32) }
    ensures { result ≡ keys_of secret.now salt.now (option_map (λ c. c.now) id_context.entry) sender.now recipient.now }
{
    let prk = extract(salt, secret);
    Keys {
        sender: expanded(&prk, sender, id_context, "Key"),
        recipient: expanded(&prk, recipient, id_context, "Key"),
        iv: expanded(&prk, &[], id_context, "IV"),
    }
}
