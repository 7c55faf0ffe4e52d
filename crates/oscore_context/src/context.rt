//! The security context that a pledge and the registrar share (RFC 9031, 8.3.1).
ghost use Rattle.std.specs.Prelude.{◌≡◌, ◌≤◌, ◌<◌, ◌^◌, length};
ghost use Rattle.oscore_context.specs.Nonce.{nonce};
ghost use Rattle.sha2.specs.Sha256.{sha256};
ghost use Rattle.oscore_context.specs.Context.{id_of, peer_of, registrar_key, known};

use crate::keys::{Keys, derive_keys};
use crate::nonce::nonce_of;
use aes_ccm::Aes128;
use edge_traits::PledgeId;
use sha2::{Digest, Sha256};
use std::fmt;
use std::marker::Model;

// The registrar's Sender ID.
const REGISTRAR: [u8; 3] = *b"JRC";

/// Which of the two endpoints holds a context.
#[derive(Clone, Copy, Debug, PartialEq, Eq)]
pub enum Side {
    Registrar,
    Pledge,
}

impl Side {
    /// The Sender ID of this side.
    pub fn id(self) -> &'static [u8]
        ensures { result.now ≡ id_of self }
    {
        match self {
            Side::Registrar => &REGISTRAR,
            Side::Pledge => &[],
        }
    }

    /// The other side.
    pub fn peer(self) -> Side
        ensures { result ≡ peer_of self }
    {
        match self {
            Side::Registrar => Side::Pledge,
            Side::Pledge => Side::Registrar,
        }
    }
}

// The digest of the registrar's Sender Key, among the keys of this side.
fn check_of(side: Side, keys: &Keys) -> [u8; 32]
    ensures { result ≡ sha256 (registrar_key side keys.now) }
{
    match side {
        Side::Registrar => Sha256::digest(keys.sender),
        Side::Pledge => Sha256::digest(keys.recipient),
    }
}

/// A security context, ready for use: the schedules of both keys are expanded. It is derived once, prints no key and isn't
/// copied. Contracts see what the side knows.
#[derive(Drop)]
pub struct Context {
    side: Side,
    id: PledgeId,
    keys: Keys,
    check: [u8; 32],
    sender: Aes128,
    recipient: Aes128,
}

impl Model for Context {
    ghost use Rattle.std.specs.Prelude.{◌≡◌};
    ghost use Rattle.oscore_context.specs.Context.{Known};

    ghost Value = { Known };

    ghost view = { λ c. record { side = c.side; id = c.id; keys = c.keys; check = c.check } };

    ghost invariant = { λ c. (c.sender ≡ c.keys.sender) × (c.recipient ≡ c.keys.recipient) };
}

/// Shows no key.
impl fmt::Debug for Context {
    ghost use Rattle.std.specs.Prelude.{Some, codes};

    ghost debug_output = { λ _. Some (codes "Context { .. }") };

    fn fmt<W: fmt::Write>(&self, f: &mut fmt::Formatter<W>) -> fmt::Result {
        f.write_str("Context { .. }")
    }
}

impl Context {
    /// Derives the context that a pledge's PSK gives this side (RFC 9031, 8.3.1).
    pub fn derive(psk: &[u8; 16], id: PledgeId, side: Side) -> Context
        ensures { result ≡ known psk.now id side }
    {
        let keys = derive_keys(psk, &[], Some(&id.0), side.id(), side.peer().id());
        let check = check_of(side, &keys);
        let sender = Aes128::new(&keys.sender);
        let recipient = Aes128::new(&keys.recipient);
        Context {
            side,
            id,
            keys,
            check,
            sender,
            recipient,
        }
    }

    /// The nonce of the message that the endpoint with this ID numbered so.
    pub fn nonce(&self, id: &[u8], number: u64) -> [u8; 13]
        requires id { length id.now ≤ 7 }
        requires number { number < 2 ^ 40 }
        ensures { result ≡ nonce self.now.keys.iv id.now number }
    {
        nonce_of(&self.keys.iv, id, number)
    }

    /// SHA-256 of the registrar's Sender Key: the same on both sides, and for each PSK and identifier its own.
    pub fn check(&self) -> [u8; 32]
        ensures { result ≡ self.now.check }
    {
        self.check
    }

    /// The pledge.
    pub fn id(&self) -> PledgeId
        ensures { result ≡ self.now.id }
    {
        self.id
    }

    /// Which side holds this context.
    pub fn side(&self) -> Side
        ensures { result ≡ self.now.side }
    {
        self.side
    }

    /// The keys of this side.
    pub fn keys(&self) -> &Keys
        ensures { result.now ≡ self.now.keys }
    {
        &self.keys
    }

    /// The Sender Key, ready for use.
    pub fn sender(&self) -> &Aes128
        ensures { result.now ≡ self.now.keys.sender }
    {
        &self.sender
    }

    /// The Recipient Key, ready for use.
    pub fn recipient(&self) -> &Aes128
        ensures { result.now ≡ self.now.keys.recipient }
    {
        &self.recipient
    }
}
