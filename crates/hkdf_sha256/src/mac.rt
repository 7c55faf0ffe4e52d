//! Codes that authenticate a text by a key (RFC 2104).
ghost use Rattle.std.specs.Prelude.{◌≡◌, ℕ, List, [], ◌++◌, ◌<◌, length};
ghost use Rattle.sha2.specs.Sha256.{sha256};
ghost use Rattle.hkdf_sha256.specs.Hmac.{hmac_sha256};

use crate::block::{key_as_block, xored};
use sha2::{Digest, Sha256};

// What is xored into each byte of the key, for the digest of the text and for the digest of that digest.
const INNER_PAD: u8 = 0x36;

const OUTER_PAD: u8 = 0x5c;

/// A code whose text comes in pieces.
#[derive(Drop)]
pub(crate) struct Mac {
    inner: Sha256,
    outer: Sha256,
}

impl Mac {
    ghost use Rattle.hkdf_sha256.specs.Mac.{Authenticates};

    /// The code of the empty text, as yet.
    pub(crate) fn new(key: &[u8]) -> Mac
        ensures { Authenticates result key.now [] }
    {
        let block = key_as_block(key);
        let mut inner = Sha256::new();
        inner.update(xored(&block, INNER_PAD));
        let mut outer = Sha256::new();
        outer.update(xored(&block, OUTER_PAD));
        Mac { inner, outer }
    }

    /// A copy, which goes on by itself.
    pub(crate) fn copy(&self) -> Mac
        ensures { result ≡ self.now }
    {
        let inner = self.inner.clone().unwrap();
        let outer = self.outer.clone().unwrap();
        Mac { inner, outer }
    }

    /// Adds a piece of the text.
    pub(crate) fn update(&mut self, piece: &[u8])
        ensures { (key text : List ℕ) → Authenticates self.old key text → Authenticates self.new key (text ++ piece.now) }
    {
        self.inner.update(piece);
    }

    /// The code of the text.
    #[tactic(auto, unfolding(crate::specs::Hmac::hmac_sha256))]
    pub(crate) fn finalize(self) -> [u8; 32]
        ensures { (key text : List ℕ) → Authenticates self key text → result ≡ hmac_sha256 key text }
    {
        let Mac { inner, mut outer } = self;
        let digest = inner.finalize();
        outer.update(digest);
        outer.finalize()
    }
}

/// HMAC of the text under the key (RFC 2104, 2), of 32 bytes.
pub fn hmac(key: &[u8], text: &[u8]) -> [u8; 32]
    ensures value { result ≡ hmac_sha256 key.now text.now }
    // A key of more than a block stands for its digest.
    ensures long_key { 64 < length key.now → result ≡ hmac_sha256 (sha256 key.now) text.now }
{
    let mut mac = Mac::new(key);
    mac.update(text);
    mac.finalize()
}
