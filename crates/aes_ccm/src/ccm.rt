//! Sealing and opening in place (RFC 3610), with a tag of 8 bytes and a length of 2 bytes.
ghost use Rattle.std.specs.Prelude.{◌≡◌, ◌+◌, ◌<◌, ◌≤◌, ◌↔◌, ℕ, List, ◌++◌, length, take, drop, IsTrue};
ghost use Rattle.aes_ccm.specs.Bytes.{xor, padded, blocks};
ghost use Rattle.aes_ccm.specs.Cipher.{encrypted};
ghost use Rattle.aes_ccm.specs.Ccm.{cbc_mac, crypted, key_block, sealed, tag_of};
ghost use Rattle.aes_ccm.specs.Unsealing.{IsAnswer, IsGenuine};

use crate::aes::Aes128;
use crate::blocks::{BLOCK, add, counter_block, padded};

const TAG: usize = 8;

/// What an opening answers.
#[derive(Debug, Clone, Copy, PartialEq, Eq)]
pub enum Unsealed {
    /// The plaintext, of this many bytes, is at the start of the buffer.
    Opened(usize),
    /// There are fewer bytes than a tag has.
    Short,
    /// The tag isn't that of the bytes before it.
    NotGenuine,
}

fn is_same(tag: &[u8; 8], bytes: &[u8]) -> bool
    requires { length bytes.now ≡ 8 }
    ensures { IsTrue result ↔ (tag.now ≡ bytes.now) }
{
    let mut difference = 0;
    'bytes: for i in 0..TAG {
        difference |= tag[i] ^ bytes[i];
    }
    difference == 0
}

impl Aes128 {
    // Authenticates a block of plaintext and encrypts it.
    #[inline(always)]
    fn seal_block(&self, mac: &[u8; 16], counter: &[u8; 16], text: &mut [u8]) -> [u8; 16]
        requires { length text.old ≤ 16 }
        ensures mac { result ≡ encrypted self.now (xor mac.now (padded text.old)) }
        ensures text { text.new ≡ xor text.old (encrypted self.now counter.now) }
    {
        let next = self.chained(mac, &padded(text));
        add(text, &self.block(counter));
        next
    }

    // Decrypts a block and authenticates its plaintext.
    #[inline(always)]
    fn open_block(&self, mac: &[u8; 16], counter: &[u8; 16], text: &mut [u8]) -> [u8; 16]
        requires { length text.old ≤ 16 }
        ensures mac { result ≡ encrypted self.now (xor mac.now (padded text.new)) }
        ensures text { text.new ≡ xor text.old (encrypted self.now counter.now) }
    {
        add(text, &self.block(counter));
        self.chained(mac, &padded(text))
    }

    fn seal_text(&self, nonce: &[u8; 13], mac: [u8; 16], text: &mut [u8]) -> [u8; 16]
        requires { length text.old < 65536 }
        ensures mac { result ≡ cbc_mac self.now mac (blocks text.old) }
        ensures text { text.new ≡ crypted self.now nonce.now text.old }
    {
        let mut mac = mac;
        'turns: for i in 0..text.len().div_ceil(BLOCK) {
            let start = BLOCK * i;
            let end = (start + BLOCK).min(text.len());
            let counter = counter_block(nonce, i as u16 + 1);
            let next = self.seal_block(&mac, &counter, &mut text[start..end]);
            mac = next;
        }
        mac
    }

    fn open_text(&self, nonce: &[u8; 13], mac: [u8; 16], text: &mut [u8]) -> [u8; 16]
        requires { length text.old < 65536 }
        ensures mac { result ≡ cbc_mac self.now mac (blocks text.new) }
        ensures text { text.new ≡ crypted self.now nonce.now text.old }
    {
        let mut mac = mac;
        'turns: for i in 0..text.len().div_ceil(BLOCK) {
            let start = BLOCK * i;
            let end = (start + BLOCK).min(text.len());
            let counter = counter_block(nonce, i as u16 + 1);
            let next = self.open_block(&mac, &counter, &mut text[start..end]);
            mac = next;
        }
        mac
    }

    // The tag of a CBC-MAC.
    fn tag(&self, nonce: &[u8; 13], mac: &[u8; 16]) -> [u8; 8]
        ensures { result ≡ xor (take 8 mac.now) (key_block self.now nonce.now 0) }
    {
        let mut tag = [0; TAG];
        tag.copy_from_slice(&mac[..TAG]);
        add(&mut tag, &self.block(&counter_block(nonce, 0)));
        tag
    }

    /// Seals the first `len` bytes of `buf` in place, and puts the tag of 8 bytes after them (RFC 3610, 2). It answers
    /// the length of the sealing.
    pub fn seal(&self, nonce: &[u8; 13], aad: &[u8], buf: &mut [u8], len: usize) -> usize
        requires room { len + 8 ≤ length buf.old }
        requires text { len ≤ 2048 }
        requires aad { length aad.now ≤ 2048 }
        ensures length { result ≡ len + 8 }
        ensures sealed { buf.new ≡ sealed self.now nonce.now aad.now (take len buf.old) ++ drop (len + 8) buf.old }
    {
        let mac = self.mac_of_aad(nonce, aad, len);
        let text_mac = self.seal_text(nonce, mac, &mut buf[..len]);
        let tag = self.tag(nonce, &text_mac);
        buf[len..len + TAG].copy_from_slice(&tag);
        len + TAG
    }

    /// Opens the first `len` bytes of `buf` in place (RFC 3610, 2.6). Where they aren't genuine they are overwritten by
    /// zeros.
    pub fn unseal(&self, nonce: &[u8; 13], aad: &[u8], buf: &mut [u8], len: usize) -> Unsealed
        requires room { len ≤ length buf.old }
        requires bytes { len ≤ 2056 }
        requires aad { length aad.now < 65280 }
        ensures short { (result ≡ Unsealed.Short) ↔ (len < 8) }
        ensures not_genuine { (result ≡ Unsealed.NotGenuine)
            ↔ ((8 ≤ len) × ¬ IsGenuine self.now nonce.now aad.now (take len buf.old)) }
        // What the buffer holds under each answer, and why.
        ensures answer { IsAnswer self.now nonce.now aad.now buf.old buf.new len result }
        // A sealing is opened, to the plaintext that was sealed.
        ensures genuine { (plain : List ℕ) → take len buf.old ≡ sealed self.now nonce.now aad.now plain
            → (result ≡ Unsealed.Opened (length plain)) × (take (length plain) buf.new ≡ plain) }
    {
        if len < TAG {
            return Unsealed::Short;
        }
        let text_len = len - TAG;
        let mac = self.mac_of_aad(nonce, aad, text_len);
        let text_mac = self.open_text(nonce, mac, &mut buf[..text_len]);
        let tag = self.tag(nonce, &text_mac);
        if is_same(&tag, &buf[text_len..len]) {
            Unsealed::Opened(text_len)
        } else {
            buf[..len].fill(0);
            Unsealed::NotGenuine
        }
    }
}
