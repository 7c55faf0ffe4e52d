//! The CBC-MAC (RFC 3610, 2.2) as far as the additional authenticated data.
ghost use Rattle.std.specs.Prelude.{◌≡◌, ◌+◌, ◌<◌, ◌≤◌, ◌∷◌, ◌++◌, length};
ghost use Rattle.aes_ccm.specs.Bytes.{xor, padded, two_bytes, blocks};
ghost use Rattle.aes_ccm.specs.Cipher.{encrypted};
ghost use Rattle.aes_ccm.specs.Ccm.{cbc_mac, mac_of_aad};

use crate::aes::Aes128;
use crate::blocks::{BLOCK, first_block, padded, sum};

// The bytes of the AAD in the block that begins with its length.
const FIRST_AAD: usize = 14;

// The length of the AAD and its first bytes.
fn length_block(len: u16, first: &[u8]) -> [u8; 16]
    requires { length first.now ≤ 14 }
    ensures { result ≡ padded (two_bytes len ++ first.now) }
{
    let mut block = [0; 16];
    block[..2].copy_from_slice(&len.to_be_bytes());
    block[2..2 + first.len()].copy_from_slice(first);
    block
}

impl Aes128 {
    // The next value of the CBC-MAC.
    #[inline(always)]
    pub(crate) fn chained(&self, mac: &[u8; 16], block: &[u8; 16]) -> [u8; 16]
        ensures { result ≡ encrypted self.now (xor mac.now block.now) }
    {
        self.block(&sum(mac, block))
    }

    // The value after the blocks of these bytes.
    fn chained_all(&self, mac: [u8; 16], bytes: &[u8]) -> [u8; 16]
        ensures { result ≡ cbc_mac self.now mac (blocks bytes.now) }
    {
        let mut mac = mac;
        let mut rest = bytes;
        'chain: while !rest.is_empty() {
            let (block, after) = rest.split_at(BLOCK.min(rest.len()));
            let next = self.chained(&mac, &padded(block));
            mac = next;
            rest = after;
        }
        mac
    }

    // The value after B_0 and the AAD.
    pub(crate) fn mac_of_aad(&self, nonce: &[u8; 13], aad: &[u8], len: usize) -> [u8; 16]
        requires aad { length aad.now < 65280 }
        requires len { len < 65536 }
        ensures { result ≡ mac_of_aad self.now nonce.now aad.now len }
    {
        let mac = self.block(&first_block(nonce, aad, len as u16));
        if aad.is_empty() {
            return mac;
        }
        let (first, rest) = aad.split_at(FIRST_AAD.min(aad.len()));
        let next = self.chained(&mac, &length_block(aad.len() as u16, first));
        self.chained_all(next, rest)
    }
}
