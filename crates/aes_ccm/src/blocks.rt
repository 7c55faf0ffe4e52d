//! Blocks of 16 bytes.
ghost use Rattle.std.specs.Prelude.{◌≡◌, ◌≤◌, ◌∷◌, ◌++◌, length};
ghost use Rattle.aes_ccm.specs.Bytes.{xor, padded, two_bytes};
ghost use Rattle.aes_ccm.specs.Ccm.{first_block, counter_block};

// The bytes of a block.
pub(crate) const BLOCK: usize = 16;

// The flags of B_0 are 8 (M - 2) / 2 + (L - 1), and 64 more where there is AAD.
const BARE_FLAGS: u8 = 0x19;

const AAD_FLAGS: u8 = 0x59;

// The bytes, with zeros after them.
#[inline(always)]
pub(crate) fn padded(bytes: &[u8]) -> [u8; 16]
    requires { length bytes.now ≤ 16 }
    ensures { result ≡ padded bytes.now }
{
    let mut block = [0; 16];
    block[..bytes.len()].copy_from_slice(bytes);
    block
}

#[inline(always)]
pub(crate) fn sum(a: &[u8; 16], b: &[u8; 16]) -> [u8; 16]
    ensures { result ≡ xor a.now b.now }
{
    let mut block = *a;
    add(&mut block, b);
    block
}

// Adds as many bytes of the block as the text has.
#[inline(always)]
pub(crate) fn add(text: &mut [u8], block: &[u8; 16])
    requires { length text.old ≤ 16 }
    ensures { text.new ≡ xor text.old block.now }
{
    'bytes: for i in 0..text.len() {
        text[i] ^= block[i];
    }
}

// Flags, a nonce and a number.
#[inline(always)]
fn block_of(flags: u8, nonce: &[u8; 13], number: u16) -> [u8; 16]
    ensures { result ≡ flags ∷ nonce.now ++ two_bytes number }
{
    let mut block = [0; 16];
    block[0] = flags;
    block[1..14].copy_from_slice(nonce);
    block[14..].copy_from_slice(&number.to_be_bytes());
    block
}

/// B_0 (RFC 3610, 2.2).
pub(crate) fn first_block(nonce: &[u8; 13], aad: &[u8], len: u16) -> [u8; 16]
    ensures { result ≡ first_block nonce.now aad.now len }
{
    let flags = if aad.is_empty() {
        BARE_FLAGS
    } else {
        AAD_FLAGS
    };
    block_of(flags, nonce, len)
}

/// A_i (RFC 3610, 2.3).
#[inline(always)]
pub(crate) fn counter_block(nonce: &[u8; 13], i: u16) -> [u8; 16]
    ensures { result ≡ counter_block nonce.now i }
{
    block_of(1, nonce, i)
}
