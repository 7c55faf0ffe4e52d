//! Sealing and opening tokens.
//!
//! ```text
//! counter, 8 bytes | sealed: peer, 18 bytes; second, 5 bytes; the client's token, 0 to 561 bytes | tag, 8 bytes
//! ```
ghost use Rattle.std.specs.Prelude.{◌≡◌, ◌+◌, ◌-◌, ◌*◌, ◌<◌, ◌≤◌, ◌^◌, ◌↔◌, ◌⊎◌, ◌++◌, ◌∷◌, [], take, drop, length, Ok, Err, OnOk, OnErr, IsTrue, MatchOption, ℕ};
ghost use Rattle.std.specs.Int.{w64, to_be_bytes};
ghost use Rattle.arrayvec.specs.ArrayVec.{array_vec_len};
ghost use Rattle.aes_ccm.specs.Ccm.{sealed};
ghost use Rattle.proxy_token.specs.declared.fault.SealFault.TheVariants.{TooLong, Spent};
ghost use Rattle.proxy_token.specs.Token.{Client, IsToken, IsInTime, capped, end40, most_token, five_bytes, nonce_of, plain_of};
ghost use Rattle.proxy_token.specs.Answer.{IsAnswer, IsOpened, IsDelivered};

use crate::fault::{SealFault, TokenFault};
use aes_ccm::{Aes128, Unsealed};
use arrayvec::ArrayVec;
use edge_traits::Peer;
use std::marker::Model;

/// Counters and seconds stay below 2^40.
const END: u64 = 0x100_0000_0000;

const MAX_CLIENT_TOKEN: usize = 561;

const MAX_TOKEN: usize = 600;

const COUNTER: usize = 8;

const PEER: usize = 18;

const SECOND: usize = 5;

const TAG: usize = 8;
/// How many seconds a token may be from the present one.
const LIFETIME: u64 = 600;

/// A key and the next counter. Contracts see the bytes of the key.
#[derive(Drop)]
pub struct Sealer {
    cipher: Aes128,
    count: u64,
    ghost within: { count ≤ 2 ^ 40 },
}

impl Model for Sealer {
    ghost use Rattle.proxy_token.specs.Sealing.{Sealing};

    ghost Value = { Sealing };

    ghost view = { λ s. record { key = s.cipher; count = s.count } };
}

/// A later second counts as the last.
fn capped(second: u64) -> u64
    ensures { result ≡ capped second }
{
    second.min(END - 1)
}

fn five_bytes(number: u64) -> [u8; 5]
    requires { number < 2 ^ 40 }
    ensures { result ≡ five_bytes number }
{
    [
        (number / 0x1_0000_0000) as u8,
        (number / 0x100_0000 % 256) as u8,
        (number / 0x1_0000 % 256) as u8,
        (number / 0x100 % 256) as u8,
        (number % 256) as u8,
    ]
}

fn nonce_of(count: u64) -> [u8; 13]
    ensures { result ≡ nonce_of count }
{
    let [a, b, c, d, e, f, g, h] = count.to_be_bytes();
    [0, 0, 0, 0, 0, a, b, c, d, e, f, g, h]
}

fn push_all<const N: usize>(out: &mut ArrayVec<u8, N>, bytes: &[u8])
    requires { array_vec_len out.old + length bytes.now ≤ N }
    ensures { out.new.items ≡ out.old.items ++ bytes.now }
{
    match out.try_extend_from_slice(bytes) {
        Ok(()) => {}
        Err(_) => unreachable!(),
    }
}

/// The plaintext of a token and room for its tag.
fn plain_of(peer: Peer, token: &[u8], second: u64) -> ArrayVec<u8, 592>
    requires token { length token.now ≤ 561 }
    requires second { second < 2 ^ 40 }
    ensures plain { result.items ≡ peer.0 ++ (five_bytes second ++ token.now) }
    ensures peer { length peer.0 ≡ 18 }
{
    let mut plain = ArrayVec::new();
    push_all(&mut plain, &peer.0);
    push_all(&mut plain, &five_bytes(second));
    push_all(&mut plain, token);
    plain
}

/// The counter that these bytes are.
fn count_of(bytes: &[u8]) -> u64
    requires { length bytes.now ≡ 8 }
    ensures { to_be_bytes w64 result ≡ bytes.now }
{
    match <[u8; 8]>::try_from(bytes) {
        Ok(bytes) => u64::from_be_bytes(bytes),
        Err(_) => unreachable!(),
    }
}

/// The second that these bytes are.
fn second_of(a: u8, b: u8, c: u8, d: u8, e: u8) -> u64
    ensures spelled { five_bytes result ≡ a ∷ b ∷ c ∷ d ∷ e ∷ [] }
    ensures below { result < 2 ^ 40 }
{
    (((a as u64 * 256 + b as u64) * 256 + c as u64) * 256 + d as u64) * 256 + e as u64
}

fn is_in_time(second: u64, now: u64) -> bool
    requires second { second < 2 ^ 40 }
    requires now { now < 2 ^ 40 }
    ensures { IsTrue result ↔ IsInTime second now }
{
    second <= now + LIFETIME && now <= second + LIFETIME
}

fn peer_of(bytes: &[u8]) -> Peer
    requires { length bytes.now ≡ 18 }
    ensures { result.0 ≡ bytes.now }
{
    match <[u8; 18]>::try_from(bytes) {
        Ok(peer) => Peer(peer),
        Err(_) => unreachable!(),
    }
}

/// What a plaintext says, at a time.
fn deliver(plain: &[u8], now: u64, token: &mut ArrayVec<u8, 600>) -> Result<Peer, TokenFault>
    requires least { 23 ≤ length plain.now }
    requires most { length plain.now ≤ 584 }
    requires now { now < 2 ^ 40 }
    requires empty { token.old.items ≡ [] }
    ensures { IsDelivered plain.now now token.new.items result }
{
    let (peer, rest) = plain.split_at(PEER);
    let [a, b, c, d, e, client @ ..] = rest else {
        unreachable!()
    };
    let peer = peer_of(peer);
    let second = second_of(*a, *b, *c, *d, *e);
    if !is_in_time(second, now) {
        return Err(TokenFault::Late(second));
    }
    push_all(token, client);
    Ok(peer)
}

impl Sealer {
    /// A sealer under a fresh key, which starts with counter 0.
    pub fn new(key: &[u8; 16]) -> Sealer
        ensures { result ≡ record { key = key.now; count = 0 } }
    {
        Sealer {
            cipher: Aes128::new(key),
            count: 0,
        }
    }

    /// The counter of the next token, at most 2^40.
    pub fn count(&self) -> u64
        ensures count { result ≡ self.now.count }
        ensures most { result ≤ end40 }
    {
        self.count
    }

    /// Whether the counter is at its end.
    pub fn is_spent(&self) -> bool
        ensures { IsTrue result ↔ (self.now.count ≡ end40) }
    {
        self.count == END
    }

    fn sealed(&self, plain: ArrayVec<u8, 592>) -> ArrayVec<u8, 592>
        requires { array_vec_len plain ≤ 584 }
        ensures { result.items ≡ sealed self.now.key (nonce_of self.now.count) [] plain.items }
    {
        let mut text = plain;
        let len = text.len();
        push_all(&mut text, &[0; TAG]);
        let _sealing = self
            .cipher
            .seal(&nonce_of(self.count), &[], text.as_mut_slice(), len);
        text
    }

    /// Puts a token in place of what `out` held, and counts on. A refusal leaves `out` empty and
    /// changes nothing. A second above 2^40 - 1 counts as 2^40 - 1.
    pub fn seal(
        &mut self,
        peer: Peer,
        token: &[u8],
        second: u64,
        out: &mut ArrayVec<u8, 600>,
    ) -> Result<(), SealFault>
        ensures ok { OnOk result (IsToken self.old.key out.new.items (record { count = self.old.count; peer = peer; second = capped second; token = token.now })) }
        ensures counted { OnOk result (self.new ≡ record { key = self.old.key; count = self.old.count + 1 }) }
        ensures too_long { (n : ℕ) → (result ≡ Err (TooLong n)) ↔ ((n ≡ length token.now) × (most_token < n)) }
        ensures spent { (n : ℕ) → (result ≡ Err (Spent n)) ↔ ((length token.now ≤ most_token) × (n ≡ self.old.count) × (n ≡ end40)) }
        ensures err { OnErr result ((out.new.items ≡ []) × (self.new ≡ self.old)) }
    {
        out.clear();
        if token.len() > MAX_CLIENT_TOKEN {
            return Err(SealFault::TooLong(token.len()));
        }
        if self.count == END {
            return Err(SealFault::Spent(self.count));
        }
        let sealing = self.sealed(plain_of(peer, token, capped(second)));
        push_all(out, &self.count.to_be_bytes());
        push_all(out, sealing.as_slice());
        self.count += 1;
        Ok(())
    }

    /// The plaintext of a token.
    fn open(&self, bytes: &[u8]) -> Option<ArrayVec<u8, 592>>
        ensures { MatchOption result ((client : Client) → IsToken self.now.key bytes.now client → ⊥) (λ plain. IsOpened self.now.key bytes.now plain.items) }
    {
        if bytes.len() < COUNTER + PEER + SECOND + TAG || bytes.len() > MAX_TOKEN {
            return None;
        }
        let (counter, sealing) = bytes.split_at(COUNTER);
        let count = count_of(counter);
        if count >= END {
            return None;
        }
        let mut text = ArrayVec::new();
        push_all(&mut text, sealing);
        let len = sealing.len();
        match self
            .cipher
            .unseal(&nonce_of(count), &[], text.as_mut_slice(), len)
        {
            Unsealed::Opened(plain_len) => {
                text.truncate(plain_len);
                Some(text)
            }
            Unsealed::Short => None,
            Unsealed::NotGenuine => None,
        }
    }

    /// Whom a token is for, and the client's token, which takes the place of what `token` held. A
    /// refusal leaves `token` empty. A second above 2^40 - 1 counts as 2^40 - 1.
    pub fn unseal(
        &self,
        bytes: &[u8],
        second: u64,
        token: &mut ArrayVec<u8, 600>,
    ) -> Result<Peer, TokenFault>
        // Each answer with its cause.
        ensures answer { IsAnswer self.now.key bytes.now second token.new.items result }
        // What was sealed is opened, while it is in time.
        ensures genuine { (client : Client) → IsToken self.now.key bytes.now client → IsInTime client.second (capped second)
            → (result ≡ Ok client.peer) × (token.new.items ≡ client.token) }
    {
        token.clear();
        match self.open(bytes) {
            None => Err(TokenFault::NotMine),
            Some(plain) => deliver(plain.as_slice(), capped(second), token),
        }
    }
}

#[cfg(test)]
mod tests {
    use super::*;

    // No test counts up to the end, so this one starts there.
    #[test]
    fn a_spent_sealer_seals_nothing(rt: HostRuntime) {
        let mut sealer = Sealer {
            cipher: Aes128::new(&[0; 16]),
            count: 0x100_0000_0000,
        };
        assert!(rt; sealer.is_spent());
        let mut out = ArrayVec::new();
        out.push(1);
        let refused = sealer.seal(Peer([0; 18]), &[], 7, &mut out);
        assert_eq!(rt; refused, Err(SealFault::Spent(0x100_0000_0000)));
        assert_eq!(rt; out.len(), 0);
        let refused = sealer.seal(Peer([0; 18]), &[0; 562], 7, &mut out);
        assert_eq!(rt; refused, Err(SealFault::TooLong(562)));
    }
}
