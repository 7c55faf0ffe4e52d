//! The proxy: requests go up to the registrar, and answers come down to who asked.
//!
//! ```text
//! pledge                    proxy                                       registrar
//!   CON, token t, Proxy-Scheme  up    NON, token = counter, sealed (peer, second, t)
//!   NON, token t                down  NON or ACK 2.04, the same token
//! ```
ghost use Rattle.std.specs.Prelude.{◌≡◌, ◌≢◌, ◌≤◌, ◌+◌, ◌%◌, ◌^◌, [], length, OnOk, OnErr, IfErr, IfOk};
ghost use Rattle.coap_message.specs.Message.{packet_of};
ghost use Rattle.proxy_token.specs.Token.{end40};
ghost use Rattle.join_proxy.specs.Tokens.{bucket_of, tokens_at};
ghost use Rattle.join_proxy.specs.Pieces.{IsRead, IsRequest, text_of, returned};
ghost use Rattle.join_proxy.specs.Steps.{Fits, IsSentOn, IsForwarded, IsHeld, IsUpFault, IsDown, IsKept, IsSentBack};

use crate::bucket::Bucket;
use crate::fault::{DownFault, UpFault};
use crate::message::{is_request, need_of, write_message};
use arrayvec::ArrayVec;
use coap_message::{Head, Kind, Message, parse};
use edge_traits::Peer;
use proxy_token::{Sealer, TokenFault};
use std::marker::Model;

const MAX_CLIENT_TOKEN: usize = 561;

const MAX_DATAGRAM: usize = 1280;
/// 2.04 (Changed).
const CHANGED: u8 = 68;

/// A join proxy.
#[derive(Drop)]
pub struct Proxy {
    sealer: Sealer,
    bucket: Bucket,
    mid: u16,
}

impl Model for Proxy {
    ghost use Rattle.join_proxy.specs.State.{Proxying};

    ghost Value = { Proxying };

    ghost view = { λ p. record { sealing = p.sealer; bucket = p.bucket; mid = p.mid } };
}

impl Proxy {
    /// A proxy under a fresh key. Its bucket gains this rate in bytes a second and holds these
    /// tokens, as far as it can.
    pub fn new(key: &[u8; 16], rate: u32, tokens: u64, now: u64) -> Proxy
        ensures { result ≡ record { sealing = record { key = key.now; count = 0 }; bucket = bucket_of rate tokens now; mid = 0 } }
    {
        Proxy {
            sealer: Sealer::new(key),
            bucket: Bucket::new(rate, tokens, now),
            mid: 0,
        }
    }

    fn next_mid(&mut self) -> u16
        ensures mid { result ≡ self.old.mid }
        ensures after { self.new ≡ record self.old { mid = (self.old.mid + 1) % 2 ^ 16 } }
    {
        let mid = self.mid;
        self.mid = if mid == u16::MAX { 0 } else { mid + 1 };
        mid
    }

    /// Whether a request of `size` bytes may go on.
    fn judge(&self, message: &Message<'_>, size: usize, now: u64) -> Result<(), UpFault>
        requires { IsRead (packet_of message.now) }
        ensures ok { OnOk result (IsRequest (packet_of message.now) × Fits (packet_of message.now) × (self.now.sealing.count ≢ end40)
            × (size ≤ tokens_at self.now.bucket now)) }
        ensures err { IfErr result (IsHeld self.now (packet_of message.now) size now) }
    {
        if !is_request(message) {
            return Err(UpFault::NotRequest);
        }
        if message.token.len() > MAX_CLIENT_TOKEN {
            return Err(UpFault::TooLong(message.token.len()));
        }
        let need = need_of(message);
        if need > MAX_DATAGRAM {
            return Err(UpFault::TooLong(need));
        }
        if self.sealer.is_spent() {
            return Err(UpFault::Spent(self.sealer.count()));
        }
        let tokens = self.bucket.tokens(now);
        if tokens < size as u64 {
            return Err(UpFault::Over(tokens, size));
        }
        Ok(())
    }

    /// Sends a request on that may go.
    fn send(
        &mut self,
        peer: Peer,
        message: &Message<'_>,
        size: usize,
        now: u64,
        out: &mut ArrayVec<u8, 1280>,
    )
        requires read { IsRead (packet_of message.now) }
        requires request { IsRequest (packet_of message.now) }
        requires fits { Fits (packet_of message.now) }
        requires left { self.old.sealing.count ≢ end40 }
        requires enough { size ≤ tokens_at self.old.bucket now }
        ensures { IsSentOn self.old self.new peer (packet_of message.now) size now out.new.items }
    {
        let mut token = ArrayVec::new();
        match self.sealer.seal(peer, message.token, now, &mut token) {
            Ok(()) => {}
            Err(_) => unreachable!(),
        }
        self.bucket = self.bucket.after(now, size as u64);
        let mid = self.next_mid();
        let head = Head {
            kind: Kind::Non,
            code: message.code,
            mid,
            token: token.as_slice(),
        };
        write_message(&head, message, true, out);
    }

    fn forward(
        &mut self,
        peer: Peer,
        message: &Message<'_>,
        size: usize,
        now: u64,
        out: &mut ArrayVec<u8, 1280>,
    ) -> Result<(), UpFault>
        requires read { IsRead (packet_of message.now) }
        requires empty { out.old.items ≡ [] }
        ensures ok { OnOk result (IsSentOn self.old self.new peer (packet_of message.now) size now out.new.items) }
        ensures fault { IfErr result (IsHeld self.old (packet_of message.now) size now) }
        ensures err { OnErr result ((self.new ≡ self.old) × (out.new.items ≡ [])) }
    {
        self.judge(message, size, now)?;
        self.send(peer, message, size, now, out);
        Ok(())
    }

    /// Puts the request to send on in place of what `out` held. A refusal leaves `out` empty and
    /// changes nothing.
    pub fn up(
        &mut self,
        peer: Peer,
        bytes: &[u8],
        now: u64,
        out: &mut ArrayVec<u8, 1280>,
    ) -> Result<(), UpFault>
        requires { length bytes.now ≤ 1280 }
        ensures ok { OnOk result (IsForwarded self.old self.new peer bytes.now now out.new.items) }
        ensures fault { IfErr result (IsUpFault self.old bytes.now now) }
        ensures err { OnErr result ((self.new ≡ self.old) × (out.new.items ≡ [])) }
    {
        out.clear();
        match parse(bytes) {
            Err(_) => Err(UpFault::NotCoap),
            Ok(message) => self.forward(peer, &message, bytes.len(), now, out),
        }
    }

    /// Sends an answer back under the client's token.
    fn answer(&mut self, message: &Message<'_>, token: &[u8], out: &mut ArrayVec<u8, 1280>)
        requires token { length message.now.token.now ≡ 39 + length token.now }
        requires short { length token.now ≤ 561 }
        requires fits { length (text_of (packet_of message.now)) ≤ 1280 }
        ensures out { out.new.items ≡ text_of (returned self.old.mid token.now (packet_of message.now)) }
        ensures after { self.new ≡ record self.old { mid = (self.old.mid + 1) % 2 ^ 16 } }
    {
        let mid = self.next_mid();
        let head = Head {
            kind: Kind::Non,
            code: message.code,
            mid,
            token,
        };
        write_message(&head, message, false, out);
    }

    fn back(
        &mut self,
        message: &Message<'_>,
        now: u64,
        out: &mut ArrayVec<u8, 1280>,
    ) -> Result<Peer, DownFault>
        requires read { IsRead (packet_of message.now) }
        requires fits { length (text_of (packet_of message.now)) ≤ 1280 }
        requires empty { out.old.items ≡ [] }
        ensures ok { IfOk result (IsSentBack self.old self.new (packet_of message.now) now out.new.items) }
        ensures fault { IfErr result (IsKept self.old (packet_of message.now) now) }
        ensures err { OnErr result ((self.new ≡ self.old) × (out.new.items ≡ [])) }
    {
        if message.code != CHANGED {
            return Err(DownFault::NotAnswer);
        }
        let mut token = ArrayVec::new();
        match self.sealer.unseal(message.token, now, &mut token) {
            Err(TokenFault::NotMine) => Err(DownFault::NotMine),
            Err(TokenFault::Late(second)) => Err(DownFault::Late(second)),
            Ok(peer) => {
                self.answer(message, token.as_slice(), out);
                Ok(peer)
            }
        }
    }

    /// Puts the answer to send back in place of what `out` held, and gives the peer that it is for.
    /// A refusal leaves `out` empty and changes nothing.
    pub fn down(
        &mut self,
        bytes: &[u8],
        now: u64,
        out: &mut ArrayVec<u8, 1280>,
    ) -> Result<Peer, DownFault>
        requires { length bytes.now ≤ 1280 }
        ensures { IsDown self.old self.new bytes.now now out.new.items result }
    {
        out.clear();
        match parse(bytes) {
            Err(_) => Err(DownFault::NotCoap),
            Ok(message) => self.back(&message, now, out),
        }
    }
}
