//! A message that is written piece by piece.
ghost use Rattle.std.specs.Prelude.{◌≡◌, ◌≤◌, ◌↔◌, [], length, IsOk, OnOk, OnErr, IfErr};
ghost use Rattle.coap_message.specs.Header.{header_of};
ghost use Rattle.coap_message.specs.Message.{Packet, IsMessage};
ghost use Rattle.coap_message.specs.Draft.{draft_of, with_option, with_payload, IsDraftOf};

use crate::body::{payload_length, push_payload};
use crate::extended::append;
use crate::fault::TooLong;
use crate::header::{Head, written_header};
use crate::option::{option_length, push_option};
use arrayvec::ArrayVec;
use std::marker::Model;

// The bytes that a datagram has at most.
const MAX_MESSAGE: usize = 1280;

/// A message of at most 1280 bytes, written as far as its last option. Contracts see the bytes and that option's number.
#[derive(Debug, Drop)]
pub struct Draft {
    written: ArrayVec<u8, 1280>,
    last: u16,
}

impl Model for Draft {
    ghost use Rattle.coap_message.specs.Draft.{Drafted};

    ghost Value = { Drafted };

    ghost view = { λ d. record { spelled = d.written.items; last = d.last } };
}

impl Draft {
    /// A message's header and token (RFC 7252, 3; RFC 8974, 2.1).
    pub fn start(head: &Head<'_>) -> Draft
        requires { length head.now.token.now ≤ 600 }
        ensures { result ≡ draft_of (header_of head.now) }
    {
        let written = written_header(head);
        Draft { written, last: 0 }
    }

    /// Adds the next option (RFC 7252, 3.1). `TooLong` has the length of the message as far as this option's end.
    pub fn option(&mut self, number: u16, value: &[u8]) -> Result<(), TooLong>
        requires { self.old.last ≤ number }
        ensures ok { OnOk result (self.new ≡ with_option self.old number value.now) }
        ensures fits { IsOk result ↔ (length (with_option self.old number value.now).spelled ≤ 1280) }
        ensures need { IfErr result (λ e. e.0 ≡ length (with_option self.old number value.now).spelled) }
        ensures err { OnErr result (self.new ≡ self.old) }
    {
        let need = self.written.len() + option_length(self.last, number, value);
        if need > MAX_MESSAGE {
            return Err(TooLong(need));
        }
        push_option(&mut self.written, self.last, number, value);
        self.last = number;
        Ok(())
    }

    /// Puts the whole message in place of what `out` held. An empty payload has no marker. `TooLong` has the message's
    /// length, and leaves `out` empty.
    pub fn write(self, payload: &[u8], out: &mut ArrayVec<u8, 1280>) -> Result<(), TooLong>
        ensures ok { OnOk result (out.new.items ≡ with_payload self payload.now) }
        ensures fits { IsOk result ↔ (length (with_payload self payload.now) ≤ 1280) }
        ensures need { IfErr result (λ e. e.0 ≡ length (with_payload self payload.now)) }
        ensures err { OnErr result (out.new.items ≡ []) }
        // What is written is the message whose pieces the draft got.
        ensures message { (m : Packet) → IsDraftOf m self → payload.now ≡ m.payload
            → OnOk result (IsMessage out.new.items m) }
    {
        let need = self.written.len() + payload_length(payload);
        out.clear();
        if need > MAX_MESSAGE {
            return Err(TooLong(need));
        }
        append(out, self.written.as_slice());
        push_payload(out, payload);
        Ok(())
    }
}
