//! The pledge.
ghost use Rattle.std.specs.Prelude.{◌≡◌, ◌≤◌, ◌<◌, ◌+◌, ◌^◌, ◌↔◌, ℕ, List, [], ◌∷◌, Option, Some, None, Result, length, IsTrue, IfSome, MatchOption, MatchBool, OnErr, false};
ghost use Rattle.cbor_cojp.specs.Join.{view};
ghost use Rattle.cbor_cojp.specs.Spelling.{join_text};
ghost use Rattle.replay_window.specs.Parts.{StandsFor};
ghost use Rattle.oscore_context.specs.declared.context.Side.TheVariants.{Pledge as PledgeSide};
ghost use Rattle.oscore_context.specs.Context.{known};
ghost use Rattle.oscore_message.specs.declared.answer.AnswerFault.{AnswerFault};
ghost use Rattle.oscore_message.specs.Answering.{IsAnswer};
ghost use Rattle.oscore_message.specs.Finding.{Request, request_of};
ghost use Rattle.pledge_core.specs.Session.{started};
ghost use Rattle.pledge_core.specs.Asking.{IsAsked, join_plaintext};
ghost use Rattle.pledge_core.specs.Taking.{IsTakenAs, IsSaid, said, end_of, is_late};
ghost use Rattle.std.specs.Option.{option_map};
ghost use Rattle.pledge_core.specs.Updating.{IsUpdate, IsUpdated, IsFresh, Names};

use crate::fault::AskFault;
use crate::said::{Said, read_answer};
use crate::took::Took;
use arrayvec::ArrayVec;
use cbor_cojp::{JoinRequest, write_join};
use coap_message::{Head, Kind};
use edge_traits::PledgeId;
use oscore_context::{Context, Side};
use oscore_message::{
    Found, find_update, open_answer, open_request, protect_answer, protect_request,
};
use replay_window::{Judged, Window};
use std::fmt;
use std::marker::Model;

// Numbers stay below this one.
const NUMBERS: u64 = 1 << 40;

// The token of the request number 0.
const FIRST_TOKEN: u64 = 0x0102_0304_0506_0708;

// The seconds after a request in which its answer is taken.
const PATIENCE: u64 = 600;

const HOUR: u64 = 3600;

// The code 2.04, which is all that the answer to an update says.
const CHANGED: u8 = 68;

/// A pledge. Contracts see what it knows.
#[derive(Drop)]
pub struct Pledge {
    context: Context,
    next: u64,
    asked: Option<(u64, u64)>,
    window: Window,
    held: Option<(u16, u64)>,
}

impl Model for Pledge {
    ghost use Rattle.std.specs.Prelude.{◌≡◌, ◌≤◌, ◌<◌, ◌^◌, IfSome};
    ghost use Rattle.oscore_context.specs.declared.context.Side.TheVariants.{Pledge as PledgeSide};
    ghost use Rattle.pledge_core.specs.Session.{Session};

    ghost Value = { Session };

    ghost view = { λ p. record { context = p.context; next = p.next; asked = p.asked; window = p.window; held = p.held } };

    ghost invariant = { λ p. (p.context.side ≡ PledgeSide) × (p.next ≤ 2 ^ 40) × IfSome p.asked (λ a. a.0 < 2 ^ 40) };
}

/// Shows no key.
impl fmt::Debug for Pledge {
    ghost use Rattle.std.specs.Prelude.{Some, codes};

    ghost debug_output = { λ _. Some (codes "Pledge { .. }") };

    fn fmt<W: fmt::Write>(&self, f: &mut fmt::Formatter<W>) -> fmt::Result {
        f.write_str("Pledge { .. }")
    }
}

// The end of a lease that is taken now.
fn end_of(now: u64, hours: Option<u32>) -> u64
    ensures { result ≡ end_of now hours }
{
    match hours {
        None => u64::MAX,
        Some(hours) => now.saturating_add(HOUR * hours as u64),
    }
}

fn is_late(asked: u64, now: u64) -> bool
    ensures { result ≡ is_late asked now }
{
    now.saturating_sub(asked) > PATIENCE
}

fn plaintext_of(join: &JoinRequest<'_>) -> ArrayVec<u8, 516>
    requires { IfSome (view join.now).network (λ network. length network ≤ 400) }
    ensures { result.items ≡ join_plaintext (join_text (view join.now)) }
{
    let mut payload = ArrayVec::new();
    write_join(join, &mut payload);
    let mut inner = ArrayVec::new();
    match inner.try_extend_from_slice(&[2, 0xb1, b'j', 0xff]) {
        Ok(()) => {}
        Err(_) => unreachable!(),
    }
    match inner.try_extend_from_slice(&payload) {
        Ok(()) => {}
        Err(_) => unreachable!(),
    }
    inner
}

// An identifier has eight bytes.
fn length_of(id: PledgeId) -> usize
    ensures length { length id.0 ≡ 8 }
    ensures value { result ≡ 8 }
{
    id.0.as_slice().len()
}

fn is_named(context: Option<&[u8]>, id: PledgeId) -> bool
    ensures { IsTrue result ↔ Names id (option_map (λ c. c.now) context.entry) }
{
    match context {
        None => true,
        Some(bytes) => bytes == id.0.as_slice(),
    }
}

impl Pledge {
    /// A pledge that has asked nothing yet.
    pub fn new(id: PledgeId, psk: &[u8; 16]) -> Pledge
        ensures { result ≡ started (known psk.now id PledgeSide) }
    {
        Pledge {
            context: Context::derive(psk, id, Side::Pledge),
            next: 0,
            asked: None,
            window: Window::empty(),
            held: None,
        }
    }

    /// A pledge that goes on: its next number is `base`, its window is that of the updates that it took, and it holds this
    /// address up to this time.
    pub fn resume(
        id: PledgeId,
        psk: &[u8; 16],
        base: u64,
        window: Window,
        held: Option<(u16, u64)>,
    ) -> Pledge
        requires { base ≤ 2 ^ 40 }
        ensures { result ≡ record { context = known psk.now id PledgeSide; next = base; asked = None; window = window; held = held } }
    {
        Pledge {
            context: Context::derive(psk, id, Side::Pledge),
            next: base,
            asked: None,
            window,
            held,
        }
    }

    /// Asks to join with the next number, and puts the request in place of what `out` held. `Ok` has the number. `Spent` comes
    /// where the next number is 2^40.
    pub fn ask(
        &mut self,
        now: u64,
        mid: u16,
        join: &JoinRequest<'_>,
        out: &mut ArrayVec<u8, 1280>,
    ) -> Result<u64, AskFault>
        requires { IfSome (view join.now).network (λ network. length network ≤ 400) }
        ensures asked { IsAsked self.old self.new now mid (join_text (view join.now)) out.new.items result }
        ensures spent { (result ≡ Err (AskFault.Spent (2 ^ 40))) ↔ (self.old.next ≡ 2 ^ 40) }
        ensures err { OnErr result (out.new.items ≡ []) }
    {
        out.clear();
        let number = self.next;
        if number >= NUMBERS {
            return Err(AskFault::Spent(number));
        }
        let _ = length_of(self.context.id());
        let inner = plaintext_of(join);
        let token = (FIRST_TOKEN + number).to_be_bytes();
        let head = Head {
            kind: Kind::Con,
            code: 2,
            mid,
            token: &token,
        };
        match protect_request(&self.context, number, &inner, &head, out) {
            Ok(()) => {}
            Err(_) => unreachable!(),
        }
        self.next = number + 1;
        self.asked = Some((number, now));
        Ok(number)
    }

    // What a genuine answer's plaintext does.
    fn take_plaintext(&mut self, plain: &[u8], asked: u64, now: u64) -> Took
        ensures { IsSaid self.old self.new asked now (said plain.now) result }
    {
        match read_answer(plain) {
            Said::Nothing => Took::Other,
            Said::Refuses(code) => {
                if is_late(asked, now) {
                    return Took::Late;
                }
                Took::Refused(code)
            }
            Said::Joins(short) => {
                if is_late(asked, now) {
                    return Took::Late;
                }
                self.held = Some((short.address, end_of(now, short.hours)));
                Took::Joined(short.address)
            }
        }
    }

    // The update that a datagram is, where it is genuine.
    fn open_update<'a>(&self, bytes: &'a [u8]) -> Option<Found<'a>>
        requires { length bytes.now ≤ 1280 }
        ensures { MatchOption result ((r : Request) → IsUpdate self.now bytes.now r → ⊥)
            (λ found. IsUpdate self.now bytes.now (request_of found)) }
    {
        let found = match find_update(bytes) {
            Ok(found) => found,
            Err(_) => return None,
        };
        if !is_named(found.option.context, self.context.id()) {
            return None;
        }
        let mut inner = ArrayVec::new();
        match open_request(&self.context, &found, &mut inner) {
            Ok(()) => Some(found),
            Err(_) => None,
        }
    }

    /// Takes a datagram as the answer to the last request.
    pub fn take(&mut self, bytes: &[u8], now: u64) -> Took
        requires { length bytes.now ≤ 1280 }
        ensures none { self.old.asked ≡ None → (result ≡ Took.Other) × (self.new ≡ self.old) }
        ensures each { (n time : ℕ) (r : Result (List ℕ) AnswerFault) → self.old.asked ≡ Some (n, time)
            → IsAnswer self.old.context n bytes.now r → IsTakenAs self.old self.new time now r result }
    {
        let Some((number, time)) = self.asked else {
            return Took::Other;
        };
        let mut inner = ArrayVec::new();
        match open_answer(&self.context, number, bytes, &mut inner) {
            Err(_) => Took::Other,
            Ok(()) => self.take_plaintext(&inner, time, now),
        }
    }

    /// Takes an update of the registrar, and puts its answer in place of what `out` held.
    pub fn update(&mut self, bytes: &[u8], out: &mut ArrayVec<u8, 1280>) -> bool
        requires { length bytes.now ≤ 1280 }
        // What is taken is genuine and fresh.
        ensures updated { IsTrue result → (r : Request) × IsUpdate self.old bytes.now r × IsFresh self.old r.number
            × IsUpdated self.old self.new r out.new.items }
        // What is genuine and fresh is taken.
        ensures taken { (r : Request) → IsUpdate self.old bytes.now r → IsFresh self.old r.number → IsTrue result }
        ensures refused { result ≡ false → (self.new ≡ self.old) × (out.new.items ≡ []) }
    {
        out.clear();
        let Some(found) = self.open_update(bytes) else {
            return false;
        };
        match self.window.judge(found.number) {
            Judged::Fresh => {}
            Judged::Taken => return false,
            Judged::Old => return false,
        }
        self.window.take(found.number);
        let reply = found.reply(found.message.mid);
        protect_answer(&self.context, found.number, &[CHANGED], &reply, out);
        true
    }

    /// The address that is held at this time.
    pub fn held(&self, now: u64) -> Option<u16>
        ensures { (address : ℕ) → (result ≡ Some address) ↔ ((end : ℕ) × (self.now.held ≡ Some (address, end)) × (now < end)) }
    {
        match self.held {
            None => None,
            Some((address, end)) => {
                if now < end {
                    return Some(address);
                }
                None
            }
        }
    }
}
