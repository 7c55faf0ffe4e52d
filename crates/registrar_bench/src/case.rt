//! What is measured: a case, what it does again and again, and what it answers after one time.
ghost use Rattle.std.specs.Prelude.{◌≡◌, ◌<◌, length};

use crate::locks::{mutexes, turns};
use crate::messages::{opens_right, protects_right};
use crate::parts::{Look, leases, looks, releases, renewals, windows};
use crate::states::{Question, decisions, questions};
use aes_ccm::{Aes128, Unsealed};
use hkdf_sha256::{expand, extract};
use seq_table::{Draw, Seat, SeqTable};
use std::alloc::Global;
use std::sync::Wait;

const KEY: &[u8; 16] = b"\x00\x01\x02\x03\x04\x05\x06\x07\x08\x09\x0a\x0b\x0c\x0d\x0e\x0f";

const NONCE: &[u8; 13] = b"0123456789:;<";

const AAD: &[u8; 19] = b"additional data, 19";

const TEXT: &[u8; 24] = b"a plaintext of 24 bytes.";

// The sealing of the text, as the `cryptography` package of Python makes it.
const SEALING: &[u8; 32] = b"\x8f\x13\x20\xb4\xfa\x01\x90\xe0\x36\x84\x05\x82\xea\xa9\x2b\xd0\
    \x0e\xe1\x28\x64\x46\x98\xe0\x8c\xa6\x44\x58\x27\x4a\xab\xfa\xa9";

// The block of FIPS 197, C.1, and what it is encrypted to.
const BLOCK: &[u8; 16] = b"\x00\x11\x22\x33\x44\x55\x66\x77\x88\x99\xaa\xbb\xcc\xdd\xee\xff";

const ENCRYPTED: &[u8; 16] = b"\x69\xc4\xe0\xd8\x6a\x7b\x04\x30\xd8\xcd\xb7\x80\x70\xb4\xc5\x5a";

// What a key of 16 bytes is derived for, and the key that the secret above gives, as Python's `hmac` makes it.
const INFO: &[u8] = b"a key of 16 bytes";

const DERIVED: &[u8; 16] = b"\x1b\x3f\x00\x9b\xd3\x1a\xf1\x50\x7b\xad\x52\xa3\x80\xb7\x85\x58";

// What a list of all numbers taken gives for the window of 2,000 numbers from seed 7, in Python.
const WINDOW: (u64, u32) = (535, 0xefff_ff77);

/// How many numbers a seat draws.
const DRAWS: u64 = 1 << 24;

/// A hot path.
#[derive(Clone, Copy)]
pub enum Case {
    Block,
    Seal,
    Unseal,
    Key,
    Derive,
    OpenRequest,
    ProtectAnswer,
    Draw,
    Turn,
    Mutex,
    Lease,
    LeaseAsk,
    LeaseHolds,
    LeaseLive,
    LeaseGrant,
    LeaseRelease,
    Window,
    Due,
    DueAgain,
    Apply,
    JobFor,
    Waiting,
}

impl Case {
    pub const ALL: [Case; 22] = [
        Case::Block,
        Case::Seal,
        Case::Unseal,
        Case::Key,
        Case::Derive,
        Case::OpenRequest,
        Case::ProtectAnswer,
        Case::Draw,
        Case::Turn,
        Case::Mutex,
        Case::Lease,
        Case::LeaseAsk,
        Case::LeaseHolds,
        Case::LeaseLive,
        Case::LeaseGrant,
        Case::LeaseRelease,
        Case::Window,
        Case::Due,
        Case::DueAgain,
        Case::Apply,
        Case::JobFor,
        Case::Waiting,
    ];

    /// The case of this word.
    pub fn of(word: &str) -> Option<Case> {
        match word {
            "block" => Some(Case::Block),
            "seal" => Some(Case::Seal),
            "unseal" => Some(Case::Unseal),
            "key" => Some(Case::Key),
            "derive" => Some(Case::Derive),
            "open_request" => Some(Case::OpenRequest),
            "protect_answer" => Some(Case::ProtectAnswer),
            "draw" => Some(Case::Draw),
            "turn" => Some(Case::Turn),
            "mutex" => Some(Case::Mutex),
            "lease" => Some(Case::Lease),
            "lease_ask" => Some(Case::LeaseAsk),
            "lease_holds" => Some(Case::LeaseHolds),
            "lease_live" => Some(Case::LeaseLive),
            "lease_grant" => Some(Case::LeaseGrant),
            "lease_release" => Some(Case::LeaseRelease),
            "window" => Some(Case::Window),
            "due" => Some(Case::Due),
            "due_again" => Some(Case::DueAgain),
            "apply" => Some(Case::Apply),
            "job_for" => Some(Case::JobFor),
            "waiting" => Some(Case::Waiting),
            _ => None,
        }
    }

    pub fn word(&self) -> &'static str {
        match self {
            Case::Block => "block",
            Case::Seal => "seal",
            Case::Unseal => "unseal",
            Case::Key => "key",
            Case::Derive => "derive",
            Case::OpenRequest => "open_request",
            Case::ProtectAnswer => "protect_answer",
            Case::Draw => "draw",
            Case::Turn => "turn",
            Case::Mutex => "mutex",
            Case::Lease => "lease",
            Case::LeaseAsk => "lease_ask",
            Case::LeaseHolds => "lease_holds",
            Case::LeaseLive => "lease_live",
            Case::LeaseGrant => "lease_grant",
            Case::LeaseRelease => "lease_release",
            Case::Window => "window",
            Case::Due => "due",
            Case::DueAgain => "due_again",
            Case::Apply => "apply",
            Case::JobFor => "job_for",
            Case::Waiting => "waiting",
        }
    }

    /// Whether the answer after one time is the known one.
    pub fn is_right<R: Wait>(&self, rt: &R, alloc: Global) -> bool {
        match self {
            Case::Block => blocks(1) == *ENCRYPTED,
            Case::Seal => seals(1) == *SEALING,
            Case::Unseal => unseals(1)[..24] == TEXT[..],
            Case::Key => keys(1) == *ENCRYPTED,
            Case::Derive => derives(1) == *DERIVED,
            Case::OpenRequest => opens_right(1),
            Case::ProtectAnswer => protects_right(1),
            Case::Draw => draws(alloc, 2) == Some(1),
            Case::Turn => turns(rt, alloc, 2) == Some(2),
            Case::Mutex => mutexes(rt, 2) == 2,
            Case::Lease => leases(alloc, 1) == Some(1),
            Case::LeaseAsk => looks(alloc, Look::Ask, 1) == Some(1),
            Case::LeaseHolds => looks(alloc, Look::Holds, 1) == Some(1),
            Case::LeaseLive => looks(alloc, Look::Live, 1) == Some(1),
            Case::LeaseGrant => renewals(alloc, 1) == Some(65534),
            Case::LeaseRelease => releases(alloc, 1) == Some(65533),
            Case::Window => windows(2000, 7) == Some(WINDOW),
            Case::Due => questions(alloc, Question::Fresh, 1) == Some(1),
            Case::DueAgain => questions(alloc, Question::Repeat, 1) == Some(1),
            Case::Apply => decisions(alloc, 1) == Some(1),
            Case::JobFor => questions(alloc, Question::Job, 1) == Some(1),
            Case::Waiting => questions(alloc, Question::Waiting, 1) == Some(1),
        }
    }

    /// Repeats the case, and says whether its last answer is another than what it began with: each answer is used, so
    /// that the compiler leaves none out.
    pub fn repeat<R: Wait>(&self, rt: &R, alloc: Global, count: u64) -> bool {
        match self {
            Case::Block => blocks(count) != *BLOCK,
            Case::Seal => seals(count)[24..] != [0; 8],
            Case::Unseal => unseals(count) != *SEALING,
            Case::Key => keys(count) != *BLOCK,
            Case::Derive => derives(count) != *KEY,
            Case::OpenRequest => opens_right(count),
            Case::ProtectAnswer => protects_right(count),
            Case::Draw => draws(alloc, count).is_some(),
            Case::Turn => turns(rt, alloc, count).is_some_and(|held| held != 0),
            Case::Mutex => mutexes(rt, count) != 0,
            Case::Lease => leases(alloc, count) == Some(count),
            Case::LeaseAsk => looks(alloc, Look::Ask, count) == Some(count),
            Case::LeaseHolds => looks(alloc, Look::Holds, count) == Some(count),
            Case::LeaseLive => looks(alloc, Look::Live, count) == Some(count),
            Case::LeaseGrant => renewals(alloc, count) > Some(65533),
            Case::LeaseRelease => releases(alloc, count) == Some(65533),
            Case::Window => match windows(count, count) {
                None => false,
                Some((greatest, bits)) => greatest ^ bits as u64 != 0xffff_ffff_ffff,
            },
            Case::Due => questions(alloc, Question::Fresh, count) == Some(count),
            Case::DueAgain => questions(alloc, Question::Repeat, count) == Some(count),
            Case::Apply => decisions(alloc, count) == Some(count),
            Case::JobFor => questions(alloc, Question::Job, count) == Some(count),
            Case::Waiting => questions(alloc, Question::Waiting, count) == Some(count),
        }
    }
}

fn blocks(count: u64) -> [u8; 16] {
    let cipher = Aes128::new(KEY);
    let mut block = *BLOCK;
    for _ in 0..count {
        let next = cipher.block(&block);
        block = next;
    }
    block
}

fn seals(count: u64) -> [u8; 32] {
    let cipher = Aes128::new(KEY);
    let mut buf = [0; 32];
    buf[..24].copy_from_slice(TEXT);
    for _ in 0..count {
        let _ = cipher.seal(NONCE, AAD, &mut buf, 24);
    }
    buf
}

fn unseals(count: u64) -> [u8; 32] {
    let cipher = Aes128::new(KEY);
    let mut buf = *SEALING;
    for _ in 0..count {
        buf = *SEALING;
        if cipher.unseal(NONCE, AAD, &mut buf, 32) != Unsealed::Opened(24) {
            return *SEALING;
        }
    }
    buf
}

fn keys(count: u64) -> [u8; 16] {
    let mut key = *KEY;
    let mut block = *BLOCK;
    for _ in 0..count {
        let next = Aes128::new(&key).block(BLOCK);
        key = next;
        block = next;
    }
    block
}

fn derives(count: u64) -> [u8; 16] {
    let mut key = *KEY;
    for _ in 0..count {
        let next = expand::<16>(&extract(&[], &key), INFO);
        key = next;
    }
    key
}

/// The last of `count` numbers, by as many tables as it takes.
fn draws(alloc: Global, count: u64) -> Option<u64> {
    let mut last = None;
    let mut left = count;
    while left > 0 {
        let turn = left.min(DRAWS);
        last = draws_of_one(alloc, turn);
        left -= turn;
    }
    last
}

fn draws_of_one(alloc: Global, count: u64) -> Option<u64> {
    let Ok((table, mut seats)) = SeqTable::new(alloc, &[0], 1) else {
        return None;
    };
    let mut seat = seats.pop()?;
    draws_by(&table, &mut seat, count)
}

fn draws_by(table: &SeqTable, seat: &mut Seat, count: u64) -> Option<u64>
    requires seat { seat.old.table ≡ table.now }
    requires context { 0 < length table.now.bases }
{
    let mut last = None;
    for _ in 0..count {
        if let Draw::Number(number) = table.draw(seat, 0) {
            last = Some(number);
        }
    }
    last
}
