//! Requests, answers and updates, worked out by hand or made by other implementations.
use super::*;
use arrayvec::ArrayVec;
use cbor_cojp::JoinRequest;
use coap_message::{Head, Kind};
use edge_traits::PledgeId;
use oscore_context::{Context, Side};
use oscore_message::{find, open_answer, open_request, protect_answer, protect_request};
use replay_window::Window;
use std::alloc::Global;
use std::process::Abort;
use std::test::Fail;

mod vectors;

use vectors::{Exchange, FIRST, SECOND};

const A1: PledgeId = PledgeId([0, 0, 0, 0, 0, 0, 0, 0xa1]);

const PSK: [u8; 16] = [7; 16];

const JOIN: JoinRequest<'static> = JoinRequest {
    role: 0,
    network: Some(b"\xca\xfe"),
};

/// The registrar's answer of this plaintext to the pledge's request of this number.
fn answer_of(rt: &impl Abort, number: u64, request: &[u8], inner: &[u8]) -> ArrayVec<u8, 1280> {
    let registrar = Context::derive(&PSK, A1, Side::Registrar);
    let mut answer = ArrayVec::new();
    assert!(rt; request.len() <= 1280);
    assert!(rt; number < 1 << 40);
    assert!(rt; 1 <= inner.len());
    assert!(rt; inner.len() <= 512);
    match find(request) {
        Err(_) => panic!(rt; "not found"),
        Ok(found) => protect_answer(&registrar, number, inner, &found.reply(9), &mut answer),
    }
    answer
}

/// A pledge that asked at 100, and what it takes at this time as the answer of this plaintext.
fn taken(rt: &impl Abort, inner: &[u8], now: u64) -> (Took, Pledge) {
    let mut pledge = Pledge::new(A1, &PSK);
    let mut out = ArrayVec::new();
    assert!(rt; pledge.ask(100, 1, &JOIN, &mut out) == Ok(0));
    let answer = answer_of(rt, 0, &out, inner);
    assert!(rt; answer.len() <= 1280);
    let took = pledge.take(&answer, now);
    (took, pledge)
}

// RFC 9031, 8.1.1: the outer options of a Join Request, and its plaintext.
#[test]
fn a_request_is_that_of_the_standard(rt: HostRuntime) -> Result<(), Fail> {
    let mut pledge = Pledge::new(A1, &PSK);
    let mut out = ArrayVec::new();
    assert!(rt; pledge.ask(0, 1, &JOIN, &mut out) == Ok(0));
    assert!(rt; out.len() == 60);
    assert!(rt;
        out.starts_with(
            b"\x48\x02\x00\x01\x01\x02\x03\x04\x05\x06\x07\x08\x3b6tisch.arpa\x6b\x19\x00\x08\x00\x00\x00\x00\x00\x00\x00\xa1\xd4\x11coap\xff"
        )
    );
    let registrar = Context::derive(&PSK, A1, Side::Registrar);
    match find(&out) {
        Err(_) => panic!(rt; "not found"),
        Ok(found) => {
            let mut inner = ArrayVec::new();
            assert!(rt; open_request(&registrar, &found, &mut inner).is_ok());
            assert!(rt; inner.as_slice() == b"\x02\xb1\x6a\xff\xa1\x05\x42\xca\xfe".as_slice());
        }
    }
    assert!(rt; pledge.ask(0, 2, &JOIN, &mut out) == Ok(1));
    assert!(rt; out.starts_with(b"\x48\x02\x00\x02\x01\x02\x03\x04\x05\x06\x07\x09"));
    Ok(())
}

#[test]
fn an_answer_in_time_gives_an_address(rt: HostRuntime) -> Result<(), Fail> {
    // The address af93 for 24 hours, for none, for 2^32 - 1, and without end.
    let day = b"\x44\xff\xa1\x03\x82\x42\xaf\x93\x18\x18";
    let (took, pledge) = taken(&rt, day, 700);
    assert!(rt; took == Took::Joined(0xaf93));
    assert!(rt; pledge.held(700) == Some(0xaf93));
    assert!(rt; pledge.held(87_099) == Some(0xaf93));
    assert!(rt; pledge.held(87_100) == None);
    let (took, pledge) = taken(&rt, day, 701);
    assert!(rt; took == Took::Late);
    assert!(rt; pledge.held(701) == None);
    let (took, pledge) = taken(&rt, b"\x44\xff\xa1\x03\x82\x42\xaf\x93\x00", 100);
    assert!(rt; took == Took::Joined(0xaf93));
    assert!(rt; pledge.held(100) == None);
    let long = b"\x44\xff\xa1\x03\x82\x42\xaf\x93\x1a\xff\xff\xff\xff";
    let (_, pledge) = taken(&rt, long, 100);
    assert!(rt; pledge.held(100 + 3600 * 0xffff_ffff - 1) == Some(0xaf93));
    assert!(rt; pledge.held(100 + 3600 * 0xffff_ffff) == None);
    let (_, pledge) = taken(&rt, b"\x44\xff\xa1\x03\x81\x42\xaf\x93", 100);
    assert!(rt; pledge.held(u64::MAX - 1) == Some(0xaf93));
    Ok(())
}

#[test]
fn other_answers_give_no_address(rt: HostRuntime) -> Result<(), Fail> {
    assert!(rt; taken(&rt, b"\xa3", 100).0 == Took::Refused(0xa3));
    assert!(rt; taken(&rt, b"\x80\xff\x83\x01\x01\xf6", 700).0 == Took::Refused(0x80));
    assert!(rt; taken(&rt, b"\xa3", 701).0 == Took::Late);
    // No Configuration, and one without an address.
    assert!(rt; taken(&rt, b"\x44", 100).0 == Took::Other);
    assert!(rt; taken(&rt, b"\x44\xff\xa0", 100).0 == Took::Other);
    let mut pledge = Pledge::new(A1, &PSK);
    assert!(rt; pledge.take(b"\x60\x44\x00\x01\x90", 0) == Took::Other);
    Ok(())
}

#[test]
fn an_update_is_taken_once(rt: HostRuntime) -> Result<(), Fail> {
    let registrar = Context::derive(&PSK, A1, Side::Registrar);
    let mut pledge = Pledge::new(A1, &PSK);
    let head = Head {
        kind: Kind::Con,
        code: 2,
        mid: 7,
        token: b"\x00\x00\x00\x00\x00\x00\x00\x40",
    };
    let mut update = ArrayVec::new();
    assert!(rt; protect_request(&registrar, 64, b"\x02\xb1\x6a", &head, &mut update).is_ok());
    assert!(rt; update.len() <= 1280);
    let mut answer = ArrayVec::new();
    assert!(rt; pledge.update(&update, &mut answer));
    assert!(rt; answer.len() <= 1280);
    assert!(rt; answer.starts_with(b"\x68\x44\x00\x07\x00\x00\x00\x00\x00\x00\x00\x40\x90\xff"));
    let mut inner = ArrayVec::new();
    assert!(rt; open_answer(&registrar, 64, &answer, &mut inner).is_ok());
    assert!(rt; inner.as_slice() == b"\x44".as_slice());
    assert!(rt; !pledge.update(&update, &mut answer));
    assert!(rt; answer.is_empty());
    Ok(())
}

#[test]
fn a_pledge_goes_on_where_it_stopped(rt: HostRuntime) -> Result<(), Fail> {
    let window = Window::empty();
    let mut pledge = Pledge::resume(A1, &PSK, (1 << 40) - 1, window, Some((0xaf93, 50)));
    assert!(rt; pledge.held(49) == Some(0xaf93));
    let mut out = ArrayVec::new();
    assert!(rt; pledge.ask(0, 1, &JOIN, &mut out) == Ok((1 << 40) - 1));
    assert!(rt; pledge.ask(0, 1, &JOIN, &mut out) == Err(AskFault::Spent(1 << 40)));
    assert!(rt; out.is_empty());
    assert!(rt; format!(in rt.alloc(); "{pledge:?}")?.as_str() == "Pledge { .. }");
    Ok(())
}

#[test]
fn no_other_pledge_takes_the_answer(rt: HostRuntime) {
    let mut out = ArrayVec::new();
    let mut pledge = Pledge::new(A1, &PSK);
    assert!(rt; pledge.ask(100, 1, &JOIN, &mut out) == Ok(0));
    let answer = answer_of(&rt, 0, &out, b"\x44\xff\xa1\x03\x81\x42\xaf\x93");
    assert!(rt; answer.len() <= 1280);
    let a2 = PledgeId([0, 0, 0, 0, 0, 0, 0, 0xa2]);
    for (id, psk) in [(a2, PSK), (A1, [8; 16])] {
        let mut other = Pledge::new(id, &psk);
        assert!(rt; other.ask(100, 1, &JOIN, &mut out) == Ok(0));
        assert!(rt; other.take(&answer, 100) == Took::Other);
        assert!(rt; other.held(100) == None);
    }
    let mut later = Pledge::resume(A1, &PSK, 1, Window::empty(), None);
    assert!(rt; later.ask(100, 1, &JOIN, &mut out) == Ok(1));
    assert!(rt; later.take(&answer, 100) == Took::Other);
    assert!(rt; pledge.take(&answer, 100) == Took::Joined(0xaf93));
}

/// The update is taken once, and answered so.
fn is_taken(rt: &impl Abort, alloc: Global, exchange: &Exchange) -> Result<(), Fail> {
    let mut pledge = Pledge::new(PledgeId(exchange.id), &exchange.psk);
    let update = hex::decode(alloc, exchange.update)?;
    assert!(rt; update.len() <= 1280);
    let mut answer = ArrayVec::new();
    assert!(rt; pledge.update(&update, &mut answer));
    if !exchange.answer.is_empty() {
        let wanted = hex::decode(alloc, exchange.answer)?;
        assert!(rt; answer.as_slice() == wanted.as_slice());
    }
    assert!(rt; !pledge.update(&update, &mut answer));
    Ok(())
}

#[test]
fn updates_of_other_implementations_are_taken(rt: HostRuntime) -> Result<(), Fail> {
    for exchange in &FIRST {
        is_taken(&rt, rt.alloc(), exchange)?;
    }
    Ok(())
}

#[test]
fn more_updates_of_other_implementations_are_taken(rt: HostRuntime) -> Result<(), Fail> {
    for exchange in &SECOND {
        is_taken(&rt, rt.alloc(), exchange)?;
    }
    Ok(())
}
