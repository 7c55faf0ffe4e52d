//! Datagrams whose bytes were worked out by an AES-CCM of another make, and refusals by the rules.
ghost use Rattle.std.specs.Prelude.{◌≤◌};

use crate::{DownFault, Proxy, UpFault, round_trip};
use arrayvec::ArrayVec;
use coap_message::{Draft, Head, Kind, parse};
use edge_traits::Peer;
use std::test::Fail;

const KEY: [u8; 16] = [
    0x40, 0x41, 0x42, 0x43, 0x44, 0x45, 0x46, 0x47, 0x48, 0x49, 0x4a, 0x4b, 0x4c, 0x4d, 0x4e, 0x4f,
];

const PEER: Peer = Peer([
    1, 2, 3, 4, 5, 6, 7, 8, 9, 10, 11, 12, 13, 14, 15, 16, 17, 18,
]);

/// A Join Request of the pledge a1, number 0, for the network cafe, as OSCORE protects it: 60
/// bytes.
const REQUEST: &[u8] =
    b"\x48\x02\x00\x01\x01\x02\x03\x04\x05\x06\x07\x08\x3b\x36\x74\x69\x73\x63\x68\x2e\x61\x72\x70\x61\x6b\x19\x00\x08\x00\x00\x00\x00\x00\x00\x00\xa1\xd4\x11\x63\x6f\x61\x70\xff\xcb\xed\x2a\x7c\x0f\x1d\x37\x52\x70\x6b\xef\x33\x96\x19\x88\xd0\x6f";
/// The same on its way to the registrar, sealed at second 1000.
const FORWARDED: &[u8] =
    b"\x5d\x02\x00\x00\x22\x00\x00\x00\x00\x00\x00\x00\x00\xd0\xf9\x7e\x43\x37\x54\x6f\x79\x26\xf4\xaa\xc4\x6b\x93\xf7\x91\xd7\xdb\xdc\x58\x8c\xdd\x77\xb6\x00\x33\x11\x48\xcd\xd5\xf0\x31\x7e\x68\xb6\x1d\x4f\xad\x64\x3b\x36\x74\x69\x73\x63\x68\x2e\x61\x72\x70\x61\x6b\x19\x00\x08\x00\x00\x00\x00\x00\x00\x00\xa1\xff\xcb\xed\x2a\x7c\x0f\x1d\x37\x52\x70\x6b\xef\x33\x96\x19\x88\xd0\x6f";
/// An answer to it, and the same on its way to the pledge.
const ANSWER: &[u8] =
    b"\x6d\x44\x12\x34\x22\x00\x00\x00\x00\x00\x00\x00\x00\xd0\xf9\x7e\x43\x37\x54\x6f\x79\x26\xf4\xaa\xc4\x6b\x93\xf7\x91\xd7\xdb\xdc\x58\x8c\xdd\x77\xb6\x00\x33\x11\x48\xcd\xd5\xf0\x31\x7e\x68\xb6\x1d\x4f\xad\x64\x90\xff\x20\x21\x22\x23\x24\x25\x26\x27\x28\x29\x2a\x2b\x2c\x2d\x2e\x2f\x30\x31\x32\x33";

const RETURNED: &[u8] =
    b"\x58\x44\x00\x01\x01\x02\x03\x04\x05\x06\x07\x08\x90\xff\x20\x21\x22\x23\x24\x25\x26\x27\x28\x29\x2a\x2b\x2c\x2d\x2e\x2f\x30\x31\x32\x33";

fn proxy(rate: u32, tokens: u64) -> Proxy {
    Proxy::new(&KEY, rate, tokens, 1000)
}

#[test]
fn a_request_goes_up_and_its_answer_comes_down(rt: HostRuntime) -> Result<(), Fail> {
    let mut proxy = proxy(10, 60);
    let mut out = ArrayVec::new();
    proxy.up(PEER, REQUEST, 1000, &mut out)?;
    assert_eq!(rt; out.as_slice(), FORWARDED);
    let peer = proxy.down(ANSWER, 1600, &mut out)?;
    assert!(rt; peer == PEER);
    assert_eq!(rt; out.as_slice(), RETURNED);
    round_trip();
    Ok(())
}

#[test]
fn an_answer_later_than_600_seconds_is_late(rt: HostRuntime) {
    let mut proxy = proxy(0, 0);
    let mut out = ArrayVec::new();
    out.push(1);
    let late = proxy.down(ANSWER, 1601, &mut out);
    assert_eq!(rt; late.err(), Some(DownFault::Late(1000)));
    assert_eq!(rt; out.len(), 0);
    let early = proxy.down(ANSWER, 399, &mut out);
    assert_eq!(rt; early.err(), Some(DownFault::Late(1000)));
}

#[test]
fn each_byte_of_the_token_counts(rt: HostRuntime) {
    let mut proxy = proxy(0, 0);
    for at in 5..52 {
        let mut changed = [0; 74];
        changed.copy_from_slice(ANSWER);
        changed[at] ^= 0x80;
        let mut out = ArrayVec::new();
        let refused = proxy.down(&changed, 1000, &mut out);
        assert_eq!(rt; refused.err(), Some(DownFault::NotMine), "at {at}");
    }
}

/// Datagrams that don't come back, each with its fault.
const NOT_RETURNED: [(&[u8], DownFault); 4] = [
    (b"", DownFault::NotCoap),
    (b"\x40\x44\x00\x01\xff", DownFault::NotCoap),
    (b"\x40\x45\x00\x01", DownFault::NotAnswer),
    (b"\x40\x44\x00\x01", DownFault::NotMine),
];

#[test]
fn other_datagrams_do_not_come_back(rt: HostRuntime) {
    let mut proxy = proxy(0, 0);
    for (bytes, fault) in NOT_RETURNED {
        let mut out = ArrayVec::new();
        let refused = proxy.down(bytes, 1000, &mut out);
        assert_eq!(rt; refused.err(), Some(fault), "{bytes:?}");
    }
}

/// Datagrams that don't go on, each with its fault. The bucket is empty.
const NOT_FORWARDED: [(&[u8], UpFault); 10] = [
    (b"", UpFault::NotCoap),
    (b"\x40\x02\x00\x01\xff", UpFault::NotCoap),
    (b"\x60\x02\x00\x01\xd4\x1acoap", UpFault::NotRequest),
    (b"\x70\x02\x00\x01\xd4\x1acoap", UpFault::NotRequest),
    (b"\x40\x01\x00\x01\xd4\x1acoap", UpFault::NotRequest),
    (b"\x40\x02\x00\x01", UpFault::NotRequest),
    (b"\x40\x02\x00\x01\xd5\x1acoaps", UpFault::NotRequest),
    (b"\x40\x02\x00\x01\xd4\x1acoap\x04coap", UpFault::NotRequest),
    (b"\x40\x02\x00\x01\xd4\x1acoap", UpFault::Over(0, 10)),
    (b"\x50\x02\x00\x01\xd4\x1acoap", UpFault::Over(0, 10)),
];

#[test]
fn other_datagrams_do_not_go_on(rt: HostRuntime) {
    let mut proxy = proxy(10, 0);
    for (bytes, fault) in NOT_FORWARDED {
        let mut out = ArrayVec::new();
        out.push(1);
        let refused = proxy.up(PEER, bytes, 1000, &mut out);
        assert_eq!(rt; refused, Err(fault), "{bytes:?}");
        assert_eq!(rt; out.len(), 0);
    }
}

/// A bucket's rate, its tokens and the time, each after second 1000, and the tokens that are there
/// then.
const BUCKETS: [(u32, u64, u64, Option<u64>); 13] = [
    (10, 0, 1000, Some(0)),
    (10, 0, 1005, Some(50)),
    (10, 0, 1006, None),
    (10, 59, 1000, Some(59)),
    (10, 60, 1000, None),
    (10, 60, 900, None),
    (10, 59, 0, Some(59)),
    (0, 59, u64::MAX, Some(59)),
    (0, u64::MAX, 1000, None),
    (1, 0, 1059, Some(59)),
    (1, 0, u64::MAX, None),
    (u32::MAX, 0, 1000, Some(0)),
    (u32::MAX, u64::MAX, u64::MAX, None),
];

#[test]
fn the_bucket_gains_its_rate(rt: HostRuntime) {
    for (rate, tokens, now, left) in BUCKETS {
        let mut proxy = proxy(rate, tokens);
        let mut out = ArrayVec::new();
        let answer = proxy.up(PEER, REQUEST, now, &mut out);
        let want = left.map(|tokens| UpFault::Over(tokens, 60));
        assert_eq!(rt; answer.err(), want, "{rate} {tokens} {now}");
    }
}

// A bucket of rate 1 holds 1280, so 21 requests of 60 bytes go at once, and 20 are left of it.
#[test]
fn a_bucket_holds_one_datagram_at_least(rt: HostRuntime) -> Result<(), Fail> {
    let mut proxy = proxy(1, u64::MAX);
    let mut out = ArrayVec::new();
    for _ in 0..21 {
        proxy.up(PEER, REQUEST, 5000, &mut out)?;
    }
    let over = proxy.up(PEER, REQUEST, 5000, &mut out);
    assert_eq!(rt; over, Err(UpFault::Over(20, 60)));
    // A clock that goes back gains nothing, and nothing twice.
    let over = proxy.up(PEER, REQUEST, 1000, &mut out);
    assert_eq!(rt; over, Err(UpFault::Over(20, 60)));
    let over = proxy.up(PEER, REQUEST, 5039, &mut out);
    assert_eq!(rt; over, Err(UpFault::Over(59, 60)));
    proxy.up(PEER, REQUEST, 5040, &mut out)?;
    Ok(())
}

const ZEROS: [u8; 700] = [0; 700];

/// A POST with this many bytes of token, Proxy-Scheme, and this many bytes of payload.
fn post(token: usize, payload: usize) -> Result<ArrayVec<u8, 1280>, Fail>
    requires token { token ≤ 600 }
    requires payload { payload ≤ 700 }
{
    let head = Head {
        kind: Kind::Con,
        code: 2,
        mid: 7,
        token: &ZEROS[..token],
    };
    let mut draft = Draft::start(&head);
    draft.option(39, b"coap")?;
    let mut out = ArrayVec::new();
    draft.write(&ZEROS[..payload], &mut out)?;
    Ok(out)
}

#[test]
fn tokens_of_clients_come_back(rt: HostRuntime) -> Result<(), Fail> {
    let mut proxy = proxy(u32::MAX, u64::MAX);
    let mut out = ArrayVec::new();
    for token in [0, 8, 12, 13, 269, 561] {
        assert!(rt; token <= 561);
        let request = post(token, 3)?;
        proxy.up(PEER, request.as_slice(), 2000, &mut out)?;
        let sent = parse(out.as_slice())?;
        assert_eq!(rt; sent.kind, Kind::Non);
        assert_eq!(rt; sent.token.len(), 39 + token);
        assert_eq!(rt; sent.options.len(), 0);
        assert!(rt; sent.token.len() <= 600);
        let head = Head {
            kind: Kind::Con,
            code: 68,
            mid: 9,
            token: sent.token,
        };
        let mut answer = ArrayVec::new();
        Draft::start(&head).write(&[5], &mut answer)?;
        let peer = proxy.down(answer.as_slice(), 2000, &mut out)?;
        assert!(rt; peer == PEER);
        let back = parse(out.as_slice())?;
        assert_eq!(rt; back.kind, Kind::Non);
        assert_eq!(rt; back.token, &ZEROS[..token]);
        assert_eq!(rt; back.payload, [5].as_slice());
    }
    Ok(())
}

// The header of a token of 600 bytes has 6 before it; the payload's marker is one more.
#[test]
fn what_would_be_too_long_does_not_go_on(rt: HostRuntime) -> Result<(), Fail> {
    let mut proxy = proxy(10, 0);
    let mut out = ArrayVec::new();
    let request = post(562, 0)?;
    let refused = proxy.up(PEER, request.as_slice(), 1000, &mut out);
    assert_eq!(rt; refused, Err(UpFault::TooLong(562)));
    let request = post(561, 674)?;
    let refused = proxy.up(PEER, request.as_slice(), 1000, &mut out);
    assert_eq!(rt; refused, Err(UpFault::TooLong(1281)));
    let request = post(561, 673)?;
    let refused = proxy.up(PEER, request.as_slice(), 1000, &mut out);
    assert_eq!(rt; refused, Err(UpFault::Over(0, 1247)));
    Ok(())
}
