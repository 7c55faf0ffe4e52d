//! Datagrams that aren't what they seem.
use super::*;

/// A Join Request of a1: message ID 1, token 01 to 08, number 0, network identifier `cafe`.
fn join_request(rt: &impl Abort) -> ArrayVec<u8, 1280> {
    let pledge = Context::derive(&PSK, A1, Side::Pledge);
    let head = Head {
        kind: Kind::Con,
        code: 2,
        mid: 1,
        token: b"\x01\x02\x03\x04\x05\x06\x07\x08",
    };
    let mut out = ArrayVec::new();
    let inner = b"\x02\xb1\x6a\xff\xa1\x05\x42\xca\xfe";
    assert!(rt; protect_request(&pledge, 0, inner, &head, &mut out).is_ok());
    out
}

/// What reading a datagram ends with: the reason why nothing is found, or whether it opens.
fn read(rt: &impl Abort, registrar: &Context, bytes: &[u8]) -> Result<bool, FindFault> {
    assert!(rt; bytes.len() <= 1280);
    match find(bytes) {
        Err(fault) => Err(fault),
        Ok(found) => {
            let mut inner = buffer(rt, b"old");
            let opened = open_request(registrar, &found, &mut inner).is_ok();
            assert!(rt; opened || inner.is_empty());
            Ok(opened)
        }
    }
}

#[test]
fn a_join_request_has_the_outer_form_of_the_standard(rt: HostRuntime) -> Result<(), Fail> {
    let bytes = join_request(&rt);
    let prefix =
        b"\x48\x02\x00\x01\x01\x02\x03\x04\x05\x06\x07\x08\x3b6tisch.arpa\x6b\x19\x00\x08\x00\x00\x00\x00\x00\x00\x00\xa1\xd4\x11coap\xff";
    assert_eq!(rt; bytes.len(), 60);
    assert!(rt; bytes.starts_with(prefix));
    Ok(())
}

#[test]
fn a_cut_request_is_refused_where_it_is_cut(rt: HostRuntime) -> Result<(), Fail> {
    let bytes = join_request(&rt);
    let registrar = Context::derive(&PSK, A1, Side::Registrar);
    for len in 0..60 {
        assert!(rt; len <= bytes.len());
        // Options end at 12, 24, 36 and 42; a tag fits from 51 on, but no longer is the right one.
        let expected = match len {
            12 | 24 => Err(FindFault::NoOscore),
            36 | 42 | 44..=59 => Ok(false),
            _ => Err(FindFault::NotCoap),
        };
        assert!(rt; read(&rt, &registrar, &bytes[..len]) == expected);
    }
    assert!(rt; read(&rt, &registrar, &bytes) == Ok(true));
    Ok(())
}

#[test]
fn a_changed_bit_of_the_payload_is_not_genuine(rt: HostRuntime) -> Result<(), Fail> {
    let bytes = join_request(&rt);
    let registrar = Context::derive(&PSK, A1, Side::Registrar);
    assert!(rt; bytes.len() == 60);
    for bit in 0..136 {
        let mut changed = buffer::<1280>(&rt, &bytes);
        assert!(rt; changed.len() == 60);
        changed[43 + bit / 8] ^= 1 << (bit % 8);
        assert!(rt; read(&rt, &registrar, &changed) == Ok(false));
    }
    Ok(())
}

#[test]
fn the_first_reason_is_answered(rt: HostRuntime) -> Result<(), Fail> {
    let cases: [(&[u8], FindFault); 16] = [
        (b"", FindFault::NotCoap),
        (b"\x80\x02\x00\x01", FindFault::NotCoap),
        // An ACK, a reset, another code, and a critical option that no one knows.
        (b"\x60\x02\x00\x01\x90", FindFault::NotRequest),
        (b"\x70\x02\x00\x01\x90", FindFault::NotRequest),
        (b"\x40\x01\x00\x01\x90", FindFault::NotRequest),
        (b"\x40\x02\x00\x01\x10", FindFault::NotRequest),
        (b"\x40\x02\x00\x01\x90\x20", FindFault::NotRequest),
        // No OSCORE option, and two.
        (b"\x50\x02\x00\x01", FindFault::NoOscore),
        (b"\x40\x02\x00\x01\x91\x08\x01\x08", FindFault::NoOscore),
        // Faults of the option, and no Partial IV.
        (b"\x40\x02\x00\x01\x91\x00", FindFault::BadOption(0)),
        (b"\x40\x02\x00\x01\x93\x1a\x00\x05", FindFault::BadOption(1)),
        (b"\x40\x02\x00\x01\x92\x19\x00", FindFault::BadOption(2)),
        (b"\x40\x02\x00\x01\x90", FindFault::BadOption(0)),
        (b"\x40\x02\x00\x01\x91\x08", FindFault::BadOption(0)),
        // No kid, and a kid that isn't empty.
        (b"\x40\x02\x00\x01\x92\x01\x00", FindFault::OtherKid),
        (b"\x40\x02\x00\x01\x95\x09\x00JRC", FindFault::OtherKid),
    ];
    for (bytes, fault) in cases {
        assert!(rt; bytes.len() <= 1280);
        assert!(rt; find(bytes) == Err(fault));
    }
    // An update's kid is the registrar's, and elective options are passed over.
    let update = b"\x40\x02\x00\x01\x95\x09\x40JRC\x10";
    assert!(rt; find_update(update).is_ok());
    assert!(rt; find_update(b"\x40\x02\x00\x01\x92\x09\x00") == Err(FindFault::OtherKid));
    Ok(())
}

#[test]
fn the_first_reason_is_answered_for_an_answer(rt: HostRuntime) -> Result<(), Fail> {
    let cases: [(&[u8], AnswerFault); 10] = [
        (b"\x60\x44\x00", AnswerFault::NotCoap),
        (b"\x60\x45\x00\x01\x90\xff\x01", AnswerFault::NotAnswer),
        (b"\x60\x44\x00\x01\xff\x01", AnswerFault::NoOscore),
        (b"\x60\x44\x00\x01\x90\x00", AnswerFault::NoOscore),
        (b"\x60\x44\x00\x01\x91\x20", AnswerFault::BadOption(0)),
        (b"\x60\x44\x00\x01\x92\x02\x00", AnswerFault::BadOption(1)),
        (b"\x60\x44\x00\x01\x90", AnswerFault::NotGenuine),
        (b"\x60\x44\x00\x01\x91\x08\xff\x01", AnswerFault::NotGenuine),
        (
            b"\x60\x44\x00\x01\x92\x10\x00\xff\x01",
            AnswerFault::NotGenuine,
        ),
        (
            b"\x60\x44\x00\x01\x90\xff\x00\x00\x00\x00\x00\x00\x00\x00\x00",
            AnswerFault::NotGenuine,
        ),
    ];
    for side in [Side::Registrar, Side::Pledge] {
        let context = Context::derive(&PSK, A1, side);
        for (bytes, fault) in cases {
            assert!(rt; bytes.len() <= 1280);
            let mut inner = buffer(&rt, b"old");
            assert!(rt; open_answer(&context, 5, bytes, &mut inner) == Err(fault));
            assert!(rt; inner.is_empty());
        }
    }
    Ok(())
}

#[test]
fn an_answer_goes_back_to_who_asked(rt: HostRuntime) -> Result<(), Fail> {
    let bytes = join_request(&rt);
    assert!(rt; bytes.len() <= 1280);
    match find(&bytes) {
        Err(_) => panic!(rt; "not found"),
        Ok(found) => {
            let reply = found.reply(9);
            assert!(rt; reply.kind == Kind::Ack);
            assert!(rt; reply.mid == 1);
            assert!(rt; reply.token.as_slice() == found.message.token);
        }
    }
    match find(b"\x51\x02\x00\x01\xee\x92\x09\x00") {
        Err(_) => panic!(rt; "not found"),
        Ok(found) => {
            let reply = found.reply(9);
            assert!(rt; reply.kind == Kind::Non);
            assert!(rt; reply.mid == 9);
            assert!(rt; reply.token.as_slice() == b"\xee".as_slice());
        }
    }
    oscore_laws();
    Ok(())
}

#[test]
fn a_request_past_a_datagram_is_refused_with_its_length(rt: HostRuntime) -> Result<(), Fail> {
    let registrar = Context::derive(&PSK, A1, Side::Registrar);
    let head = Head {
        kind: Kind::Con,
        code: 2,
        mid: 1,
        token: b"\x01",
    };
    // Header and token have 5 bytes, the option 6, the marker 1 and the tag 8.
    let inner: [u8; 1300] = [1; 1300];
    for (len, need) in [(1261, 1281), (1280, 1300), (1281, 1301), (1300, 1320)] {
        assert!(rt; len <= 1300);
        let mut out = buffer(&rt, b"old");
        let written = protect_request(&registrar, 0, &inner[..len], &head, &mut out);
        assert!(rt; written == Err(TooLong(need)));
        assert!(rt; out.is_empty());
    }
    let mut out = ArrayVec::new();
    assert!(rt; protect_request(&registrar, 0, &inner[..1260], &head, &mut out).is_ok());
    assert!(rt; out.len() == 1280);
    assert!(rt; parse(&out).is_ok());
    Ok(())
}
