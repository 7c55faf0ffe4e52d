use super::*;
use arrayvec::ArrayVec;
use std::alloc::{AllocError, Global};
use std::test::Fail;

const ZEROS: [u8; 672] = [0; 672];

fn joined(alloc: Global, front: &[u8], behind: &[u8]) -> Result<Vec<u8>, AllocError> {
    let mut bytes = Vec::new(alloc);
    bytes.extend_from_slice(front)?;
    bytes.extend_from_slice(behind)?;
    Ok(bytes)
}

// RFC 7252, appendix A, figures 16 and 17: a request and its answer, and a request with a token.
#[test]
fn the_examples_of_the_standard_are_read(rt: HostRuntime) -> Result<(), Fail> {
    let request = joined(rt.alloc(), &[0x40, 0x01, 0x7d, 0x34, 0xbb], b"temperature")?;
    let message = parse(request.as_slice())?;
    assert_eq!(rt; message.kind, Kind::Con);
    assert_eq!(rt; message.code, 1);
    assert_eq!(rt; message.mid, 0x7d34);
    assert_eq!(rt; message.token.len(), 0);
    let mut options = message.iter();
    let (number, value) = options.next().ok_or("Uri-Path")?;
    assert_eq!(rt; number, 11);
    assert_eq!(rt; value, b"temperature".as_slice());
    assert!(rt; options.next().is_none());

    let answer = joined(rt.alloc(), &[0x60, 0x45, 0x7d, 0x34, 0xff], b"22.3 C")?;
    let message = parse(answer.as_slice())?;
    assert_eq!(rt; message.kind, Kind::Ack);
    assert_eq!(rt; message.code, 69);
    assert_eq!(rt; message.payload, b"22.3 C".as_slice());

    let with_token = joined(
        rt.alloc(),
        &[0x41, 0x01, 0x7d, 0x35, 0x20, 0xbb],
        b"temperature",
    )?;
    let message = parse(with_token.as_slice())?;
    assert_eq!(rt; message.token, [0x20].as_slice());
    Ok(())
}

// Lengths of tokens on both sides of each form of RFC 8974, 2.1, and what comes before the token.
#[test]
fn tokens_are_spelled_by_their_length(rt: HostRuntime) -> Result<(), Fail> {
    let cases: [(usize, &[u8]); 7] = [
        (0, &[0x50, 2, 0x12, 0x34]),
        (8, &[0x58, 2, 0x12, 0x34]),
        (12, &[0x5c, 2, 0x12, 0x34]),
        (13, &[0x5d, 2, 0x12, 0x34, 0]),
        (268, &[0x5d, 2, 0x12, 0x34, 0xff]),
        (269, &[0x5e, 2, 0x12, 0x34, 0, 0]),
        (600, &[0x5e, 2, 0x12, 0x34, 1, 0x4b]),
    ];
    for (length, front) in cases {
        assert!(rt; length <= 600);
        let token = &ZEROS[..length];
        let bytes = joined(rt.alloc(), front, token)?;
        let message = parse(bytes.as_slice())?;
        assert_eq!(rt; message.token, token, "at {length}");
        let head = Head {
            kind: Kind::Non,
            code: 2,
            mid: 0x1234,
            token,
        };
        let mut out = ArrayVec::new();
        Draft::start(&head).write(&[], &mut out)?;
        assert_eq!(rt; out.as_slice(), bytes.as_slice(), "at {length}");
    }
    let bytes = joined(rt.alloc(), &[0x5e, 2, 0x12, 0x34, 1, 0x4c], &ZEROS[..601])?;
    assert_eq!(rt; parse(bytes.as_slice()).err(), Some(CoapFault::TokenLength));
    Ok(())
}

// Deltas and lengths on both sides of each form of RFC 7252, 3.1, and what comes before the value.
#[test]
fn options_are_spelled_by_delta_and_length(rt: HostRuntime) -> Result<(), Fail> {
    let cases: [(u16, usize, &[u8]); 8] = [
        (0, 0, &[0x40, 1, 0, 0, 0x00]),
        (12, 12, &[0x40, 1, 0, 0, 0xcc]),
        (13, 13, &[0x40, 1, 0, 0, 0xdd, 0, 0]),
        (268, 268, &[0x40, 1, 0, 0, 0xdd, 0xff, 0xff]),
        (269, 269, &[0x40, 1, 0, 0, 0xee, 0, 0, 0, 0]),
        (12, 269, &[0x40, 1, 0, 0, 0xce, 0, 0]),
        (269, 12, &[0x40, 1, 0, 0, 0xec, 0, 0]),
        (65535, 0, &[0x40, 1, 0, 0, 0xe0, 0xfe, 0xf2]),
    ];
    for (number, length, front) in cases {
        assert!(rt; length <= 600);
        let value = &ZEROS[..length];
        let bytes = joined(rt.alloc(), front, value)?;
        let (read, held) = parse(bytes.as_slice())?.iter().next().ok_or("an option")?;
        assert_eq!(rt; read, number);
        assert_eq!(rt; held, value, "at {number}");
        let head = Head {
            kind: Kind::Con,
            code: 1,
            mid: 0,
            token: &[],
        };
        let mut draft = Draft::start(&head);
        draft.option(number, value)?;
        let mut out = ArrayVec::new();
        draft.write(&[], &mut out)?;
        assert_eq!(rt; out.as_slice(), bytes.as_slice(), "at {number}");
    }
    Ok(())
}

// RFC 7252, 5.10: Uri-Host, Uri-Port, Uri-Path and Proxy-Scheme are critical, ETag and Size1 are elective.
#[test]
fn odd_numbers_are_critical(rt: HostRuntime) {
    for (number, critical) in [
        (3, true),
        (7, true),
        (11, true),
        (39, true),
        (4, false),
        (60, false),
    ] {
        assert_eq!(rt; is_critical(number), critical, "at {number}");
    }
}

#[test]
fn the_first_fault_is_answered(rt: HostRuntime) {
    let cases: [(&[u8], CoapFault); 21] = [
        (&[], CoapFault::Short),
        (&[0x40, 1, 0], CoapFault::Short),
        // A cut message is short, whatever its version and its token's length are.
        (&[0x00, 1, 0], CoapFault::Short),
        (&[0x01, 1, 0, 0], CoapFault::Short),
        (&[0x41, 1, 0, 0], CoapFault::Short),
        (&[0x4d, 1, 0, 0], CoapFault::Short),
        (&[0x4e, 1, 0, 0, 0xff], CoapFault::Short),
        (&[0x4e, 1, 0, 0, 0xff, 0xff], CoapFault::Short),
        (&[0x00, 1, 0, 0], CoapFault::Version),
        (&[0x80, 1, 0, 0], CoapFault::Version),
        (&[0xc0, 1, 0, 0], CoapFault::Version),
        (&[0x8f, 1, 0, 0], CoapFault::Version),
        (&[0x5f, 2, 0, 0], CoapFault::TokenLength),
        (&[0x40, 1, 0, 0, 0xf1, 0], CoapFault::OptionForm(4)),
        (&[0x40, 1, 0, 0, 0x1f, 0], CoapFault::OptionForm(4)),
        (&[0x40, 1, 0, 0, 0x10, 0x1d], CoapFault::OptionForm(5)),
        (&[0x40, 1, 0, 0, 0x10, 0xe0, 0], CoapFault::OptionForm(5)),
        // 65,536, and 65,535 with one more.
        (&[0x40, 1, 0, 0, 0xe0, 0xfe, 0xf3], CoapFault::OptionForm(4)),
        (
            &[0x40, 1, 0, 0, 0xe0, 0xfe, 0xf2, 0x10],
            CoapFault::OptionForm(7),
        ),
        (&[0x41, 1, 0, 0, 0x20, 0x10, 0xff], CoapFault::EmptyPayload),
        (&[0x40, 1, 0, 0, 0xff], CoapFault::EmptyPayload),
    ];
    for (bytes, fault) in cases {
        assert_eq!(rt; parse(bytes).err(), Some(fault), "at {bytes:?}");
    }
}

// A message with a token of 14 bytes, the options 3, 9, 11, 39 and 300, and a payload.
const MESSAGE: [u8; 60] = [
    0x5d, 0x02, 0x12, 0x34, 0x01, 0x01, 0x02, 0x03, 0x04, 0x05, 0x06, 0x07, 0x08, 0x09, 0x0a, 0x0b,
    0x0c, 0x0d, 0x0e, 0x3b, 0x36, 0x74, 0x69, 0x73, 0x63, 0x68, 0x2e, 0x61, 0x72, 0x70, 0x61, 0x6d,
    0x00, 0x09, 0x20, 0x21, 0x22, 0x23, 0x24, 0x25, 0x26, 0x27, 0x28, 0x29, 0x2a, 0x2b, 0x20, 0xd4,
    0x0f, 0x63, 0x6f, 0x61, 0x70, 0xd2, 0xf8, 0x01, 0x02, 0xff, 0xa1, 0xa2,
];

// What each cut of it is, by a reader of another make.
fn fault_of_cut(length: usize) -> Option<CoapFault> {
    match length {
        0..=18 => Some(CoapFault::Short),
        20..=30 => Some(CoapFault::OptionForm(19)),
        32..=45 => Some(CoapFault::OptionForm(31)),
        48..=52 => Some(CoapFault::OptionForm(47)),
        54..=56 => Some(CoapFault::OptionForm(53)),
        58 => Some(CoapFault::EmptyPayload),
        _ => None,
    }
}

#[test]
fn each_cut_of_a_message_is_judged(rt: HostRuntime) {
    for length in 0..61 {
        assert_eq!(rt;
            parse(&MESSAGE[..length]).err(),
            fault_of_cut(length),
            "at {length}"
        );
    }
}

#[test]
fn a_message_is_written_back(rt: HostRuntime) -> Result<(), Fail> {
    let message = parse(&MESSAGE)?;
    assert!(rt; message.token.len() <= 600);
    let head = Head {
        kind: message.kind,
        code: message.code,
        mid: message.mid,
        token: message.token,
    };
    let mut draft = Draft::start(&head);
    draft.option(3, b"6tisch.arpa")?;
    draft.option(9, &MESSAGE[33..46])?;
    draft.option(11, &[])?;
    draft.option(39, b"coap")?;
    draft.option(300, &[1, 2])?;
    let mut out = ArrayVec::new();
    draft.write(message.payload, &mut out)?;
    assert_eq!(rt; out.as_slice(), MESSAGE.as_slice());
    Ok(())
}

// With a token of 600 bytes the header has 606. An option of 671 bytes has 3 before its value.
#[test]
fn a_message_of_more_than_1280_bytes_is_refused(rt: HostRuntime) -> Result<(), Fail> {
    let head = Head {
        kind: Kind::Con,
        code: 2,
        mid: 0,
        token: &ZEROS[..600],
    };
    let mut draft = Draft::start(&head);
    assert_eq!(rt; draft.option(11, &ZEROS[..672]), Err(TooLong(1281)));

    // What `out` held is gone after a refusal too.
    let mut out = ArrayVec::new();
    out.push(1);
    let mut draft = Draft::start(&head);
    draft.option(11, &ZEROS[..671])?;
    assert_eq!(rt; draft.write(&[1], &mut out), Err(TooLong(1282)));
    assert_eq!(rt; out.len(), 0);

    let mut draft = Draft::start(&head);
    draft.option(11, &ZEROS[..671])?;
    draft.write(&[], &mut out)?;
    assert_eq!(rt; out.len(), 1280);
    message_laws();
    size_laws();
    Ok(())
}

// The inner message of a Join Request (RFC 9031, 8.1.1): POST, Uri-Path `j`, and a payload.
#[test]
fn inner_messages_are_read(rt: HostRuntime) -> Result<(), Fail> {
    let inner = parse_inner(&[0x02, 0xb1, 0x6a, 0xff, 0xa0])?;
    assert_eq!(rt; inner.code, 2);
    let (number, value) = inner.iter().next().ok_or("Uri-Path")?;
    assert_eq!(rt; number, 11);
    assert_eq!(rt; value, b"j".as_slice());
    assert_eq!(rt; inner.payload, [0xa0].as_slice());
    assert_eq!(rt; parse_inner(&[]).err(), Some(CoapFault::Short));
    assert_eq!(rt;
        parse_inner(&[2, 0xff]).err(),
        Some(CoapFault::EmptyPayload)
    );
    assert_eq!(rt;
        parse_inner(&[2, 0x10, 0xf1]).err(),
        Some(CoapFault::OptionForm(2))
    );
    Ok(())
}
