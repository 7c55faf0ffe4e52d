//! The value of the option.
use super::*;

const ID: [u8; 8] = *b"\x00\x00\x00\x00\x00\x00\x00\xa1";

/// A value that both ways is these bytes.
fn is_spelled(rt: &impl Abort, value: &OptionValue<'_>, bytes: &[u8]) {
    assert!(rt; read_option(bytes) == Ok(*value));
    if let Some(number) = value.number {
        assert!(rt; number < 1 << 40);
    }
    let mut out = ArrayVec::new();
    assert!(rt; write_option(value, &mut out) == Ok(()));
    assert!(rt; out.as_slice() == bytes);
}

#[test]
fn values_have_one_spelling(rt: HostRuntime) -> Result<(), Fail> {
    let of = |number, context, kid| OptionValue {
        number,
        context,
        kid,
    };
    let id: &[u8] = &ID;
    let none: &[u8] = &[];
    is_spelled(&rt, &of(None, None, None), b"");
    is_spelled(&rt, &of(None, None, Some(none)), b"\x08");
    is_spelled(
        &rt,
        &of(Some(0), Some(id), Some(none)),
        b"\x19\x00\x08\x00\x00\x00\x00\x00\x00\x00\xa1",
    );
    is_spelled(
        &rt,
        &of(Some((1 << 40) - 1), Some(id), Some(none)),
        b"\x1d\xff\xff\xff\xff\xff\x08\x00\x00\x00\x00\x00\x00\x00\xa1",
    );
    is_spelled(
        &rt,
        &of(Some(64), None, Some(b"JRC")),
        b"\x09\x40\x4a\x52\x43",
    );
    is_spelled(&rt, &of(Some(256), None, None), b"\x02\x01\x00");
    is_spelled(&rt, &of(None, Some(none), None), b"\x10\x00");
    Ok(())
}

#[test]
fn a_fault_is_the_first_from_the_left(rt: HostRuntime) -> Result<(), Fail> {
    let cases: [(&[u8], usize); 16] = [
        (b"\x1a\x00\x05\x08\x00\x00\x00\x00\x00\x00\x00\xa1", 1),
        (b"\x1e\x00\x08\x00\x00\x00\x00\x00\x00\x00\xa1", 0),
        (b"\x1f\x00\x08\x00\x00\x00\x00\x00\x00\x00\xa1", 0),
        (b"\x19\x00", 2),
        (b"\x00", 0),
        (b"\x00\x01", 1),
        (b"\x20", 0),
        (b"\x80", 0),
        (b"\x01", 1),
        (b"\x03\x01\x02", 1),
        (b"\x02\x00\x00", 1),
        (b"\x10", 1),
        (b"\x10\x02\x01", 1),
        (b"\x11\x05\x01", 2),
        (b"\x11\x05\x01\x02\x03", 4),
        (b"\x01\x05\x06", 2),
    ];
    for (bytes, at) in cases {
        assert_eq!(rt; read_option(bytes), Err(BadOption(at)));
    }
    Ok(())
}

#[test]
fn a_value_past_the_buffer_is_refused_with_its_length(rt: HostRuntime) -> Result<(), Fail> {
    let kid: &[u8] = &[1; 63];
    let fits = OptionValue {
        number: None,
        context: None,
        kid: Some(kid),
    };
    let mut out = ArrayVec::new();
    assert_eq!(rt; write_option(&fits, &mut out), Ok(()));
    assert_eq!(rt; out.len(), 64);
    let long = OptionValue {
        number: Some(1),
        context: None,
        kid: Some(kid),
    };
    assert_eq!(rt; write_option(&long, &mut out), Err(TooLong(65)));
    assert!(rt; out.is_empty());
    Ok(())
}

// RFC 8613, 5.4, for a pledge's request 0 and a registrar's request 64.
#[test]
fn authenticated_data_are_as_worked_out_by_hand(rt: HostRuntime) -> Result<(), Fail> {
    assert_eq!(rt;
        aad_of(b"", 0).as_slice(),
        b"\x83\x68Encrypt0\x40\x48\x85\x01\x81\x0a\x40\x41\x00\x40".as_slice()
    );
    assert_eq!(rt;
        aad_of(b"JRC", 64).as_slice(),
        b"\x83\x68Encrypt0\x40\x4b\x85\x01\x81\x0a\x43JRC\x41\x40\x40".as_slice()
    );
    Ok(())
}

// RFC 8613, C.4: the request of a client with the empty Sender ID and the number 20.
#[test]
fn a_request_of_the_standard_is_made_of_the_same_parts(rt: HostRuntime) -> Result<(), Fail> {
    let key = b"\xf0\x91\x0e\xd7\x29\x5e\x6a\xd4\xb5\x4f\xc7\x93\x15\x43\x02\xff";
    let iv = b"\x46\x22\xd4\xdd\x6d\x94\x41\x68\xee\xfb\x54\x98\x7c";
    let aes = aes_ccm::Aes128::new(key);
    let mut payload = *b"\x01\xb3tv1\x00\x00\x00\x00\x00\x00\x00\x00";
    aes.seal(&nonce_of(iv, &[], 20), &aad_of(&[], 20), &mut payload, 5);
    let mut draft = Draft::start(&Head {
        kind: Kind::Con,
        code: 2,
        mid: 0x5d1f,
        token: b"\x00\x00\x39\x74",
    });
    assert!(rt; draft.option(3, b"localhost").is_ok());
    assert!(rt; draft.option(9, b"\x09\x14").is_ok());
    let mut out = ArrayVec::new();
    assert!(rt; draft.write(&payload, &mut out).is_ok());
    assert_eq!(rt;
        out.as_slice(),
        b"\x44\x02\x5d\x1f\x00\x00\x39\x74\x39localhost\x62\x09\x14\xff\x61\x2f\x10\x92\xf1\x77\x6f\x1c\x16\x68\xb3\x82\x5e".as_slice()
    );
    Ok(())
}
