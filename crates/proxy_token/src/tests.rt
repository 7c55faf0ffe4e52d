//! Tokens by an AES-CCM of another make, and what an opening answers.
use crate::{SealFault, Sealer, TokenFault, token_laws};
use arrayvec::ArrayVec;
use edge_traits::Peer;
use std::test::Fail;

const KEY: [u8; 16] = [
    0x40, 0x41, 0x42, 0x43, 0x44, 0x45, 0x46, 0x47, 0x48, 0x49, 0x4a, 0x4b, 0x4c, 0x4d, 0x4e, 0x4f,
];

const PEER: Peer = Peer([
    1, 2, 3, 4, 5, 6, 7, 8, 9, 10, 11, 12, 13, 14, 15, 16, 17, 18,
]);

const CLIENT: [u8; 8] = [1, 2, 3, 4, 5, 6, 7, 8];

/// The first token of the key, of second 1000; and the second one, of the last second and without a
/// client's token.
const FIRST: &[u8] =
    b"\x00\x00\x00\x00\x00\x00\x00\x00\xd0\xf9\x7e\x43\x37\x54\x6f\x79\x26\xf4\xaa\xc4\x6b\x93\xf7\x91\xd7\xdb\xdc\x58\x8c\xdd\x77\xb6\x00\x33\x11\x48\xcd\xd5\xf0\x31\x7e\x68\xb6\x1d\x4f\xad\x64";

const SECOND: &[u8] =
    b"\x00\x00\x00\x00\x00\x00\x00\x01\xd8\x0f\xbc\x56\x7c\x0e\xec\x3c\x18\xa3\xb8\x34\xa0\x7c\x31\x68\x68\xd8\x20\x47\x78\x1c\x34\xa5\x87\x83\x75\x9a\xdc\xdd\x5c";

#[test]
fn tokens_are_those_of_another_make(rt: HostRuntime) -> Result<(), Fail> {
    let mut sealer = Sealer::new(&KEY);
    let mut out = ArrayVec::new();
    sealer.seal(PEER, &CLIENT, 1000, &mut out)?;
    assert_eq!(rt; out.as_slice(), FIRST);
    sealer.seal(PEER, &[], u64::MAX, &mut out)?;
    assert_eq!(rt; out.as_slice(), SECOND);
    assert_eq!(rt; sealer.count(), 2);
    assert!(rt; !sealer.is_spent());
    token_laws();
    Ok(())
}

/// Each second of an opening, and what it answers for the first token, or for the second one.
const OPENED: [(&[u8], u64, Option<TokenFault>); 9] = [
    (FIRST, 1000, None),
    (FIRST, 400, None),
    (FIRST, 1600, None),
    (FIRST, 399, Some(TokenFault::Late(1000))),
    (FIRST, 1601, Some(TokenFault::Late(1000))),
    (FIRST, u64::MAX, Some(TokenFault::Late(1000))),
    (SECOND, u64::MAX, None),
    (SECOND, 0xff_ffff_fda7, None),
    (
        SECOND,
        0xff_ffff_fda6,
        Some(TokenFault::Late(0xff_ffff_ffff)),
    ),
];

#[test]
fn tokens_are_opened_for_600_seconds(rt: HostRuntime) {
    let sealer = Sealer::new(&KEY);
    for (bytes, second, fault) in OPENED {
        let mut token = ArrayVec::new();
        token.push(9);
        let opened = sealer.unseal(bytes, second, &mut token);
        assert_eq!(rt; opened.err(), fault, "at {second}");
        if fault.is_some() || bytes.len() == 39 {
            assert_eq!(rt; token.len(), 0);
        } else {
            assert!(rt; opened == Ok(PEER));
            assert_eq!(rt; token.as_slice(), CLIENT.as_slice());
        }
    }
}

#[test]
fn each_byte_of_a_token_counts(rt: HostRuntime) {
    let sealer = Sealer::new(&KEY);
    for at in 0..47 {
        let mut changed = [0; 47];
        changed.copy_from_slice(FIRST);
        changed[at] ^= 1;
        let mut token = ArrayVec::new();
        let opened = sealer.unseal(&changed, 1000, &mut token);
        assert_eq!(rt; opened.err(), Some(TokenFault::NotMine), "at {at}");
    }
}

#[test]
fn other_bytes_are_not_opened(rt: HostRuntime) {
    let sealer = Sealer::new(&KEY);
    let other = Sealer::new(&[0; 16]);
    let mut token = ArrayVec::new();
    for len in [0, 8, 38, 46] {
        assert!(rt; len <= 47);
        let opened = sealer.unseal(&FIRST[..len], 1000, &mut token);
        assert_eq!(rt; opened.err(), Some(TokenFault::NotMine), "at {len}");
    }
    let opened = sealer.unseal(&[0; 601], 1000, &mut token);
    assert_eq!(rt; opened.err(), Some(TokenFault::NotMine));
    let opened = other.unseal(FIRST, 1000, &mut token);
    assert_eq!(rt; opened.err(), Some(TokenFault::NotMine));
}

const ZEROS: [u8; 562] = [0; 562];

#[test]
fn tokens_of_561_bytes_at_most_are_sealed(rt: HostRuntime) -> Result<(), Fail> {
    let mut sealer = Sealer::new(&KEY);
    for len in [0, 8, 12, 13, 269, 561] {
        assert!(rt; len <= 562);
        let mut out = ArrayVec::new();
        sealer.seal(PEER, &ZEROS[..len], 7, &mut out)?;
        assert_eq!(rt; out.len(), 39 + len);
        let mut token = ArrayVec::new();
        let peer = sealer.unseal(out.as_slice(), 7, &mut token)?;
        assert!(rt; peer == PEER);
        assert_eq!(rt; token.as_slice(), &ZEROS[..len]);
    }
    let mut out = ArrayVec::new();
    out.push(1);
    let refused = sealer.seal(PEER, &ZEROS, 7, &mut out);
    assert_eq!(rt; refused, Err(SealFault::TooLong(562)));
    assert_eq!(rt; out.len(), 0);
    Ok(())
}
