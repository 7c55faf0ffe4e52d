//! Published vectors, and sealings that another implementation made.
use crate::{Aes128, Unsealed, sealing_laws};

// A packet of RFC 3610, 8, with a tag of 8 bytes.
struct Packet {
    key: &'static [u8; 16],
    nonce: &'static [u8; 13],
    header: &'static [u8],
    text: &'static [u8],
    sealing: &'static [u8],
}

const FIRST_KEY: &[u8; 16] = b"\xc0\xc1\xc2\xc3\xc4\xc5\xc6\xc7\xc8\xc9\xca\xcb\xcc\xcd\xce\xcf";

const SECOND_KEY: &[u8; 16] = b"\xd7\x82\x8d\x13\xb2\xb0\xbd\xc3\x25\xa7\x62\x36\xdf\x93\xcc\x6b";

// Packets 1 to 6 and 13 to 18.
static PACKETS: [Packet; 12] = [
    Packet {
        key: FIRST_KEY,
        nonce: b"\x00\x00\x00\x03\x02\x01\x00\xa0\xa1\xa2\xa3\xa4\xa5",
        header: b"\x00\x01\x02\x03\x04\x05\x06\x07",
        text: b"\x08\x09\x0a\x0b\x0c\x0d\x0e\x0f\x10\x11\x12\x13\x14\x15\x16\x17\x18\x19\x1a\x1b\x1c\x1d\x1e",
        sealing: b"\x58\x8c\x97\x9a\x61\xc6\x63\xd2\xf0\x66\xd0\xc2\xc0\xf9\x89\x80\x6d\x5f\x6b\x61\xda\xc3\x84\x17\xe8\xd1\x2c\xfd\xf9\x26\xe0",
    },
    Packet {
        key: FIRST_KEY,
        nonce: b"\x00\x00\x00\x04\x03\x02\x01\xa0\xa1\xa2\xa3\xa4\xa5",
        header: b"\x00\x01\x02\x03\x04\x05\x06\x07",
        text: b"\x08\x09\x0a\x0b\x0c\x0d\x0e\x0f\x10\x11\x12\x13\x14\x15\x16\x17\x18\x19\x1a\x1b\x1c\x1d\x1e\x1f",
        sealing: b"\x72\xc9\x1a\x36\xe1\x35\xf8\xcf\x29\x1c\xa8\x94\x08\x5c\x87\xe3\xcc\x15\xc4\x39\xc9\xe4\x3a\x3b\xa0\x91\xd5\x6e\x10\x40\x09\x16",
    },
    Packet {
        key: FIRST_KEY,
        nonce: b"\x00\x00\x00\x05\x04\x03\x02\xa0\xa1\xa2\xa3\xa4\xa5",
        header: b"\x00\x01\x02\x03\x04\x05\x06\x07",
        text: b"\x08\x09\x0a\x0b\x0c\x0d\x0e\x0f\x10\x11\x12\x13\x14\x15\x16\x17\x18\x19\x1a\x1b\x1c\x1d\x1e\x1f\x20",
        sealing: b"\x51\xb1\xe5\xf4\x4a\x19\x7d\x1d\xa4\x6b\x0f\x8e\x2d\x28\x2a\xe8\x71\xe8\x38\xbb\x64\xda\x85\x96\x57\x4a\xda\xa7\x6f\xbd\x9f\xb0\xc5",
    },
    Packet {
        key: FIRST_KEY,
        nonce: b"\x00\x00\x00\x06\x05\x04\x03\xa0\xa1\xa2\xa3\xa4\xa5",
        header: b"\x00\x01\x02\x03\x04\x05\x06\x07\x08\x09\x0a\x0b",
        text: b"\x0c\x0d\x0e\x0f\x10\x11\x12\x13\x14\x15\x16\x17\x18\x19\x1a\x1b\x1c\x1d\x1e",
        sealing: b"\xa2\x8c\x68\x65\x93\x9a\x9a\x79\xfa\xaa\x5c\x4c\x2a\x9d\x4a\x91\xcd\xac\x8c\x96\xc8\x61\xb9\xc9\xe6\x1e\xf1",
    },
    Packet {
        key: FIRST_KEY,
        nonce: b"\x00\x00\x00\x07\x06\x05\x04\xa0\xa1\xa2\xa3\xa4\xa5",
        header: b"\x00\x01\x02\x03\x04\x05\x06\x07\x08\x09\x0a\x0b",
        text: b"\x0c\x0d\x0e\x0f\x10\x11\x12\x13\x14\x15\x16\x17\x18\x19\x1a\x1b\x1c\x1d\x1e\x1f",
        sealing: b"\xdc\xf1\xfb\x7b\x5d\x9e\x23\xfb\x9d\x4e\x13\x12\x53\x65\x8a\xd8\x6e\xbd\xca\x3e\x51\xe8\x3f\x07\x7d\x9c\x2d\x93",
    },
    Packet {
        key: FIRST_KEY,
        nonce: b"\x00\x00\x00\x08\x07\x06\x05\xa0\xa1\xa2\xa3\xa4\xa5",
        header: b"\x00\x01\x02\x03\x04\x05\x06\x07\x08\x09\x0a\x0b",
        text: b"\x0c\x0d\x0e\x0f\x10\x11\x12\x13\x14\x15\x16\x17\x18\x19\x1a\x1b\x1c\x1d\x1e\x1f\x20",
        sealing: b"\x6f\xc1\xb0\x11\xf0\x06\x56\x8b\x51\x71\xa4\x2d\x95\x3d\x46\x9b\x25\x70\xa4\xbd\x87\x40\x5a\x04\x43\xac\x91\xcb\x94",
    },
    Packet {
        key: SECOND_KEY,
        nonce: b"\x00\x41\x2b\x4e\xa9\xcd\xbe\x3c\x96\x96\x76\x6c\xfa",
        header: b"\x0b\xe1\xa8\x8b\xac\xe0\x18\xb1",
        text: b"\x08\xe8\xcf\x97\xd8\x20\xea\x25\x84\x60\xe9\x6a\xd9\xcf\x52\x89\x05\x4d\x89\x5c\xea\xc4\x7c",
        sealing: b"\x4c\xb9\x7f\x86\xa2\xa4\x68\x9a\x87\x79\x47\xab\x80\x91\xef\x53\x86\xa6\xff\xbd\xd0\x80\xf8\xe7\x8c\xf7\xcb\x0c\xdd\xd7\xb3",
    },
    Packet {
        key: SECOND_KEY,
        nonce: b"\x00\x33\x56\x8e\xf7\xb2\x63\x3c\x96\x96\x76\x6c\xfa",
        header: b"\x63\x01\x8f\x76\xdc\x8a\x1b\xcb",
        text: b"\x90\x20\xea\x6f\x91\xbd\xd8\x5a\xfa\x00\x39\xba\x4b\xaf\xf9\xbf\xb7\x9c\x70\x28\x94\x9c\xd0\xec",
        sealing: b"\x4c\xcb\x1e\x7c\xa9\x81\xbe\xfa\xa0\x72\x6c\x55\xd3\x78\x06\x12\x98\xc8\x5c\x92\x81\x4a\xbc\x33\xc5\x2e\xe8\x1d\x7d\x77\xc0\x8a",
    },
    Packet {
        key: SECOND_KEY,
        nonce: b"\x00\x10\x3f\xe4\x13\x36\x71\x3c\x96\x96\x76\x6c\xfa",
        header: b"\xaa\x6c\xfa\x36\xca\xe8\x6b\x40",
        text: b"\xb9\x16\xe0\xea\xcc\x1c\x00\xd7\xdc\xec\x68\xec\x0b\x3b\xbb\x1a\x02\xde\x8a\x2d\x1a\xa3\x46\x13\x2e",
        sealing: b"\xb1\xd2\x3a\x22\x20\xdd\xc0\xac\x90\x0d\x9a\xa0\x3c\x61\xfc\xf4\xa5\x59\xa4\x41\x77\x67\x08\x97\x08\xa7\x76\x79\x6e\xdb\x72\x35\x06",
    },
    Packet {
        key: SECOND_KEY,
        nonce: b"\x00\x76\x4c\x63\xb8\x05\x8e\x3c\x96\x96\x76\x6c\xfa",
        header: b"\xd0\xd0\x73\x5c\x53\x1e\x1b\xec\xf0\x49\xc2\x44",
        text: b"\x12\xda\xac\x56\x30\xef\xa5\x39\x6f\x77\x0c\xe1\xa6\x6b\x21\xf7\xb2\x10\x1c",
        sealing: b"\x14\xd2\x53\xc3\x96\x7b\x70\x60\x9b\x7c\xbb\x7c\x49\x91\x60\x28\x32\x45\x26\x9a\x6f\x49\x97\x5b\xca\xde\xaf",
    },
    Packet {
        key: SECOND_KEY,
        nonce: b"\x00\xf8\xb6\x78\x09\x4e\x3b\x3c\x96\x96\x76\x6c\xfa",
        header: b"\x77\xb6\x0f\x01\x1c\x03\xe1\x52\x58\x99\xbc\xae",
        text: b"\xe8\x8b\x6a\x46\xc7\x8d\x63\xe5\x2e\xb8\xc5\x46\xef\xb5\xde\x6f\x75\xe9\xcc\x0d",
        sealing: b"\x55\x45\xff\x1a\x08\x5e\xe2\xef\xbf\x52\xb2\xe0\x4b\xee\x1e\x23\x36\xc7\x3e\x3f\x76\x2c\x0c\x77\x44\xfe\x7e\x3c",
    },
    Packet {
        key: SECOND_KEY,
        nonce: b"\x00\xd5\x60\x91\x2d\x3f\x70\x3c\x96\x96\x76\x6c\xfa",
        header: b"\xcd\x90\x44\xd2\xb7\x1f\xdb\x81\x20\xea\x60\xc0",
        text: b"\x64\x35\xac\xba\xfb\x11\xa8\x2e\x2f\x07\x1d\x7c\xa4\xa5\xeb\xd9\x3a\x80\x3b\xa8\x7f",
        sealing: b"\x00\x97\x69\xec\xab\xdf\x48\x62\x55\x94\xc5\x92\x51\xe6\x03\x57\x22\x67\x5e\x04\xc8\x47\x09\x9e\x5a\xe0\x70\x45\x51",
    },
];

// FIPS 197, B and C.1.
#[test]
fn published_blocks(rt: HostRuntime) {
    let cipher = Aes128::new(b"\x2b\x7e\x15\x16\x28\xae\xd2\xa6\xab\xf7\x15\x88\x09\xcf\x4f\x3c");
    let output = cipher.block(b"\x32\x43\xf6\xa8\x88\x5a\x30\x8d\x31\x31\x98\xa2\xe0\x37\x07\x34");
    assert_eq!(rt;
        output.as_slice(),
        b"\x39\x25\x84\x1d\x02\xdc\x09\xfb\xdc\x11\x85\x97\x19\x6a\x0b\x32".as_slice()
    );
    let cipher = Aes128::new(b"\x00\x01\x02\x03\x04\x05\x06\x07\x08\x09\x0a\x0b\x0c\x0d\x0e\x0f");
    let output = cipher.block(b"\x00\x11\x22\x33\x44\x55\x66\x77\x88\x99\xaa\xbb\xcc\xdd\xee\xff");
    assert_eq!(rt;
        output.as_slice(),
        b"\x69\xc4\xe0\xd8\x6a\x7b\x04\x30\xd8\xcd\xb7\x80\x70\xb4\xc5\x5a".as_slice()
    );
    sealing_laws();
}

#[test]
fn published_packets_are_sealed_and_opened(rt: HostRuntime) {
    for packet in &PACKETS {
        let len = packet.text.len();
        assert!(rt; len <= 25);
        assert!(rt; packet.header.len() <= 12);
        let cipher = Aes128::new(packet.key);
        let mut buf = [0; 40];
        buf[..len].copy_from_slice(packet.text);
        let size = cipher.seal(packet.nonce, packet.header, &mut buf, len);
        assert_eq!(rt; &buf[..size], packet.sealing);
        let answer = cipher.unseal(packet.nonce, packet.header, &mut buf, size);
        assert_eq!(rt; answer, Unsealed::Opened(len));
        assert_eq!(rt; &buf[..len], packet.text);
    }
}

const LENGTHS: [usize; 9] = [0, 1, 15, 16, 17, 31, 32, 255, 1264];

const AADS: [usize; 6] = [0, 13, 14, 15, 30, 2048];

// The FNV-1a hash of the sealing, for each length of the plaintext and, in a row, each of the AAD, as the `cryptography`
// package of Python makes it.
const HASHES: [[u64; 6]; 9] = [
    [
        0x1f98e4f2b69a6894,
        0x224ba4402f49b13b,
        0xd79a6850c620ce2c,
        0x12c9619d349a0268,
        0x934ffc23d3399777,
        0xbe9303ab25afeb34,
    ],
    [
        0xa4fe4b3b6ad1daad,
        0x4cf1d79387fe3369,
        0x26940446d5fb91df,
        0x0fcf129c21e1e291,
        0xd9c3f5e9a98f9635,
        0xdabed3f1ffef6acc,
    ],
    [
        0x71eeeaebebe4a852,
        0x4d61d398717ffdd0,
        0x8f2b2b33e2a4aee0,
        0x32eeab249e6b3668,
        0xa061448358bffa08,
        0xcaa3614a93f22f1d,
    ],
    [
        0xa6e881febc91535d,
        0x33e3e54b0d482bdc,
        0x5836839742d4eaff,
        0x29c0cfc9fe4e8aaf,
        0x0644b840fd33e948,
        0x8f87f28d933f70ae,
    ],
    [
        0xdc78f3836116e252,
        0x13e36549a1f8770c,
        0x01c0d741e0e2e8b0,
        0x10c82899dff78d6a,
        0x46f39e55bb444484,
        0x0c4fa3e4dc518849,
    ],
    [
        0xe9206f84a4db85e1,
        0x41f6a0e56c5e9fb4,
        0xb5a5dca52c4fe356,
        0xacc7340e749ad188,
        0xbe9c8eddfa8b5695,
        0x7eef57258fe5efec,
    ],
    [
        0x37f9d0a32813153e,
        0x22dbcdba344db5f5,
        0x0ddb5b037b2a66ef,
        0xef892cdd15be0cd6,
        0x1d0c5521b467e2ae,
        0x3d30e732726d1d10,
    ],
    [
        0x2b5d4ad37b07d468,
        0x2b6602ca0dce4485,
        0x91ce7993d6d7bab3,
        0x42916fafc7a6dbeb,
        0xd2dc6476f05ed7ff,
        0x9ee8cd6adde63dd3,
    ],
    [
        0x9c3043c3b1456326,
        0xefcc54443f89e069,
        0xc6af9b33f63ef4b0,
        0x710e0d734102c199,
        0x225a94d3cf0910d1,
        0xed6c09b3930c0246,
    ],
];

fn hash_of(bytes: &[u8]) -> u64 {
    let mut hash = 0xcbf2_9ce4_8422_2325_u64;
    for byte in bytes {
        hash = (hash ^ u64::from(*byte)).wrapping_mul(0x0000_0100_0000_01b3);
    }
    hash
}

fn fill(bytes: &mut [u8], step: u8, first: u8) {
    let mut next = first;
    for byte in bytes {
        *byte = next;
        next = next.wrapping_add(step);
    }
}

#[test]
fn every_length_is_sealed_as_elsewhere(rt: HostRuntime) {
    let cipher = Aes128::new(b"\x00\x01\x02\x03\x04\x05\x06\x07\x08\x09\x0a\x0b\x0c\x0d\x0e\x0f");
    let nonce = b"0123456789:;<";
    let mut aad = [0; 2048];
    fill(&mut aad, 5, 1);
    for (len, row) in LENGTHS.iter().zip(&HASHES) {
        for (aad_len, hash) in AADS.iter().zip(row) {
            assert!(rt; *len <= 1264 && *aad_len <= 2048);
            let mut buf = [0; 1272];
            fill(&mut buf, 7, 3);
            let size = cipher.seal(nonce, &aad[..*aad_len], &mut buf, *len);
            assert_eq!(rt; hash_of(&buf[..size]), *hash, "{len} {aad_len}");
        }
    }
}

#[test]
fn each_changed_bit_is_not_genuine(rt: HostRuntime) {
    let cipher = Aes128::new(FIRST_KEY);
    let nonce = PACKETS[0].nonce;
    let mut sealing = [7; 31];
    let size = cipher.seal(nonce, b"header", &mut sealing, 23);
    for bit in 0..248 {
        let mut changed = sealing;
        changed[bit / 8] ^= 1 << (bit % 8);
        assert_eq!(rt;
            cipher.unseal(nonce, b"header", &mut changed, size),
            Unsealed::NotGenuine,
            "{bit}"
        );
        assert_eq!(rt; changed, [0; 31], "{bit}");
    }
    for size in 0..8 {
        let mut short = sealing;
        assert_eq!(rt;
            cipher.unseal(nonce, b"header", &mut short, size),
            Unsealed::Short
        );
    }
}
