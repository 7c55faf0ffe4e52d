//! Whole documents, each with its first fault.
use super::fault_of;
use crate::{FieldName, InventoryFault};
use edge_traits::PledgeId;

const A1: PledgeId = PledgeId([0, 0, 0, 0, 0, 0, 0, 0xa1]);

const A2: PledgeId = PledgeId([0, 0, 0, 0, 0, 0, 0, 0xa2]);

const TEXTS: [(&[u8], Option<InventoryFault>); 30] = [
    (b"", Some(InventoryFault::Field(0, FieldName::Network))),
    (
        b"# nothing\n",
        Some(InventoryFault::Field(0, FieldName::Network)),
    ),
    (b"\xff", Some(InventoryFault::Toml)),
    (
        b"network = \"cafe\"\npool_first = 1\npool_count = 10\nhours = 24\nname = \"\xc3(\"\n",
        Some(InventoryFault::Toml),
    ),
    (b"network", Some(InventoryFault::Toml)),
    (
        b"network = \"cafe\"\nnetwork = \"cafe\"\n",
        Some(InventoryFault::Toml),
    ),
    (
        b"network = \"cafe\"\npool_first = 1\npool_count = 10\nhours = 24\n[[pledge]]\nid = \"00000000000000a1\"\npsk = \"00010203040506",
        Some(InventoryFault::Toml),
    ),
    (
        b"network = \"cafe\"\npool_first = 1\npool_count = 10\nhours = 24\n",
        None,
    ),
    (
        b"network = \"cafe\"\npool_first = 1\npool_count = 10\nhours = 24\npledge = []\n",
        None,
    ),
    (
        b"network = \"cafe\"\npool_first = 1\npool_count = 10\nhours = 24\npledge = 1\n",
        Some(InventoryFault::Field(0, FieldName::Pledge)),
    ),
    (
        b"network = \"cafe\"\npool_first = 1\npool_count = 10\nhours = 24\npledge = [1]\n",
        Some(InventoryFault::Field(0, FieldName::Pledge)),
    ),
    (
        b"network = \"cafe\"\npool_first = 1\npool_count = 10\nhours = 24\npledge = [{}, 1]\n",
        Some(InventoryFault::Field(0, FieldName::Pledge)),
    ),
    (
        b"network = \"cafe\"\npool_first = 1\npool_count = 10\nhours = 24\n[pledge]\nid = \"00000000000000a1\"\n",
        Some(InventoryFault::Field(0, FieldName::Pledge)),
    ),
    (
        b"network = \"cafe\"\npool_first = 1\npool_count = 10\nhours = 24\npledge = [{}]\n",
        Some(InventoryFault::Field(1, FieldName::Id)),
    ),
    (
        b"network = \"cafe\"\npool_first = 1\npool_count = 10\nhours = 24\n[[pledge]]\nid = \"00000000000000a1\"\npsk = \"000102030405060708090a0b0c0d0e0f\"\n[[pledge]]\nid = \"00000000000000a2\"\npsk = \"101112131415161718191a1b1c1d1e1f\"\n",
        None,
    ),
    (
        b"network = \"cafe\"\npool_first = 1\npool_count = 10\nhours = 24\ncolour = \"red\"\n[[pledge]]\nid = \"00000000000000a1\"\npsk = \"000102030405060708090a0b0c0d0e0f\"\ncolour = 1\n[other]\nx = 1\n",
        None,
    ),
    (
        b"network = \"cafe\"\npool_first = 1\npool_count = 10\nhours = 24\n[[pledge]]\nid = \"00000000000000a1\"\npsk = \"000102030405060708090a0b0c0d0e0f\"\n[[pledge]]\nid = \"00000000000000a2\"\npsk = \"101112131415161718191a1b1c1d1e1f\"\n[[pledge]]\nid = \"00000000000000a3\"\n",
        Some(InventoryFault::Field(3, FieldName::Psk)),
    ),
    (
        b"network = \"cafe\"\npool_first = 1\npool_count = 10\nhours = 24\n[[pledge]]\nid = \"00000000000000a1\"\npsk = \"000102030405060708090a0b0c0d0e0f\"\n[[pledge]]\nid = \"00000000000000a2\"\npsk = \"101112131415161718191a1b1c1d1e1f\"\n[[pledge]]\nid = \"00000000000000a1\"\npsk = \"000102030405060708090a0b0c0d0e0f\"\n",
        Some(InventoryFault::TwiceId(A1)),
    ),
    (
        b"network = \"cafe\"\npool_first = 1\npool_count = 10\nhours = 24\n[[pledge]]\nid = \"00000000000000a1\"\npsk = \"000102030405060708090a0b0c0d0e0f\"\n[[pledge]]\nid = \"00000000000000a2\"\npsk = \"101112131415161718191a1b1c1d1e1f\"\n[[pledge]]\nid = \"00000000000000a2\"\npsk = \"101112131415161718191a1b1c1d1e1f\"\n[[pledge]]\nid = \"00000000000000a1\"\npsk = \"000102030405060708090a0b0c0d0e0f\"\n",
        Some(InventoryFault::TwiceId(A2)),
    ),
    (
        b"network = \"cafe\"\npool_first = 1\npool_count = 10\nhours = 24\n[[pledge]]\nid = \"00000000000000a1\"\npsk = \"000102030405060708090a0b0c0d0e0f\"\n[[pledge]]\nid = \"00000000000000A1\"\npsk = \"202122232425262728292a2b2c2d2e2f\"\n",
        Some(InventoryFault::TwiceId(A1)),
    ),
    (
        b"network = \"cafe\"\npool_first = 1\npool_count = 10\nhours = 24\n[[pledge]]\nid = \"00000000000000a1\"\npsk = \"000102030405060708090a0b0c0d0e0f\"\n[[pledge]]\nid = \"00000000000000a1\"\npsk = \"000102030405060708090a0b0c0d0e0f\"\n[[pledge]]\nid = \"00000000000000a3\"\n",
        Some(InventoryFault::Field(3, FieldName::Psk)),
    ),
    (
        b"pool_first = 0\n[[pledge]]\nid = \"00000000000000a1\"\npsk = \"000102030405060708090a0b0c0d0e0f\"\n[[pledge]]\nid = \"00000000000000a3\"\n",
        Some(InventoryFault::Field(0, FieldName::Network)),
    ),
    (
        b"network = \"cafe\"\npool_count = 0\nhours = -1\n",
        Some(InventoryFault::Field(0, FieldName::PoolFirst)),
    ),
    (
        b"network = \"cafe\"\npool_first = 65533\npool_count = 1\nhours = 0\n",
        None,
    ),
    (
        b"network = \"cafe\"\npool_first = 65533\npool_count = 2\nhours = 0\n",
        Some(InventoryFault::Field(0, FieldName::PoolCount)),
    ),
    (
        b"network = \"cafe\"\npool_first = 1\npool_count = 65533\nhours = 0\n",
        None,
    ),
    (
        b"network = \"cafe\"\npool_first = 1\npool_count = 10\nhours = 24\nkeys = 9\nrate = -1\npledge = [{}]\n",
        Some(InventoryFault::Field(0, FieldName::Keys)),
    ),
    (
        b"network = \"cafe\"\npool_first = 1\npool_count = 10\nhours = 24\nrefused = 1\nnode_host = 1\n",
        Some(InventoryFault::Field(0, FieldName::Refused)),
    ),
    (
        b"network = \"cafe\"\npool_first = 1\npool_count = 10\nhours = 24\n[[pledge]]\nid = 1\npsk = 1\n",
        Some(InventoryFault::Field(1, FieldName::Id)),
    ),
    (
        b"network = \"cafe\"\npool_first = 1\npool_count = 10\nhours = 24\n[[pledge]]\nid = \"00000000000000a1\"\npsk = \"00\"\nallow = 1\n",
        Some(InventoryFault::Field(1, FieldName::Psk)),
    ),
];

#[test]
fn a_refusal_is_the_first_fault(rt: HostRuntime) {
    for (place, (text, fault)) in TEXTS.iter().enumerate() {
        assert!(rt; fault_of(rt.alloc(), *text) == *fault, "text {place}");
    }
}
