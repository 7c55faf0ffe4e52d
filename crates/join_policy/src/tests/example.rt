//! The example that operators start from, as `docs/inventory.example.toml` has it.
use super::pledge;
use crate::{Inventory, Row};
use arrayvec::ArrayVec;
use journal_text::Settings;
use std::test::Fail;

const EXAMPLE: &str =
    r#"# An inventory: which pledges may join the network, and under which settings.
# Hexadecimal text is read in lower and upper case. Fields that aren't named here are ignored.

# The network identifier, 1 to 16 bytes.
network = "cafe"

# The pool of short addresses: the first, and how many there are. All lie within 1 to 65533.
pool_first = 1
pool_count = 1000

# The lease time in hours, up to 65535. 0 gives leases without an end.
hours = 24

# How many link-layer keys a key set has, 1 to 4. Default: 1.
keys = 1

# The join rate that pledges are told, in bytes a second, below 2^32. Default: they are told none.
# rate = 100

# The IPv6 address of the registrar that pledges are told, 16 bytes. Default: they are told none.
# jrc = "20010db8000000000000000000000001"

# At most 16 pledges that joined nodes are told to refuse, by their identifiers. Default: none.
refused = []

# The first 14 bytes of the nodes' IPv6 addresses, to which updates of keys are sent; a node's short address follows.
# Default: zeros.
node_host = "20010db800000000000000fffe00"

# A table for each pledge, at most 16384. Of two that have one identifier the inventory is refused.
[[pledge]]
# The identifier of the pledge (EUI-64), 8 bytes.
id = "00000000000000a1"
# The key that it shares with the registrar, 16 bytes. Draw one for each pledge, and keep this file secret.
psk = "000102030405060708090a0b0c0d0e0f"
# Whether it may join. Default: true.
allow = true
# Whether it may be a 6LBR, a border router of the network. Default: false.
sixlbr = false

[[pledge]]
id = "00000000000000a2"
psk = "101112131415161718191a1b1c1d1e1f"
sixlbr = true
"#;

#[test]
fn the_example_is_read(rt: HostRuntime) -> Result<(), Fail> {
    let inventory = Inventory::read(rt.alloc(), EXAMPLE.as_bytes())?;
    assert!(rt; inventory.network() == b"\xca\xfe".as_slice());
    assert_eq!(rt; inventory.keys(), 1);
    assert!(rt; inventory.node_host() == *b"\x20\x01\x0d\xb8\0\0\0\0\0\0\0\xff\xfe\0");
    let settings = Settings {
        first: 1,
        count: 1000,
        hours: 24,
        rate: None,
        jrc: None,
        refused: ArrayVec::new(),
    };
    assert_eq!(rt; inventory.settings(), settings);
    assert!(rt; inventory.rows() == 2);
    let first = Row {
        id: pledge(0xa1),
        psk: [0, 1, 2, 3, 4, 5, 6, 7, 8, 9, 10, 11, 12, 13, 14, 15],
        allow: true,
        sixlbr: false,
    };
    assert!(rt; inventory.rows() > 1 && inventory.row(0) == first);
    let second = Row {
        id: pledge(0xa2),
        psk: [
            16, 17, 18, 19, 20, 21, 22, 23, 24, 25, 26, 27, 28, 29, 30, 31,
        ],
        allow: true,
        sixlbr: true,
    };
    assert!(rt; inventory.rows() > 1 && inventory.row(1) == second);
    assert_eq!(rt; inventory.find(pledge(0xa1)), Some(0));
    assert_eq!(rt; inventory.find(pledge(0xa2)), Some(1));
    assert_eq!(rt; inventory.find(pledge(0xa3)), None);
    Ok(())
}

#[test]
fn no_text_shows_a_key(rt: HostRuntime) -> Result<(), Fail> {
    let inventory = Inventory::read(rt.alloc(), EXAMPLE.as_bytes())?;
    assert!(rt; format!(in rt.alloc(); "{inventory:?}")?.as_str() == "Inventory { .. }");
    assert!(rt; inventory.rows() == 2);
    let row = inventory.row(1);
    let shown = "Row { id: 00000000000000a2, allow: true, sixlbr: true }";
    assert!(rt; format!(in rt.alloc(); "{row:?}")?.as_str() == shown);
    Ok(())
}
