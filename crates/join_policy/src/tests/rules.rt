//! Verdicts, and values and defaults.
use super::pledge;
use crate::{Inventory, Rule, Verdict};
use std::test::Fail;

/// Four pledges: allowed, not allowed, a 6LBR, and one among the refused. Defaults but for `keys`.
const TEXT: &str =
    "network = \"CAFE\"\npool_first = 1\npool_count = 10\nhours = 0\nkeys = 3\nrefused = [\"00000000000000a5\", \"00000000000000A4\"]\n[[pledge]]\nid = \"00000000000000a1\"\npsk = \"000102030405060708090a0b0c0d0e0f\"\n[[pledge]]\nid = \"00000000000000a2\"\npsk = \"000102030405060708090a0b0c0d0e0f\"\nallow = false\n[[pledge]]\nid = \"00000000000000a3\"\npsk = \"000102030405060708090a0b0c0d0e0f\"\nsixlbr = true\n[[pledge]]\nid = \"00000000000000a4\"\npsk = \"000102030405060708090a0b0c0d0e0f\"\n[[pledge]]\nid = \"00000000000000a5\"\npsk = \"000102030405060708090a0b0c0d0e0f\"\nsixlbr = true\n";

/// The pledge, its role, the network that it names, and the verdict.
const REQUESTS: [(u8, u64, Option<&[u8]>, Verdict); 21] = [
    (0xa1, 0, None, Verdict::Allowed),
    (0xa1, 0, Some(b"\xca\xfe"), Verdict::Allowed),
    (
        0xa1,
        0,
        Some(b"\xbe\xef"),
        Verdict::Denied(Rule::OtherNetwork),
    ),
    (0xa1, 0, Some(b""), Verdict::Denied(Rule::OtherNetwork)),
    (0xa1, 0, Some(b"\xca"), Verdict::Denied(Rule::OtherNetwork)),
    (
        0xa1,
        0,
        Some(b"\xca\xfe\0"),
        Verdict::Denied(Rule::OtherNetwork),
    ),
    (0xa1, 1, None, Verdict::Denied(Rule::NotSixLbr)),
    (0xa1, 1, Some(b"\xbe\xef"), Verdict::Denied(Rule::NotSixLbr)),
    (0xa1, 2, None, Verdict::Allowed),
    (0xa2, 0, None, Verdict::Denied(Rule::Barred)),
    (0xa2, 1, Some(b"\xbe\xef"), Verdict::Denied(Rule::Barred)),
    (0xa3, 0, None, Verdict::Allowed),
    (0xa3, 1, None, Verdict::Allowed),
    (0xa3, 1, Some(b"\xca\xfe"), Verdict::Allowed),
    (
        0xa3,
        1,
        Some(b"\xbe\xef"),
        Verdict::Denied(Rule::OtherNetwork),
    ),
    (0xa4, 0, None, Verdict::Denied(Rule::Refused)),
    (0xa4, 0, Some(b"\xca\xfe"), Verdict::Denied(Rule::Refused)),
    (
        0xa4,
        0,
        Some(b"\xbe\xef"),
        Verdict::Denied(Rule::OtherNetwork),
    ),
    (0xa4, 1, None, Verdict::Denied(Rule::NotSixLbr)),
    (0xa5, 0, None, Verdict::Denied(Rule::Refused)),
    (0xa5, 1, None, Verdict::Denied(Rule::Refused)),
];

#[test]
fn the_first_rule_denies(rt: HostRuntime) -> Result<(), Fail> {
    let inventory = Inventory::read(rt.alloc(), TEXT.as_bytes())?;
    for (id, role, network, verdict) in REQUESTS {
        let id = pledge(id);
        assert!(rt; inventory.find(id).is_some());
        assert!(rt;
            inventory.verdict(id, role, network) == verdict,
            "{id:?} {role} {network:?}"
        );
    }
    Ok(())
}

#[test]
fn the_rules_are_numbered_in_their_order(rt: HostRuntime) {
    let rules = [
        Rule::Barred,
        Rule::NotSixLbr,
        Rule::OtherNetwork,
        Rule::Refused,
    ];
    for (at, rule) in rules.into_iter().enumerate() {
        assert_eq!(rt; rule.number() as usize, at + 1);
    }
}

#[test]
fn absent_fields_have_defaults(rt: HostRuntime) -> Result<(), Fail> {
    let inventory = Inventory::read(rt.alloc(), TEXT.as_bytes())?;
    assert_eq!(rt; inventory.keys(), 3);
    assert!(rt; inventory.node_host() == [0; 14]);
    let settings = inventory.settings();
    assert_eq!(rt;
        (settings.first, settings.count, settings.hours),
        (1, 10, 0)
    );
    assert!(rt; settings.rate.is_none() && settings.jrc.is_none());
    assert!(rt; settings.refused.as_slice() == [pledge(0xa5), pledge(0xa4)].as_slice());
    Ok(())
}
