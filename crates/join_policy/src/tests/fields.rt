//! Each field absent, of another type, one below and one above its range, in odd digits and in upper case.
use super::fault_of;
use crate::{FieldName, InventoryFault};
use std::alloc::{AllocError, Global};
use std::test::Fail;

/// The document's own fields, each with a value that is read.
const DOCUMENT: [(FieldName, &str); 9] = [
    (FieldName::Network, "\"cafe\""),
    (FieldName::PoolFirst, "2"),
    (FieldName::PoolCount, "100"),
    (FieldName::Hours, "24"),
    (FieldName::Keys, "2"),
    (FieldName::Rate, "100"),
    (FieldName::Jrc, "\"101112131415161718191a1b1c1d1e1f\""),
    (FieldName::Refused, "[\"00000000000000b1\"]"),
    (FieldName::NodeHost, "\"101112131415161718191a1b1c1d\""),
];

/// The fields of its row.
const ROW: [(FieldName, &str); 4] = [
    (FieldName::Id, "\"00000000000000a1\""),
    (FieldName::Psk, "\"000102030405060708090a0b0c0d0e0f\""),
    (FieldName::Allow, "true"),
    (FieldName::Sixlbr, "false"),
];

/// A field, its value (none where the text is empty), and whether the inventory is read.
const CASES: [(FieldName, &str, bool); 90] = [
    (FieldName::Network, "", false),
    (FieldName::Network, "5", false),
    (FieldName::Network, "[\"cafe\"]", false),
    (FieldName::Network, "\"\"", false),
    (FieldName::Network, "\"ca\"", true),
    (
        FieldName::Network,
        "\"101112131415161718191a1b1c1d1e1f\"",
        true,
    ),
    (
        FieldName::Network,
        "\"101112131415161718191a1b1c1d1e1f20\"",
        false,
    ),
    (FieldName::Network, "\"caf\"", false),
    (FieldName::Network, "\"cafg\"", false),
    (FieldName::Network, "\"CaFE\"", true),
    (FieldName::PoolFirst, "", false),
    (FieldName::PoolFirst, "\"1\"", false),
    (FieldName::PoolFirst, "-1", false),
    (FieldName::PoolFirst, "0", false),
    (FieldName::PoolFirst, "1", true),
    (FieldName::PoolFirst, "65433", true),
    (FieldName::PoolFirst, "65534", false),
    (FieldName::PoolFirst, "18446744073", false),
    (FieldName::PoolCount, "", false),
    (FieldName::PoolCount, "true", false),
    (FieldName::PoolCount, "0", false),
    (FieldName::PoolCount, "1", true),
    (FieldName::PoolCount, "65532", true),
    (FieldName::PoolCount, "65533", false),
    (FieldName::Hours, "", false),
    (FieldName::Hours, "1.5", false),
    (FieldName::Hours, "-1", false),
    (FieldName::Hours, "0", true),
    (FieldName::Hours, "65535", true),
    (FieldName::Hours, "65536", false),
    (FieldName::Keys, "", true),
    (FieldName::Keys, "\"1\"", false),
    (FieldName::Keys, "0", false),
    (FieldName::Keys, "1", true),
    (FieldName::Keys, "4", true),
    (FieldName::Keys, "5", false),
    (FieldName::Rate, "", true),
    (FieldName::Rate, "\"1\"", false),
    (FieldName::Rate, "-1", false),
    (FieldName::Rate, "0", true),
    (FieldName::Rate, "4294967295", true),
    (FieldName::Rate, "4294967296", false),
    (FieldName::Jrc, "", true),
    (FieldName::Jrc, "1", false),
    (FieldName::Jrc, "\"101112131415161718191a1b1c1d1e\"", false),
    (FieldName::Jrc, "\"101112131415161718191a1b1c1d1e1f\"", true),
    (FieldName::Jrc, "\"101112131415161718191A1B1C1D1E1F\"", true),
    (FieldName::Jrc, "\"101112131415161718191a1b1c1d1e1\"", false),
    (
        FieldName::Jrc,
        "\"101112131415161718191a1b1c1d1e1f20\"",
        false,
    ),
    (FieldName::Jrc, "\"\"", false),
    (FieldName::Refused, "", true),
    (FieldName::Refused, "\"00000000000000a1\"", false),
    (FieldName::Refused, "[1]", false),
    (FieldName::Refused, "[]", true),
    (FieldName::Refused, "[\"00000000000000\"]", false),
    (FieldName::Refused, "[\"00000000000000A1\"]", true),
    (FieldName::Refused, "[\"00000000000000a\"]", false),
    (FieldName::Refused, "[\"000000000000000000\"]", false),
    (
        FieldName::Refused,
        "[\"0000000000000000\", \"0000000000000001\", \"0000000000000002\", \"0000000000000003\", \"0000000000000004\", \"0000000000000005\", \"0000000000000006\", \"0000000000000007\", \"0000000000000008\", \"0000000000000009\", \"000000000000000a\", \"000000000000000b\", \"000000000000000c\", \"000000000000000d\", \"000000000000000e\", \"000000000000000f\"]",
        true,
    ),
    (
        FieldName::Refused,
        "[\"0000000000000000\", \"0000000000000001\", \"0000000000000002\", \"0000000000000003\", \"0000000000000004\", \"0000000000000005\", \"0000000000000006\", \"0000000000000007\", \"0000000000000008\", \"0000000000000009\", \"000000000000000a\", \"000000000000000b\", \"000000000000000c\", \"000000000000000d\", \"000000000000000e\", \"000000000000000f\", \"0000000000000010\"]",
        false,
    ),
    (FieldName::NodeHost, "", true),
    (FieldName::NodeHost, "1", false),
    (FieldName::NodeHost, "\"101112131415161718191a1b1c\"", false),
    (
        FieldName::NodeHost,
        "\"101112131415161718191a1b1c1d\"",
        true,
    ),
    (
        FieldName::NodeHost,
        "\"101112131415161718191A1B1C1D\"",
        true,
    ),
    (
        FieldName::NodeHost,
        "\"101112131415161718191a1b1c1d0\"",
        false,
    ),
    (
        FieldName::NodeHost,
        "\"101112131415161718191a1b1c1d1e\"",
        false,
    ),
    (FieldName::Id, "", false),
    (FieldName::Id, "161", false),
    (FieldName::Id, "\"10111213141516\"", false),
    (FieldName::Id, "\"1011121314151617\"", true),
    (FieldName::Id, "\"1011121314151617\"", true),
    (FieldName::Id, "\"101112131415161\"", false),
    (FieldName::Id, "\"101112131415161718\"", false),
    (FieldName::Psk, "", false),
    (FieldName::Psk, "1", false),
    (FieldName::Psk, "\"101112131415161718191a1b1c1d1e\"", false),
    (FieldName::Psk, "\"101112131415161718191a1b1c1d1e1f\"", true),
    (FieldName::Psk, "\"ABCDEF101112131415161718191a1b1c\"", true),
    (
        FieldName::Psk,
        "\"101112131415161718191a1b1c1d1e1f0\"",
        false,
    ),
    (
        FieldName::Psk,
        "\"101112131415161718191a1b1c1d1e1f20\"",
        false,
    ),
    (
        FieldName::Psk,
        "\"gg101112131415161718191a1b1c1d1e\"",
        false,
    ),
    (FieldName::Allow, "", true),
    (FieldName::Allow, "1", false),
    (FieldName::Allow, "\"true\"", false),
    (FieldName::Allow, "false", true),
    (FieldName::Sixlbr, "", true),
    (FieldName::Sixlbr, "0", false),
    (FieldName::Sixlbr, "\"no\"", false),
    (FieldName::Sixlbr, "true", true),
];

/// These fields, one of them with another value.
fn put_fields(
    text: &mut String,
    fields: &[(FieldName, &str)],
    changed: FieldName,
    value: &str,
) -> Result<(), AllocError> {
    for (name, fine) in fields {
        let value = if *name == changed { value } else { *fine };
        if !value.is_empty() {
            text.push_str(name.name())?;
            text.push_str(" = ")?;
            text.push_str(value)?;
            text.push_str("\n")?;
        }
    }
    Ok(())
}

fn text_of(alloc: Global, changed: FieldName, value: &str) -> Result<String, AllocError> {
    let mut text = String::new(alloc);
    put_fields(&mut text, &DOCUMENT, changed, value)?;
    text.push_str("[[pledge]]\n")?;
    put_fields(&mut text, &ROW, changed, value)?;
    Ok(text)
}

/// Rows count from 1, and 0 is the document.
fn row_of(name: FieldName) -> u32 {
    match name {
        FieldName::Id | FieldName::Psk | FieldName::Allow | FieldName::Sixlbr => 1,
        _ => 0,
    }
}

#[test]
fn each_field_has_its_range(rt: HostRuntime) -> Result<(), Fail> {
    for (name, value, read) in CASES {
        let text = text_of(rt.alloc(), name, value)?;
        let fault = if read {
            None
        } else {
            Some(InventoryFault::Field(row_of(name), name))
        };
        assert!(rt;
            fault_of(rt.alloc(), text.as_bytes()) == fault,
            "{name} = {value}"
        );
    }
    Ok(())
}
