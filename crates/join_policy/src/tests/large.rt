//! Inventories at their limits.
use super::fault_of;
use crate::{Inventory, InventoryFault};
use edge_traits::PledgeId;
use std::alloc::{AllocError, Global};
use std::test::Fail;

const HEAD: &str = "network = \"cafe\"\npool_first = 1\npool_count = 65533\nhours = 24\n";

/// 4 MiB.
const LIMIT: usize = 4194304;

/// An inventory of `rows` rows, whose identifiers fall. Where `extra` is set, a last row has that one.
fn generated(alloc: Global, rows: u32) -> Result<String, AllocError> {
    let mut text = String::from_str(alloc, HEAD)?;
    for number in (0..rows).rev() {
        write!(
            text,
            "[[pledge]]\nid = \"{number:016x}\"\npsk = \"{number:032x}\"\n"
        )?;
    }
    Ok(text)
}

/// An inventory without rows, filled up with blanks.
fn padded(alloc: Global, size: usize) -> Result<Vec<u8>, AllocError> {
    let mut bytes = Vec::from_slice(alloc, HEAD.as_bytes())?;
    for _ in HEAD.len()..size {
        bytes.push(b' ')?;
    }
    Ok(bytes)
}

#[test]
fn many_rows_are_read_and_found(rt: HostRuntime) -> Result<(), Fail> {
    let text = generated(rt.alloc(), 16384)?;
    let inventory = Inventory::read(rt.alloc(), text.as_bytes())?;
    assert_eq!(rt; inventory.rows(), 16384);
    for at in 0..inventory.rows() {
        let id = PledgeId(u64::from(16383 - at).to_be_bytes());
        assert!(rt; inventory.find(id) == Some(at), "place {at}");
        let row = inventory.row(at);
        assert!(rt;
            row.id == id && row.psk == u128::from(16383 - at).to_be_bytes(),
            "row {at}"
        );
    }
    assert!(rt; inventory.find(PledgeId(16384u64.to_be_bytes())).is_none());
    Ok(())
}

#[test]
fn more_rows_are_too_many(rt: HostRuntime) -> Result<(), Fail> {
    let mut text = generated(rt.alloc(), 16385)?;
    let fault = Some(InventoryFault::TooMany(16385));
    assert!(rt; fault_of(rt.alloc(), text.as_bytes()) == fault);
    // A bad row doesn't come before it.
    text.push_str("[[pledge]]\n")?;
    let fault = Some(InventoryFault::TooMany(16386));
    assert!(rt; fault_of(rt.alloc(), text.as_bytes()) == fault);
    Ok(())
}

#[test]
fn a_longer_inventory_is_too_long(rt: HostRuntime) -> Result<(), Fail> {
    let bytes = padded(rt.alloc(), LIMIT)?;
    assert!(rt; fault_of(rt.alloc(), bytes.as_slice()).is_none());
    let bytes = padded(rt.alloc(), LIMIT + 1)?;
    assert!(rt; fault_of(rt.alloc(), bytes.as_slice()) == Some(InventoryFault::TooLong));
    // It is reported before the text is looked at.
    let bytes = vec![in rt.alloc(); 0xff; LIMIT + 1]?;
    assert!(rt; fault_of(rt.alloc(), bytes.as_slice()) == Some(InventoryFault::TooLong));
    Ok(())
}
