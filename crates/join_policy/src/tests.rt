//! Inventories, worked out by hand from the table of fields.
use crate::{Inventory, InventoryFault};
use edge_traits::PledgeId;
use std::alloc::Global;

mod example;
mod fields;
mod large;
mod rules;
mod texts;

fn pledge(last: u8) -> PledgeId {
    PledgeId([0, 0, 0, 0, 0, 0, 0, last])
}

/// The fault of an inventory, if it has one.
fn fault_of(alloc: Global, bytes: &[u8]) -> Option<InventoryFault> {
    match Inventory::read(alloc, bytes) {
        Ok(_) => None,
        Err(fault) => Some(fault),
    }
}
