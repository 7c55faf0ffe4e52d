//! The index of rows by their identifiers.
ghost use Rattle.std.specs.Prelude.{◌≡◌, ◌⊎◌, ◌≤◌, [], length, Some, None, IfOk, IfErr};
ghost use Rattle.edge_traits.specs.declared.names.PledgeId.{PledgeId};
ghost use Rattle.join_policy.specs.declared.fault.InventoryFault.TheVariants.{NoMemory, TwiceId};
ghost use Rattle.join_policy.specs.Rows.{twice_after};
ghost use Rattle.join_policy.specs.Index.{IsIndexOf};

use crate::{InventoryFault, Row};
use std::alloc::Global;
use std::collections::BTreeMap;

/// The place of each row under its identifier.
pub type Index = BTreeMap<[u8; 8], u32>;

/// Indexes rows no two of which have one identifier.
pub fn index_of(alloc: Global, rows: &[Row]) -> Result<Index, InventoryFault>
    requires { length rows.now ≤ 16384 }
    ensures index { IfOk result (λ index. IsIndexOf index rows.now) }
    ensures distinct { IfOk result (λ _. twice_after [] rows.now ≡ None) }
    ensures refused { IfErr result (λ e. (e ≡ NoMemory) ⊎ ((id : PledgeId) × (e ≡ TwiceId id) × (twice_after [] rows.now ≡ Some id))) }
{
    let mut index = BTreeMap::new(alloc);
    for (place, row) in rows.iter().enumerate() {
        match index.insert(row.id.0, place as u32) {
            Err(_) => return Err(InventoryFault::NoMemory),
            Ok(Some(_)) => return Err(InventoryFault::TwiceId(row.id)),
            Ok(None) => {}
        }
    }
    Ok(index)
}
