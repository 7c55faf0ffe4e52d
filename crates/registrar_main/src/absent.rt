//! What the program has no use for yet: an inventory. The top call makes no call on it.
ghost use Rattle.std.specs.Prelude.{◌<◌, ◌^◌};

use edge_traits::{Failed, Source};

/// An inventory that is empty.
#[derive(Drop)]
pub struct NoInventory;

impl Source for NoInventory {
    ghost use Rattle.std.specs.Prelude.{[], Some};
    ghost use Rattle.std.proofs.Common.{arith};

    ghost left = { λ _. Some [] };

    ghost fault_count = { λ _. 0 };

    ghost fault_count_fits = { λ _. Prim.omega arith };

    fn read(&mut self, _buf: &mut [u8]) -> Result<usize, Failed> {
        Ok(0)
    }

    fn faults(&self) -> u64 {
        0
    }
}
