//! The grant of an address that ends last.
ghost use Rattle.std.specs.Prelude.{◌≡◌, ℕ, ◌+◌, ◌<◌, ◌≤◌, List, ◌∷◌, Option, Some};
ghost use Rattle.address_leases.specs.declared.grant.Grant.{Grant as AGrant};
ghost use Rattle.address_leases.specs.Indices.{IsTopOf};

use crate::grant::{Grant, is_over};
use edge_traits::PledgeId;

/// The pledge whose grant of an address ends last, and that end.
#[derive(Clone, Copy, Debug, PartialEq, Eq)]
pub(crate) struct Top {
    pub(crate) id: PledgeId,
    pub(crate) until: u64,
    /// Whether another pledge had a grant of the address at the same time.
    pub(crate) shared: bool,
}

/// The top of an address after one more grant of it. What is over at `passed` counts no longer.
pub(crate) fn raise(top: Option<Top>, grant: Grant, passed: u64) -> Top
    ensures { (grants : List AGrant) → IsTopOf grants passed grant.address top → IsTopOf (grant ∷ grants) passed grant.address (Some result) }
{
    let alone = Top {
        id: grant.id,
        until: grant.until,
        shared: false,
    };
    match top {
        None => alone,
        Some(top) => {
            if top.id == grant.id {
                Top {
                    id: top.id,
                    until: top.until.max(grant.until),
                    shared: top.shared,
                }
            } else if is_over(top.until, passed) {
                alone
            } else if grant.until > top.until {
                Top {
                    id: grant.id,
                    until: grant.until,
                    shared: true,
                }
            } else {
                Top {
                    id: top.id,
                    until: top.until,
                    shared: true,
                }
            }
        },
    }
}
