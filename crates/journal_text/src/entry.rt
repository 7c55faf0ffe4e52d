//! One entry of the history.
ghost use Rattle.std.specs.Prelude.{◌≡◌, ⊤};

use crate::{Refusal, Settings};
use edge_traits::PledgeId;
use key_sets::KeySet;
use std::alloc::AllocError;

/// A decision of the registrar. Times are whole seconds.
#[derive(Debug, PartialEq, Eq, Drop)]
pub enum Entry {
    /// From now on decisions are made under these settings.
    Settings {
        time: u64,
        settings: Settings,
    },
    /// The next context: a pledge under one pre-shared key. `check` is the fingerprint of the key.
    Enroll {
        context: u32,
        id: PledgeId,
        check: [u8; 32],
    },
    /// The request of this number gets a lease on an address, up to the second `until`.
    Grant {
        time: u64,
        context: u32,
        number: u64,
        address: u16,
        until: u64,
    },
    /// The request of this number is refused.
    Refuse {
        time: u64,
        context: u32,
        number: u64,
        why: Refusal,
    },
    /// The registrar may send under the context with its own numbers below `to`.
    Block {
        context: u32,
        to: u64,
    },
    /// A new key set comes into force.
    Roll {
        time: u64,
        set: KeySet,
    },
    /// The context's node answered the update of this number, so it has the key set of the epoch.
    Given {
        time: u64,
        context: u32,
        number: u64,
        epoch: u32,
    },
    /// The pledge didn't answer the updates of the epoch.
    Stale {
        time: u64,
        id: PledgeId,
        epoch: u32,
    },
    /// The key set of the epoch alone stays in force.
    Switch {
        time: u64,
        epoch: u32,
    },
    /// The pledge's leases are taken back.
    Release {
        time: u64,
        id: PledgeId,
    },
}

impl Clone for Entry {
    ghost is_clone = { λ old new. new ≡ old };

    ghost is_infallible = { λ _. ⊤ };

    fn clone(&self) -> Result<Self, AllocError> {
        Ok(match self {
            Entry::Settings { time, settings } => Entry::Settings {
                time: *time,
                settings: settings.clone()?,
            },
            Entry::Enroll { context, id, check } => Entry::Enroll {
                context: *context,
                id: *id,
                check: *check,
            },
            Entry::Grant {
                time,
                context,
                number,
                address,
                until,
            } => Entry::Grant {
                time: *time,
                context: *context,
                number: *number,
                address: *address,
                until: *until,
            },
            Entry::Refuse {
                time,
                context,
                number,
                why,
            } => Entry::Refuse {
                time: *time,
                context: *context,
                number: *number,
                why: *why,
            },
            Entry::Block { context, to } => Entry::Block {
                context: *context,
                to: *to,
            },
            Entry::Roll { time, set } => Entry::Roll {
                time: *time,
                set: set.clone()?,
            },
            Entry::Given {
                time,
                context,
                number,
                epoch,
            } => Entry::Given {
                time: *time,
                context: *context,
                number: *number,
                epoch: *epoch,
            },
            Entry::Stale { time, id, epoch } => Entry::Stale {
                time: *time,
                id: *id,
                epoch: *epoch,
            },
            Entry::Switch { time, epoch } => Entry::Switch {
                time: *time,
                epoch: *epoch,
            },
            Entry::Release { time, id } => Entry::Release {
                time: *time,
                id: *id,
            },
        })
    }
}
