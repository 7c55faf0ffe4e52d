//! The state: what a summary knows of a history, and the room that is left.
ghost use Rattle.std.specs.Prelude.{◌≡◌, ◌≤◌, ◌+◌, length};
ghost use Rattle.registrar_state.specs.Pledges.{limit_of};

use crate::contexts::Contexts;
use crate::pledges::Pledges;
use crate::room::Room;
use address_leases::Leases;
use edge_traits::NoMemory;
use journal_text::Settings;
use key_sets::Phase;
use std::alloc::Global;

/// A history, as far as decisions need it. Once it is made it takes no memory.
#[derive(Drop)]
pub struct RegState {
    /// The last time.
    pub(crate) time: u64,
    /// The last settings, with their time.
    pub(crate) settings: Option<(u64, Settings)>,
    pub(crate) phase: Phase,
    pub(crate) contexts: Contexts,
    pub(crate) leases: Leases,
    pub(crate) pledges: Pledges,
    pub(crate) room: Room,
    ghost contexts_fit: { room.contexts ≡ contexts.room },
    ghost leases_fit: { room.entries ≤ leases.room },
    ghost pledges_fit: { length contexts.rows + room.contexts ≤ limit_of pledges },
}

impl RegState {
    ghost use Rattle.std.specs.Prelude.{[], IfOk};
    ghost use Rattle.registrar_state.specs.State.{StandsFor, spare_room};

    /// The state of the empty history, with room for `contexts` contexts and `entries` other entries.
    #[tactic(auto, unfolding(crate::specs::State::spare_room))]
    pub fn empty(alloc: Global, contexts: u32, entries: u32) -> Result<RegState, NoMemory>
        ensures empty { IfOk result (λ state. StandsFor state []) }
        ensures contexts { IfOk result (λ state. (spare_room state).contexts ≡ contexts) }
        ensures entries { IfOk result (λ state. (spare_room state).entries ≡ entries) }
    {
        let table = Contexts::empty(alloc, contexts)?;
        let leases = Leases::empty(alloc, entries)?;
        let pledges = Pledges::empty(alloc, contexts)?;
        Ok(RegState {
            time: 0,
            settings: None,
            phase: Phase::None,
            contexts: table,
            leases,
            pledges,
            room: Room { contexts, entries },
        })
    }
}
