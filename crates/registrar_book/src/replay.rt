//! The state of a log that was read.
ghost use Rattle.std.specs.Prelude.{◌≡◌, ◌≤◌, ◌<◌, ◌+◌, ◌^◌, ℕ, Option, List, length, IfOk, IfErr};
ghost use Rattle.journal_text.specs.declared.settings.Settings.{Settings};
ghost use Rattle.join_history.specs.Contexts.{context_count};
ghost use Rattle.join_history.specs.Limits.{context_limit, entry_limit};
ghost use Rattle.registrar_state.specs.State.{StandsFor, spare_room};
ghost use Rattle.registrar_book.specs.Opening.{Row, OpenCause};

use crate::OpenFault;
use join_history::{CONTEXT_LIMIT, ENTRY_LIMIT};
use journal_store::Spot;
use journal_text::Entry;
use registrar_state::RegState;
use std::alloc::Global;

/// The longest log for which memory is wanted.
const LONGEST: usize = 0x7fff_ffff;

/// The state that stands for the log, with room for all entries that a log may have.
pub fn replay(alloc: Global, log: &[Entry]) -> Result<RegState, OpenFault>
    ensures short { IfOk result (λ state. length log.now < 2 ^ 31) }
    ensures stands { IfOk result (λ state. StandsFor state log.now) }
    ensures contexts { IfOk result (λ state. (spare_room state).contexts + context_count log.now ≡ context_limit) }
    ensures room { IfOk result (λ state. entry_limit ≤ length log.now + (spare_room state).entries) }
    ensures err { (settings : Settings) (rows : List Row) (now : Option ℕ) → IfErr result (OpenCause log.now settings rows now) }
{
    if log.len() > LONGEST {
        return Err(OpenFault::NoMemory);
    }
    let entries = (log.len() as u32).max(ENTRY_LIMIT);
    let mut state = RegState::empty(alloc, CONTEXT_LIMIT, entries)?;
    for (index, entry) in log.iter().enumerate() {
        if !state.may_follow(entry) {
            return Err(OpenFault::NotAJournal(Spot::Entry(index as u32)));
        }
        state.apply(entry);
    }
    Ok(state)
}
