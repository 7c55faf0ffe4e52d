//! The room that is left: for contexts, and for the other entries.
ghost use Rattle.std.specs.Prelude.{◌≡◌, ◌+◌};

use journal_text::Entry;

/// How many contexts and how many other entries still fit.
#[derive(Clone, Copy, Debug, PartialEq, Eq)]
pub struct Room {
    pub contexts: u32,
    pub entries: u32,
}

impl Room {
    ghost use Rattle.registrar_state.specs.Room.{HasRoomFor, TakesRoom};

    /// Takes the room of one entry.
    pub(crate) fn take(&mut self, entry: &Entry)
        requires { HasRoomFor self.old entry.now }
        ensures taken { TakesRoom self.old self.new entry.now }
        ensures total { self.new.contexts + self.new.entries + 1 ≡ self.old.contexts + self.old.entries }
    {
        match entry {
            Entry::Enroll { .. } => self.contexts -= 1,
            _ => self.entries -= 1,
        }
    }
}
