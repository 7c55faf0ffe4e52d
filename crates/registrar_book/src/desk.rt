//! What is decided: the state and its log, and how much of that is durable.
ghost use Rattle.std.specs.Prelude.{◌≤◌, ◌+◌, vec_len, vec_capacity};
ghost use Rattle.join_history.specs.Limits.{entry_limit};
ghost use Rattle.registrar_state.specs.State.{spare_room};

use journal_text::Entry;
use registrar_state::RegState;

#[derive(Drop)]
pub struct Desk {
    pub state: RegState,
    pub log: Vec<Entry>,
    /// How many entries of the log are durable.
    pub durable: u32,
    ghost room: { entry_limit ≤ vec_len log + (spare_room state).entries },
    ghost memory: { entry_limit ≤ vec_capacity log },
    ghost most: { vec_len log ≤ entry_limit },
}

impl Desk {
    ghost use Rattle.std.specs.Prelude.{◌≡◌, ◌<◌, ◌∷◌, ◌++◌, [], List, length};
    ghost use Rattle.journal_text.specs.declared.entry.Entry.{Entry};
    ghost use Rattle.join_history.specs.Contexts.{context_count};
    ghost use Rattle.join_history.specs.Legal.{IsLegal};
    ghost use Rattle.registrar_state.specs.Room.{HasRoomFor, TakesRoom};
    ghost use Rattle.registrar_state.specs.State.{StandsFor, CanFollow};
    ghost use Rattle.std.specs.List.{AllByRecursion};
    ghost use Rattle.registrar_book.specs.Known.{IsOpening};

    /// The length of the log.
    pub fn len(&self) -> u32
        ensures { result ≡ length self.now.log.items }
    {
        self.log.len() as u32
    }

    /// Adds an entry to the state and to the log.
    pub fn add(&mut self, entry: &Entry)
        requires may_follow { CanFollow self.old.state entry.now }
        requires room { HasRoomFor (spare_room self.old.state) entry.now }
        requires space { length self.old.log.items < entry_limit }
        ensures stands { (h : List Entry) → StandsFor self.old.state h → StandsFor self.new.state (h ++ entry.now ∷ []) }
        ensures log { self.new.log.items ≡ self.old.log.items ++ entry.now ∷ [] }
        ensures durable { self.new.durable ≡ self.old.durable }
        ensures room { TakesRoom (spare_room self.old.state) (spare_room self.new.state) entry.now }
    {
        self.state.apply(entry);
        self.log.push_reserved(entry.clone().unwrap());
    }

    /// Adds the entries of an opening, one after another. All of the log is durable then.
    pub fn add_all(&mut self, entries: &[Entry])
        requires may_follow { (h : List Entry) × StandsFor self.old.state h × IsLegal (h ++ entries.now) }
        requires kinds { AllByRecursion IsOpening entries.now }
        requires contexts { context_count entries.now ≤ (spare_room self.old.state).contexts }
        requires space { length self.old.log.items + length entries.now ≤ entry_limit }
        ensures stands { (h : List Entry) → StandsFor self.old.state h → StandsFor self.new.state (h ++ entries.now) }
        ensures log { self.new.log.items ≡ self.old.log.items ++ entries.now }
        ensures durable { self.new.durable ≡ length self.new.log.items }
    {
        let mut rest = entries;
        while let Some((entry, after)) = rest.split_first() {
            self.add(entry);
            rest = after;
        }
        self.settled();
    }

    /// All of the log is durable.
    pub fn settled(&mut self)
        ensures state { self.new.state ≡ self.old.state }
        ensures log { self.new.log ≡ self.old.log }
        ensures durable { self.new.durable ≡ length self.new.log.items }
    {
        self.durable = self.len();
    }
}
