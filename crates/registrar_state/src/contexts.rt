//! The contexts: for whom they are enrolled, and what was decided for them.
ghost use Rattle.std.specs.Prelude.{◌≡◌, ◌≢◌, ℕ, ◌+◌, ◌<◌, ◌≤◌, List, [], ◌∷◌, ◌++◌, length, get_or, Option, Some, None, IfOk, MatchOption, vec_len, vec_capacity, bytes_eq, false};
ghost use Rattle.std.specs.Map.{lookup};
ghost use Rattle.indexmap.specs.IndexMap.{spare as map_spare};
ghost use Rattle.join_history.specs.Limits.{context_limit};
ghost use Rattle.replay_window.specs.Parts.{StandsFor};
ghost use Rattle.replay_window.specs.Numbers.{IsJudged};
ghost use Rattle.replay_window.specs.declared.judged.Judged.TheVariants.{Fresh};
ghost use Rattle.registrar_state.specs.declared.contexts.Row.{Row as ARow};
ghost use Rattle.registrar_state.specs.Contexts.{Table, AreNumbers, IsRowOf, IsNewCheck, SetsEnd, Decides};

use crate::last::Last;
use arrayvec::ArrayVec;
use edge_traits::PledgeId;
use indexmap::IndexMap;
use replay_window::Window;
use std::alloc::{AllocError, Global};
use std::marker::Model;

/// What is kept of the last request of a context.
#[derive(Debug, Drop)]
pub(crate) struct LastRequest {
    pub(crate) number: u64,
    pub(crate) time: u64,
    /// What was granted or refused.
    pub(crate) told: Last,
    /// The inner answer, as it was made when the request was decided.
    pub(crate) answer: ArrayVec<u8, 512>,
}

/// What is kept of a context.
#[derive(Debug, Drop)]
pub(crate) struct Row {
    pub(crate) id: PledgeId,
    /// SHA-256 of the registrar's sender key.
    pub(crate) check: [u8; 32],
    /// The block end.
    pub(crate) end: u64,
    pub(crate) window: Window,
    pub(crate) last: Option<LastRequest>,
}

/// The contexts by their numbers, and their numbers by their checks. In contracts it is the rows, the room that is left,
/// and the memory that was reserved.
#[derive(Drop)]
pub(crate) struct Contexts {
    rows: Vec<Row>,
    numbers: IndexMap<[u8; 32], u32>,
    room: u32,
    ghost reserved: { vec_len rows + room ≤ vec_capacity rows },
    ghost spare: { room ≤ map_spare numbers },
}

impl Model for Contexts {
    ghost Value = { Table };

    ghost view = { λ c. record { rows = c.rows.items; room = c.room; reserved = vec_capacity c.rows } };

    ghost invariant = { λ c. AreNumbers c.rows.items c.numbers.entries };
}

impl Contexts {
    /// No context, and room for `contexts` of them.
    pub(crate) fn empty(alloc: Global, contexts: u32) -> Result<Contexts, AllocError>
        ensures rows { IfOk result (λ c. c.rows ≡ []) }
        ensures room { IfOk result (λ c. c.room ≡ contexts) }
    {
        let rows = Vec::with_capacity(alloc, contexts as usize)?;
        let numbers = IndexMap::with_capacity(alloc, contexts as usize)?;
        Ok(Contexts {
            rows,
            numbers,
            room: contexts,
        })
    }

    /// How many contexts there are.
    pub(crate) fn len(&self) -> usize
        ensures { result ≡ length self.now.rows }
    {
        self.rows.len()
    }

    /// What is kept of each context, by its number.
    pub(crate) fn rows(&self) -> &[Row]
        ensures { result.now ≡ self.now.rows }
    {
        self.rows.as_slice()
    }

    /// What is kept of a context.
    pub(crate) fn get(&self, context: u32) -> Option<&Row>
        ensures { MatchOption result (length self.now.rows ≤ context) (λ row. (context < length self.now.rows) × ((d : ARow) → get_or self.now.rows context d ≡ row.now)) }
    {
        self.rows.get(context as usize)
    }

    /// The context of this check.
    pub(crate) fn find(&self, check: &[u8; 32]) -> Option<u32>
        ensures { MatchOption result (IsNewCheck self.now.rows check.now) (IsRowOf self.now.rows check.now) }
    {
        self.numbers.get(check).copied()
    }

    /// Adds the next context.
    pub(crate) fn enroll(&mut self, id: PledgeId, check: [u8; 32])
        requires room { 0 < self.old.room }
        requires new_check { IsNewCheck self.old.rows check }
        requires few { length self.old.rows < context_limit }
        ensures rows { self.new.rows ≡ self.old.rows ++ (record { id = id; check = check; end = 0; window = None; last = None }) ∷ [] }
        ensures room { self.new.room + 1 ≡ self.old.room }
        ensures memory { self.new.reserved ≡ self.old.reserved }
    {
        self.add(Row {
            id,
            check,
            end: 0,
            window: Window::empty(),
            last: None,
        });
    }

    /// Adds the row of the next context.
    pub(crate) fn add(&mut self, row: Row)
        requires room { 0 < self.old.room }
        requires new_check { IsNewCheck self.old.rows row.check }
        requires few { length self.old.rows < context_limit }
        ensures rows { self.new.rows ≡ self.old.rows ++ row ∷ [] }
        ensures room { self.new.room + 1 ≡ self.old.room }
        ensures memory { self.new.reserved ≡ self.old.reserved }
    {
        let number = self.rows.len() as u32;
        add_number(&mut self.numbers, row.check, number);
        self.rows.push_reserved(row);
        self.room -= 1;
    }

    /// Sets the block end of a context.
    pub(crate) fn set_end(&mut self, context: u32, to: u64)
        requires { context < length self.old.rows }
        ensures set { (d : ARow) → SetsEnd to (get_or self.old.rows context d) (get_or self.new.rows context d) }
        ensures others { (c : ℕ) (d : ARow) → c ≢ context → get_or self.new.rows c d ≡ get_or self.old.rows c d }
        ensures room { self.new.room ≡ self.old.room }
        ensures memory { self.new.reserved ≡ self.old.reserved }
        ensures len { length self.new.rows ≡ length self.old.rows }
    {
        self.rows[context as usize].end = to;
    }

    /// Takes a decided request of a context.
    pub(crate) fn decide(&mut self, context: u32, last: LastRequest)
        requires enrolled { context < length self.old.rows }
        requires fresh { (d : ARow) → (numbers : List ℕ) × StandsFor numbers (get_or self.old.rows context d).window × IsJudged numbers last.number Fresh }
        ensures decided { (d : ARow) → Decides last.number last (get_or self.old.rows context d) (get_or self.new.rows context d) }
        ensures others { (c : ℕ) (d : ARow) → c ≢ context → get_or self.new.rows c d ≡ get_or self.old.rows c d }
        ensures room { self.new.room ≡ self.old.room }
        ensures memory { self.new.reserved ≡ self.old.reserved }
        ensures len { length self.new.rows ≡ length self.old.rows }
    {
        take_request(&mut self.rows[context as usize], last);
    }
}

/// Adds the number of a check, for which there is room.
fn add_number(numbers: &mut IndexMap<[u8; 32], u32>, check: [u8; 32], number: u32)
    requires { 0 < map_spare numbers.old }
    ensures set { lookup (bytes_eq check) numbers.new.entries ≡ Some number }
    ensures others { (q : List ℕ) → bytes_eq check q ≡ false → lookup (bytes_eq q) numbers.new.entries ≡ lookup (bytes_eq q) numbers.old.entries }
    ensures spare { map_spare numbers.old ≤ map_spare numbers.new + 1 }
{
    match numbers.insert(check, number) {
        Ok(_) => {}
        Err(_) => unreachable!(),
    }
}

/// Takes a decided request into its row.
fn take_request(row: &mut Row, last: LastRequest)
    requires { (numbers : List ℕ) × StandsFor numbers row.old.window × IsJudged numbers last.number Fresh }
    ensures { Decides last.number last row.old row.new }
{
    row.window.take(last.number);
    row.last = Some(last);
}
