//! The rows that are known, and the index of their places by their checks.
ghost use Rattle.std.specs.Prelude.{◌≡◌, ◌<◌, ◌∷◌, ◌++◌, [], ℕ, List, length, get_or, IfSome, IfNone, OnOk, OnErr};
ghost use Rattle.edge_traits.specs.declared.names.PledgeId.{PledgeId};
ghost use Rattle.registrar_book.specs.Known.{Knows};
ghost use Rattle.registrar_book.specs.Index.{IsIndexOf};

use edge_traits::PledgeId;
use indexmap::IndexMap;
use std::alloc::{AllocError, Global};
use std::marker::Model;

/// A pledge, and the check of its key.
pub type Row = (PledgeId, [u8; 32]);

/// Rows in the order in which they were added, and a place for each check that one of them has. In contracts it is the rows.
#[derive(Drop)]
pub struct KnownRows {
    rows: Vec<Row>,
    places: IndexMap<[u8; 32], usize>,
}

impl Model for KnownRows {
    ghost Value = { List (PledgeId × List ℕ) };

    ghost view = { λ known. known.rows.items };

    ghost invariant = { λ known. IsIndexOf (λ (row : PledgeId × List ℕ). row.1) known.rows.items known.places.entries };
}

impl KnownRows {
    /// No rows.
    pub fn new(alloc: Global) -> KnownRows
        ensures { result ≡ [] }
    {
        KnownRows {
            rows: Vec::new(alloc),
            places: IndexMap::new(alloc),
        }
    }

    /// The rows in order.
    pub fn rows(&self) -> &[Row]
        ensures { result.now ≡ self.now }
    {
        &self.rows
    }

    /// The place of a row with this check.
    pub fn find(&self, check: &[u8; 32]) -> Option<usize>
        ensures found { IfSome result (λ place. (place < length self.now)
            × ((d : PledgeId × List ℕ) → (get_or self.now place d).1 ≡ check.now)) }
        ensures none { IfNone result (Knows self.now check.now → ⊥) }
    {
        self.places.get(check).copied()
    }

    /// Adds a row at the end.
    pub fn add(&mut self, row: Row) -> Result<(), AllocError>
        ensures added { OnOk result (self.new ≡ self.old ++ row ∷ []) }
        ensures err { OnErr result (self.new ≡ self.old) }
    {
        self.rows.reserve(1)?;
        self.places.insert(row.1, self.rows.len())?;
        self.rows.push_reserved(row);
        Ok(())
    }
}
