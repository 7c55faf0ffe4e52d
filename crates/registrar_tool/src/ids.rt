//! The identifiers of a script, and the index of their places.
ghost use Rattle.std.specs.Prelude.{◌≡◌, ◌≢◌, ◌∷◌, ◌++◌, [], List, AllPairs, Contains, IfSome, IfNone, OnOk, OnErr};
ghost use Rattle.edge_traits.specs.declared.names.PledgeId.{PledgeId as Id};
ghost use Rattle.registrar_book.specs.Index.{IsIndexOf};
ghost use Rattle.registrar_tool.specs.Opened.{AddsOnce, IsListedAt};

use edge_traits::PledgeId;
use indexmap::IndexMap;
use std::alloc::{AllocError, Global};
use std::marker::Model;

/// Identifiers in the order in which they were added, and the place of each. In contracts it is the identifiers.
#[derive(Drop)]
pub(crate) struct Ids {
    ids: Vec<PledgeId>,
    places: IndexMap<[u8; 8], usize>,
}

impl Model for Ids {
    ghost Value = { List Id };

    ghost view = { λ known. known.ids.items };

    ghost invariant = { λ known. IsIndexOf (λ (id : Id). id.0) known.ids.items known.places.entries };
}

impl Ids {
    /// No identifiers.
    pub(crate) fn new(alloc: Global) -> Ids
        ensures { result ≡ [] }
    {
        Ids {
            ids: Vec::new(alloc),
            places: IndexMap::new(alloc),
        }
    }

    /// The identifiers in order.
    pub(crate) fn all(&self) -> &[PledgeId]
        ensures { result.now ≡ self.now }
    {
        &self.ids
    }

    /// The place of an identifier.
    pub(crate) fn find(&self, id: PledgeId) -> Option<usize>
        ensures found { IfSome result (IsListedAt self.now id) }
        ensures none { IfNone result (Contains self.now id → ⊥) }
    {
        self.places.get(&id.0).copied()
    }

    /// Adds the identifier at the end, if it isn't there.
    pub(crate) fn add_once(&mut self, id: PledgeId) -> Result<(), AllocError>
        ensures added { OnOk result (AddsOnce self.old id self.new) }
        ensures err { OnErr result (self.new ≡ self.old) }
        ensures distinct { AllPairs (λ p q. p ≢ q) self.old → AllPairs (λ p q. p ≢ q) self.new }
    {
        match self.find(id) {
            Some(_) => Ok(()),
            None => self.add(id),
        }
    }

    // Adds the identifier at the end.
    fn add(&mut self, id: PledgeId) -> Result<(), AllocError>
        ensures added { OnOk result (self.new ≡ self.old ++ id ∷ []) }
        ensures err { OnErr result (self.new ≡ self.old) }
    {
        self.ids.reserve(1)?;
        self.places.insert(id.0, self.ids.len())?;
        self.ids.push_reserved(id);
        Ok(())
    }
}
