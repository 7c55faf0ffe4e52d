//! The inventory.
ghost use Rattle.std.specs.Prelude.{◌≡◌, ◌≢◌, ◌<◌, ◌≤◌, ◌⊎◌, length, Some, IsSome, IfOk, IfErr, Err, Ok, MatchOption, slice_get, option_map, codes};
ghost use Rattle.join_policy.specs.declared.fault.InventoryFault.TheVariants.{TooLong, NoMemory};
ghost use Rattle.toml.specs.View.{view, items_view};
ghost use Rattle.join_policy.specs.Reading.{GivesInMemory, within_row, max_bytes, all_rows_at, document_at, policy_at, inventory_at};
ghost use Rattle.std.specs.List.{All};
ghost use Rattle.join_policy.specs.Rows.{row_of, place_of, HasIdAt, AreDistinct};
ghost use Rattle.join_policy.specs.Sound.{IsInRange, IsSound};
ghost use Rattle.join_policy.specs.Verdicts.{verdict_on};

use crate::head::{Head, read_head};
use crate::index::{Index, index_of};
use crate::lookup::read_pledges;
use crate::row::read_rows;
use crate::verdict::{is_other, is_refused};
use crate::{FieldName, InventoryFault, Row, Rule, Verdict};
use edge_traits::PledgeId;
use journal_text::Settings;
use std::alloc::Global;
use std::fmt;
use std::marker::Model;
use toml::Value;

/// The greatest length of an inventory in bytes.
const MAX_BYTES: usize = 4 * 1024 * 1024;

/// How many rows an inventory may have.
const MAX_ROWS: usize = 16384;

/// Who may join, and under which settings.
#[derive(Drop)]
pub struct Inventory {
    head: Head,
    rows: Vec<Row>,
    index: Index,
}

impl Model for Inventory {
    ghost use Rattle.join_policy.specs.Policy.{Policy};
    ghost use Rattle.join_policy.specs.Index.{IsIndexOf};
    ghost use Rattle.join_policy.specs.Reading.{policy_of};
    ghost use Rattle.join_policy.specs.Sound.{IsSound};

    ghost Value = { Policy };

    ghost view = { λ i. policy_of i.head i.rows.items };

    ghost invariant = { λ i. IsIndexOf i.index i.rows.items × IsSound (policy_of i.head i.rows.items) };
}

/// Shows nothing of the rows.
impl fmt::Debug for Inventory {
    ghost debug_output = { λ _. Some (codes "Inventory { .. }") };

    fn fmt<W: fmt::Write>(&self, f: &mut fmt::Formatter<W>) -> fmt::Result {
        f.write_str("Inventory { .. }")
    }
}

#[tactic(auto, unfolding(crate::specs::Reading::document_at))]
fn parse(alloc: Global, bytes: &[u8]) -> Result<Value, InventoryFault>
    ensures { GivesInMemory view result (document_at bytes.now) }
{
    match toml::table_from_slice(alloc, bytes) {
        Ok(table) => Ok(Value::from(table)),
        Err(e) => {
            if e.is_memory() {
                Err(InventoryFault::NoMemory)
            } else {
                Err(InventoryFault::Toml)
            }
        }
    }
}

#[tactic(auto, using(crate::proofs::Lists::count_of_view), unfolding(crate::specs::Reading::all_rows_at))]
fn read_all_rows(alloc: Global, values: &[Value]) -> Result<Vec<Row>, InventoryFault>
    ensures exact { GivesInMemory (λ v. v.items) result (all_rows_at (items_view values.now)) }
    ensures few { IfOk result (λ v. length v.items ≤ 16384) }
{
    if MAX_ROWS < values.len() {
        return Err(InventoryFault::TooMany(values.len()));
    }
    read_rows(alloc, values)
}

/// A fault of the document's own fields.
fn in_document<T>(read: Result<T, FieldName>) -> Result<T, InventoryFault>
    ensures { result ≡ within_row 0 read }
{
    match read {
        Ok(value) => Ok(value),
        Err(name) => Err(InventoryFault::Field(0, name)),
    }
}

fn inventory_of(alloc: Global, document: &Value) -> Result<Inventory, InventoryFault>
    ensures exact { GivesInMemory (λ i. i) result (policy_at (view document.now)) }
    ensures sound { IfOk result IsSound }
{
    let head = in_document(read_head(document))?;
    let values = in_document(read_pledges(document))?;
    let rows = read_all_rows(alloc, values)?;
    let index = index_of(alloc, rows.as_slice())?;
    Ok(Inventory { head, rows, index })
}

impl Inventory {
    /// Reads an inventory, a TOML document of at most 4 MiB.
    #[tactic(auto, unfolding(crate::specs::Reading::inventory_at))]
    pub fn read(alloc: Global, bytes: &[u8]) -> Result<Inventory, InventoryFault>
        // What is read is what the parsed table says, with defaults.
        ensures ok { IfOk result (λ policy. inventory_at bytes.now ≡ Ok policy) }
        // A refusal is the first fault.
        ensures err { IfErr result (λ e. (e ≡ NoMemory) ⊎ (inventory_at bytes.now ≡ Err e)) }
        ensures sound { IfOk result IsSound }
        // This refusal takes no memory.
        ensures too_long { max_bytes < length bytes.now → result ≡ Err TooLong }
    {
        if MAX_BYTES < bytes.len() {
            return Err(InventoryFault::TooLong);
        }
        let document = parse(alloc, bytes)?;
        inventory_of(alloc, &document)
    }

    fn place_of(&self, id: PledgeId) -> Option<u32>
        ensures { result ≡ place_of id self.now.rows }
    {
        self.index.get(&id.0).copied()
    }

    /// The place of the row with this identifier.
    pub fn find(&self, id: PledgeId) -> Option<u32>
        ensures exact { result ≡ place_of id self.now.rows }
        // No row has it, or the one at this place.
        ensures cases { MatchOption result (All (λ row. row.id ≢ id) self.now.rows) (HasIdAt id self.now.rows) }
    {
        self.place_of(id)
    }

    /// How many rows there are, at most 16,384.
    pub fn rows(&self) -> u32
        ensures count { result ≡ length self.now.rows }
        ensures few { result ≤ 16384 }
        ensures distinct { AreDistinct self.now.rows }
    {
        self.rows.len() as u32
    }

    /// The row at a place, in the document's order.
    pub fn row(&self, at: u32) -> Row
        requires { at < length self.now.rows }
        ensures { slice_get self.now.rows at ≡ Some result }
    {
        self.rows[at as usize]
    }

    /// How many link-layer keys a key set has.
    pub fn keys(&self) -> u8
        ensures value { result ≡ self.now.keys }
        ensures some { 1 ≤ result }
        ensures most { result ≤ 4 }
    {
        self.head.keys
    }

    /// The identifier of the network.
    pub fn network(&self) -> &[u8]
        ensures value { result.now ≡ self.now.network }
        ensures some { 1 ≤ length result.now }
        ensures most { length result.now ≤ 16 }
    {
        self.head.network.as_slice()
    }

    /// The first 14 bytes of the address of a node; its short address follows.
    pub fn node_host(&self) -> [u8; 14]
        ensures { result ≡ self.now.node_host }
    {
        self.head.node_host
    }

    /// The settings, as an entry of the journal has them.
    pub fn settings(&self) -> Settings
        ensures value { result ≡ self.now.settings }
        ensures in_range { IsInRange result }
    {
        self.head.settings.clone().unwrap()
    }

    #[tactic(auto, unfolding(crate::specs::Verdicts::verdict_on))]
    fn judge(&self, row: &Row, role: u64, network: Option<&[u8]>) -> Verdict
        ensures { result ≡ verdict_on self.now row.now role (option_map (λ v. v.now) network.entry) }
    {
        if !row.allow {
            return Verdict::Denied(Rule::Barred);
        }
        if role == 1 && !row.sixlbr {
            return Verdict::Denied(Rule::NotSixLbr);
        }
        if is_other(self.network(), network) {
            return Verdict::Denied(Rule::OtherNetwork);
        }
        if is_refused(row.id, self.head.settings.refused.as_slice()) {
            return Verdict::Denied(Rule::Refused);
        }
        Verdict::Allowed
    }

    /// What the rules say of a request of this pledge, in a role (1 is a 6LBR) and for a network where it names one
    /// (RFC 9031, 8.4.1).
    pub fn verdict(&self, id: PledgeId, role: u64, network: Option<&[u8]>) -> Verdict
        requires { IsSome (place_of id self.now.rows) }
        ensures { option_map (λ row. verdict_on self.now row role (option_map (λ v. v.now) network.entry)) (row_of id self.now.rows) ≡ Some result }
    {
        match self.find(id) {
            None => unreachable!(),
            Some(at) => self.judge(&self.row(at), role, network),
        }
    }
}
