//! Rows: the pledges that an inventory names.
ghost use Rattle.std.specs.Prelude.{◌≡◌, ◌≤◌, length, Some, IfOk};
ghost use Rattle.hex.specs.Hex.{encode_lower};
ghost use Rattle.toml.specs.View.{view, items_view};
ghost use Rattle.join_policy.specs.Reading.{GivesInMemory, row_at, rows_at};
ghost use Rattle.join_policy.specs.Shown.{row_text};

use crate::lookup::{optional_flag, required_bytes};
use crate::{FieldName, InventoryFault};
use edge_traits::PledgeId;
use std::alloc::Global;
use std::{fmt, str};
use toml::Value;

/// A pledge, the key that it shares with the registrar, and what it may do.
#[derive(Clone, Copy, PartialEq, Eq)]
pub struct Row {
    pub id: PledgeId,
    pub psk: [u8; 16],
    /// Whether the pledge may join.
    pub allow: bool,
    /// Whether the pledge may be a 6LBR, a border router of the network.
    pub sixlbr: bool,
}

/// An identifier in 16 digits.
#[derive(Clone, Copy)]
struct Digits(PledgeId);

impl fmt::Display for Digits {
    ghost output = { λ digits. Some (encode_lower digits.0.0) };

    fn fmt<W: fmt::Write>(&self, f: &mut fmt::Formatter<W>) -> fmt::Result {
        let id: &[u8] = &self.0.0;
        let mut text = [0; 16];
        hex::encode_to_slice(id, &mut text).unwrap();
        f.write_str(str::from_utf8(&text).map_err(|_| fmt::Error)?)
    }
}

/// Shows no PSK.
impl fmt::Debug for Row {
    ghost debug_output = { λ row. Some (row_text row.id row.allow row.sixlbr) };

    fn fmt<W: fmt::Write>(&self, f: &mut fmt::Formatter<W>) -> fmt::Result {
        let id = Digits(self.id);
        let allow = self.allow;
        let sixlbr = self.sixlbr;
        write!(f, "Row {{ id: {id}, allow: {allow}, sixlbr: {sixlbr} }}")
    }
}

#[tactic(auto, unfolding(crate::specs::Reading::row_at))]
fn read_row(value: &Value) -> Result<Row, FieldName>
    ensures { result ≡ row_at (view value.now) }
{
    let id = required_bytes::<8>(FieldName::Id, value)?;
    let psk = required_bytes::<16>(FieldName::Psk, value)?;
    let allow = optional_flag(FieldName::Allow, value)?;
    let sixlbr = optional_flag(FieldName::Sixlbr, value)?;
    Ok(Row {
        id: PledgeId(id),
        psk,
        allow: allow.unwrap_or(true),
        sixlbr: sixlbr.unwrap_or(false),
    })
}

/// Reads the rows of an array of tables.
pub fn read_rows(alloc: Global, values: &[Value]) -> Result<Vec<Row>, InventoryFault>
    requires { length values.now ≤ 16384 }
    ensures exact { GivesInMemory (λ v. v.items) result (rows_at 1 (items_view values.now)) }
    ensures few { IfOk result (λ v. length v.items ≤ 16384) }
{
    let Ok(mut rows) = Vec::with_capacity(alloc, values.len()) else {
        return Err(InventoryFault::NoMemory);
    };
    let mut rest = values;
    while let Some((first, after)) = rest.split_first() {
        let number = rows.len() as u32 + 1;
        match read_row(first) {
            Err(name) => return Err(InventoryFault::Field(number, name)),
            Ok(row) => {
                if rows.push(row).is_err() {
                    return Err(InventoryFault::NoMemory);
                }
            }
        }
        rest = after;
    }
    Ok(rows)
}
