//! Fields of a table by their names, required or optional.
ghost use Rattle.std.specs.Prelude.{◌≡◌, ◌≤◌, IfOk, IfSome, length, option_map};
ghost use Rattle.toml.specs.Data.{as_bool};
ghost use Rattle.toml.specs.View.{view, items_view};
ghost use Rattle.join_policy.specs.Reading.{Gives, required, optional, pledges_at};
ghost use Rattle.join_policy.specs.Values.{bytes_in, network_in, number_in, refused_in};

use crate::FieldName;
use crate::value::{bytes_in, network_in, number_in, refused_in, tables_in};
use arrayvec::ArrayVec;
use edge_traits::PledgeId;
use toml::Value;

pub fn required_bytes<const N: usize>(name: FieldName, table: &Value) -> Result<[u8; N], FieldName>
    ensures { result ≡ required name (bytes_in N) (view table.now) }
{
    match table.get(name.name()) {
        None => Err(name),
        Some(value) => bytes_in::<N>(value).ok_or(name),
    }
}

pub fn optional_bytes<const N: usize>(
    name: FieldName,
    table: &Value,
) -> Result<Option<[u8; N]>, FieldName>
    ensures { result ≡ optional name (bytes_in N) (view table.now) }
{
    match table.get(name.name()) {
        None => Ok(None),
        Some(value) => match bytes_in::<N>(value) {
            None => Err(name),
            Some(bytes) => Ok(Some(bytes)),
        },
    }
}

pub fn required_network(name: FieldName, table: &Value) -> Result<ArrayVec<u8, 16>, FieldName>
    ensures exact { Gives (λ v. v.items) result (required name network_in (view table.now)) }
    ensures sized { IfOk result (λ v. (1 ≤ length v.items) × (length v.items ≤ 16)) }
{
    match table.get(name.name()) {
        None => Err(name),
        Some(value) => match network_in(value) {
            None => Err(name),
            Some(network) => Ok(network),
        },
    }
}

pub fn required_number(
    name: FieldName,
    low: u32,
    high: u32,
    table: &Value,
) -> Result<u32, FieldName>
    ensures exact { result ≡ required name (number_in low high) (view table.now) }
    ensures bounded { IfOk result (λ n. (low ≤ n) × (n ≤ high)) }
{
    match table.get(name.name()) {
        None => Err(name),
        Some(value) => match number_in(low, high, value) {
            None => Err(name),
            Some(number) => Ok(number),
        },
    }
}

pub fn optional_number(
    name: FieldName,
    low: u32,
    high: u32,
    table: &Value,
) -> Result<Option<u32>, FieldName>
    ensures exact { result ≡ optional name (number_in low high) (view table.now) }
    ensures bounded { IfOk result (λ o. IfSome o (λ n. (low ≤ n) × (n ≤ high))) }
{
    match table.get(name.name()) {
        None => Ok(None),
        Some(value) => match number_in(low, high, value) {
            None => Err(name),
            Some(number) => Ok(Some(number)),
        },
    }
}

pub fn optional_flag(name: FieldName, table: &Value) -> Result<Option<bool>, FieldName>
    ensures { result ≡ optional name as_bool (view table.now) }
{
    match table.get(name.name()) {
        None => Ok(None),
        Some(value) => match value.as_bool() {
            None => Err(name),
            Some(flag) => Ok(Some(flag)),
        },
    }
}

/// The refused pledges, if the document has the field.
pub fn optional_refused(
    name: FieldName,
    table: &Value,
) -> Result<Option<ArrayVec<PledgeId, 16>>, FieldName>
    ensures { Gives (option_map (λ v. v.items)) result (optional name refused_in (view table.now)) }
{
    match table.get(name.name()) {
        None => Ok(None),
        Some(value) => match refused_in(value) {
            None => Err(name),
            Some(ids) => Ok(Some(ids)),
        },
    }
}

/// The rows, each of which is a table.
pub fn read_pledges(table: &Value) -> Result<&[Value], FieldName>
    ensures { Gives (λ v. items_view v.now) result (pledges_at (view table.now)) }
{
    match table.get(FieldName::Pledge.name()) {
        None => Ok(&[]),
        Some(value) => match tables_in(value) {
            None => Err(FieldName::Pledge),
            Some(rows) => Ok(rows),
        },
    }
}
