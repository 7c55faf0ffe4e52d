//! Values of fields. A value of another type, or out of range, gives nothing.
ghost use Rattle.std.specs.Prelude.{◌≡◌, ◌≤◌, length, option_map, IfSome};
ghost use Rattle.toml.specs.View.{view, items_view};
ghost use Rattle.join_policy.specs.Values.{bytes_in, network_from, network_in, within, number_in, id_in, ids_of, at_most_16, refused_in, are_tables, tables_in};

use arrayvec::ArrayVec;
use edge_traits::PledgeId;
use hex::FromHex;
use toml::Value;

/// Hex text of `N` bytes.
pub fn bytes_in<const N: usize>(value: &Value) -> Option<[u8; N]>
    ensures { result ≡ bytes_in N (view value.now) }
{
    match value.as_str() {
        None => None,
        Some(text) => <[u8; N]>::from_hex(text).ok(),
    }
}

fn network_from(text: &str) -> Option<ArrayVec<u8, 16>>
    ensures exact { option_map (λ v. v.items) result ≡ network_from text.now }
    ensures sized { IfSome result (λ v. (1 ≤ length v.items) × (length v.items ≤ 16)) }
{
    let len = text.len() / 2;
    if len == 0 || 16 < len {
        return None;
    }
    let mut bytes = [0; 16];
    match hex::decode_to_slice(text, &mut bytes[..len]) {
        Err(_) => None,
        Ok(()) => ArrayVec::try_from(&bytes[..len]).ok(),
    }
}

/// Hex text of 1 to 16 bytes.
pub fn network_in(value: &Value) -> Option<ArrayVec<u8, 16>>
    ensures exact { option_map (λ v. v.items) result ≡ network_in (view value.now) }
    ensures sized { IfSome result (λ v. (1 ≤ length v.items) × (length v.items ≤ 16)) }
{
    match value.as_str() {
        None => None,
        Some(text) => network_from(text),
    }
}

fn within(low: u32, high: u32, number: i64) -> Option<u32>
    ensures exact { result ≡ within low high number }
    ensures bounded { IfSome result (λ n. (low ≤ n) × (n ≤ high)) }
{
    match u32::try_from(number) {
        Err(_) => None,
        Ok(n) => { if low <= n && n <= high { Some(n) } else { None } }
    }
}

/// An integer from `low` to `high`.
pub fn number_in(low: u32, high: u32, value: &Value) -> Option<u32>
    ensures exact { result ≡ number_in low high (view value.now) }
    ensures bounded { IfSome result (λ n. (low ≤ n) × (n ≤ high)) }
{
    match value.as_integer() {
        None => None,
        Some(number) => within(low, high, number),
    }
}

fn id_in(value: &Value) -> Option<PledgeId>
    ensures { result ≡ id_in (view value.now) }
{
    match bytes_in::<8>(value) {
        None => None,
        Some(bytes) => Some(PledgeId(bytes)),
    }
}

fn ids_of(values: &[Value]) -> Option<ArrayVec<PledgeId, 16>>
    requires { length values.now ≤ 16 }
    ensures { option_map (λ v. v.items) result ≡ ids_of (items_view values.now) }
{
    let mut ids = ArrayVec::new();
    let mut rest = values;
    while let Some((first, after)) = rest.split_first() {
        match id_in(first) {
            None => return None,
            Some(id) => {
                ids.push(id);
                rest = after;
            }
        }
    }
    Some(ids)
}

#[tactic(auto, using(crate::proofs::Lists::count_of_view))]
fn at_most_16(values: &[Value]) -> Option<ArrayVec<PledgeId, 16>>
    ensures { option_map (λ v. v.items) result ≡ at_most_16 (items_view values.now) }
{
    if 16 < values.len() {
        return None;
    }
    ids_of(values)
}

/// An array of at most 16 identifiers.
pub fn refused_in(value: &Value) -> Option<ArrayVec<PledgeId, 16>>
    ensures { option_map (λ v. v.items) result ≡ refused_in (view value.now) }
{
    match value.as_array() {
        None => None,
        Some(values) => at_most_16(values.as_slice()),
    }
}

fn are_tables(values: &[Value]) -> bool
    ensures { result ≡ are_tables (items_view values.now) }
{
    let mut rest = values;
    while let Some((first, after)) = rest.split_first() {
        if !first.is_table() {
            return false;
        }
        rest = after;
    }
    true
}

/// An array of tables.
pub fn tables_in(value: &Value) -> Option<&[Value]>
    ensures { option_map (λ v. items_view v.now) result ≡ tables_in (view value.now) }
{
    match value.as_array() {
        None => None,
        Some(values) => {
            if are_tables(values.as_slice()) {
                Some(values.as_slice())
            } else {
                None
            }
        }
    }
}
