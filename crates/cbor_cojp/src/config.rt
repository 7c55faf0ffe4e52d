//! The Configuration (RFC 9031, 8.4.2).
ghost use Rattle.std.specs.Prelude.{◌≡◌, ◌≤◌, [], length, IfOk, Ok, unwrap_or, option_map};
ghost use Rattle.cbor_item.specs.Reading.{skip_at};
ghost use Rattle.cbor_cojp.specs.Fault.{form, Reads};
ghost use Rattle.cbor_cojp.specs.Grammar.{times_at};
ghost use Rattle.cbor_cojp.specs.Config.{Keys, Address, Jrc, Refused, Rate, Other, fields_view, no_fields, address_at, hours_at, short_at, refused_at, all_refused_at, config_value_at, config_field_at, config_at, IsConfig};

use crate::fault::CojpFault;
use crate::key::{LinkKey, read_key_set};
use crate::object::{end_object, read_label, read_map};
use crate::value::{bounded_array, bounded_uint, sized};
use arrayvec::ArrayVec;
use cbor_item::Reader;

/// A short address and its lease.
#[derive(Clone, Copy, Debug, PartialEq, Eq)]
pub struct Short {
    /// 0x0001 to 0xFFFD.
    pub address: u16,
    /// The lease time in hours. Without one the lease has no end.
    pub hours: Option<u32>,
}

/// What the registrar tells a pledge.
#[derive(Clone, Debug, PartialEq, Eq, Drop)]
pub struct Configuration {
    /// The link-layer keys.
    pub keys: ArrayVec<LinkKey, 8>,
    pub short: Option<Short>,
    /// The IPv6 address of the registrar.
    pub jrc: Option<[u8; 16]>,
    /// The identifiers of pledges that are to be refused.
    pub refused: ArrayVec<[u8; 8], 16>,
    /// The join rate, in bytes a second.
    pub rate: Option<u32>,
}

/// What the fields said so far.
#[derive(Drop)]
struct Fields {
    keys: Option<ArrayVec<LinkKey, 8>>,
    short: Option<Short>,
    jrc: Option<[u8; 16]>,
    refused: Option<ArrayVec<[u8; 8], 16>>,
    rate: Option<u32>,
}

#[tactic(auto, unfolding(crate::specs::Config::address_at))]
fn read_address(reader: &mut Reader<'_>) -> Result<u16, CojpFault>
    ensures { Reads (λ n. n) reader.old reader.new result (address_at reader.old.end reader.old.left) }
{
    let address = u16::from_be_bytes(sized(reader, 3)?);
    if address >= 1 && address <= 0xfffd {
        Ok(address)
    } else {
        Err(CojpFault::Malformed(3))
    }
}

#[tactic(auto, unfolding(crate::specs::Config::hours_at))]
fn read_hours(reader: &mut Reader<'_>, items: u64) -> Result<Option<u32>, CojpFault>
    ensures { Reads (λ o. o) reader.old reader.new result (hours_at items reader.old.end reader.old.left) }
{
    if items == 2 {
        let hours = bounded_uint(reader, 3, 0, 0xffff_ffff)?;
        Ok(Some(hours as u32))
    } else {
        Ok(None)
    }
}

#[tactic(auto, unfolding(crate::specs::Config::short_at))]
fn read_short(reader: &mut Reader<'_>) -> Result<Short, CojpFault>
    ensures { Reads (λ s. s) reader.old reader.new result (short_at reader.old.end reader.old.left) }
{
    let items = bounded_array(reader, 3, 1, 2)?;
    let address = read_address(reader)?;
    let hours = read_hours(reader, items)?;
    Ok(Short { address, hours })
}

fn read_ids(reader: &mut Reader<'_>, count: u64) -> Result<ArrayVec<[u8; 8], 16>, CojpFault>
    requires { count ≤ 16 }
    ensures { Reads (λ v. v.items) reader.old reader.new result (times_at refused_at count [] reader.old.end reader.old.left) }
{
    let mut ids = ArrayVec::new();
    for _ in 0..count {
        let id: [u8; 8] = sized(reader, 6)?;
        ids.push(id);
    }
    Ok(ids)
}

#[tactic(auto, unfolding(crate::specs::Config::all_refused_at))]
fn read_refused(reader: &mut Reader<'_>) -> Result<ArrayVec<[u8; 8], 16>, CojpFault>
    ensures { Reads (λ v. v.items) reader.old reader.new result (all_refused_at reader.old.end reader.old.left) }
{
    let count = bounded_array(reader, 6, 0, 16)?;
    read_ids(reader, count)
}

fn set_keys(reader: &mut Reader<'_>, fields: &mut Fields) -> Result<(), CojpFault>
    ensures { Reads (λ _. fields_view fields.new) reader.old reader.new result (config_value_at Keys (fields_view fields.old) reader.old.end reader.old.left) }
{
    if fields.keys.is_some() {
        return Err(CojpFault::Repeated(2));
    }
    fields.keys = Some(read_key_set(reader)?);
    Ok(())
}

fn set_short(reader: &mut Reader<'_>, fields: &mut Fields) -> Result<(), CojpFault>
    ensures { Reads (λ _. fields_view fields.new) reader.old reader.new result (config_value_at Address (fields_view fields.old) reader.old.end reader.old.left) }
{
    if fields.short.is_some() {
        return Err(CojpFault::Repeated(3));
    }
    fields.short = Some(read_short(reader)?);
    Ok(())
}

fn set_jrc(reader: &mut Reader<'_>, fields: &mut Fields) -> Result<(), CojpFault>
    ensures { Reads (λ _. fields_view fields.new) reader.old reader.new result (config_value_at Jrc (fields_view fields.old) reader.old.end reader.old.left) }
{
    if fields.jrc.is_some() {
        return Err(CojpFault::Repeated(4));
    }
    fields.jrc = Some(sized(reader, 4)?);
    Ok(())
}

fn set_refused(reader: &mut Reader<'_>, fields: &mut Fields) -> Result<(), CojpFault>
    ensures { Reads (λ _. fields_view fields.new) reader.old reader.new result (config_value_at Refused (fields_view fields.old) reader.old.end reader.old.left) }
{
    if fields.refused.is_some() {
        return Err(CojpFault::Repeated(6));
    }
    fields.refused = Some(read_refused(reader)?);
    Ok(())
}

fn set_rate(reader: &mut Reader<'_>, fields: &mut Fields) -> Result<(), CojpFault>
    ensures { Reads (λ _. fields_view fields.new) reader.old reader.new result (config_value_at Rate (fields_view fields.old) reader.old.end reader.old.left) }
{
    if fields.rate.is_some() {
        return Err(CojpFault::Repeated(7));
    }
    fields.rate = Some(bounded_uint(reader, 7, 0, 0xffff_ffff)? as u32);
    Ok(())
}

fn skip_other(reader: &mut Reader<'_>) -> Result<(), CojpFault>
    ensures { Reads (λ _. tt) reader.old reader.new result (form (skip_at reader.old.end reader.old.left)) }
{
    reader.skip().map_err(CojpFault::Form)
}

#[tactic(auto, unfolding(crate::specs::Config::config_field_at))]
fn read_field(reader: &mut Reader<'_>, fields: &mut Fields) -> Result<(), CojpFault>
    ensures { Reads (λ _. fields_view fields.new) reader.old reader.new result (config_field_at (fields_view fields.old) reader.old.end reader.old.left) }
{
    match read_label(reader)? {
        2 => set_keys(reader, fields),
        3 => set_short(reader, fields),
        4 => set_jrc(reader, fields),
        6 => set_refused(reader, fields),
        7 => set_rate(reader, fields),
        _ => skip_other(reader),
    }
}

fn read_fields(reader: &mut Reader<'_>, count: u64) -> Result<Fields, CojpFault>
    ensures { Reads fields_view reader.old reader.new result (times_at config_field_at count no_fields reader.old.end reader.old.left) }
{
    let mut fields = Fields {
        keys: None,
        short: None,
        jrc: None,
        refused: None,
        rate: None,
    };
    for _ in 0..count {
        read_field(reader, &mut fields)?;
    }
    Ok(fields)
}

fn or_empty<T: Default + Drop, const N: usize>(items: Option<ArrayVec<T, N>>) -> ArrayVec<T, N>
    ensures { result.items ≡ unwrap_or (option_map (λ v. v.items) items) [] }
{
    match items {
        Some(items) => items,
        None => ArrayVec::new(),
    }
}

#[tactic(auto, unfolding(crate::specs::Config::config_at, crate::specs::Grammar::object_at))]
fn read_configuration(bytes: &[u8]) -> Result<Configuration, CojpFault>
    ensures { result ≡ config_at (length bytes.now) bytes.now }
{
    let mut reader = Reader::new(bytes);
    let count = read_map(&mut reader)?;
    let fields = read_fields(&mut reader, count)?;
    end_object(&reader)?;
    Ok(Configuration {
        keys: or_empty(fields.keys),
        short: fields.short,
        jrc: fields.jrc,
        refused: or_empty(fields.refused),
        rate: fields.rate,
    })
}

/// Reads a Configuration, which is all of the bytes.
pub fn read_config(bytes: &[u8]) -> Result<Configuration, CojpFault>
    // What is read is in the grammar.
    ensures found { IfOk result (IsConfig bytes.now) }
    // What is in the grammar is read.
    ensures only { (config : Configuration) → IsConfig bytes.now config → result ≡ Ok config }
    // A refusal is the first fault from the left.
    ensures exact { result ≡ config_at (length bytes.now) bytes.now }
{
    read_configuration(bytes)
}
