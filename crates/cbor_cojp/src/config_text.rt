//! Writing a Configuration.
ghost use Rattle.std.specs.Prelude.{◌≡◌, ◌++◌, ◌≤◌, All, IfSome, length, is_some, option_map, if◌then◌else◌};
ghost use Rattle.std.specs.List.{flat_map, sum_by};
ghost use Rattle.std.specs.Int.{w16, to_be_bytes};
ghost use Rattle.cbor_cojp.specs.Config.{max32, IsConfig};
ghost use Rattle.cbor_cojp.specs.Spelling.{Puts, number, string, array, map, key_items, keys_text, hours_text, short_text, jrc_text, refused_text, rate_text, if_any, if_some, config_count, config_fields, config_text, most_config, IsWritable};

use crate::config::{Configuration, Short};
use crate::key::LinkKey;
use crate::key_text::{items_of, put_keys};
use crate::write::{copy_out, put_array, put_bytes, put_map, put_number, put_string, put_uint};
use arrayvec::ArrayVec;
use cbor_item::{Full, Writer};

fn put_hours(writer: &mut Writer<512>, hours: Option<u32>) -> Result<(), Full>
    ensures { Puts (hours_text hours) writer.old writer.new result }
{
    match hours {
        None => Ok(()),
        Some(hours) => put_number(writer, u64::from(hours)),
    }
}

fn put_address_and_hours(writer: &mut Writer<512>, short: Short) -> Result<(), Full>
    ensures { Puts (string (to_be_bytes w16 short.address) ++ hours_text short.hours) writer.old writer.new result }
{
    put_string(writer, &short.address.to_be_bytes())?;
    put_hours(writer, short.hours)
}

fn put_lease(writer: &mut Writer<512>, short: Short) -> Result<(), Full>
    ensures { Puts (array (if is_some short.hours then 2 else 1) ++ (string (to_be_bytes w16 short.address) ++ hours_text short.hours)) writer.old writer.new result }
{
    put_array(writer, if short.hours.is_some() { 2 } else { 1 })?;
    put_address_and_hours(writer, short)
}

fn put_short_field(writer: &mut Writer<512>, short: Short) -> Result<(), Full>
    ensures { Puts (number 3 ++ (array (if is_some short.hours then 2 else 1) ++ (string (to_be_bytes w16 short.address) ++ hours_text short.hours))) writer.old writer.new result }
{
    put_number(writer, 3)?;
    put_lease(writer, short)
}

fn put_short(writer: &mut Writer<512>, short: Option<Short>) -> Result<(), Full>
    ensures { Puts (short_text short) writer.old writer.new result }
{
    match short {
        None => Ok(()),
        Some(short) => put_short_field(writer, short),
    }
}

fn put_jrc(writer: &mut Writer<512>, jrc: Option<[u8; 16]>) -> Result<(), Full>
    ensures { Puts (jrc_text jrc) writer.old writer.new result }
{
    match jrc {
        None => Ok(()),
        Some(jrc) => put_bytes(writer, 4, &jrc),
    }
}

fn put_each_id(writer: &mut Writer<512>, ids: &[[u8; 8]]) -> Result<(), Full>
    ensures { Puts (flat_map string ids.now) writer.old writer.new result }
{
    for id in ids {
        put_string(writer, id)?;
    }
    Ok(())
}

fn put_ids_and_count(writer: &mut Writer<512>, ids: &[[u8; 8]]) -> Result<(), Full>
    ensures { Puts (array (length ids.now) ++ flat_map string ids.now) writer.old writer.new result }
{
    put_array(writer, ids.len() as u64)?;
    put_each_id(writer, ids)
}

fn put_refused_field(writer: &mut Writer<512>, ids: &[[u8; 8]]) -> Result<(), Full>
    ensures { Puts (number 6 ++ (array (length ids.now) ++ flat_map string ids.now)) writer.old writer.new result }
{
    put_number(writer, 6)?;
    put_ids_and_count(writer, ids)
}

fn put_refused(writer: &mut Writer<512>, ids: &[[u8; 8]]) -> Result<(), Full>
    ensures { Puts (refused_text ids.now) writer.old writer.new result }
{
    match ids {
        [] => Ok(()),
        [_, ..] => put_refused_field(writer, ids),
    }
}

fn put_rate(writer: &mut Writer<512>, rate: Option<u32>) -> Result<(), Full>
    ensures { Puts (rate_text rate) writer.old writer.new result }
{
    match rate {
        None => Ok(()),
        Some(rate) => put_uint(writer, 7, u64::from(rate)),
    }
}

fn count_keys(keys: &[LinkKey]) -> u64
    ensures { result ≡ if_any keys.now }
{
    match keys {
        [] => 0,
        [_, ..] => 1,
    }
}

fn count_ids(ids: &[[u8; 8]]) -> u64
    ensures count { result ≡ if_any ids.now }
    ensures sized { All (λ id. length id ≡ 8) ids.now }
{
    match ids {
        [] => 0,
        [_, ..] => 1,
    }
}

fn count_jrc(jrc: Option<[u8; 16]>) -> u64
    ensures count { result ≡ if_some jrc }
    ensures sized { IfSome jrc (λ v. length v ≡ 16) }
{
    match jrc {
        None => 0,
        Some(v) => {
            // What is read here is known to fit its type.
            let _bytes: &[u8] = &v;
            1
        }
    }
}

fn count_short(short: Option<Short>) -> u64
    ensures count { result ≡ if_some short }
    ensures small { IfSome short (λ s. IfSome s.hours (λ hours. hours ≤ max32)) }
{
    match short {
        None => 0,
        Some(Short { hours: None, .. }) => 1,
        Some(
            Short {
                hours: Some(_hours),
                ..
            },
        ) => 1,
    }
}

fn count_rate(rate: Option<u32>) -> u64
    ensures count { result ≡ if_some rate }
    ensures small { IfSome rate (λ n. n ≤ max32) }
{
    match rate {
        None => 0,
        Some(_rate) => 1,
    }
}

/// How many fields a Configuration has.
fn count_of(config: &Configuration) -> u64
    ensures count { result ≡ config_count config.now }
    ensures refused { All (λ id. length id ≡ 8) config.now.refused.items }
    ensures jrc { IfSome config.now.jrc (λ v. length v ≡ 16) }
    ensures hours { IfSome config.now.short (λ s. IfSome s.hours (λ hours. hours ≤ max32)) }
    ensures rate { IfSome config.now.rate (λ n. n ≤ max32) }
{
    let keys = count_keys(config.keys.as_slice());
    let short = count_short(config.short);
    let jrc = count_jrc(config.jrc);
    let refused = count_ids(config.refused.as_slice());
    let rate = count_rate(config.rate);
    keys + (short + (jrc + (refused + rate)))
}

fn put_from_refused(writer: &mut Writer<512>, config: &Configuration) -> Result<(), Full>
    ensures { Puts (refused_text config.now.refused.items ++ rate_text config.now.rate) writer.old writer.new result }
{
    put_refused(writer, config.refused.as_slice())?;
    put_rate(writer, config.rate)
}

fn put_from_jrc(writer: &mut Writer<512>, config: &Configuration) -> Result<(), Full>
    ensures { Puts (jrc_text config.now.jrc ++ (refused_text config.now.refused.items ++ rate_text config.now.rate)) writer.old writer.new result }
{
    put_jrc(writer, config.jrc)?;
    put_from_refused(writer, config)
}

fn put_from_short(writer: &mut Writer<512>, config: &Configuration) -> Result<(), Full>
    ensures { Puts (short_text config.now.short ++ (jrc_text config.now.jrc ++ (refused_text config.now.refused.items ++ rate_text config.now.rate))) writer.old writer.new result }
{
    put_short(writer, config.short)?;
    put_from_jrc(writer, config)
}

fn put_fields(writer: &mut Writer<512>, config: &Configuration, items: u64) -> Result<(), Full>
    requires { items ≡ sum_by key_items config.now.keys.items }
    ensures { Puts (config_fields config.now) writer.old writer.new result }
{
    put_keys(writer, config.keys.as_slice(), items)?;
    put_from_short(writer, config)
}

fn put_config(
    writer: &mut Writer<512>,
    config: &Configuration,
    count: u64,
    items: u64,
) -> Result<(), Full>
    requires count { count ≡ config_count config.now }
    requires items { items ≡ sum_by key_items config.now.keys.items }
    ensures { Puts (config_text config.now) writer.old writer.new result }
{
    put_map(writer, count)?;
    put_fields(writer, config, items)
}

/// Writes a Configuration into a buffer that always has room for it. Labels whose absence says the same aren't written.
pub fn write_config(config: &Configuration, out: &mut ArrayVec<u8, 512>)
    requires { IsWritable config.now }
    // What is written is the configuration, and is read back as the same.
    ensures reads_back { IsConfig out.new.items config.now }
    ensures exact { out.new.items ≡ config_text config.now }
    ensures most { length out.new.items ≤ most_config }
{
    let items = items_of(config.keys.as_slice());
    let count = count_of(config);
    let _most_refused = config.refused.len();
    let mut writer = Writer::new();
    match put_config(&mut writer, config, count, items) {
        Ok(()) => copy_out(&writer, out),
        Err(_) => unreachable!(),
    }
}
