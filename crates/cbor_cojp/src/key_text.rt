//! Writing link-layer keys, which lie flat in one array.
ghost use Rattle.std.specs.Prelude.{◌≡◌, ◌++◌, ◌≤◌, All, length};
ghost use Rattle.std.specs.List.{flat_map, sum_by};
ghost use Rattle.cbor_cojp.specs.Spelling.{Puts, number, string, array, usage_text, key_text, key_items, keys_text, IsSizedKey};

use crate::key::LinkKey;
use crate::write::{put_array, put_number, put_string};
use cbor_item::{Full, Writer};

fn put_usage(writer: &mut Writer<512>, usage: u8) -> Result<(), Full>
    ensures { Puts (usage_text usage) writer.old writer.new result }
{
    if usage == 0 {
        Ok(())
    } else {
        put_number(writer, u64::from(usage))
    }
}

fn put_usage_and_value(writer: &mut Writer<512>, key: &LinkKey) -> Result<(), Full>
    ensures { Puts (usage_text key.now.usage ++ string key.now.value) writer.old writer.new result }
{
    put_usage(writer, key.usage)?;
    put_string(writer, &key.value)
}

fn put_key(writer: &mut Writer<512>, key: &LinkKey) -> Result<(), Full>
    ensures { Puts (key_text key.now) writer.old writer.new result }
{
    put_number(writer, u64::from(key.id))?;
    put_usage_and_value(writer, key)
}

fn put_each_key(writer: &mut Writer<512>, keys: &[LinkKey]) -> Result<(), Full>
    ensures { Puts (flat_map key_text keys.now) writer.old writer.new result }
{
    for key in keys {
        put_key(writer, key)?;
    }
    Ok(())
}

/// How many items of the array a key is.
fn items_of_key(key: &LinkKey) -> u64
    ensures items { result ≡ key_items key.now }
    ensures sized { IsSizedKey key.now }
{
    // What is read here is known to fit its type.
    let _id = key.id;
    let _value: &[u8] = &key.value;
    if key.usage == 0 { 2 } else { 3 }
}

/// How many items of the array the keys are.
pub fn items_of(keys: &[LinkKey]) -> u64
    requires { length keys.now ≤ 8 }
    ensures items { result ≡ sum_by key_items keys.now }
    ensures sized { All IsSizedKey keys.now }
{
    let mut items = 0;
    for key in keys {
        items += items_of_key(key);
    }
    items
}

fn put_keys_and_count(writer: &mut Writer<512>, keys: &[LinkKey], items: u64) -> Result<(), Full>
    requires { items ≡ sum_by key_items keys.now }
    ensures { Puts (array (sum_by key_items keys.now) ++ flat_map key_text keys.now) writer.old writer.new result }
{
    put_array(writer, items)?;
    put_each_key(writer, keys)
}

fn put_key_set(writer: &mut Writer<512>, keys: &[LinkKey], items: u64) -> Result<(), Full>
    requires { items ≡ sum_by key_items keys.now }
    ensures { Puts (number 2 ++ (array (sum_by key_items keys.now) ++ flat_map key_text keys.now)) writer.old writer.new result }
{
    put_number(writer, 2)?;
    put_keys_and_count(writer, keys, items)
}

/// Writes the field of the link-layer keys, if there are some.
pub fn put_keys(writer: &mut Writer<512>, keys: &[LinkKey], items: u64) -> Result<(), Full>
    requires { items ≡ sum_by key_items keys.now }
    ensures { Puts (keys_text keys.now) writer.old writer.new result }
{
    match keys {
        [] => Ok(()),
        [_, ..] => put_key_set(writer, keys, items),
    }
}
