//! Writing an entry after what a buffer holds.
ghost use Rattle.std.specs.Prelude.{◌≡◌, ◌<◌, ◌≤◌, ◌+◌, ◌*◌, ◌^◌, ◌∷◌, ◌++◌, [], IfErr, IfSome, OnOk, OnErr, length};
ghost use Rattle.std.specs.List.{flat_map, AllByRecursion};
ghost use Rattle.arrayvec.specs.ArrayVec.{array_vec_len};
ghost use Rattle.journal_text.specs.declared.entry.Entry.TheVariants as entries;
ghost use Rattle.journal_text.specs.Kinds.{kind_code};
ghost use Rattle.journal_text.specs.Codes.{IsReason};
ghost use Rattle.journal_text.specs.Numbers.{number_text};
ghost use Rattle.journal_text.specs.Text.{options_text, list_text, id_text, key_text, settings_text, reason_text, entry_text, label_of, SettingsFit, AreItems, Fits, IsSpellable};

use crate::{Entry, Full, Kind, Refusal, Settings};
use arrayvec::ArrayVec;
use edge_traits::PledgeId;
use key_sets::KeySet;

/// The most bytes that an entry takes: settings with a rate, an address and sixteen refused pledges.
const MAX_ENTRY: usize = 165;

type Text = ArrayVec<u8, MAX_ENTRY>;

/// A text with the first byte of its kind.
fn begin(kind: Kind) -> Text
    ensures { result.items ≡ kind_code kind ∷ [] }
{
    let mut text = ArrayVec::new();
    text.push(kind.code());
    text
}

fn put(text: &mut Text, bytes: &[u8])
    requires { length text.old.items + length bytes.now ≤ MAX_ENTRY }
    ensures items { text.new.items ≡ text.old.items ++ bytes.now }
    ensures len { length text.new.items ≡ length text.old.items + length bytes.now }
{
    text.try_extend_from_slice(bytes).unwrap();
}

#[tactic(auto, unfolding(crate::specs::Numbers::number_text))]
fn put_u64(text: &mut Text, number: u64)
    requires { length text.old.items + 8 ≤ MAX_ENTRY }
    ensures items { text.new.items ≡ text.old.items ++ number_text 8 number }
    ensures len { length text.new.items ≡ length text.old.items + 8 }
{
    put(text, &number.to_be_bytes());
}

/// The low 40 bits of a number.
#[tactic(auto, unfolding(crate::specs::Numbers::number_text))]
fn put_u40(text: &mut Text, number: u64)
    requires { length text.old.items + 5 ≤ MAX_ENTRY }
    ensures items { text.new.items ≡ text.old.items ++ number_text 5 number }
    ensures len { length text.new.items ≡ length text.old.items + 5 }
{
    put(text, &number.to_be_bytes()[3..]);
}

#[tactic(auto, unfolding(crate::specs::Numbers::number_text))]
fn put_u32(text: &mut Text, number: u32)
    requires { length text.old.items + 4 ≤ MAX_ENTRY }
    ensures items { text.new.items ≡ text.old.items ++ number_text 4 number }
    ensures len { length text.new.items ≡ length text.old.items + 4 }
{
    put(text, &number.to_be_bytes());
}

#[tactic(auto, unfolding(crate::specs::Numbers::number_text))]
fn put_u16(text: &mut Text, number: u16)
    requires { length text.old.items + 2 ≤ MAX_ENTRY }
    ensures items { text.new.items ≡ text.old.items ++ number_text 2 number }
    ensures len { length text.new.items ≡ length text.old.items + 2 }
{
    put(text, &number.to_be_bytes());
}

/// The flags, and what they announce.
#[tactic(auto, unfolding(crate::specs::Text::options_text))]
fn put_options(text: &mut Text, rate: Option<u32>, jrc: Option<[u8; 16]>)
    requires { length text.old.items + 21 ≤ MAX_ENTRY }
    ensures items { text.new.items ≡ text.old.items ++ options_text rate jrc }
    ensures len { length text.new.items ≤ length text.old.items + 21 }
    ensures rate { IfSome rate (λ number. number < 2 ^ 32) }
    ensures jrc { IfSome jrc (λ address. length address ≡ 16) }
{
    match (rate, jrc) {
        (None, None) => put(text, &[0]),
        (Some(rate), None) => {
            put(text, &[1]);
            put_u32(text, rate);
        }
        (None, Some(address)) => {
            put(text, &[2]);
            put(text, &address);
        }
        (Some(rate), Some(address)) => {
            put(text, &[3]);
            put_u32(text, rate);
            put(text, &address);
        }
    }
}

fn put_each_id(text: &mut Text, ids: &[PledgeId])
    requires { length text.old.items + 8 * length ids.now ≤ MAX_ENTRY }
    ensures items { text.new.items ≡ text.old.items ++ flat_map id_text ids.now }
    ensures len { length text.new.items ≡ length text.old.items + 8 * length ids.now }
    ensures sized { AllByRecursion (λ id. length (id_text id) ≡ 8) ids.now }
{
    let mut rest = ids;
    while let [id, after @ ..] = rest {
        put(text, &id.0);
        rest = after;
    }
}

#[tactic(auto, unfolding(crate::specs::Text::list_text))]
fn put_ids(text: &mut Text, ids: &[PledgeId])
    requires few { length ids.now ≤ 16 }
    requires room { length text.old.items + 129 ≤ MAX_ENTRY }
    ensures items { text.new.items ≡ text.old.items ++ list_text id_text ids.now }
    ensures fit { AreItems id_text 8 16 ids.now }
{
    put(text, &[ids.len() as u8]);
    put_each_id(text, ids);
}

fn put_each_key(text: &mut Text, keys: &[[u8; 16]])
    requires { length text.old.items + 16 * length keys.now ≤ MAX_ENTRY }
    ensures items { text.new.items ≡ text.old.items ++ flat_map key_text keys.now }
    ensures len { length text.new.items ≡ length text.old.items + 16 * length keys.now }
    ensures sized { AllByRecursion (λ key. length (key_text key) ≡ 16) keys.now }
{
    let mut rest = keys;
    while let [key, after @ ..] = rest {
        put(text, key);
        rest = after;
    }
}

#[tactic(auto, unfolding(crate::specs::Text::list_text))]
fn put_keys(text: &mut Text, keys: &[[u8; 16]])
    requires few { length keys.now ≤ 4 }
    requires room { length text.old.items + 65 ≤ MAX_ENTRY }
    ensures items { text.new.items ≡ text.old.items ++ list_text key_text keys.now }
    ensures fit { AreItems key_text 16 4 keys.now }
{
    put(text, &[keys.len() as u8]);
    put_each_key(text, keys);
}

fn put_settings(text: &mut Text, settings: &Settings)
    requires { length text.old.items ≡ 9 }
    ensures items { text.new.items ≡ text.old.items ++ settings_text settings.now }
    ensures fit { SettingsFit settings.now }
{
    put_u16(text, settings.first);
    put_u16(text, settings.count);
    put_u16(text, settings.hours);
    put_options(text, settings.rate, settings.jrc);
    put_ids(text, settings.refused.as_slice());
}

/// What distinguishes reasons of one code.
fn label(why: Refusal) -> u8
    requires { IsReason why }
    ensures { result ≡ label_of why }
{
    match why {
        Refusal::Malformed(label) => label,
        Refusal::Unsupported(label) => 64 + label,
        Refusal::Denied(rule) => rule,
        _ => 0,
    }
}

#[tactic(auto, unfolding(crate::specs::Text::entry_text))]
fn settings_entry(time: u64, settings: &Settings) -> Text
    ensures items { result.items ≡ entry_text (entries.Settings time settings.now) }
    ensures fit { Fits (entries.Settings time settings.now) }
{
    let mut text = begin(Kind::Settings);
    put_u64(&mut text, time);
    put_settings(&mut text, settings);
    text
}

#[tactic(auto, unfolding(crate::specs::Text::entry_text))]
fn enroll(context: u32, id: PledgeId, check: [u8; 32]) -> Text
    ensures items { result.items ≡ entry_text (entries.Enroll context id check) }
    ensures fit { Fits (entries.Enroll context id check) }
{
    let mut text = begin(Kind::Enroll);
    put_u32(&mut text, context);
    put(&mut text, &id.0);
    put(&mut text, &check);
    text
}

#[tactic(auto, unfolding(crate::specs::Text::entry_text))]
fn grant(time: u64, context: u32, number: u64, address: u16, until: u64) -> Text
    requires { number < 2 ^ 40 }
    ensures items { result.items ≡ entry_text (entries.Grant time context number address until) }
    ensures fit { Fits (entries.Grant time context number address until) }
{
    let mut text = begin(Kind::Grant);
    put_u64(&mut text, time);
    put_u32(&mut text, context);
    put_u40(&mut text, number);
    put_u16(&mut text, address);
    put_u64(&mut text, until);
    text
}

#[tactic(auto, unfolding(crate::specs::Text::entry_text))]
fn refuse(time: u64, context: u32, number: u64, why: Refusal) -> Text
    requires number { number < 2 ^ 40 }
    requires reason { IsReason why }
    ensures items { result.items ≡ entry_text (entries.Refuse time context number why) }
    ensures fit { Fits (entries.Refuse time context number why) }
{
    let mut text = begin(Kind::Refuse);
    put_u64(&mut text, time);
    put_u32(&mut text, context);
    put_u40(&mut text, number);
    put(&mut text, &[why.code(), label(why)]);
    text
}

#[tactic(auto, unfolding(crate::specs::Text::entry_text))]
fn block(context: u32, to: u64) -> Text
    ensures items { result.items ≡ entry_text (entries.Block context to) }
    ensures fit { Fits (entries.Block context to) }
{
    let mut text = begin(Kind::Block);
    put_u32(&mut text, context);
    put_u64(&mut text, to);
    text
}

#[tactic(auto, unfolding(crate::specs::Text::entry_text))]
fn roll(time: u64, set: &KeySet) -> Text
    ensures items { result.items ≡ entry_text (entries.Roll time set.now) }
    ensures fit { Fits (entries.Roll time set.now) }
{
    let mut text = begin(Kind::Roll);
    put_u64(&mut text, time);
    put_u32(&mut text, set.epoch);
    put_keys(&mut text, set.keys.as_slice());
    text
}

#[tactic(auto, unfolding(crate::specs::Text::entry_text))]
fn given(time: u64, context: u32, number: u64, epoch: u32) -> Text
    requires { number < 2 ^ 40 }
    ensures items { result.items ≡ entry_text (entries.Given time context number epoch) }
    ensures fit { Fits (entries.Given time context number epoch) }
{
    let mut text = begin(Kind::Given);
    put_u64(&mut text, time);
    put_u32(&mut text, context);
    put_u40(&mut text, number);
    put_u32(&mut text, epoch);
    text
}

#[tactic(auto, unfolding(crate::specs::Text::entry_text))]
fn stale(time: u64, id: PledgeId, epoch: u32) -> Text
    ensures items { result.items ≡ entry_text (entries.Stale time id epoch) }
    ensures fit { Fits (entries.Stale time id epoch) }
{
    let mut text = begin(Kind::Stale);
    put_u64(&mut text, time);
    put(&mut text, &id.0);
    put_u32(&mut text, epoch);
    text
}

#[tactic(auto, unfolding(crate::specs::Text::entry_text))]
fn switch(time: u64, epoch: u32) -> Text
    ensures items { result.items ≡ entry_text (entries.Switch time epoch) }
    ensures fit { Fits (entries.Switch time epoch) }
{
    let mut text = begin(Kind::Switch);
    put_u64(&mut text, time);
    put_u32(&mut text, epoch);
    text
}

#[tactic(auto, unfolding(crate::specs::Text::entry_text))]
fn release(time: u64, id: PledgeId) -> Text
    ensures items { result.items ≡ entry_text (entries.Release time id) }
    ensures fit { Fits (entries.Release time id) }
{
    let mut text = begin(Kind::Release);
    put_u64(&mut text, time);
    put(&mut text, &id.0);
    text
}

fn text_of(entry: &Entry) -> Text
    requires { IsSpellable entry.now }
    ensures items { result.items ≡ entry_text entry.now }
    ensures size { length (entry_text entry.now) ≤ MAX_ENTRY }
    ensures fit { Fits entry.now }
{
    match entry {
        Entry::Settings { time, settings } => settings_entry(*time, settings),
        Entry::Enroll { context, id, check } => enroll(*context, *id, *check),
        Entry::Grant {
            time,
            context,
            number,
            address,
            until,
        } => grant(*time, *context, *number, *address, *until),
        Entry::Refuse {
            time,
            context,
            number,
            why,
        } => refuse(*time, *context, *number, *why),
        Entry::Block { context, to } => block(*context, *to),
        Entry::Roll { time, set } => roll(*time, set),
        Entry::Given {
            time,
            context,
            number,
            epoch,
        } => given(*time, *context, *number, *epoch),
        Entry::Stale { time, id, epoch } => stale(*time, *id, *epoch),
        Entry::Switch { time, epoch } => switch(*time, *epoch),
        Entry::Release { time, id } => release(*time, *id),
    }
}

/// Appends the entry's spelling. `Full` carries the bytes that it takes and comes exactly where they don't fit; then the
/// buffer is as it was.
pub fn write_entry(entry: &Entry, out: &mut ArrayVec<u8, 4096>) -> Result<(), Full>
    requires { IsSpellable entry.now }
    ensures written { OnOk result (out.new.items ≡ out.old.items ++ entry_text entry.now) }
    ensures fits { Fits entry.now }
    ensures size { length (entry_text entry.now) ≤ 165 }
    ensures room { OnOk result (length out.old.items + length (entry_text entry.now) ≤ 4096) }
    ensures full { IfErr result (λ full. (full.0 ≡ length (entry_text entry.now)) × (4096 < length out.old.items + full.0)) }
    ensures err { OnErr result (out.new ≡ out.old) }
{
    let text = text_of(entry);
    if out.remaining_capacity() < text.len() {
        return Err(Full(text.len()));
    }
    out.try_extend_from_slice(text.as_slice()).unwrap();
    Ok(())
}
