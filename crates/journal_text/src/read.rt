//! Reading an entry from the start of bytes.
ghost use Rattle.std.specs.Prelude.{◌≡◌, ◌++◌, ℕ, List, Ok, IfOk, IsErr, length, drop};
ghost use Rattle.journal_text.specs.declared.entry.Entry.{Entry};
ghost use Rattle.journal_text.specs.Text.{Fits, entry_text};
ghost use Rattle.journal_text.specs.Reading.{Gives, settings_entry_at, enroll_at, grant_at, refuse_at, block_at, roll_at, given_at, stale_at, switch_at, release_at, fields_of, entry_at, IsEntryRead};

use crate::field::{bad, read_bytes, read_u16, read_u32, read_u40, read_u64};
use crate::part::{read_keys, read_reason, read_settings};
use crate::{Bad, Entry, Kind};
use edge_traits::PledgeId;
use key_sets::KeySet;

/// An entry, and the bytes after it.
type Read<'a> = Result<(Entry, &'a [u8]), Bad>;

#[tactic(auto, unfolding(crate::specs::Reading::settings_entry_at))]
fn read_settings_entry(end: usize, bytes: &[u8]) -> Read<'_>
    ensures { Gives (λ x. (x.0, x.1.now)) result (settings_entry_at end bytes.now) }
{
    let (time, rest) = read_u64(end, bytes)?;
    let (settings, rest) = read_settings(end, rest)?;
    Ok((Entry::Settings { time, settings }, rest))
}

#[tactic(auto, unfolding(crate::specs::Reading::enroll_at))]
fn read_enroll(end: usize, bytes: &[u8]) -> Read<'_>
    ensures { Gives (λ x. (x.0, x.1.now)) result (enroll_at end bytes.now) }
{
    let (context, rest) = read_u32(end, bytes)?;
    let (id, rest) = read_bytes::<8>(end, rest)?;
    let (check, rest) = read_bytes::<32>(end, rest)?;
    let id = PledgeId(id);
    Ok((Entry::Enroll { context, id, check }, rest))
}

#[tactic(auto, unfolding(crate::specs::Reading::grant_at))]
fn read_grant(end: usize, bytes: &[u8]) -> Read<'_>
    ensures { Gives (λ x. (x.0, x.1.now)) result (grant_at end bytes.now) }
{
    let (time, rest) = read_u64(end, bytes)?;
    let (context, rest) = read_u32(end, rest)?;
    let (number, rest) = read_u40(end, rest)?;
    let (address, rest) = read_u16(end, rest)?;
    let (until, rest) = read_u64(end, rest)?;
    let grant = Entry::Grant {
        time,
        context,
        number,
        address,
        until,
    };
    Ok((grant, rest))
}

#[tactic(auto, unfolding(crate::specs::Reading::refuse_at))]
fn read_refuse(end: usize, bytes: &[u8]) -> Read<'_>
    ensures { Gives (λ x. (x.0, x.1.now)) result (refuse_at end bytes.now) }
{
    let (time, rest) = read_u64(end, bytes)?;
    let (context, rest) = read_u32(end, rest)?;
    let (number, rest) = read_u40(end, rest)?;
    let (why, rest) = read_reason(end, rest)?;
    let refuse = Entry::Refuse {
        time,
        context,
        number,
        why,
    };
    Ok((refuse, rest))
}

#[tactic(auto, unfolding(crate::specs::Reading::block_at))]
fn read_block(end: usize, bytes: &[u8]) -> Read<'_>
    ensures { Gives (λ x. (x.0, x.1.now)) result (block_at end bytes.now) }
{
    let (context, rest) = read_u32(end, bytes)?;
    let (to, rest) = read_u64(end, rest)?;
    Ok((Entry::Block { context, to }, rest))
}

#[tactic(auto, unfolding(crate::specs::Reading::roll_at))]
fn read_roll(end: usize, bytes: &[u8]) -> Read<'_>
    ensures { Gives (λ x. (x.0, x.1.now)) result (roll_at end bytes.now) }
{
    let (time, rest) = read_u64(end, bytes)?;
    let (epoch, rest) = read_u32(end, rest)?;
    let (keys, rest) = read_keys(end, rest)?;
    let set = KeySet { epoch, keys };
    Ok((Entry::Roll { time, set }, rest))
}

#[tactic(auto, unfolding(crate::specs::Reading::given_at))]
fn read_given(end: usize, bytes: &[u8]) -> Read<'_>
    ensures { Gives (λ x. (x.0, x.1.now)) result (given_at end bytes.now) }
{
    let (time, rest) = read_u64(end, bytes)?;
    let (context, rest) = read_u32(end, rest)?;
    let (number, rest) = read_u40(end, rest)?;
    let (epoch, rest) = read_u32(end, rest)?;
    let given = Entry::Given {
        time,
        context,
        number,
        epoch,
    };
    Ok((given, rest))
}

#[tactic(auto, unfolding(crate::specs::Reading::stale_at))]
fn read_stale(end: usize, bytes: &[u8]) -> Read<'_>
    ensures { Gives (λ x. (x.0, x.1.now)) result (stale_at end bytes.now) }
{
    let (time, rest) = read_u64(end, bytes)?;
    let (id, rest) = read_bytes::<8>(end, rest)?;
    let (epoch, rest) = read_u32(end, rest)?;
    let id = PledgeId(id);
    Ok((Entry::Stale { time, id, epoch }, rest))
}

#[tactic(auto, unfolding(crate::specs::Reading::switch_at))]
fn read_switch(end: usize, bytes: &[u8]) -> Read<'_>
    ensures { Gives (λ x. (x.0, x.1.now)) result (switch_at end bytes.now) }
{
    let (time, rest) = read_u64(end, bytes)?;
    let (epoch, rest) = read_u32(end, rest)?;
    Ok((Entry::Switch { time, epoch }, rest))
}

#[tactic(auto, unfolding(crate::specs::Reading::release_at))]
fn read_release(end: usize, bytes: &[u8]) -> Read<'_>
    ensures { Gives (λ x. (x.0, x.1.now)) result (release_at end bytes.now) }
{
    let (time, rest) = read_u64(end, bytes)?;
    let (id, rest) = read_bytes::<8>(end, rest)?;
    let id = PledgeId(id);
    Ok((Entry::Release { time, id }, rest))
}

/// The fields of this kind after its first byte.
fn read_fields(kind: Option<Kind>, bad: Bad, end: usize, bytes: &[u8]) -> Read<'_>
    ensures { Gives (λ x. (x.0, x.1.now)) result (fields_of kind bad.0 end bytes.now) }
{
    match kind {
        Some(Kind::Settings) => read_settings_entry(end, bytes),
        Some(Kind::Enroll) => read_enroll(end, bytes),
        Some(Kind::Grant) => read_grant(end, bytes),
        Some(Kind::Refuse) => read_refuse(end, bytes),
        Some(Kind::Block) => read_block(end, bytes),
        Some(Kind::Roll) => read_roll(end, bytes),
        Some(Kind::Given) => read_given(end, bytes),
        Some(Kind::Stale) => read_stale(end, bytes),
        Some(Kind::Switch) => read_switch(end, bytes),
        Some(Kind::Release) => read_release(end, bytes),
        None => Err(bad),
    }
}

#[tactic(auto, unfolding(crate::specs::Reading::entry_at))]
fn read_prefix(end: usize, bytes: &[u8]) -> Read<'_>
    ensures { Gives (λ x. (x.0, x.1.now)) result (entry_at end bytes.now) }
{
    match bytes {
        [] => Err(bad(end, bytes)),
        [code, rest @ ..] => read_fields(Kind::of(*code), bad(end, bytes), end, rest),
    }
}

/// Reads the entry at the start of the bytes, and returns how many bytes it takes. `Bad` comes exactly where no prefix of
/// the bytes is an entry.
pub fn read_entry(bytes: &[u8]) -> Result<(Entry, usize), Bad>
    // What is read is spelled so, and fits its fields.
    ensures found { IfOk result (λ read. Fits read.0 × (bytes.now ≡ entry_text read.0 ++ drop read.1 bytes.now)
        × (read.1 ≡ length (entry_text read.0))) }
    // What is spelled so is read.
    ensures only { (e : Entry) (rest : List ℕ) → Fits e → bytes.now ≡ entry_text e ++ rest
        → result ≡ Ok (e, length (entry_text e)) }
    // Which fault it is.
    ensures exact { IsEntryRead bytes.now result }
{
    match read_prefix(bytes.len(), bytes) {
        Ok((entry, rest)) => {
            let size = bytes.len() - rest.len();
            Ok((entry, size))
        }
        Err(bad) => Err(bad),
    }
}
