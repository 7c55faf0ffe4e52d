//! Times of entries, in whole seconds.
ghost use Rattle.std.specs.Prelude.{◌≡◌};
ghost use Rattle.join_history.specs.Times as spec;

use journal_text::Entry;

/// The time of an entry that has one.
pub(crate) fn time_of(entry: &Entry) -> Option<u64>
    ensures { result ≡ spec.time_of entry.now }
{
    match entry {
        Entry::Settings { time, .. }
        | Entry::Grant { time, .. }
        | Entry::Refuse { time, .. }
        | Entry::Roll { time, .. }
        | Entry::Given { time, .. }
        | Entry::Stale { time, .. }
        | Entry::Switch { time, .. }
        | Entry::Release { time, .. } => Some(*time),
        Entry::Enroll { .. } | Entry::Block { .. } => None,
    }
}
