//! The laws of areas.
ghost use Rattle.journal_store.specs.Laws.{OneLog, NoFaultWithLog, OneFault, EmptyJournalHasNoEntry, WithoutOrWith};

/// Does nothing. Its clauses are the laws.
pub fn area_laws()
    ensures one_log { OneLog }
    ensures no_fault_with_log { NoFaultWithLog }
    ensures one_fault { OneFault }
    ensures empty_journal_has_no_entry { EmptyJournalHasNoEntry }
    ensures without_or_with { WithoutOrWith }
{}
