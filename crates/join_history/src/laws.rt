//! The laws of legal histories.
ghost use Rattle.join_history.specs.Laws.{OneHolder, OneLiveLease, DecidesOnce, OneNumber, OneCheck, KeepsAddress, OneDue, DueSomething, DueMayFollow, EmptyIsLegal, GrowsLegal, PrefixIsLegal, LeaseEnds, LeaseWithoutEnd, ReleasedHoldsNothing, ReleasedLate, BlockEnds, BlockEndsRise, EpochsRise, SwitchLeavesNone, KeyIdsDiffer, FirstWaitingIsLeast, AnswerStays, OneAnswer, GrantAnswerFits, RowsAreEnrolled, OpeningAgainAddsNothing};
ghost use Rattle.join_history.specs.SummaryLaws.{SummaryFixesAnswers, SummaryFixesNext, OneSummary};
ghost use Rattle.join_history.specs.Examples.{Hours, LeaseLives, AddressIsHeld, Repeats, Window, Contexts, Pools, Widths, Below, Blocks, Releases, Rolls, Switches, AnswerBytes, Updates, Answered, SummaryGrants};

/// Does nothing. Its clauses are laws: what holds of every legal history.
pub fn history_laws()
    ensures one_holder { OneHolder }
    ensures one_live_lease { OneLiveLease }
    ensures decides_once { DecidesOnce }
    ensures one_check { OneCheck }
    ensures one_number { OneNumber }
    ensures keeps_address { KeepsAddress }
    ensures one_due { OneDue }
    ensures due_something { DueSomething }
    ensures due_may_follow { DueMayFollow }
    ensures empty_is_legal { EmptyIsLegal }
    ensures grows_legal { GrowsLegal }
    ensures prefix_is_legal { PrefixIsLegal }
{}

/// Does nothing. Its clauses are laws of leases: when they end, and what a Release does.
pub fn lease_laws()
    ensures lease_ends { LeaseEnds }
    ensures lease_without_end { LeaseWithoutEnd }
    ensures released_holds_nothing { ReleasedHoldsNothing }
    ensures released_late { ReleasedLate }
{}

/// Does nothing. Its clauses are laws of keys and of the registrar's own numbers.
pub fn key_laws()
    ensures block_ends { BlockEnds }
    ensures block_ends_rise { BlockEndsRise }
    ensures epochs_rise { EpochsRise }
    ensures switch_leaves_none { SwitchLeavesNone }
    ensures key_ids_differ { KeyIdsDiffer }
    ensures first_waiting_is_least { FirstWaitingIsLeast }
{}

/// Does nothing. Its clauses are laws of the answers to requests.
pub fn answer_laws()
    ensures answer_stays { AnswerStays }
    ensures one_answer { OneAnswer }
    ensures grant_answer_fits { GrantAnswerFits }
{}

/// Does nothing. Its clauses are laws of opening.
pub fn opening_laws()
    ensures rows_are_enrolled { RowsAreEnrolled }
    ensures opening_again_adds_nothing { OpeningAgainAddsNothing }
{}

/// Does nothing. Its clauses are short histories that fix the numbers of the rules, each shown beside its number too.
pub fn history_examples()
    ensures hours { Hours }
    ensures lease_lives { LeaseLives }
    ensures address_is_held { AddressIsHeld }
    ensures repeats { Repeats }
    ensures window { Window }
    ensures contexts { Contexts }
    ensures pools { Pools }
    ensures widths { Widths }
    ensures below { Below }
    ensures blocks { Blocks }
    ensures releases { Releases }
    ensures rolls { Rolls }
    ensures switches { Switches }
    ensures answer_bytes { AnswerBytes }
    ensures updates { Updates }
    ensures answered { Answered }
    ensures summary_grants { SummaryGrants }
{}

/// Does nothing. Its clauses say that a summary fixes all that later decisions need.
pub fn summary_law()
    ensures fixes_answers { SummaryFixesAnswers }
    ensures fixes_next { SummaryFixesNext }
    ensures one_summary { OneSummary }
{}
