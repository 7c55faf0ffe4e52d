//! Short histories, worked out by hand from the rules.
ghost use Rattle.worked_histories.specs.Histories.{Openings, Dues, Moments, MoreAnswers, MoreKeys, MoreReleases};
ghost use Rattle.worked_histories.specs.Summaries.{HasItsSummary};

use join_history::history_examples;

/// Does nothing. Its clauses are short histories with what the rules say of them.
pub fn worked_histories()
    ensures openings { Openings }
    ensures dues { Dues }
    ensures moments { Moments }
    ensures answers { MoreAnswers }
    ensures keys { MoreKeys }
    ensures releases { MoreReleases }
    ensures summary { HasItsSummary }
{
    history_examples();
}
