//! Who may join.
ghost use Rattle.std.specs.Prelude.{◌≡◌, ◌≤◌, option_map};
ghost use Rattle.join_policy.specs.Verdicts.{is_other, is_refused};

use edge_traits::PledgeId;

/// The rules, in the order in which they are judged.
#[derive(Clone, Copy, Debug, PartialEq, Eq)]
pub enum Rule {
    /// The pledge may not join.
    Barred,
    /// It asks to be a 6LBR, which it may not be.
    NotSixLbr,
    /// It names another network.
    OtherNetwork,
    /// It is among the refused.
    Refused,
}

impl Rule {
    ghost use Rattle.join_policy.specs.Verdicts.{number_of};

    /// The rule's number, by which an entry of the journal names it.
    pub fn number(self) -> u8
        ensures number { result ≡ number_of self }
        ensures some { 1 ≤ result }
        ensures most { result ≤ 4 }
    {
        match self {
            Rule::Barred => 1,
            Rule::NotSixLbr => 2,
            Rule::OtherNetwork => 3,
            Rule::Refused => 4,
        }
    }
}

/// What the inventory says of a request.
#[derive(Clone, Copy, Debug, PartialEq, Eq)]
pub enum Verdict {
    Allowed,
    /// This rule denies it, and none before it does.
    Denied(Rule),
}

/// Whether another network than `own` is named.
pub fn is_other(own: &[u8], named: Option<&[u8]>) -> bool
    ensures { result ≡ is_other own.now (option_map (λ v. v.now) named.entry) }
{
    match named {
        None => false,
        Some(named) => named != own,
    }
}

/// Whether the identifier is in the list.
pub fn is_refused(id: PledgeId, ids: &[PledgeId]) -> bool
    ensures { result ≡ is_refused id ids.now }
{
    ids.iter().any(|other| other.0 == id.0)
}
