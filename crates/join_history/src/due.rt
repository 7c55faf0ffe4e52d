//! The question what a request is due, and its answers.
use journal_text::{Entry, Refusal};

/// What a genuine request wants: to join, or the refusal that its form or the inventory gives it.
#[derive(Clone, Copy, Debug, PartialEq, Eq)]
pub enum Want {
    Join,
    Refuse(Refusal),
}

/// Why a request gets no answer (RFC 8613, 7.4, and the span of repeats).
#[derive(Clone, Copy, Debug, PartialEq, Eq)]
pub enum Quiet {
    /// Its number was decided before, and isn't the last one decided.
    Taken,
    /// Its number is 32 or more below the greatest one decided.
    Old,
    /// Its number is the last one decided, more than 600 seconds ago.
    Late,
}

/// What a request is due.
#[derive(Clone, Debug, PartialEq, Eq, Drop)]
pub enum Due {
    /// This entry, and the answer that it fixes.
    Add(Entry),
    /// The answer of the context's last decision once more.
    Again,
    /// No answer.
    Quiet(Quiet),
}
