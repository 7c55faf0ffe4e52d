//! The law of spellings.
ghost use Rattle.journal_text.specs.Laws.{OneSpelling};

/// Does nothing. Its clause is the law: no entry's spelling begins another's.
pub fn entry_law()
    ensures { OneSpelling }
{}
