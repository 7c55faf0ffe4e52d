//! The laws of the two sides.
ghost use Rattle.oscore_message.specs.Laws.{RequestOpens, AnswerOpens};

/// Does nothing. Its clauses are laws: what one side protects, the other opens as the same message.
pub fn oscore_laws()
    ensures request { RequestOpens }
    ensures answer { AnswerOpens }
{}
