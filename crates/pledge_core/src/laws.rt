//! What a pledge and the registrar do together.
ghost use Rattle.pledge_core.specs.Laws.{AnswerIsTaken, JoinedIsOwn};

/// Does nothing. Its clauses are laws: the registrar's answer is taken as the address that it brings, and only by who has
/// the keys that it was sealed under.
pub fn join_laws()
    ensures answer_is_taken { AnswerIsTaken }
    ensures joined_is_own { JoinedIsOwn }
{}
