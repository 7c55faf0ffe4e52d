//! The law of nonces.
ghost use Rattle.oscore_context.specs.Laws.{OneIdAndNumber};

/// Does nothing. Its clause is a law: a nonce has one ID and one number.
pub fn nonce_law()
    ensures { OneIdAndNumber }
{}
