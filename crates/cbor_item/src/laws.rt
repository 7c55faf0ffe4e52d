//! The laws of reading.
ghost use Rattle.cbor_item.specs.declared.head.Major.{Major};
ghost use Rattle.cbor_item.specs.Head.{IsHead, argument_of};
ghost use Rattle.cbor_item.specs.Reading.{IsInt, IsString, IsNull, IsSkipped, int_at, string_at, null_at, skip_at};
ghost use Rattle.cbor_item.specs.Laws.{IsSteady};

/// Does nothing. Its clauses are laws: a fault other than a cut stays, whatever bytes follow, and what was read up to a
/// cut can be completed to a reading.
pub fn reading_laws()
    ensures head { (major : Major) → IsSteady (argument_of major) (λ text n. IsHead text major n) }
    ensures int { IsSteady int_at IsInt }
    ensures string { (kind : Major) → IsSteady (string_at kind) (IsString kind) }
    ensures null { IsSteady null_at IsNull }
    ensures skip { IsSteady skip_at IsSkipped }
{}
