//! What the additions of a lock's passes say of one another.
ghost use Rattle.std.specs.Prelude.{List};
ghost use Rattle.turn_lock.specs.Locks.{PassView};
ghost use Rattle.turn_lock.specs.History.{IsReported, IsOrdered, RaiseApart, own_over};

use crate::reports::Reports;

/// Of two additions of a lock's passes one comes before the other, and the later one found what may follow what the earlier one
/// left. So two that each raised a number of the report left it at two different values.
pub fn addition_laws<V: Reports>()
    ensures order { (opening final : V) (passes : List (PassView V)) → IsReported V.report V.origin opening final passes → IsOrdered V.report V.origin (own_over passes) }
    ensures first { (opening final : V) (passes : List (PassView V)) → IsReported V.report V.origin opening final passes → RaiseApart (λ value. (V.report value).first) (own_over passes) }
    ensures second { (opening final : V) (passes : List (PassView V)) → IsReported V.report V.origin opening final passes → RaiseApart (λ value. (V.report value).second) (own_over passes) }
{}
