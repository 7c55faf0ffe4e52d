//! What a value under the lock reports of itself.
ghost use Rattle.turn_lock.specs.Report.{Report};

/// A value that reports a list and two numbers, which only grow from holding to holding, and an origin, which stays the same.
pub trait Reports: Drop {
    type Item;

    type Origin;

    ghost report: { Self → Report Self.Item };

    ghost origin: { Self → Self.Origin };
}
