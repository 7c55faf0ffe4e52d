//! A pledge that may be owed keys.

/// A pledge by its identifier's number, and the end of its lease, 0 where it waits no more.
#[derive(Clone, Copy, Debug, PartialEq, Eq)]
pub struct Waiter {
    pub number: u64,
    pub until: u64,
}
