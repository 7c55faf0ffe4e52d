// The outside in memory: a source, a sink and a disk, whose calls fail where their numbers are listed.
// It promises the layers above that each keeps its trait, reports all of its content and fails nowhere else while its
// room lasts. The definitions are in specs/: Calls, MemSource, MemSink and MemDisk, with the Story of a disk's calls.
#![tactic(auto)]

mod call_log;
mod calls;
mod contents;
mod disk;
mod failing;
mod pick;
mod sink;
mod source;
#[cfg(test)]
mod tests;

pub use disk::MemDisk;
pub use failing::{FailingCall, Part};
pub use sink::MemSink;
pub use source::MemSource;
