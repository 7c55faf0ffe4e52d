// The outside as the registrar sees it: sources, sinks and disks, the names of pledges and peers, and `NoMemory`.
// It promises the layers above what each call does to what an object reports, and that a call fails only where
// its count of faults rose. The definitions are in specs/: Faults, Source, Sink, Disk and Runs.
#![tactic(auto)]

mod disk;
mod names;
mod no_memory;
mod sink;
mod source;

pub use disk::Disk;
pub use names::{Area, Failed, Peer, PledgeId};
pub use no_memory::NoMemory;
pub use sink::{Sink, write_all};
pub use source::Source;
