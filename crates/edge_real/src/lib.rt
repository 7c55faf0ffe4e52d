// The outside as the system gives it: standard input as a source, standard output as a sink and two files as a disk.
// It promises the layers above that each keeps its trait, and reports nothing of content: what these few lines read
// and write is trusted. The definitions are in specs/: Faults, StdSource, StdSink and FileDisk.
#![tactic(auto)]

mod area_file;
#[cfg(test)]
mod fake_files;
mod faults;
mod file_disk;
mod lock;
mod open_error;
mod stdin;
mod stdout;
#[cfg(test)]
mod tests;

pub use file_disk::FileDisk;
pub use lock::Lock;
pub use open_error::OpenError;
pub use stdin::StdSource;
pub use stdout::StdSink;
