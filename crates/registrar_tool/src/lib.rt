// The top calls: what the program's words ask for, over a source, a sink and a disk of any kind.
// It promises the program that all that is written are the outcomes of the script over one legal history,
// and that each status has its cause. Definitions are in specs/: Words, Script, Opened, Lines and Run.
#![tactic(auto)]

mod decide;
mod ids;
mod opening;
mod script;
mod status;
#[cfg(test)]
mod tests;
mod top;
mod words;

pub use status::Status;
pub use top::run;
pub use words::is_command;
