// A pledge: it asks to join, takes the answer, holds its address, and takes updates of the keys (RFC 9031).
// It promises the layers above numbers that never repeat, and that it takes exactly what is genuine, fresh and in time.
// Definitions are in specs/: Session, Asking, Taking and Updating.
#![tactic(auto)]

mod fault;
mod laws;
mod pledge;
mod said;
mod took;

pub use fault::AskFault;
pub use laws::join_laws;
pub use pledge::Pledge;
pub use took::Took;

#[cfg(test)]
mod tests;
