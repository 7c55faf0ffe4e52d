//! The join element of a beacon (its fields follow RFC 9032, its layout is this project's own).
//! It promises that exactly the elements of the layout are read, that a refusal is the first fault,
//! and that what is written is read back. Definitions are in specs/: Layout and Reading.
#![tactic(auto)]

mod element;
mod fault;

pub use element::{Element, read, write};
pub use fault::BeaconFault;

#[cfg(test)]
mod tests;
