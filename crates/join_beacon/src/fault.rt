//! Why bytes are no join element, and why an element can't be written.
use thiserror::Error;

/// The first that applies, in this order, is answered.
#[derive(Clone, Copy, Debug, PartialEq, Eq, Error)]
pub enum BeaconFault {
    /// The bytes end before the network identifier.
    #[error("the element is cut short")]
    Short,
    /// The first byte isn't `02`.
    #[error("the element is of another subtype")]
    Subtype,
    /// The proxy priority is above 127.
    #[error("the proxy priority is {0}")]
    Priority(u8),
    /// The network identifier has this length, which isn't 1 to 16.
    #[error("the network identifier has {0} bytes")]
    Network(usize),
}
