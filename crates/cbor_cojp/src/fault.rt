//! Why an object can't be read.
use cbor_item::ItemFault;
use thiserror::Error;

/// The first fault from the left.
#[derive(Clone, Copy, Debug, PartialEq, Eq, Error)]
pub enum CojpFault {
    /// The item at this place, where the object should begin, is no map.
    #[error("the item at {0} is no map")]
    NotAMap(usize),
    /// The bytes are no CBOR of this form: a fault outside the values of known labels, or one that no value may have.
    #[error(transparent)]
    Form(ItemFault),
    /// This known label occurs a second time.
    #[error("label {0} is repeated")]
    Repeated(u8),
    /// The value of this known label is of another kind or out of range.
    #[error("the value of label {0} is malformed")]
    Malformed(u8),
}
