//! What an answer was.

/// What an answer was.
#[derive(Clone, Copy, Debug, PartialEq, Eq)]
pub enum Took {
    /// The pledge holds this address from now on.
    Joined(u16),
    /// The registrar refused with this code.
    Refused(u8),
    /// No genuine answer to the last request, or one that says nothing.
    Other,
    /// The answer came more than 600 seconds after its request.
    Late,
}
