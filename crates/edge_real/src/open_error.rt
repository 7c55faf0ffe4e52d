//! Why a device of the system could not be opened.
ghost use Rattle.std.specs.Prelude.{◌≡◌};
ghost use Rattle.edge_real.specs.declared.open_error.OpenError.TheVariants.{NoMemory};

use std::alloc::AllocError;
use thiserror::Error;

#[derive(Clone, Copy, Debug, PartialEq, Eq, Error)]
pub enum OpenError {
    /// The system refused to open the device.
    #[error("the device failed")]
    Failed,
    /// Another program has the device.
    #[error("another program has the device open")]
    Taken,
    #[error("out of memory")]
    NoMemory,
}

impl From<AllocError> for OpenError {
    ghost from_gives = { λ _ error. error ≡ NoMemory };

    fn from(_error: AllocError) -> OpenError {
        OpenError::NoMemory
    }
}
