//! The system's lock on an open file.
use std::fs::{File, TryLockError};

/// A file that at most one program has at a time, of those that take its lock.
pub trait Lock {
    /// Takes the lock, which is given back when the file is closed. `WouldBlock` comes where another program has it.
    fn try_lock(&self) -> Result<(), TryLockError>;
}

impl Lock for File {
    fn try_lock(&self) -> Result<(), TryLockError> {
        File::try_lock(self)
    }
}
