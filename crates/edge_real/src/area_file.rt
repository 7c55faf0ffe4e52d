//! One area of a disk as a file.
use crate::OpenError;
use crate::lock::Lock;
use std::fs::{File, OpenFile, OpenOptions, TryLockError};
use std::io::{self, ErrorKind};
use std::os::unix::fs::{FileExt, OpenOptionsExt};
use std::path::Path;
use std::rt::Files;

/// Its owner alone may read and write a file that is created.
const OWNER_ONLY: u32 = 0o600;

/// A file that need not be there, and stays open once it is. No other program that takes the lock has it meanwhile.
#[derive(Drop)]
pub struct AreaFile<F: Drop> {
    path: String,
    held: Held<F>,
    /// Whether the folder was synced while the file was open, so that the file's name outlasts a crash.
    is_named: bool,
}

#[derive(Drop)]
enum Held<F: Drop> {
    /// No file has the name. It counts as an empty one.
    Missing,
    /// The file is open, and its lock is taken.
    Open(F),
    /// A sync failed: the system may have let go of bytes that it could not write, and still read them. Or another
    /// program took the file that this one created.
    Lost,
}

impl<F: FileExt + OpenFile + Lock + Drop> AreaFile<F> {
    /// Opens the file and takes its lock, unless it is missing.
    pub fn at<R: Files<File = F>>(files: &R, path: String) -> Result<AreaFile<F>, OpenError> {
        let opened = OpenOptions::new()
            .read(true)
            .write(true)
            .open(files, path.as_str());
        let held = match opened {
            Ok(file) => match file.try_lock() {
                Ok(()) => Held::Open(file),
                Err(TryLockError::WouldBlock) => return Err(OpenError::Taken),
                Err(TryLockError::Error(_)) => return Err(OpenError::Failed),
            },
            Err(error) if error.kind() == ErrorKind::NotFound => Held::Missing,
            Err(_) => return Err(OpenError::Failed),
        };
        Ok(AreaFile {
            path,
            held,
            is_named: false,
        })
    }

    pub fn len(&self) -> io::Result<u64> {
        match &self.held {
            Held::Missing => Ok(0),
            Held::Open(file) => Ok(file.metadata()?.len()),
            Held::Lost => Err(lost()),
        }
    }

    pub fn read_at(&self, at: u64, buf: &mut [u8]) -> io::Result<()> {
        match &self.held {
            Held::Missing if buf.is_empty() => Ok(()),
            Held::Missing => Err(ErrorKind::UnexpectedEof.into()),
            Held::Open(file) => file.read_exact_at(buf, at),
            Held::Lost => Err(lost()),
        }
    }

    /// A missing file is created.
    pub fn write_at<R: Files<File = F>>(
        &mut self,
        files: &R,
        at: u64,
        bytes: &[u8],
    ) -> io::Result<()> {
        if let Held::Missing = &self.held {
            self.create(files)?;
        }
        match &self.held {
            Held::Open(file) => file.write_all_at(bytes, at),
            _ => Err(lost()),
        }
    }

    /// Creates the file and takes its lock. A file that another program locked first is lost.
    fn create<R: Files<File = F>>(&mut self, files: &R) -> io::Result<()> {
        let file = OpenOptions::new()
            .read(true)
            .write(true)
            .create_new(true)
            .mode(OWNER_ONLY)
            .open(files, self.path.as_str())?;
        self.held = match file.try_lock() {
            Ok(()) => Held::Open(file),
            Err(_) => Held::Lost,
        };
        Ok(())
    }

    /// Once it has failed, each call on the file fails.
    pub fn sync<R: Files<File = F>>(&mut self, files: &R) -> io::Result<()> {
        let synced = match &self.held {
            Held::Missing => return Ok(()),
            Held::Open(file) => self.sync_open(files, file),
            Held::Lost => Err(lost()),
        };
        match synced {
            Ok(()) => self.is_named = true,
            Err(_) => self.held = Held::Lost,
        }
        synced
    }

    /// Syncs the file's content and length, and once its name.
    fn sync_open<R: Files<File = F>>(&self, files: &R, file: &F) -> io::Result<()> {
        file.sync_all()?;
        if self.is_named {
            return Ok(());
        }
        File::open(files, folder_of(self.path.as_str()))?.sync_all()
    }
}

fn lost() -> io::Error {
    ErrorKind::Other.into()
}

fn folder_of(path: &str) -> &str {
    match Path::new(path).parent() {
        Some(folder) if !folder.as_str().is_empty() => folder.as_str(),
        _ => ".",
    }
}

#[cfg(test)]
mod tests {
    use super::*;

    #[test]
    fn a_name_alone_lies_in_the_folder_at_hand(rt: HostRuntime) {
        for (path, folder) in [
            ("j.0", "."),
            ("a/j.0", "a"),
            ("/a/b/j.0", "/a/b"),
            ("/j.0", "/"),
        ] {
            assert_eq!(rt; folder_of(path), folder);
        }
    }
}
