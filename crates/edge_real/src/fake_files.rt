//! Files that a test makes up: each call is noted in order, reads and writes are short, and one call may fail.
use crate::Lock;
use std::alloc::{Allocator, Global};
use std::cell::{Cell, RefCell};
use std::fmt::Write as _;
use std::fs::{Files, Metadata, OpenFile, OpenOptions, TryLockError};
use std::io::{self, ErrorKind, Read, Seek, SeekFrom, Write};
use std::os::unix::fs::FileExt;
use std::str;

/// The most bytes that a call reads or writes.
const PIECE: usize = 3;

/// How the files behave, and the calls so far.
#[derive(Drop)]
pub struct Notes {
    /// Whether both files are there at first.
    pub are_there: bool,
    /// Whether another program has the lock of each file.
    pub are_taken: bool,
    /// The number of the call that fails, from 0, and how.
    pub failing: Option<(u64, ErrorKind)>,
    count: Cell<u64>,
    text: RefCell<String>,
}

impl Notes {
    pub fn new(alloc: Global) -> Notes {
        Notes {
            are_there: true,
            are_taken: false,
            failing: None,
            count: Cell::new(0),
            text: RefCell::new(String::new(alloc)),
        }
    }

    /// Whether these lines are the calls so far. They are then forgotten.
    pub fn are(&self, lines: &str) -> bool {
        match self.text.try_borrow_mut() {
            Ok(mut text) => {
                let same = text.as_str() == lines;
                text.clear();
                same
            }
            Err(_) => false,
        }
    }

    fn note(&self, call: &str, name: Name, rest: &str) -> io::Result<()> {
        let Ok(mut text) = self.text.try_borrow_mut() else {
            return Err(ErrorKind::Other.into());
        };
        let name = name.text();
        if writeln!(text, "{call} {name}{rest}").is_err() {
            return Err(ErrorKind::OutOfMemory.into());
        }
        let number = self.count.get();
        self.count.set(number.saturating_add(1));
        match self.failing {
            Some((failing, kind)) if failing == number => Err(kind.into()),
            _ => Ok(()),
        }
    }
}

#[derive(Clone, Copy)]
enum Name {
    Left,
    Right,
    Folder,
}

impl Name {
    fn of(path: &str) -> Name {
        if path.ends_with(".0") {
            Name::Left
        } else if path.ends_with(".1") {
            Name::Right
        } else {
            Name::Folder
        }
    }

    fn text(self) -> &'static str {
        match self {
            Name::Left => "left",
            Name::Right => "right",
            Name::Folder => "folder",
        }
    }
}

/// The file system of a test.
#[derive(Clone, Copy)]
pub struct FakeFiles<'a>(pub &'a Notes);

#[derive(Drop)]
pub struct FakeFile<'a> {
    notes: &'a Notes,
    name: Name,
}

impl<'a> Files for FakeFiles<'a> {
    type File = FakeFile<'a>;

    type Dir = FakeFile<'a>;

    fn open_file(&self, how: &OpenOptions, path: &str) -> io::Result<FakeFile<'a>> {
        let name = Name::of(path);
        let call = if how.asks_create_new() {
            "create"
        } else {
            "open"
        };
        self.0.note(call, name, "")?;
        match name {
            Name::Left | Name::Right if !self.0.are_there && !how.asks_create_new() => {
                Err(ErrorKind::NotFound.into())
            }
            _ => Ok(FakeFile {
                notes: self.0,
                name,
            }),
        }
    }

    fn open_dir(&self, _path: &str) -> io::Result<FakeFile<'a>> {
        Err(ErrorKind::Unsupported.into())
    }

    fn metadata(&self, _path: &str) -> io::Result<Metadata> {
        Err(ErrorKind::Unsupported.into())
    }

    fn symlink_metadata(&self, _path: &str) -> io::Result<Metadata> {
        Err(ErrorKind::Unsupported.into())
    }

    fn copy(&self, _from: &str, _to: &str) -> io::Result<u64> {
        Err(ErrorKind::Unsupported.into())
    }

    fn rename(&self, _from: &str, _to: &str) -> io::Result<()> {
        Err(ErrorKind::Unsupported.into())
    }

    fn remove_file(&self, _path: &str) -> io::Result<()> {
        Err(ErrorKind::Unsupported.into())
    }

    fn create_dir(&self, _path: &str) -> io::Result<()> {
        Err(ErrorKind::Unsupported.into())
    }

    fn remove_dir(&self, _path: &str) -> io::Result<()> {
        Err(ErrorKind::Unsupported.into())
    }

    fn remove_dir_all<B: Allocator>(&self, _alloc: B, _path: &str) -> io::Result<()> {
        Err(ErrorKind::Unsupported.into())
    }
}

impl OpenFile for FakeFile<'_> {
    fn metadata(&self) -> io::Result<Metadata> {
        self.notes.note("len", self.name, "")?;
        Ok(Metadata::of_file(100))
    }

    fn set_len(&self, _size: u64) -> io::Result<()> {
        Err(ErrorKind::Unsupported.into())
    }

    fn sync_all(&self) -> io::Result<()> {
        self.notes.note("sync", self.name, "")
    }

    fn sync_data(&self) -> io::Result<()> {
        Err(ErrorKind::Unsupported.into())
    }
}

impl Lock for FakeFile<'_> {
    fn try_lock(&self) -> Result<(), TryLockError> {
        match self.notes.note("lock", self.name, "") {
            Err(error) => Err(TryLockError::Error(error)),
            Ok(()) if self.notes.are_taken => Err(TryLockError::WouldBlock),
            Ok(()) => Ok(()),
        }
    }
}

/// The byte at each place is the place.
impl FileExt for FakeFile<'_> {
    fn read_at(&self, buf: &mut [u8], offset: u64) -> io::Result<usize> {
        self.notes.note("read", self.name, "")?;
        let count = buf.len().min(PIECE);
        for (i, byte) in buf[..count].iter_mut().enumerate() {
            *byte = (offset.wrapping_add(i as u64) & 0xff) as u8;
        }
        Ok(count)
    }

    fn write_at(&self, buf: &[u8], offset: u64) -> io::Result<usize> {
        let text = str::from_utf8(buf).unwrap_or("?");
        match (offset, text) {
            (0, "abcde") => self.notes.note("write", self.name, " 0 abcde")?,
            (3, "de") => self.notes.note("write", self.name, " 3 de")?,
            _ => self.notes.note("write", self.name, " other bytes")?,
        }
        Ok(buf.len().min(PIECE))
    }
}

impl Read for FakeFile<'_> {
    fn read(&mut self, _buf: &mut [u8]) -> io::Result<usize> {
        Err(ErrorKind::Unsupported.into())
    }
}

impl Write for FakeFile<'_> {
    fn write(&mut self, _buf: &[u8]) -> io::Result<usize> {
        Err(ErrorKind::Unsupported.into())
    }

    fn flush(&mut self) -> io::Result<()> {
        Err(ErrorKind::Unsupported.into())
    }
}

impl Seek for FakeFile<'_> {
    fn seek(&mut self, _to: SeekFrom) -> io::Result<u64> {
        Err(ErrorKind::Unsupported.into())
    }
}
