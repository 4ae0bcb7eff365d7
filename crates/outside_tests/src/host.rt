//! A host without a disk, whose files fail in their own ways.
use std::alloc::Allocator;
use std::cell::Cell;
use std::fs::{Files, Metadata, OpenFile, OpenOptions};
use std::io;
use std::io::{ErrorKind, Read, Seek, SeekFrom, Write};

/// What was asked of the host.
#[derive(Drop)]
pub struct Host {
    /// How many files were opened.
    pub opened: Cell<u32>,
    /// Whether one was opened for more than reading.
    pub asked_to_write: Cell<bool>,
    /// How many names were removed.
    pub removed: Cell<u32>,
}

impl Host {
    /// A host of which nothing was asked yet.
    pub fn new() -> Host {
        Host {
            opened: Cell::new(0),
            asked_to_write: Cell::new(false),
            removed: Cell::new(0),
        }
    }
}

/// A file that has nothing, or whose reads are interrupted, or whose writes find no room.
#[derive(Drop)]
pub enum Stub {
    /// It has nothing, and takes all.
    Empty,
    /// Its reads are interrupted.
    Interrupted,
    /// Its writes find no room.
    Full,
}

fn refused<T>() -> io::Result<T> {
    Err(io::Error::from(ErrorKind::Unsupported))
}

impl Read for Stub {
    fn read(&mut self, _buf: &mut [u8]) -> io::Result<usize> {
        match self {
            Stub::Interrupted => Err(io::Error::from(ErrorKind::Interrupted)),
            Stub::Empty | Stub::Full => Ok(0),
        }
    }
}

impl Write for Stub {
    fn write(&mut self, buf: &[u8]) -> io::Result<usize> {
        match self {
            Stub::Full => Err(io::Error::from(ErrorKind::StorageFull)),
            Stub::Empty | Stub::Interrupted => Ok(buf.len()),
        }
    }

    fn flush(&mut self) -> io::Result<()> {
        Ok(())
    }
}

impl Seek for Stub {
    fn seek(&mut self, _to: SeekFrom) -> io::Result<u64> {
        refused()
    }
}

impl OpenFile for Stub {
    fn metadata(&self) -> io::Result<Metadata> {
        refused()
    }

    fn set_len(&self, _size: u64) -> io::Result<()> {
        refused()
    }

    fn sync_all(&self) -> io::Result<()> {
        refused()
    }

    fn sync_data(&self) -> io::Result<()> {
        refused()
    }
}

impl Files for Host {
    type File = Stub;

    type Dir = Stub;

    fn open_file(&self, how: &OpenOptions, path: &str) -> io::Result<Stub> {
        self.opened.set(self.opened.get().saturating_add(1));
        if how.asks_write() || how.asks_append() {
            self.asked_to_write.set(true);
        }
        match path {
            "gone" => Err(io::Error::from(ErrorKind::NotFound)),
            "closed" => Err(io::Error::from(ErrorKind::PermissionDenied)),
            "interrupted" => Ok(Stub::Interrupted),
            "full" => Ok(Stub::Full),
            _ => Ok(Stub::Empty),
        }
    }

    fn open_dir(&self, _path: &str) -> io::Result<Stub> {
        refused()
    }

    fn metadata(&self, _path: &str) -> io::Result<Metadata> {
        refused()
    }

    fn symlink_metadata(&self, _path: &str) -> io::Result<Metadata> {
        refused()
    }

    fn copy(&self, _from: &str, _to: &str) -> io::Result<u64> {
        refused()
    }

    fn rename(&self, _from: &str, _to: &str) -> io::Result<()> {
        refused()
    }

    fn remove_file(&self, _path: &str) -> io::Result<()> {
        self.removed.set(self.removed.get().saturating_add(1));
        Ok(())
    }

    fn create_dir(&self, _path: &str) -> io::Result<()> {
        refused()
    }

    fn remove_dir(&self, _path: &str) -> io::Result<()> {
        refused()
    }

    fn remove_dir_all<B: Allocator>(&self, _alloc: B, _path: &str) -> io::Result<()> {
        refused()
    }
}
