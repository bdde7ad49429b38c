// A runtime that refuses all calls of one kind, and hands the others on.
use std::alloc::Allocator;
use std::fs::{Metadata, OpenFile, OpenOptions, Permissions};
use std::io::{Error, ErrorKind, Read, Result, Seek, SeekFrom, Write};
use std::path::PathBuf;
use std::rt::Files;

/// The calls that are refused: those that make a draft, sync a file, or put the draft in its place.
#[derive(Clone, Copy, PartialEq)]
pub enum Refused {
    Drafts,
    Syncs,
    Renames,
}

/// What a refused call answers.
fn refuse<T>() -> Result<T> {
    Err(Error::from(ErrorKind::Other))
}

/// A runtime of which some calls are refused.
#[derive(Clone, Copy)]
pub struct Refusing<R> {
    pub inner: R,
    pub refused: Refused,
}

/// A file of such a runtime.
#[derive(Drop)]
pub struct RefusingFile<F> {
    inner: F,
    refused: Refused,
}

impl<F: Read> Read for RefusingFile<F> {
    fn read(&mut self, buf: &mut [u8]) -> Result<usize> {
        self.inner.read(buf)
    }
}

impl<F: Write> Write for RefusingFile<F> {
    fn write(&mut self, buf: &[u8]) -> Result<usize> {
        self.inner.write(buf)
    }

    fn flush(&mut self) -> Result<()> {
        self.inner.flush()
    }
}

impl<F: Seek> Seek for RefusingFile<F> {
    fn seek(&mut self, to: SeekFrom) -> Result<u64> {
        self.inner.seek(to)
    }
}

impl<F: OpenFile> OpenFile for RefusingFile<F> {
    fn metadata(&self) -> Result<Metadata> {
        self.inner.metadata()
    }

    fn set_len(&self, size: u64) -> Result<()> {
        self.inner.set_len(size)
    }

    fn sync_all(&self) -> Result<()> {
        if self.refused == Refused::Syncs {
            return refuse();
        }
        self.inner.sync_all()
    }

    fn sync_data(&self) -> Result<()> {
        self.inner.sync_data()
    }

    fn set_permissions(&self, perm: Permissions) -> Result<()> {
        self.inner.set_permissions(perm)
    }
}

impl<R: Files> Files for Refusing<R> {
    type File = RefusingFile<R::File>;

    type Dir = R::Dir;

    fn open_file(&self, how: &OpenOptions, path: &str) -> Result<RefusingFile<R::File>> {
        if self.refused == Refused::Drafts && path.ends_with(".part") {
            return refuse();
        }
        let inner = self.inner.open_file(how, path)?;
        Ok(RefusingFile {
            inner,
            refused: self.refused,
        })
    }

    fn open_dir(&self, path: &str) -> Result<R::Dir> {
        self.inner.open_dir(path)
    }

    fn metadata(&self, path: &str) -> Result<Metadata> {
        self.inner.metadata(path)
    }

    fn symlink_metadata(&self, path: &str) -> Result<Metadata> {
        self.inner.symlink_metadata(path)
    }

    fn copy(&self, from: &str, to: &str) -> Result<u64> {
        self.inner.copy(from, to)
    }

    fn rename(&self, from: &str, to: &str) -> Result<()> {
        if self.refused == Refused::Renames {
            return refuse();
        }
        self.inner.rename(from, to)
    }

    fn remove_file(&self, path: &str) -> Result<()> {
        self.inner.remove_file(path)
    }

    fn create_dir(&self, path: &str) -> Result<()> {
        self.inner.create_dir(path)
    }

    fn remove_dir(&self, path: &str) -> Result<()> {
        self.inner.remove_dir(path)
    }

    fn remove_dir_all<B: Allocator>(&self, alloc: B, path: &str) -> Result<()> {
        self.inner.remove_dir_all(alloc, path)
    }

    fn read_link<B: Allocator>(&self, alloc: B, path: &str) -> Result<PathBuf<B>> {
        self.inner.read_link(alloc, path)
    }
}
