//! The real shelf.

ghost use Rattle.std.specs.Prelude.{◌≡◌, false, None};
ghost use Rattle.std.specs.Io.{ReadsAtMost};

use crate::{Shelf, ShelfFault};
use std::alloc::Global;
use std::fs::File;
use std::io;
use std::io::{Read, Seek, SeekFrom};
use std::rt::Files;

/// A file that stands open.
#[derive(Drop)]
struct OpenFile<F: Read + Seek + Drop> {
    name: String,
    file: F,
    /// Where the next read begins.
    position: u64,
}

impl<F: Read + Seek + Drop> OpenFile<F> {
    /// Reads from the byte `at` on, seeking only where the file stands elsewhere.
    fn read_at(&mut self, at: u64, buf: &mut [u8]) -> io::Result<usize>
        ensures { ReadsAtMost result buf.new }
    {
        if at != self.position {
            self.position = self.file.seek(SeekFrom::Start(at))?;
        }
        let count = self.file.read(buf)?;
        self.position = self.position.saturating_add(count as u64);
        Ok(count)
    }
}

/// The files of the system, by their paths. It tells no bytes and is not whole.
///
/// The file of the last call stays open, so that reading it in pieces opens it once. A call that
/// fails closes it.
#[derive(Drop)]
pub struct FileShelf<R: Files + Drop> {
    rt: R,
    open: Option<OpenFile<R::File>>,
    faults: u64,
}

impl<R: Files + Drop> FileShelf<R> {
    /// A shelf over the runtime's files.
    pub fn new(rt: R) -> FileShelf<R>
        ensures told { ⟦<FileShelf<R> as Shelf>⟧.told result ≡ λ name. None }
        ensures whole { ⟦<FileShelf<R> as Shelf>⟧.whole result ≡ false }
        ensures faults { ⟦<FileShelf<R> as Shelf>⟧.faults result ≡ 0 }
    {
        FileShelf {
            rt,
            open: None,
            faults: 0,
        }
    }

    /// Takes out the open file if it has this name, and else opens the file.
    fn take_open(&mut self, alloc: Global, name: &str) -> io::Result<OpenFile<R::File>>
        ensures { self.new.faults ≡ self.old.faults }
    {
        if let Some(open) = self.open.take() {
            if open.name.as_str() == name {
                return Ok(open);
            }
        }
        Ok(OpenFile {
            name: String::from_str(alloc, name)?,
            file: File::open(&self.rt, name)?,
            position: 0,
        })
    }

    fn read_at(&mut self, alloc: Global, name: &str, at: u64, buf: &mut [u8]) -> io::Result<usize>
        ensures count { ReadsAtMost result buf.new }
        ensures faults { self.new.faults ≡ self.old.faults }
    {
        let mut open = self.take_open(alloc, name)?;
        let count = open.read_at(at, buf)?;
        self.open = Some(open);
        Ok(count)
    }
}

impl<R: Files + Drop> Shelf for FileShelf<R> {
    ghost told = { λ s name. None };

    ghost whole = { λ s. false };

    ghost faults = { λ s. s.faults };

    fn piece(
        &mut self,
        alloc: Global,
        name: &str,
        at: u64,
        buf: &mut [u8],
    ) -> Result<usize, ShelfFault> {
        match self.read_at(alloc, name, at, buf) {
            Ok(count) => Ok(count),
            Err(e) if e.kind() == io::ErrorKind::OutOfMemory => Err(ShelfFault::Memory),
            Err(_) => {
                self.faults = self.faults.saturating_add(1);
                Err(ShelfFault::Failed)
            }
        }
    }
}
