// The system that the program runs on.
ghost use Rattle.std.specs.Prelude.{◌≡◌, ◌↔◌, IsTrue, OnOk, is_ok};
ghost use Rattle.std.specs.Fs.{file_type, IsFile};
ghost use Rattle.kc_outside.specs.Host.{IsReadFrom};

use crate::counts::Counts;
use crate::store::Failed;
use crate::system::System;
use std::fs::{Metadata, OpenFile};
use std::io::{Read, Seek, SeekFrom};
use std::rt::Files;
use std::{fs, io};

/// The system that the program runs on, by way of its runtime. It opens regular files alone.
#[derive(Drop)]
pub struct Host<'r, R: Files> {
    runtime: &'r R,
    counts: Counts,
}

impl<'r, R: Files> Host<'r, R> {
    /// The system of a runtime, of which no call was made.
    pub(crate) fn new(runtime: &'r R) -> Self
        ensures faults { ⟦<Host<'r, R> as System>⟧.faults result ≡ 0 }
        ensures asked { ⟦<Host<'r, R> as System>⟧.asked result ≡ 0 }
    {
        Host {
            runtime,
            counts: Counts::new(),
        }
    }
}

// No contract of std tells what the system answers, so each call stands alone here, and its error is counted.
impl<R: Files> System for Host<'_, R> {
    type File = R::File;

    // What a name stands for is told by nobody.
    ghost opens = { λ _ _ _. Unit {0} };

    // How long a file is, is told by nobody.
    ghost tells = { λ _ _ _. Unit {0} };

    // As far as the reader tells where it stands and what it has left. Std's `File` tells neither.
    ghost reads = { λ _ old new off bytes. IsReadFrom
        ⟦<R::File as Seek>⟧.stream_position ⟦<R::File as Seek>⟧.stream_bytes ⟦<R::File as Read>⟧.remaining
        old new off bytes };

    ghost faults = { λ host. host.counts.faults };

    ghost asked = { λ host. host.counts.asked };

    /// Opens a regular file for reading.
    ///
    /// # Errors
    ///
    /// The name isn't there or isn't a regular file's, or the system refuses to open it.
    fn open(&mut self, name: &str) -> Result<R::File, Failed> {
        self.counts.ask();
        self.counts.told(open_regular(self.runtime, name))
    }

    fn length(&mut self, file: &R::File) -> Result<u64, Failed> {
        self.counts.ask();
        let metadata = self.counts.told(file.metadata())?;
        Ok(metadata.len())
    }

    fn read(&mut self, file: &mut R::File, off: u64, buf: &mut [u8]) -> Result<(), Failed> {
        self.counts.ask();
        self.counts.told(read_part(file, off, buf))
    }
}

// Opens a regular file for reading. What isn't one is refused before it is opened, since to open a pipe
// may wait for a writer.
fn open_regular<R: Files>(runtime: &R, name: &str) -> io::Result<R::File> {
    check_regular(&fs::metadata(runtime, name)?)?;
    fs::open(runtime, name)
}

// Refuses what isn't a regular file.
fn check_regular(metadata: &Metadata) -> io::Result<()>
    ensures { IsTrue (is_ok result) ↔ IsFile (file_type metadata.now) }
{
    if metadata.is_file() {
        Ok(())
    } else {
        Err(io::Error::from(io::ErrorKind::InvalidInput))
    }
}

// Fills the buffer from the file offset `off` on. A file that ends before the buffer is full is an error.
fn read_part<F: Read + Seek>(file: &mut F, off: u64, buf: &mut [u8]) -> io::Result<()>
    ensures { OnOk result (IsReadFrom
        F.Seek.stream_position F.Seek.stream_bytes F.Read.remaining file.old file.new off buf.new) }
{
    file.seek(SeekFrom::Start(off))?;
    file.read_exact(buf)
}
