//! Real files, real output, and the words of the call. They tell no bytes: this is the trusted edge.
ghost use Rattle.std.specs.Prelude.{◌≡◌, ◌≤◌, length, IfOk};
ghost use Rattle.hull_io.specs.declared.real.TheConstants.{LONGEST};

use crate::{ReadFailed, Shelf, Sink, WriteFailed};
use std::alloc::AllocError;
use std::io::{ErrorKind, Read, Seek, SeekFrom, Write};
use std::rt::{Env, Files};
use std::thread::yield_now;
use std::{env, fs, io};

/// The most bytes of a path that is kept open: the system opens none that is longer.
const LONGEST: usize = 4096;

/// Files by path, with one count of faults for every name.
///
/// The file that was read last stays open, so that reads at rising offsets go on where the last
/// one ended. A read at offset 0 opens its file anew. No read takes memory. A read that a signal
/// interrupts, or that finds nothing yet in a pipe that doesn't wait, is made again.
#[derive(Drop)]
pub struct FileShelf<'a, R: Files> {
    rt: &'a R,
    open: Option<R::File>,
    path: [u8; LONGEST],
    length: usize,
    next: u64,
    faults: u64,
}

impl<'a, R: Files> FileShelf<'a, R> {
    /// A shelf with no file open and no fault.
    pub fn new(rt: &'a R) -> Self
        ensures { result.faults ≡ 0 }
    {
        FileShelf {
            rt,
            open: None,
            path: [0; LONGEST],
            length: 0,
            next: 0,
            faults: 0,
        }
    }

    /// Whether the file that was read last goes on with this read.
    fn is_next_read_of_open_file(&self, name: &str, offset: u64) -> bool {
        let is_next = self.open.is_some() && offset != 0 && offset == self.next;
        is_next && self.length == name.len() && self.path.starts_with(name.as_bytes())
    }

    /// Keeps the path of the open file.
    fn store_path_of_open_file(&mut self, name: &[u8])
        requires { length name.now ≤ LONGEST }
        ensures { self.new.faults ≡ self.old.faults }
    {
        self.path[..name.len()].copy_from_slice(name);
        self.length = name.len();
    }

    /// Keeps a file open.
    fn keep(&mut self, file: R::File, name: &str)
        ensures { self.new.faults ≡ self.old.faults }
    {
        if name.len() <= LONGEST {
            self.store_path_of_open_file(name.as_bytes());
            self.open = Some(file);
        }
    }

    /// Opens a file at an offset, and no file where it can't.
    fn open_file(&mut self, name: &str, offset: u64)
        ensures { self.new.faults ≡ self.old.faults }
    {
        self.open = None;
        if let Ok(file) = open_file_at_offset(self.rt, name, offset) {
            self.keep(file, name);
        }
    }

    /// Reads from the open file, where there is one.
    fn read_from_open_file(&mut self, into: &mut [u8]) -> io::Result<usize>
        ensures within { IfOk result (λ n. n ≤ length into.old) }
        ensures same { self.new.faults ≡ self.old.faults }
    {
        match &mut self.open {
            Some(file) => read_with_retries(file, into),
            None => Err(io::Error::from(ErrorKind::NotFound)),
        }
    }
}

/// Whether a call that failed so may go through when it is made again: a signal interrupted it, or
/// a pipe that doesn't wait had nothing yet, or no room.
fn may_succeed_again(error: &io::Error) -> bool {
    matches!(error.kind(), ErrorKind::Interrupted | ErrorKind::WouldBlock)
}

/// A read, made again for as long as it may yet go through.
fn read_with_retries<R: Read>(reader: &mut R, into: &mut [u8]) -> io::Result<usize>
    ensures { IfOk result (λ n. n ≤ length into.old) }
{
    for _ in 0..u64::MAX {
        match reader.read(into) {
            Err(error) if may_succeed_again(&error) => yield_now(),
            read => return read,
        }
    }
    Err(io::Error::from(ErrorKind::WouldBlock))
}

/// A write, made again for as long as it may yet go through.
fn write_with_retries<W: Write>(writer: &mut W, piece: &[u8]) -> io::Result<usize>
    ensures { IfOk result (λ n. n ≤ length piece.now) }
{
    for _ in 0..u64::MAX {
        match writer.write(piece) {
            Err(error) if may_succeed_again(&error) => yield_now(),
            written => return written,
        }
    }
    Err(io::Error::from(ErrorKind::WouldBlock))
}

/// Goes to an offset. At 0 there is no seek, so a pipe can be read too.
fn seek_offset<S: Seek>(file: &mut S, offset: u64) -> io::Result<()> {
    if offset != 0 {
        file.seek(SeekFrom::Start(offset))?;
    }
    Ok(())
}

/// Opens a file at an offset.
fn open_file_at_offset<R: Files>(rt: &R, name: &str, offset: u64) -> io::Result<R::File> {
    let mut file = fs::open(rt, name)?;
    seek_offset(&mut file, offset)?;
    Ok(file)
}

impl<'a, R: Files> Shelf for FileShelf<'a, R> {
    ghost use Rattle.std.specs.Prelude.{None, Some};

    ghost told = { λ _ _. None };

    ghost faults = { λ s _. s.faults };

    ghost last = { Some 0xffff_ffff_ffff_ffff };

    fn read(&mut self, name: &str, offset: u64, into: &mut [u8]) -> Result<usize, ReadFailed> {
        if !self.is_next_read_of_open_file(name, offset) {
            self.open_file(name, offset);
        }
        match self.read_from_open_file(into) {
            Ok(n) => {
                self.next = offset.saturating_add(n as u64);
                Ok(n)
            }
            Err(_) => {
                self.open = None;
                self.faults = self.faults.saturating_add(1);
                Err(ReadFailed)
            }
        }
    }
}

/// A real output. `W` writes at once, as standard output by `std::io::writer` does: a writer that
/// kept bytes back would keep back their failures too. A write that a signal interrupts, or that
/// finds no room yet in a pipe that doesn't wait, is made again.
#[derive(Drop)]
pub struct StdSink<W: Write + Drop> {
    out: W,
    faults: u64,
}

impl<W: Write + Drop> StdSink<W> {
    /// A sink with no fault.
    pub fn new(out: W) -> Self
        ensures { result.faults ≡ 0 }
    {
        StdSink { out, faults: 0 }
    }
}

impl<W: Write + Drop> Sink for StdSink<W> {
    ghost use Rattle.std.specs.Prelude.{None, Some};

    ghost held = { λ _. None };

    ghost faults = { λ s. s.faults };

    ghost last = { Some 0xffff_ffff_ffff_ffff };

    fn write(&mut self, piece: &[u8]) -> Result<usize, WriteFailed> {
        match write_with_retries(&mut self.out, piece) {
            Ok(n) => {
                if n == 0 && !piece.is_empty() {
                    self.faults = self.faults.saturating_add(1);
                }
                Ok(n)
            }
            Err(_) => {
                self.faults = self.faults.saturating_add(1);
                Err(WriteFailed)
            }
        }
    }
}

/// The words that the program was called with, without its name; `Err` where they can't be had, as
/// if memory runs out. The system's contract tells nothing of them, so nothing is promised of them
/// here: that they are those of the call is tested.
pub fn argument_words<R: Env + AllocGlobal>(rt: &R) -> io::Result<Vec<String>> {
    let mut words = Vec::new(rt.alloc());
    for word in env::args(rt)?.skip(1) {
        words.push(word).map_err(AllocError::from)?;
    }
    Ok(words)
}
