//! A run over memory.

use crate::same::same_of;
use crate::texts::{Texts, USUAL_PRICES};
use answer_workers::{Gate, NoGate};
use hull_engine::hull_run;
use hull_io::{ReadFailed, Shelf};
use std::alloc::{AllocError, Global};
use std::process::Abort;
use std::sync::Wait;
use std::thread::Threads;
use test_memory::{File, MemoryShelf, MemorySink};

// A shelf in memory whose reads give at most so many bytes. It tells no bytes.
#[derive(Drop)]
struct ShortShelf {
    whole: MemoryShelf,
    most: usize,
    faults: u64,
}

impl Shelf for ShortShelf {
    ghost use Rattle.std.specs.Prelude.{None, Some};

    ghost told = { λ _ _. None };

    ghost faults = { λ s _. s.faults };

    ghost last = { Some 0xffff_ffff_ffff_ffff };

    fn read(&mut self, name: &str, offset: u64, into: &mut [u8]) -> Result<usize, ReadFailed> {
        let most = self.most.min(into.len());
        match self.whole.read(name, offset, &mut into[..most]) {
            Ok(n) => Ok(n),
            Err(ReadFailed) => {
                self.faults = self.faults.saturating_add(1);
                Err(ReadFailed)
            }
        }
    }
}

// How the outside of a run falls short: the most bytes that a read gives and a write takes, and the
// numbers of the reads that fail, of the writes that fail and of those that take nothing.
#[derive(Clone, Copy)]
pub struct Edges<'a> {
    pub gives: u64,
    pub takes: u64,
    pub reads: &'a [u64],
    pub writes: &'a [u64],
    pub empty: &'a [u64],
}

pub const SHORT: Edges<'static> = Edges {
    gives: 1,
    takes: 1,
    reads: &[],
    writes: &[],
    empty: &[],
};

pub const WHOLE: u64 = 65_536;

fn file(alloc: Global, name: &str, bytes: &[u8]) -> Result<File, AllocError> {
    Ok(File {
        name: String::from_str(alloc, name)?,
        bytes: Vec::from_slice(alloc, bytes)?,
    })
}

fn words_in(alloc: Global, words: &[&str]) -> Result<Vec<String>, AllocError> {
    let mut list = Vec::new(alloc);
    for word in words {
        list.push(String::from_str(alloc, word)?)?;
    }
    Ok(list)
}

fn push_file(
    alloc: Global,
    files: &mut Vec<File>,
    name: &str,
    bytes: &[u8],
) -> Result<(), AllocError> {
    let file = file(alloc, name, bytes)?;
    Ok(files.push(file)?)
}

fn files_of(alloc: Global, texts: Texts) -> Result<Vec<File>, AllocError> {
    let (case, schedule, report) = texts;
    let mut files = Vec::new(alloc);
    push_file(alloc, &mut files, "c", case.as_bytes())?;
    push_file(alloc, &mut files, "s", schedule.as_bytes())?;
    push_file(alloc, &mut files, "r", report)?;
    push_file(alloc, &mut files, "p", USUAL_PRICES)?;
    Ok(files)
}

fn shelf_of(alloc: Global, texts: Texts, edges: Edges) -> Result<ShortShelf, AllocError> {
    let files = files_of(alloc, texts)?;
    Ok(ShortShelf {
        whole: MemoryShelf::make(alloc, files.as_slice(), edges.reads)?,
        most: edges.gives as usize,
        faults: 0,
    })
}

// The status of a run, and what its sink holds. No run here is due to end in want of memory: that
// ends the test.
pub fn run<R: Threads + Wait + Sync, G: Gate>(
    rt: &R,
    gate: &G,
    alloc: Global,
    words: &[&str],
    texts: Texts,
    edges: Edges,
) -> Result<(u8, Vec<u8>), AllocError> {
    let mut shelf = shelf_of(alloc, texts, edges)?;
    let mut out = MemorySink::make(alloc, 4096, edges.takes.max(1), edges.writes, edges.empty)?;
    let words = words_in(alloc, words)?;
    let status = hull_run(rt, alloc, words.as_slice(), &mut shelf, &mut out, gate);
    if status == 7 && b"fault 7 memory\n".starts_with(out.bytes()) {
        return Err(AllocError);
    }
    Ok((status, Vec::from_slice(alloc, out.bytes())?))
}

// A run: its words and files, and the status and the text that are due.
pub type Run = (&'static [&'static str], Texts<'static>, (u8, &'static [u8]));

fn run_ends<R: Threads + Wait + Sync + Abort>(
    rt: &R,
    alloc: Global,
    due: &Run,
) -> Result<(), AllocError> {
    let (words, texts, want) = *due;
    let (status, bytes) = run(rt, &NoGate, alloc, words, texts, SHORT)?;
    same_of(rt, &words, (status, bytes.as_slice()), want);
    Ok(())
}

// Each run ends with its status and its text.
pub fn runs_end<R: Threads + Wait + Sync + Abort>(
    rt: &R,
    alloc: Global,
    runs: &[Run],
) -> Result<(), AllocError> {
    for due in runs {
        run_ends(rt, alloc, due)?;
    }
    Ok(())
}
