// A shelf and a sink in memory, which tell what they hold. Neither takes memory once it is made.
ghost use Rattle.std.specs.Prelude.{◌≡◌, ◌≢◌, ℕ, List, ◌+◌, ◌≤◌, ◌<◌, ◌==◌, min, length, take};
ghost use Rattle.std.specs.Prelude.{Some, IfOk, IfSome, OnOk, OnErr, vec_len, vec_capacity};
ghost use Rattle.std.specs.Prelude.{if◌then◌else◌};
ghost use Rattle.std.specs.Result.{result_ok};
ghost use Rattle.hull_io.specs.Edge.{Rose, ReadsAt, grown};
ghost use Rattle.test_memory.specs.Named.{told_in};

use crate::copies::{bytes_of, copies_of, place_of, read_from};
use hull_io::{ReadFailed, Shelf, Sink, WriteFailed};
use std::alloc::{AllocError, Global};

/// Bytes under a name.
#[derive(Drop)]
pub struct File {
    /// The name under which it is read.
    pub name: String,
    /// What a read of it gives.
    pub bytes: Vec<u8>,
}

/// Files in memory, and the numbers of the reads that fail. Reads of every name count, from 1.
///
/// It keeps a count of faults for each name that it holds and one for all other names.
#[derive(Drop)]
pub struct MemoryShelf {
    files: Vec<File>,
    counts: Vec<u64>,
    others: u64,
    reads: u64,
    failing: Vec<u64>,
    ghost counted: { vec_len counts ≡ vec_len files },
}

impl MemoryShelf {
    ghost use Rattle.test_memory.specs.OfShelf.{place_of, count_of, IsNewShelf};

    /// Copies the files. Their names are meant to differ; of two files of one name the first is
    /// read.
    pub fn make(alloc: Global, files: &[File], failing: &[u64]) -> Result<MemoryShelf, AllocError>
        ensures { IfOk result (λ shelf. IsNewShelf shelf (told_in files.now) failing.now) }
    {
        Ok(MemoryShelf {
            files: copies_of(alloc, files)?,
            counts: vec![in alloc; 0u64; files.len()]?,
            others: 0,
            reads: 0,
            failing: Vec::from_slice(alloc, failing)?,
        })
    }

    /// Raises the count of a name.
    fn raise(&mut self, name: &str)
        ensures rose { Rose (Some 0xffff_ffff_ffff_ffff) (count_of self.old name.now)
            (count_of self.new name.now) }
        ensures later { (any : List ℕ) → count_of self.old any ≤ count_of self.new any }
        ensures other { (any : List ℕ) → place_of self.old any ≢ place_of self.old name.now
            → count_of self.new any ≡ count_of self.old any }
        ensures files { self.new.files ≡ self.old.files }
        ensures failing { self.new.failing ≡ self.old.failing }
        ensures reads { self.new.reads ≡ self.old.reads }
    {
        match place_of(self.files.as_slice(), name) {
            Some(i) => self.counts[i] = self.counts[i].saturating_add(1),
            None => self.others = self.others.saturating_add(1),
        }
    }
}

impl Shelf for MemoryShelf {
    ghost use Rattle.std.specs.Prelude.{Some};
    ghost use Rattle.test_memory.specs.OfShelf.{told_of, place_of, count_of, reads_of, given_by};

    ghost told = { told_of };

    ghost faults = { count_of };

    ghost last = { Some 0xffff_ffff_ffff_ffff };

    fn read(&mut self, name: &str, offset: u64, into: &mut [u8]) -> Result<usize, ReadFailed>
        // As of every shelf.
        ensures within { IfOk result (λ n. n ≤ length into.old) }
        ensures bytes { IfOk result
            (λ n. IfSome (told_of self.old name.now) (λ bytes. ReadsAt bytes offset n into.new)) }
        ensures cause { OnErr result
            (Rose (Some 0xffff_ffff_ffff_ffff) (count_of self.old name.now)
            (count_of self.new name.now)) }
        ensures later { (any : List ℕ) → count_of self.old any ≤ count_of self.new any }
        ensures told { told_of self.new ≡ told_of self.old }

        // Which reads fail, and how much the others give.
        ensures number { reads_of self.new ≡ min (reads_of self.old + 1) 0xffff_ffff_ffff_ffff }
        ensures given { result_ok result ≡ given_by self.old (reads_of self.new) name.now offset
            (length into.old) }

        // No count rises but that of the name that failed.
        ensures steady { OnOk result ((any : List ℕ)
            → count_of self.new any ≡ count_of self.old any) }
        ensures other { (any : List ℕ) → place_of self.old any ≢ place_of self.old name.now
            → count_of self.new any ≡ count_of self.old any }
    {
        self.reads = self.reads.saturating_add(1);
        if !self.failing.contains(&self.reads) {
            if let Some(bytes) = bytes_of(self.files.as_slice(), name) {
                return Ok(read_from(bytes, offset, into));
            }
        }
        self.raise(name);
        Err(ReadFailed)
    }
}

/// A sink that keeps what it takes, with the numbers of the writes that fail and of those that
/// take nothing. Writes of a piece that isn't empty count, from 1.
#[derive(Drop)]
pub struct MemorySink {
    bytes: Vec<u8>,
    room: usize,
    most: usize,
    writes: u64,
    failing: Vec<u64>,
    empty: Vec<u64>,
    faults: u64,
    ghost roomy: { room ≤ vec_capacity bytes },
    ghost within: { vec_len bytes ≤ room },
    ghost takes_some: { 0 < most },
}

impl MemorySink {
    ghost use Rattle.test_memory.specs.OfSink.{taken, IsNewSink};

    /// Takes the room for `room` bytes. A write takes at most `most` bytes; it fails where its
    /// number is in `failing` or no room is left, and takes 0 where its number is in `empty` and
    /// not in `failing`.
    pub fn make(
        alloc: Global,
        room: u64,
        most: u64,
        failing: &[u64],
        empty: &[u64],
    ) -> Result<MemorySink, AllocError>
        requires { 0 < most }
        ensures { IfOk result (λ sink. IsNewSink sink room most failing.now empty.now) }
    {
        Ok(MemorySink {
            bytes: Vec::with_capacity(alloc, room as usize)?,
            room: room as usize,
            most: most as usize,
            writes: 0,
            failing: Vec::from_slice(alloc, failing)?,
            empty: Vec::from_slice(alloc, empty)?,
            faults: 0,
        })
    }

    /// The bytes held.
    pub fn bytes(&self) -> &[u8]
        ensures { result.now ≡ taken self.now }
    {
        self.bytes.as_slice()
    }
}

impl Sink for MemorySink {
    ghost use Rattle.std.specs.Prelude.{Some};
    ghost use Rattle.test_memory.specs.OfSink.{taken, faults_of, writes_of, taken_by};

    ghost held = { λ s. Some (taken s) };

    ghost faults = { faults_of };

    ghost last = { Some 0xffff_ffff_ffff_ffff };

    fn write(&mut self, piece: &[u8]) -> Result<usize, WriteFailed>
        // As of every sink.
        ensures within { IfOk result (λ n. n ≤ length piece.now) }
        ensures gains { IfOk result (λ n. Some (taken self.new)
            ≡ grown (Some (taken self.old)) (take n piece.now)) }
        ensures none { IfOk result (λ n. n ≡ 0 → 0 < length piece.now
            → Rose (Some 0xffff_ffff_ffff_ffff) (faults_of self.old) (faults_of self.new)) }
        ensures err { OnErr result (Some (taken self.new) ≡ Some (taken self.old)) }
        ensures cause { OnErr result
            (Rose (Some 0xffff_ffff_ffff_ffff) (faults_of self.old) (faults_of self.new)) }
        ensures later { faults_of self.old ≤ faults_of self.new }

        // Which writes fail, and how much the others take.
        ensures number { writes_of self.new
            ≡ (if length piece.now == 0 then writes_of self.old else min (writes_of self.old + 1)
            0xffff_ffff_ffff_ffff) }
        ensures takes { result_ok result ≡ taken_by self.old (writes_of self.new) piece.now }
    {
        if piece.is_empty() {
            return Ok(0);
        }
        self.writes = self.writes.saturating_add(1);
        if self.failing.contains(&self.writes) {
            self.faults = self.faults.saturating_add(1);
            return Err(WriteFailed);
        }
        if self.empty.contains(&self.writes) {
            self.faults = self.faults.saturating_add(1);
            return Ok(0);
        }
        let room = self.room - self.bytes.len();
        let n = piece.len().min(self.most.min(room));
        if room == 0 || self.bytes.extend_from_slice(&piece[..n]).is_err() {
            self.faults = self.faults.saturating_add(1);
            return Err(WriteFailed);
        }
        Ok(n)
    }
}
