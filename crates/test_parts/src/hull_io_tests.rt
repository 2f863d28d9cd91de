// What no clause says: that calls succeed, and what real files and outputs do.
use crate::same::{same, same_of};
use hull_io::{
    FileShelf, ReadFailed, ReadFault, Shelf, Sink, StdSink, WriteFailed, read_whole, write_whole,
};
use plain_lists::limits::MOST_BYTES;
use std::alloc::{AllocError, Global};
use std::test::Fail;
use std::{fs, io};
use test_memory::{File, MemoryShelf, MemorySink, SureShelf, SureSink};

fn file(alloc: Global, name: &str, bytes: &[u8]) -> Result<File, AllocError> {
    Ok(File {
        name: String::from_str(alloc, name)?,
        bytes: Vec::from_slice(alloc, bytes)?,
    })
}

// Reads of every name count, and a missing name fails.
#[test]
fn numbered_reads_fail(rt: HostRuntime) -> Result<(), Fail> {
    let alloc = rt.alloc();
    let files = vec![in alloc; file(alloc, "a", b"12345")?, file(alloc, "b", b"6")?]?;
    let mut shelf = MemoryShelf::make(alloc, files.as_slice(), &[2, 6])?;
    let mut into = [0u8; 3];
    for (name, offset, want) in [
        ("a", 0, Ok(3)),
        ("a", 3, Err(ReadFailed)),
        ("a", 3, Ok(2)),
        ("c", 0, Err(ReadFailed)),
        ("b", 1, Ok(0)),
        ("b", 0, Err(ReadFailed)),
        ("a", u64::MAX, Ok(0)),
        ("a", 2, Ok(3)),
    ] {
        same_of(
            &rt,
            &(name, offset),
            shelf.read(name, offset, &mut into),
            want,
        );
    }
    same(&rt, into, *b"345");
    same(&rt, shelf.read("a", 0, &mut []), Ok(0));
    Ok(())
}

// Only writes of a piece that isn't empty count; 3 is in both lists, so it fails.
#[test]
fn numbered_writes_fail(rt: HostRuntime) -> Result<(), Fail> {
    let mut sink = MemorySink::make(rt.alloc(), 9, 3, &[2, 3], &[3, 4])?;
    for (piece, want) in [
        (b"".as_slice(), Ok(0)),
        (b"abcd".as_slice(), Ok(3)),
        (b"e".as_slice(), Err(WriteFailed)),
        (b"".as_slice(), Ok(0)),
        (b"e".as_slice(), Err(WriteFailed)),
        (b"e".as_slice(), Ok(0)),
        (b"de".as_slice(), Ok(2)),
        (b"fghi".as_slice(), Ok(3)),
        (b"ijk".as_slice(), Ok(1)),
        (b"j".as_slice(), Err(WriteFailed)),
        (b"".as_slice(), Ok(0)),
    ] {
        same_of(&rt, &piece, sink.write(piece), want);
    }
    same(&rt, sink.bytes(), b"abcdefghi".as_slice());
    Ok(())
}

// A sink that takes a byte a write, and whose third write takes nothing, holds two bytes.
#[test]
fn short_writes_go_on(rt: HostRuntime) -> Result<(), Fail> {
    let mut short = MemorySink::make(rt.alloc(), 100, 1, &[], &[3])?;
    same(
        &rt,
        write_whole(&mut short, b"hull report 1\n"),
        Err(WriteFailed),
    );
    same(&rt, short.bytes(), b"hu".as_slice());
    same(&rt, write_whole(&mut short, b"ll"), Ok(()));
    same(&rt, short.bytes(), b"hull".as_slice());
    same(&rt, write_whole(&mut SureSink::make(), b"hull"), Ok(()));
    Ok(())
}

// The largest file is read whole, and one byte more is too much.
#[test]
fn largest_file(rt: HostRuntime) -> Result<(), Fail> {
    let alloc = rt.alloc();
    let mut files = vec![in alloc; file(alloc, "a", b"")?]?;
    for file in files.iter_mut() {
        file.bytes = vec![in alloc; b' '; MOST_BYTES]?;
    }
    let mut shelf = SureShelf::make(alloc, files.as_slice())?;
    same(&rt, read_whole(alloc, &mut shelf, "a")?.len(), MOST_BYTES);
    same(&rt, read_whole(alloc, &mut shelf, "b")?.len(), 0);
    for file in files.iter_mut() {
        file.bytes.push(b' ')?;
    }
    let mut shelf = MemoryShelf::make(alloc, files.as_slice(), &[1027])?;
    let big = read_whole(alloc, &mut shelf, "a").map(|_| ());
    same(&rt, big, Err(ReadFault::TooBig));
    let failed = read_whole(alloc, &mut shelf, "a").map(|_| ());
    same(&rt, failed, Err(ReadFault::Failed));
    Ok(())
}

// A path at which this user can make a file: here, or where all can. There another's run may have
// left its own.
fn scratch(rt: HostRuntime, name: &str) -> Result<String, Fail> {
    let alloc = rt.alloc();
    for folder in [".", "/tmp", "/var/tmp", "/dev/shm"] {
        let path = format!(in alloc; "{folder}/hull_io_{name}")?;
        if fs::create(&rt, path.as_str()).is_ok() {
            return Ok(path);
        }
    }
    Ok(String::from_str(alloc, "hull_io_real")?)
}

// A real file is read as it was written, in several reads and from any offset.
#[test]
fn real_file(rt: HostRuntime) -> Result<(), Fail> {
    let alloc = rt.alloc();
    let scratch = scratch(rt, "real_file")?;
    let path = scratch.as_str();
    let mut bytes = Vec::new(alloc);
    for i in 0..150_000u32 {
        bytes.push((i % 251) as u8)?;
    }
    fs::write(&rt, path, bytes.as_slice())?;
    let mut shelf = FileShelf::new(&rt);
    let whole = read_whole(alloc, &mut shelf, path)?;
    assert!(rt; whole.as_slice() == bytes.as_slice());
    same(&rt, read_whole(alloc, &mut shelf, "/dev/null")?.len(), 0);
    let mut into = [0u8; 2];
    same(&rt, shelf.read(path, 252, &mut into), Ok(2));
    same(&rt, into, [1, 2]);
    fs::remove_file(&rt, path)?;
    same(&rt, shelf.read(path, 254, &mut into), Ok(2));
    same(&rt, into, [3, 4]);
    same(&rt, shelf.read(path, 0, &mut into), Err(ReadFailed));
    same(&rt, shelf.read(path, 256, &mut into), Err(ReadFailed));
    Ok(())
}

// A real stream takes what is written, and one with no room refuses it.
#[test]
fn real_stream(rt: HostRuntime) -> Result<(), Fail> {
    let scratch = scratch(rt, "real_stream")?;
    let path = scratch.as_str();
    let mut sink = StdSink::new(fs::create(&rt, path)?);
    same(&rt, write_whole(&mut sink, b"fault 7 "), Ok(()));
    same(&rt, write_whole(&mut sink, b"memory\n"), Ok(()));
    let text = fs::read_to_string(&rt, path)?;
    fs::remove_file(&rt, path)?;
    same(&rt, text.as_str(), "fault 7 memory\n");
    // Not every system has it, or lets a program write to it.
    if let Ok(full) = fs::create(&rt, "/dev/full") {
        let mut full = StdSink::new(full);
        same(&rt, write_whole(&mut full, b"no room"), Err(WriteFailed));
    }
    same(&rt, StdSink::new(io::writer(&rt)).write(b"a test\n"), Ok(7));
    Ok(())
}
