// The steps of a shelf in memory.
ghost use Rattle.std.specs.Prelude.{◌≡◌, ◌-◌, ◌<◌, min, length, Some, IfOk, IfSome};
ghost use Rattle.std.specs.Option.{option_copied};
ghost use Rattle.hull_io.specs.Edge.{ReadsAt};
ghost use Rattle.test_memory.specs.Named.{entry_of, entries_of, first_in, told_in, place_in};

use crate::memory::File;
use std::alloc::{AllocError, Global};

/// A copy of a file.
fn copy_of(alloc: Global, file: &File) -> Result<File, AllocError>
    ensures { IfOk result (λ copy. entry_of copy ≡ entry_of file.now) }
{
    Ok(File {
        name: String::from_str(alloc, file.name.as_str())?,
        bytes: Vec::from_slice(alloc, file.bytes.as_slice())?,
    })
}

/// Copies of files.
pub fn copies_of(alloc: Global, files: &[File]) -> Result<Vec<File>, AllocError>
    ensures { IfOk result (λ copies. entries_of copies.items ≡ entries_of files.now) }
{
    let mut copies = Vec::with_capacity(alloc, files.len())?;
    for file in files {
        copies.push(copy_of(alloc, file)?)?;
    }
    Ok(copies)
}

/// The first file of this name.
fn first_of<'a>(files: &'a [File], name: &str) -> Option<&'a File>
    ensures { option_copied result ≡ first_in files.now name.now }
{
    files.iter().find(|file| file.name.as_str() == name)
}

/// The bytes under this name.
pub fn bytes_of<'a>(files: &'a [File], name: &str) -> Option<&'a [u8]>
    ensures { option_copied result ≡ told_in files.now name.now }
{
    let file = first_of(files, name)?;
    Some(file.bytes.as_slice())
}

/// The place of the first file of this name.
pub fn place_of(files: &[File], name: &str) -> Option<usize>
    ensures value { result ≡ place_in files.now name.now }
    ensures within { IfSome result (λ i. i < length files.now) }
{
    files.iter().position(|file| file.name.as_str() == name)
}

/// Copies the bytes from an offset on, as many as there is room for.
pub fn read_from(bytes: &[u8], offset: u64, into: &mut [u8]) -> usize
    ensures count { result ≡ min (length bytes.now - offset) (length into.old) }
    ensures read { ReadsAt bytes.now offset result into.new }
{
    if offset as usize >= bytes.len() {
        return 0;
    }
    let rest = &bytes[offset as usize..];
    let n = rest.len().min(into.len());
    into[..n].copy_from_slice(&rest[..n]);
    n
}
