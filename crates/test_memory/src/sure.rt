// A shelf and a sink that never fail.
ghost use Rattle.std.specs.Prelude.{◌≡◌, ◌-◌, ◌<◌, length, Ok, IfOk};
ghost use Rattle.test_memory.specs.Named.{sure_in};

use crate::copies::{bytes_of, copies_of, read_from};
use crate::memory::File;
use hull_io::{ReadFailed, Shelf, Sink, WriteFailed};
use std::alloc::{AllocError, Global};

/// A shelf that has every name, with no bytes under those that it wasn't given.
#[derive(Drop)]
pub struct SureShelf {
    files: Vec<File>,
}

impl SureShelf {
    ghost use Rattle.test_memory.specs.OfSure.{sure_of};

    /// Copies the files. Their names are meant to differ; of two files of one name the first is
    /// read.
    pub fn make(alloc: Global, files: &[File]) -> Result<SureShelf, AllocError>
        ensures { IfOk result (λ shelf. sure_of shelf ≡ sure_in files.now) }
    {
        Ok(SureShelf {
            files: copies_of(alloc, files)?,
        })
    }
}

impl Shelf for SureShelf {
    ghost use Rattle.std.specs.Prelude.{None, Some};
    ghost use Rattle.test_memory.specs.OfSure.{sure_of};

    ghost told = { λ s name. Some (sure_of s name) };

    ghost faults = { λ _ _. 0 };

    ghost last = { None };

    fn read(&mut self, name: &str, offset: u64, into: &mut [u8]) -> Result<usize, ReadFailed> {
        match bytes_of(self.files.as_slice(), name) {
            Some(bytes) => Ok(read_from(bytes, offset, into)),
            None => Ok(0),
        }
    }
}

/// A sink that takes each piece whole, keeps none of it and tells no bytes.
#[derive(Debug, Clone, Copy)]
pub struct SureSink;

impl SureSink {
    /// A sink that never fails.
    pub fn make() -> SureSink {
        SureSink
    }
}

impl Sink for SureSink {
    ghost use Rattle.std.specs.Prelude.{None};

    ghost held = { λ _. None };

    ghost faults = { λ _. 0 };

    ghost last = { None };

    fn write(&mut self, piece: &[u8]) -> Result<usize, WriteFailed>
        ensures { result ≡ Ok (length piece.now) }
    {
        Ok(piece.len())
    }
}
