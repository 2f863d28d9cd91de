//! The outside of the engine: files by name, and the place that its text goes to.
#![tactic(auto)]

mod file;
mod real;

ghost use Rattle.std.specs.Prelude.{◌≡◌, ℕ, ◌+◌, ◌<◌, ◌≤◌, List, length, take, Option, IfOk};
ghost use Rattle.std.specs.Prelude.{IfSome, OnErr};
ghost use Rattle.hull_io.specs.Edge.{Rose, ReadsAt, grown, Writes};

pub use file::{ReadFault, read_whole};
pub use real::{FileShelf, StdSink, argument_words};

/// A read failed.
#[derive(Debug, Clone, Copy, PartialEq, Eq)]
pub struct ReadFailed;

/// A write failed.
#[derive(Debug, Clone, Copy, PartialEq, Eq)]
pub struct WriteFailed;

/// Bytes under names. A missing name is a fault.
pub trait Shelf {
    /// The bytes under a name, where they are told.
    ghost told: { Self → List ℕ → Option (List ℕ) };

    /// How many faults there were at a name.
    ghost faults: { Self → List ℕ → ℕ };

    /// The last value of the counts, where they have one.
    ghost last: { Option ℕ };

    /// Reads bytes of the file, from `offset` on, into the front of `into`, and says how many. For
    /// a buffer that isn't empty, 0 is the end of the file. What stands in `into` behind those
    /// bytes, and at a failure in all of it, is left open.
    fn read(&mut self, name: &str, offset: u64, into: &mut [u8]) -> Result<usize, ReadFailed>
        ensures within { IfOk result (λ n. n ≤ length into.old) }
        ensures bytes { IfOk result
            (λ n. IfSome (told self.old name.now) (λ bytes. ReadsAt bytes offset n into.new)) }
        ensures cause { OnErr result
            (Rose last (faults self.old name.now) (faults self.new name.now)) }
        ensures later { (any : List ℕ) → faults self.old any ≤ faults self.new any }
        ensures told { told self.new ≡ told self.old };
}

/// Where the text goes.
pub trait Sink {
    /// The bytes held, where they are told.
    ghost held: { Self → Option (List ℕ) };

    /// How many faults there were.
    ghost faults: { Self → ℕ };

    /// The last value of the count, where it has one.
    ghost last: { Option ℕ };

    /// Appends the front of a piece, and says how many bytes it took. 0 for a piece that isn't
    /// empty is a fault.
    fn write(&mut self, piece: &[u8]) -> Result<usize, WriteFailed>
        ensures within { IfOk result (λ n. n ≤ length piece.now) }
        ensures gains { IfOk result (λ n. held self.new
            ≡ grown (held self.old) (take n piece.now)) }
        ensures none { IfOk result (λ n. n ≡ 0 → 0 < length piece.now
            → Rose last (faults self.old) (faults self.new)) }
        ensures err { OnErr result (held self.new ≡ held self.old) }
        ensures cause { OnErr result (Rose last (faults self.old) (faults self.new)) }
        ensures later { faults self.old ≤ faults self.new };
}

/// Writes the piece whole, by as many writes as it takes. At `Err` the sink has gained a front of
/// the piece, and its count rose.
pub fn write_whole<S: Sink>(out: &mut S, piece: &[u8]) -> Result<(), WriteFailed>
    ensures { Writes S.held S.faults S.last out.old out.new result piece.now }
{
    let mut at = 0usize;
    while at < piece.len() {
        let n = out.write(&piece[at..])?;
        if n == 0 {
            return Err(WriteFailed);
        }
        at += n;
    }
    Ok(())
}
