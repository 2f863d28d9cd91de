//! A text that gathers in a piece of some KiB before it is written: each write to a file or a
//! terminal is a system call, and most parts of a text are a few bytes.
ghost use Rattle.std.specs.Prelude.{◌≡◌, ℕ, ◌+◌, ◌≤◌, List, [], ◌∷◌, ◌++◌, length, IsTrue, ◌↔◌};
ghost use Rattle.std.specs.Prelude.{if◌then◌else◌};
ghost use Rattle.std.specs.List.{flat_map};
ghost use Rattle.report_form.specs.Numerals.{numeral, signed_numeral};
ghost use Rattle.report_form.specs.Parts.{flag_text};
ghost use Rattle.report_form.specs.Pending.{Adds};
ghost use Rattle.report_form.specs.declared.pieces.TheConstants.{MOST};

use hull_io::{Sink, WriteFailed, write_whole};
use itoa::{Buffer, Integer};
use std::marker::Model;

/// The most bytes of a piece.
const MOST: usize = 4096;

/// What waits to be written, which a contract sees as its bytes.
#[derive(Drop)]
pub struct Piece {
    bytes: [u8; MOST],
    used: usize,
}

impl Model for Piece {
    ghost use Rattle.std.specs.Prelude.{ℕ, ◌≤◌, List, take};
    ghost use Rattle.report_form.specs.declared.pieces.TheConstants.{MOST};

    ghost Value = { List ℕ };

    ghost view = { λ p. take p.used p.bytes };

    ghost invariant = { λ p. p.used ≤ MOST };
}

impl Piece {
    /// Nothing.
    pub fn new() -> Self
        ensures { result ≡ [] }
    {
        Piece {
            bytes: [0; MOST],
            used: 0,
        }
    }

    /// Adds bytes at the end where they fit, and says whether they do.
    fn add(&mut self, more: &[u8]) -> bool
        ensures fits { IsTrue result ↔ (length self.old + length more.now ≤ MOST) }
        ensures bytes { self.new ≡ (if result then self.old ++ more.now else self.old) }
    {
        if more.len() > MOST - self.used {
            return false;
        }
        let end = self.used + more.len();
        self.bytes[self.used..end].copy_from_slice(more);
        self.used = end;
        true
    }

    /// Takes all bytes away.
    fn clear(&mut self)
        ensures { self.new ≡ [] }
    {
        self.used = 0;
    }

    /// Lends the bytes.
    pub fn as_slice(&self) -> &[u8]
        ensures value { result.now ≡ self.now }
    {
        &self.bytes[..self.used]
    }
}

/// Adds bytes to the piece. Where they don't fit it is written and emptied first; where they are
/// longer than any piece they are then written at once.
#[tactic(auto, using(crate::proofs::PieceLemmas::bytes_added))]
pub fn add_bytes<S: Sink>(out: &mut S, piece: &mut Piece, bytes: &[u8]) -> Result<(), WriteFailed>
    ensures { Adds S.held S.faults S.last out.old out.new result piece.old piece.new
        bytes.now }
{
    if piece.add(bytes) {
        return Ok(());
    }
    write_whole(out, piece.as_slice())?;
    piece.clear();
    if piece.add(bytes) {
        return Ok(());
    }
    write_whole(out, bytes)
}

/// Adds a number in decimal digits.
pub fn add_number<S: Sink, I: Integer>(
    out: &mut S,
    piece: &mut Piece,
    n: I,
) -> Result<(), WriteFailed>
    ensures { Adds S.held S.faults S.last out.old out.new result piece.old piece.new
        (I.text n) }
{
    let mut buffer = Buffer::new();
    add_bytes(out, piece, buffer.format(n).as_bytes())
}

/// Adds a word, and a number in decimal digits.
pub fn add_word_and_number<S: Sink, I: Integer>(
    out: &mut S,
    piece: &mut Piece,
    word: &[u8],
    n: I,
) -> Result<(), WriteFailed>
    ensures { Adds S.held S.faults S.last out.old out.new result piece.old piece.new
        (word.now ++ I.text n) }
{
    add_bytes(out, piece, word)?;
    add_number(out, piece, n)
}

/// An item of a list in a text: a number or a flag behind a space, or a byte of a name, which stands
/// escaped and behind no space.
pub trait Listed: Copy {
    // Its text.
    ghost told: { Self → List ℕ };

    /// Adds its text.
    fn add<S: Sink>(self, out: &mut S, piece: &mut Piece) -> Result<(), WriteFailed>
        ensures { Adds S.held S.faults S.last out.old out.new result piece.old piece.new
            (told self) };
}

// Behind a space, in decimal digits.
impl Listed for u32 {
    ghost told = { λ n. 32 ∷ numeral n };

    fn add<S: Sink>(self, out: &mut S, piece: &mut Piece) -> Result<(), WriteFailed> {
        add_word_and_number(out, piece, b" ", self)
    }
}

// Behind a space, in decimal digits with `-` before a negative one.
impl Listed for i64 {
    ghost told = { λ x. 32 ∷ signed_numeral x };

    fn add<S: Sink>(self, out: &mut S, piece: &mut Piece) -> Result<(), WriteFailed> {
        add_word_and_number(out, piece, b" ", self)
    }
}

// Behind a space, in decimal digits with `-` before a negative one.
impl Listed for i128 {
    ghost told = { λ x. 32 ∷ signed_numeral x };

    fn add<S: Sink>(self, out: &mut S, piece: &mut Piece) -> Result<(), WriteFailed> {
        add_word_and_number(out, piece, b" ", self)
    }
}

// Behind a space, 1 for true and 0 for false.
impl Listed for bool {
    ghost told = { flag_text };

    fn add<S: Sink>(self, out: &mut S, piece: &mut Piece) -> Result<(), WriteFailed> {
        add_bytes(out, piece, if self { b" 1" } else { b" 0" })
    }
}

/// Adds what a list has, one behind the other.
pub fn add_list_items<S: Sink, L: Listed>(
    out: &mut S,
    piece: &mut Piece,
    items: &[L],
) -> Result<(), WriteFailed>
    ensures { Adds S.held S.faults S.last out.old out.new result piece.old piece.new
        (flat_map L.told items.now) }
{
    for item in items {
        (*item).add(out, piece)?;
    }
    Ok(())
}
