//! The parts that fill the blanks of a text.
ghost use Rattle.std.specs.Prelude.{◌≡◌, ◌<◌};
ghost use Rattle.std.specs.List.{flat_map, list_all};
ghost use Rattle.report_form.specs.Parts.{part_text, hex_of, stands_as_is, escaped, quoted, tally};
ghost use Rattle.report_form.specs.Pending.{Adds};

use crate::pieces::{Listed, Piece, add_bytes, add_list_items, add_number, add_word_and_number};
use hull_io::{Sink, WriteFailed};

/// A part of a text.
#[derive(Clone, Copy)]
pub enum Part<'a> {
    /// As it stands.
    Text(&'a [u8]),
    /// A number in decimal digits.
    Count(u64),
    /// A number in decimal digits, with `-` before a negative one.
    Amount(i128),
    /// Numbers, each behind a space.
    Counts(&'a [u32]),
    /// Numbers, each behind a space.
    Numbers(&'a [i64]),
    /// Numbers, each behind a space.
    Amounts(&'a [i128]),
    /// 1 for true and 0 for false, each behind a space.
    Flags(&'a [bool]),
    /// A word and a number, or nothing where the number is 0.
    Tally(&'a [u8], u64),
    /// A name between double quotes, escaped.
    Name(&'a [u8]),
}

#[tactic(auto, using(crate::proofs::PieceLemmas::adds_nothing))]
fn add_word_and_nonzero_number<S: Sink>(
    out: &mut S,
    piece: &mut Piece,
    word: &[u8],
    n: u64,
) -> Result<(), WriteFailed>
    ensures { Adds S.held S.faults S.last out.old out.new result piece.old piece.new
        (tally word.now n) }
{
    if n == 0 {
        return Ok(());
    }
    add_word_and_number(out, piece, word, n)
}

/// A hexadecimal digit, in lower case.
fn hex_digit(k: u8) -> u8
    requires { k < 16 }
    ensures { result ≡ hex_of k }
{
    if k < 10 { b'0' + k } else { b'a' + (k - 10) }
}

/// Whether a byte of a name stands as it is: it is no control character, no quote and no backslash.
pub fn is_unescaped_byte(byte: u8) -> bool
    ensures { result ≡ stands_as_is byte }
{
    byte >= 32 && byte != b'"' && byte != b'\\'
}

// As a byte of a name, escaped.
impl Listed for u8 {
    ghost told = { escaped };

    fn add<S: Sink>(self, out: &mut S, piece: &mut Piece) -> Result<(), WriteFailed> {
        if is_unescaped_byte(self) {
            add_bytes(out, piece, &[self])
        } else if self < 32 {
            add_bytes(
                out,
                piece,
                &[
                    b'\\',
                    b'u',
                    b'0',
                    b'0',
                    hex_digit(self / 16),
                    hex_digit(self % 16),
                ],
            )
        } else {
            add_bytes(out, piece, &[b'\\', self])
        }
    }
}

fn has_no_byte_to_escape(name: &[u8]) -> bool
    ensures { result ≡ list_all stands_as_is name.now }
{
    name.iter().all(|byte| is_unescaped_byte(*byte))
}

/// Most names need no escape and are added at once.
fn add_escaped_name_bytes<S: Sink>(
    out: &mut S,
    piece: &mut Piece,
    name: &[u8],
) -> Result<(), WriteFailed>
    ensures { Adds S.held S.faults S.last out.old out.new result piece.old piece.new
        (flat_map escaped name.now) }
{
    if has_no_byte_to_escape(name) {
        add_bytes(out, piece, name)
    } else {
        add_list_items(out, piece, name)
    }
}

fn add_quoted_name<S: Sink>(out: &mut S, piece: &mut Piece, name: &[u8]) -> Result<(), WriteFailed>
    ensures { Adds S.held S.faults S.last out.old out.new result piece.old piece.new
        (quoted name.now) }
{
    add_bytes(out, piece, b"\"")?;
    add_escaped_name_bytes(out, piece, name)?;
    add_bytes(out, piece, b"\"")
}

/// Adds a part.
pub(crate) fn add_form_part<S: Sink>(
    out: &mut S,
    piece: &mut Piece,
    part: &Part<'_>,
) -> Result<(), WriteFailed>
    ensures { Adds S.held S.faults S.last out.old out.new result piece.old piece.new
        (part_text part.now) }
{
    match *part {
        Part::Text(bytes) => add_bytes(out, piece, bytes),
        Part::Count(n) => add_number(out, piece, n),
        Part::Amount(x) => add_number(out, piece, x),
        Part::Counts(ns) => add_list_items(out, piece, ns),
        Part::Numbers(xs) => add_list_items(out, piece, xs),
        Part::Amounts(xs) => add_list_items(out, piece, xs),
        Part::Flags(flags) => add_list_items(out, piece, flags),
        Part::Tally(word, n) => add_word_and_nonzero_number(out, piece, word, n),
        Part::Name(name) => add_quoted_name(out, piece, name),
    }
}
