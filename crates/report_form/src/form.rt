//! A text by its form: one text with blanks, each a `%`, and a part for each blank.
ghost use Rattle.std.specs.Prelude.{◌≡◌, ◌++◌};
ghost use Rattle.std.specs.List.{position, before_first, after_first};
ghost use Rattle.hull_io.specs.Edge.{Writes};
ghost use Rattle.report_form.specs.Parts.{part_text};
ghost use Rattle.report_form.specs.Forms.{is_blank, filled};
ghost use Rattle.report_form.specs.Pending.{Adds};

use crate::parts::{Part, add_form_part};
use crate::pieces::{Piece, add_bytes};
use hull_io::{Sink, WriteFailed, write_whole};

// What is before the first blank of a form, and what is behind it.
#[derive(Clone, Copy)]
struct Cut<'a> {
    before: &'a [u8],
    behind: &'a [u8],
}

// Where the first blank is, if there is one.
fn first_placeholder_in_form(form: &[u8]) -> Option<usize>
    ensures { result ≡ position is_blank form.now }
{
    form.iter().position(|byte| *byte == b'%')
}

// The form cut at its first blank; all of it is before where there is none.
fn cut_form_at_placeholder(form: &[u8]) -> Cut<'_>
    ensures before { result.before.now ≡ before_first is_blank form.now }
    ensures behind { result.behind.now ≡ after_first is_blank form.now }
{
    match first_placeholder_in_form(form) {
        Some(index) => Cut {
            before: &form[..index],
            behind: &form[index + 1..],
        },
        None => Cut {
            before: form,
            behind: &[],
        },
    }
}

fn add_text_and_part<S: Sink>(
    out: &mut S,
    piece: &mut Piece,
    text: &[u8],
    part: &Part<'_>,
) -> Result<(), WriteFailed>
    ensures { Adds S.held S.faults S.last out.old out.new result piece.old piece.new
        (text.now ++ part_text part.now) }
{
    add_bytes(out, piece, text)?;
    add_form_part(out, piece, part)
}

fn write_buffered_text_and_rest<S: Sink>(
    out: &mut S,
    piece: Piece,
    text: &[u8],
) -> Result<(), WriteFailed>
    ensures { Writes S.held S.faults S.last out.old out.new result (piece ++ text.now) }
{
    let mut piece = piece;
    add_bytes(out, &mut piece, text)?;
    write_whole(out, piece.as_slice())
}

/// Writes a form with its blanks filled, each `%` by the next part, in pieces of some KiB. A blank
/// that no part is left for stays, and parts that no blank is left for come last. Refused only where the
/// sink's count of faults rose, and then the sink gained a front of the text.
pub fn write_form_filled_with_parts<S: Sink>(
    out: &mut S,
    form: &[u8],
    parts: &[Part<'_>],
) -> Result<(), WriteFailed>
    ensures { Writes S.held S.faults S.last out.old out.new result (filled form.now parts.now) }
{
    let mut piece = Piece::new();
    let mut rest = form;
    for part in parts {
        let cut = cut_form_at_placeholder(rest);
        add_text_and_part(out, &mut piece, cut.before, part)?;
        rest = cut.behind;
    }
    write_buffered_text_and_rest(out, piece, rest)
}
