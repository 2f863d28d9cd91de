//! The progress through a step, run by run.
ghost use Rattle.std.specs.Prelude.{◌≡◌, ℤ, ◌+◌, ◌≤◌, ◌+ℤ◌, ◌≤ℤ◌, ◌<ℤ◌, length};
ghost use Rattle.slope_list.specs.Curve.{IsLimitedCurve};
ghost use Rattle.slope_list.specs.Table.{IsPlace};
ghost use Rattle.slope_list.specs.Pieces.{end_at, IsLine, Stand};
ghost use Rattle.slope_list.specs.Kink.{IsGentle, IsSteep};
ghost use Rattle.slope_list.specs.Cursors.{IsPlaced};
ghost use Rattle.slope_list.specs.Blocks.{IsInBlock, HasCosts};
ghost use Rattle.slope_list.specs.After.{stepped};
ghost use Rattle.slope_list.specs.Drawn.{with_cost, IsDrawn};
ghost use Rattle.slope_list.specs.StepProgress.{IsFurther};
ghost use Rattle.slope_list.specs.Runs.{IsNear, IsRun};

use crate::cursor::Cursor;
use crate::draw::{Pen, write_part_over_cost_blocks};
use crate::piece::Piece;
use crate::run::{Run, next_run_of_pieces};
use crate::window::{Window, cursor_past_flat_piece, is_in_flat_part};
use uc_model::units::Curve;

/// How far a step is taken: the cursor before the step, and the pen after it.
#[derive(Clone, Copy)]
pub(crate) struct StepProgress {
    pub cursor: Cursor,
    pub pen: Pen,
}

/// Writes a piece of a run.
fn write_run_piece(curve: &Curve, run: Run, piece: Piece, pen: Pen, out: &mut [Piece]) -> Pen
    requires limited { IsLimitedCurve curve.now }
    requires rise { pen.at <ℤ (piece.end +ℤ run.shift) }
    requires block { IsInBlock curve.now pen.at pen.span }
    requires costs { HasCosts curve.now pen.at (piece.end +ℤ run.shift) }
    requires power { IsPlace (piece.end +ℤ run.shift) }
    requires gentle { IsGentle piece.slope }
    requires steep { IsSteep run.slope }
    requires room { pen.used + length curve.now.blocks.items ≤ length out.old + pen.span.index }
    ensures drawn { (f : ℤ → ℤ) (lo : ℤ)
        → IsLine f pen.at (piece.end +ℤ run.shift) (piece.slope +ℤ run.slope)
        → IsDrawn (with_cost f curve.now) lo out.old pen
        → IsDrawn (with_cost f curve.now) lo out.new result }
    ensures at { result.at ≡ piece.end +ℤ run.shift }
    ensures block { IsInBlock curve.now (piece.end +ℤ run.shift) result.span }
    ensures used { result.used + pen.span.index ≤ pen.used + result.span.index + 1 }
{
    write_part_over_cost_blocks(
        curve,
        piece.slope + run.slope,
        piece.end + run.shift,
        pen,
        out,
    )
}

/// Writes the pieces of a run, the last of them up to where the run ends.
fn write_run_of_pieces(
    window: &Window<'_>,
    curve: &Curve,
    run: Run,
    from: StepProgress,
    out: &mut [Piece],
) -> StepProgress
    requires limited { IsLimitedCurve curve.now }
    requires costs { HasCosts curve.now from.pen.at window.now.high }
    requires block { IsInBlock curve.now from.pen.at from.pen.span }
    requires placed { IsPlaced window.now.start.first window.now.pieces.now from.cursor }
    requires run { IsRun window.now from.cursor.at run }
    requires at { from.pen.at ≡ from.cursor.at +ℤ run.shift }
    requires room { from.pen.used + length window.now.pieces.now + length curve.now.blocks.items
        ≤ length out.old + from.pen.span.index + from.cursor.next }
    ensures { IsFurther window.now curve.now out.old out.new from result }
{
    let pieces = window.pieces;
    let mut cursor = from.cursor;
    let mut pen = from.pen;
    while cursor.next < pieces.len() && pieces[cursor.next].end <= run.until {
        let piece = pieces[cursor.next];
        pen = write_run_piece(curve, run, piece, pen, out);
        cursor = Cursor {
            at: piece.end,
            next: cursor.next + 1,
        };
    }
    if pen.at < run.until + run.shift {
        let rest = Piece {
            end: run.until,
            slope: pieces[cursor.next].slope,
        };
        pen = write_run_piece(curve, run, rest, pen, out);
    }
    StepProgress {
        cursor: Cursor {
            at: run.until,
            next: cursor.next,
        },
        pen,
    }
}

/// Writes the flat part.
fn write_flat_part(
    window: &Window<'_>,
    curve: &Curve,
    from: StepProgress,
    out: &mut [Piece],
) -> StepProgress
    requires limited { IsLimitedCurve curve.now }
    requires costs { HasCosts curve.now from.pen.at window.now.high }
    requires block { IsInBlock curve.now from.pen.at from.pen.span }
    requires placed { IsPlaced window.now.start.first window.now.pieces.now from.cursor }
    requires near { IsNear window.now from.cursor.at from.pen.at }
    requires high { from.pen.at <ℤ window.now.high }
    requires turn { window.now.turn ≤ℤ from.cursor.at }
    requires short { from.pen.at <ℤ (from.cursor.at +ℤ window.now.step.ramp_up) }
    requires room { from.pen.used + length curve.now.blocks.items
        ≤ length out.old + from.pen.span.index }
    ensures { IsFurther window.now curve.now out.old out.new from result }
{
    let cursor = cursor_past_flat_piece(window, from.cursor);
    let end = (cursor.at + window.step.ramp_up).min(window.high);
    StepProgress {
        cursor,
        pen: write_part_over_cost_blocks(curve, window.step.slope, end, from.pen, out),
    }
}

/// Writes the flat part or the run that the progress is at.
fn write_next_run_or_flat_part(
    window: &Window<'_>,
    curve: &Curve,
    progress: StepProgress,
    out: &mut [Piece],
) -> StepProgress
    requires limited { IsLimitedCurve curve.now }
    requires costs { HasCosts curve.now progress.pen.at window.now.high }
    requires block { IsInBlock curve.now progress.pen.at progress.pen.span }
    requires placed { IsPlaced window.now.start.first window.now.pieces.now progress.cursor }
    requires near { IsNear window.now progress.cursor.at progress.pen.at }
    requires high { progress.pen.at <ℤ window.now.high }
    requires room { progress.pen.used + length window.now.pieces.now + length curve.now.blocks.items
        ≤ length out.old + progress.pen.span.index + progress.cursor.next }
    ensures { IsFurther window.now curve.now out.old out.new progress result }
{
    if is_in_flat_part(window, progress.cursor, progress.pen.at) {
        return write_flat_part(window, curve, progress, out);
    }
    let run = next_run_of_pieces(window, progress.cursor);
    write_run_of_pieces(window, curve, run, progress, out)
}

/// Writes the pieces of the function after a step from the pen on, and answers how many there are.
pub(crate) fn write_pieces_after_step(
    window: &Window<'_>,
    curve: &Curve,
    near: Cursor,
    from: Pen,
    out: &mut [Piece],
) -> usize
    requires limited { IsLimitedCurve curve.now }
    requires placed { IsPlaced window.now.start.first window.now.pieces.now near }
    requires near { IsNear window.now near.at from.at }
    requires high { from.at ≤ℤ window.now.high }
    requires costs { HasCosts curve.now from.at window.now.high }
    requires block { from.at <ℤ window.now.high → IsInBlock curve.now from.at from.span }
    requires begins { from.used ≡ 0 }
    requires room { length window.now.pieces.now + length curve.now.blocks.items + 3
        ≤ length out.old }
    ensures drawn { Stand (stepped window.now.start window.now.pieces.now window.now.step
        window.now.turn curve.now) from.at out.new result }
    ensures ends { end_at from.at out.new result ≡ window.now.high }
    ensures used { result ≤ length window.now.pieces.now + length curve.now.blocks.items + 3 }
{
    let mut progress = StepProgress {
        cursor: near,
        pen: from,
    };
    while progress.pen.at < window.high {
        progress = write_next_run_or_flat_part(window, curve, progress, out);
    }
    progress.pen.used
}
