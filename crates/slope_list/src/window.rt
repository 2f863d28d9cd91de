//! The least value in reach of the ramps, run by run.
ghost use Rattle.std.specs.Prelude.{◌≡◌, ◌≤◌, ◌+ℤ◌, ◌≤ℤ◌, ◌<ℤ◌, IsTrue, IsFalse};
ghost use Rattle.slope_list.specs.Kink.{kinked};
ghost use Rattle.slope_list.specs.Cursors.{IsPlaced};
ghost use Rattle.slope_list.specs.Window.{IsStepOver, IsFlat};

use crate::cursor::Cursor;
use crate::kink::part_less_reserve;
use crate::piece::{Piece, Start};
use crate::step_terms::Step;

/// A function with the step over it.
#[derive(Drop)]
pub struct Window<'a> {
    pub pieces: &'a [Piece],
    pub start: Start,
    pub step: Step,
    /// The least power of the least value, in kilowatts: the function's parts move apart from it.
    pub turn: i64,
    /// The last power that is asked for, in kilowatts.
    pub high: i64,
    ghost valid: { IsStepOver pieces.now start step turn high },
}

/// The last power of the least value, as far as one piece goes.
pub fn cursor_past_flat_piece(window: &Window<'_>, cursor: Cursor) -> Cursor
    requires placed { IsPlaced window.now.start.first window.now.pieces.now cursor }
    requires turn { cursor.at ≡ window.now.turn }
    ensures flat { IsFlat (kinked window.now.start window.now.pieces.now window.now.step) cursor.at
        result.at }
    ensures placed { IsPlaced window.now.start.first window.now.pieces.now result }
    ensures next { cursor.next ≤ result.next }
{
    if cursor.next < window.pieces.len() {
        let part = part_less_reserve(window.pieces, cursor, window.step);
        if part.slope == 0 {
            return part.then;
        }
    }
    cursor
}

/// Whether a power, which is the nearest one in reach, stands for a flat part.
pub fn is_in_flat_part(window: &Window<'_>, cursor: Cursor, at: i64) -> bool
    requires placed { IsPlaced window.now.start.first window.now.pieces.now cursor }
    ensures flat { IsTrue result → (window.now.turn ≤ℤ cursor.at)
        × (at <ℤ (cursor.at +ℤ window.now.step.ramp_up)) }
    ensures not_flat { IsFalse result → window.now.turn ≤ℤ cursor.at
        → (cursor.at +ℤ window.now.step.ramp_up) ≤ℤ at }
{
    window.turn <= cursor.at && at < cursor.at + window.step.ramp_up
}
