//! The function less the worth of the best reserve, part by part.
ghost use Rattle.std.specs.Prelude.{◌≡◌, ℤ, ◌+◌, ◌<◌, ◌≤◌, pos, negsuc, ◌≤ℤ◌, ◌<ℤ◌, length};
ghost use Rattle.slope_list.specs.Steps.{IsFairStep};
ghost use Rattle.slope_list.specs.Pieces.{piece, last_power, AreSlopes, IsLine};
ghost use Rattle.slope_list.specs.Cursors.{IsPlaced, IsValley};
ghost use Rattle.slope_list.specs.Kink.{kinked, bend_of, parts_from, IsLowered};
ghost use Rattle.slope_list.specs.Kink.{IsGentle, AreGentle, IsSteep};

use crate::cursor::{Cursor, end_of_fall};
use crate::piece::{Piece, Start};
use crate::step_terms::Step;

/// A part of one slope, and the power where it ends.
#[derive(Clone, Copy)]
pub(crate) struct Part {
    pub end: i64,
    pub slope: i64,
    pub then: Cursor,
}

/// Where the reserve meets its cap, or before all powers where reserve isn't paid for.
fn power_where_reserve_is_capped(step: Step) -> i64
    requires fair { IsFairStep step }
    ensures paid { pos 0 <ℤ step.reserve_price → result ≡ bend_of step }
    ensures free { step.reserve_price ≤ℤ pos 0 → result ≡ negsuc 9223372036854775807 }
{
    if step.reserve_price <= 0 {
        return i64::MIN;
    }
    step.cap - step.ramp_up
}

/// What is left of a piece from a power on, after the worth of the reserve is taken off.
pub(crate) fn piece_less_reserve(piece: Piece, cursor: Cursor, step: Step) -> Piece
    requires fair { IsFairStep step }
    requires gentle { IsGentle piece.slope }
    ensures { IsLowered step cursor.at piece result }
{
    let bend = power_where_reserve_is_capped(step);
    if cursor.at >= bend {
        return piece;
    }
    Piece {
        end: piece.end.min(bend),
        slope: piece.slope - step.reserve_price,
    }
}

/// The part from a power on, after the worth of the reserve is taken off.
pub(crate) fn part_less_reserve(pieces: &[Piece], cursor: Cursor, step: Step) -> Part
    requires next { cursor.next < length pieces.now }
    requires to { cursor.at <ℤ (piece pieces.now cursor.next).end }
    requires fair { IsFairStep step }
    requires gentle { AreGentle pieces.now }
    ensures line { (start : Start) → AreSlopes start.first pieces.now
        → IsPlaced start.first pieces.now cursor
        → IsLine (kinked start pieces.now step) cursor.at result.end result.slope }
    ensures placed { (first : ℤ) → AreSlopes first pieces.now → IsPlaced first pieces.now cursor
        → IsPlaced first pieces.now result.then }
    ensures then { result.then.at ≡ result.end }
    ensures later { cursor.next ≤ result.then.next }
    ensures fewer { parts_from pieces.now step result.then + 1 ≤ parts_from pieces.now step cursor }
    ensures steep { IsSteep result.slope }
{
    let whole = pieces[cursor.next];
    let piece = piece_less_reserve(whole, cursor, step);
    let next = if piece.end < whole.end {
        cursor.next
    } else {
        cursor.next + 1
    };
    Part {
        end: piece.end,
        slope: piece.slope,
        then: Cursor {
            at: piece.end,
            next,
        },
    }
}

/// The least power of the least value, less the worth of the best reserve, in kilowatts. Where the
/// function itself falls, it falls all the more less that worth, so the parts before that are
/// passed by.
pub fn power_of_least_value_less_reserve(pieces: &[Piece], start: Start, step: Step) -> i64
    requires slopes { AreSlopes start.first pieces.now }
    requires fair { IsFairStep step }
    requires gentle { AreGentle pieces.now }
    ensures { IsValley (kinked start pieces.now step) start.first
        (last_power start.first pieces.now) result }
{
    let mut cursor = end_of_fall(pieces, start);
    while cursor.next < pieces.len() {
        let part = part_less_reserve(pieces, cursor, step);
        if part.slope >= 0 {
            return cursor.at;
        }
        cursor = part.then;
    }
    cursor.at
}
