//! What is read off pieces.
ghost use Rattle.std.specs.Prelude.{◌≡◌, ◌+ℤ◌, ◌≤ℤ◌, ◌<ℤ◌, IsTrue, MatchOption};
ghost use Rattle.std.specs.Bool.{OnTrue};
ghost use Rattle.slope_list.specs.Effect.{IsLeast, IsLeastIn};
ghost use Rattle.slope_list.specs.Table.{HasNone, IsAmount};
ghost use Rattle.slope_list.specs.Below.{IsAbove, IsShift};
ghost use Rattle.slope_list.specs.Pieces.{last_power, function_of, table_of, AreSlopes};
ghost use Rattle.slope_list.specs.Cursors.{AreWithin};

use crate::cursor::{end_of_fall, value_and_piece_at_power};
use crate::piece::{Piece, Start, last_power, value_at_power_in_piece};

/// A power and the value there.
#[derive(Clone, Copy)]
pub struct Spot {
    /// In kilowatts.
    pub at: i64,
    /// In millionths of the currency.
    pub value: i64,
}

/// Whether a value with the shift is above a limit.
fn is_shifted_value_above_limit(value: i64, shift: i64, limit: i64) -> bool
    requires value { IsAmount value }
    requires shift { IsShift shift }
    ensures { IsTrue result → limit <ℤ (value +ℤ shift) }
{
    value + shift > limit
}

/// Whether the function with the shift is above a limit at each power. It falls at first, so only
/// its falling pieces are looked at, and only as long as they are above.
pub fn is_function_above_limit(pieces: &[Piece], start: Start, shift: i64, limit: i64) -> bool
    requires slopes { AreSlopes start.first pieces.now }
    requires within { AreWithin start pieces.now }
    requires shift { IsShift shift }
    ensures { OnTrue result (IsAbove (table_of start pieces.now) shift limit) }
{
    let mut at = start.first;
    let mut value = start.level;
    for piece in pieces {
        if !is_shifted_value_above_limit(value, shift, limit) {
            return false;
        }
        if piece.slope >= 0 {
            return true;
        }
        value = value_at_power_in_piece(value, *piece, at, piece.end);
        at = piece.end;
    }
    is_shifted_value_above_limit(value, shift, limit)
}

/// The value at a power of the interval.
fn power_with_its_value(pieces: &[Piece], start: Start, at: i64) -> Spot
    requires slopes { AreSlopes start.first pieces.now }
    requires from { start.first ≤ℤ at }
    requires to { at ≤ℤ last_power start.first pieces.now }
    requires within { AreWithin start pieces.now }
    ensures at { result.at ≡ at }
    ensures value { result.value ≡ function_of start pieces.now at }
{
    let reached = value_and_piece_at_power(pieces, start, at);
    Spot {
        at,
        value: reached.value,
    }
}

/// The least value, at its least power.
pub fn spot_of_least_value(pieces: &[Piece], start: Start) -> Spot
    requires slopes { AreSlopes start.first pieces.now }
    requires within { AreWithin start pieces.now }
    ensures { IsLeast (table_of start pieces.now) result.value result.at }
{
    let mut at = start.first;
    let mut value = start.level;
    for piece in pieces {
        if piece.slope >= 0 {
            return Spot { at, value };
        }
        value = value_at_power_in_piece(value, *piece, at, piece.end);
        at = piece.end;
    }
    Spot { at, value }
}

/// The least value of the powers from `lo` to `hi`, at its least power; None exactly where none of
/// them is in the interval.
pub fn least_in(pieces: &[Piece], start: Start, lo: i64, hi: i64) -> Option<Spot>
    requires slopes { AreSlopes start.first pieces.now }
    requires within { AreWithin start pieces.now }
    ensures { MatchOption result (HasNone lo hi (table_of start pieces.now))
        (λ r. IsLeastIn lo hi (table_of start pieces.now) r.value r.at) }
{
    let low = lo.max(start.first);
    let high = hi.min(last_power(pieces, start.first));
    if low > high {
        return None;
    }
    let at = low.max(high.min(end_of_fall(pieces, start).at));
    Some(power_with_its_value(pieces, start, at))
}
