//! Whether one function is nowhere above another.
ghost use Rattle.std.specs.Prelude.{◌≡◌, suc, ◌<◌, ◌≤◌, ◌+ℤ◌, ◌≤ℤ◌, ◌<ℤ◌, IsFalse, length};
ghost use Rattle.std.specs.Bool.{OnTrue};
ghost use Rattle.slope_list.specs.Table.{IsAmount};
ghost use Rattle.slope_list.specs.Pieces.{piece, last_power, function_of, table_of, AreSlopes};
ghost use Rattle.slope_list.specs.Pieces.{IsLine};
ghost use Rattle.slope_list.specs.Cursors.{AreWithin};
ghost use Rattle.slope_list.specs.Below.{IsReached, IsNowhereAbove, IsShift};

use crate::cursor::{Reached, value_and_piece_at_power};
use crate::piece::{Piece, Start, last_power, value_at_power_in_piece};

/// Whether a value with the shift is above another one.
fn is_shifted_value_above_other(value: i64, shift: i64, other: i64) -> bool
    requires value { IsAmount value }
    requires shift { IsShift shift }
    ensures { IsFalse result → (value +ℤ shift) ≤ℤ other }
{
    value + shift > other
}

/// Goes on to another power of the same piece.
fn advance_to_power(pieces: &[Piece], start: Start, at: i64, from: Reached, end: i64) -> Reached
    requires slopes { AreSlopes start.first pieces.now }
    requires within { AreWithin start pieces.now }
    requires reached { IsReached start pieces.now at from }
    requires next { from.next < length pieces.now }
    requires rise { at <ℤ end }
    requires end { end ≤ℤ (piece pieces.now from.next).end }
    ensures reached { IsReached start pieces.now end result }
    ensures line { IsLine (function_of start pieces.now) at end (piece pieces.now from.next).slope }
    ensures later { from.next ≤ result.next }
    ensures past { end ≡ (piece pieces.now from.next).end → result.next ≡ suc from.next }
{
    let piece = pieces[from.next];
    let next = if end < piece.end {
        from.next
    } else {
        from.next + 1
    };
    Reached {
        next,
        value: value_at_power_in_piece(from.value, piece, at, end),
    }
}

/// Whether a function is wherever another one is.
fn domain_covers(pieces: &[Piece], start: Start, others: &[Piece], other: Start) -> bool
    ensures first { OnTrue result (start.first ≤ℤ other.first) }
    ensures last { OnTrue result (last_power other.first others.now
        ≤ℤ last_power start.first pieces.now) }
{
    start.first <= other.first && last_power(others, other.first) <= last_power(pieces, start.first)
}

/// Whether a function is wherever another one is, and with the shift is nowhere above it there.
pub fn is_function_nowhere_above(
    pieces: &[Piece],
    start: Start,
    others: &[Piece],
    other: Start,
    shift: i64,
) -> bool
    requires slopes { AreSlopes start.first pieces.now }
    requires within { AreWithin start pieces.now }
    requires other_slopes { AreSlopes other.first others.now }
    requires other_within { AreWithin other others.now }
    requires shift { IsShift shift }
    ensures { OnTrue result (IsNowhereAbove (table_of start pieces.now) (table_of other others.now)
        shift) }
{
    if !domain_covers(pieces, start, others, other) {
        return false;
    }
    let mut at = other.first;
    let mut here = value_and_piece_at_power(pieces, start, at);
    let mut there = value_and_piece_at_power(others, other, at);
    if is_shifted_value_above_other(here.value, shift, there.value) {
        return false;
    }
    while there.next < others.len() {
        let end = pieces[here.next].end.min(others[there.next].end);
        here = advance_to_power(pieces, start, at, here, end);
        there = advance_to_power(others, other, at, there, end);
        at = end;
        if is_shifted_value_above_other(here.value, shift, there.value) {
            return false;
        }
    }
    true
}
