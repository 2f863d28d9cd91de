//! Powers of a function, found among its pieces.
ghost use Rattle.std.specs.Prelude.{◌≡◌, ◌≤ℤ◌};
ghost use Rattle.slope_list.specs.Pieces.{last_power, function_of, AreSlopes};
ghost use Rattle.slope_list.specs.Cursors.{IsPlaced, AreWithin, IsValley};

use crate::piece::{Piece, Start, end_of_pieces, value_at_power_in_piece};

/// A power of the function, and the index of the piece that goes on there.
#[derive(Clone, Copy)]
pub struct Cursor {
    /// In kilowatts.
    pub at: i64,
    /// How many pieces there are where none goes on.
    pub next: usize,
}

/// The power from which the function doesn't fall, with the index of the piece that goes on there.
pub fn end_of_fall(pieces: &[Piece], start: Start) -> Cursor
    requires slopes { AreSlopes start.first pieces.now }
    ensures placed { IsPlaced start.first pieces.now result }
    ensures valley { IsValley (function_of start pieces.now) start.first
        (last_power start.first pieces.now) result.at }
{
    let mut next = 0;
    while next < pieces.len() && pieces[next].slope < 0 {
        next += 1;
    }
    Cursor {
        at: end_of_pieces(pieces, start.first, next),
        next,
    }
}

/// What is found at a power: the index of the piece that goes on there, and the value.
#[derive(Clone, Copy)]
pub struct Reached {
    /// How many pieces there are where none goes on.
    pub next: usize,
    /// In millionths of the currency.
    pub value: i64,
}

/// Finds a power of the interval, in kilowatts.
pub fn value_and_piece_at_power(pieces: &[Piece], start: Start, at: i64) -> Reached
    requires slopes { AreSlopes start.first pieces.now }
    requires from { start.first ≤ℤ at }
    requires to { at ≤ℤ last_power start.first pieces.now }
    requires within { AreWithin start pieces.now }
    ensures value { result.value ≡ function_of start pieces.now at }
    ensures placed { IsPlaced start.first pieces.now (record { at = at; next = result.next }) }
{
    let mut from = start.first;
    let mut value = start.level;
    let mut next = 0;
    while next < pieces.len() && pieces[next].end <= at {
        let piece = pieces[next];
        value = value_at_power_in_piece(value, piece, from, piece.end);
        from = piece.end;
        next += 1;
    }
    if next < pieces.len() {
        value = value_at_power_in_piece(value, pieces[next], from, at);
    }
    Reached { next, value }
}
