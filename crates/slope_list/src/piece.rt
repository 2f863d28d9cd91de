//! Pieces of one slope.
ghost use Rattle.std.specs.Prelude.{◌≡◌, ◌≤◌, ◌+ℤ◌, ◌-ℤ◌, ◌*ℤ◌, length};
ghost use Rattle.slope_list.specs.Pieces.{end_at, last_power};
ghost use Rattle.slope_list.specs.Totals.{CanGo};

/// A part of one slope: it begins where the piece before it ends, or at the first power.
#[derive(Clone, Copy)]
pub struct Piece {
    /// Where it ends, in kilowatts.
    pub end: i64,
    /// Millionths of the currency for a kilowatt.
    pub slope: i64,
}

/// Where a function begins.
#[derive(Clone, Copy)]
pub struct Start {
    /// Its first power, in kilowatts.
    pub first: i64,
    /// Its value there, in millionths of the currency.
    pub level: i64,
}

/// The level at a power, where it was known at another power of the same piece. Powers are in
/// kilowatts, levels in millionths of the currency.
pub fn value_at_power_in_piece(level: i64, piece: Piece, from: i64, to: i64) -> i64
    requires { CanGo level piece.slope from to }
    ensures { result ≡ level +ℤ piece.slope *ℤ (to -ℤ from) }
{
    level + piece.slope * (to - from)
}

/// Where as many of the first pieces end, in kilowatts.
pub fn end_of_pieces(pieces: &[Piece], first: i64, count: usize) -> i64
    requires { count ≤ length pieces.now }
    ensures { result ≡ end_at first pieces.now count }
{
    if count == 0 {
        first
    } else {
        pieces[count - 1].end
    }
}

/// The last power of pieces that begin at a first power, in kilowatts.
pub fn last_power(pieces: &[Piece], first: i64) -> i64
    ensures { result ≡ last_power first pieces.now }
{
    end_of_pieces(pieces, first, pieces.len())
}
