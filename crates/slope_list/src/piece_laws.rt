//! Laws of pieces: each is the contract of a function that does nothing.
ghost use Rattle.slope_list.specs.Laws.{PiecesBegin, PiecesEnd};

/// The function of pieces goes from their first power, with its level, to the end of the last
/// piece.
pub fn pieces_begin_and_end()
    ensures first { PiecesBegin }
    ensures last { PiecesEnd }
{}
