//! What each step tells. These types are for the proofs alone.
ghost use Rattle.board_share.specs.Tells.{drew, looked, grew, passed, told};
ghost use Rattle.board_share.specs.Views.{cut_left, cut_right, glued, nobody};

use crate::table::Sight;
use atomic_table::{Join, Play, Split};
use board_core::Board;

/// A seat draws a ticket.
pub struct Draw;

impl Play<Board, Sight> for Draw {
    ghost then = { drew };
}

/// A seat looks whether its turn has come, and then has the board.
pub struct Look;

impl Play<Board, Sight> for Look {
    ghost then = { looked };
}

/// A seat that has the board sees what it did.
pub struct Grow;

impl Play<Board, Sight> for Grow {
    ghost then = { grew };
}

/// A seat hands the board on.
pub struct Pass;

impl Play<Board, Sight> for Pass {
    ghost then = { passed };
}

/// The owner reads the board again after a join.
pub struct Told;

impl Play<Board, Sight> for Told {
    ghost then = { told };
}

/// The owner makes a seat.
pub struct Cut;

impl Split<Sight> for Cut {
    ghost left = { cut_left };

    ghost right = { cut_right };
}

/// The owner takes a seat in.
pub struct Glue;

impl Join<Sight> for Glue {
    ghost both = { glued };

    ghost spent = { nobody };
}
