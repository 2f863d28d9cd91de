//! What one caller of the shared board has.
use crate::table::TableSeat;
use std::marker::Model;

/// One caller's seat at a shared board. Contracts see it as the board that it is of and what it
/// knows: its caller number, a legal history that the board's begins with, and what the board was
/// made for. The owner's seat, caller 0, also knows how many seats were made and whose seats are
/// out.
#[derive(Drop)]
pub struct Seat {
    pub(crate) caller: u32,
    pub(crate) made: u32,
    pub(crate) at_table: TableSeat,
}

impl Model for Seat {
    ghost use Rattle.board_share.specs.Seats.{SeatValue, IsSeat};

    ghost Value = { SeatValue };

    ghost view = { λ s. record { board = s.at_table.table_id; view = s.at_table.me.0 } };

    ghost invariant = { λ s. IsSeat s.caller s.made s.at_table.id s.at_table.me };
}
