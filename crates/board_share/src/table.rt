//! The table that the seats share.
use atomic_table::TableRule;
use board_core::Board;
use std::marker::Model;
use std::snapshot::Snapshot;

/// What a seat at the table knows. No value of it is made.
pub struct Sight {}

impl Model for Sight {
    ghost use Rattle.board_share.specs.Views.{View, nobody};

    ghost Value = { View };

    ghost view = { λ _. nobody };
}

/// The rule of the table: what holds of the shared part, and what the first seat knows.
pub struct Turns;

impl TableRule<Board, Sight, Snapshot<Board>> for Turns {
    ghost use Rattle.board_share.specs.Rule.{Shared};
    ghost use Rattle.board_share.specs.Views.{first_view};

    ghost holds = { λ key. Shared key.value };

    ghost first = { λ key. first_view key.value };
}

/// The seat of a table that a caller's seat has.
pub type TableSeat = atomic_table::Seat<Board, Sight>;

/// The table itself.
pub type Top = atomic_table::Table<Board, Sight, Snapshot<Board>, Turns, std::alloc::Global>;
