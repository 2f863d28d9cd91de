//! A board that takes no more calls.
ghost use Rattle.std.specs.Prelude.{◌≡◌, ◌<◌, ◌≤◌, length, map};
ghost use Rattle.board_store.specs.Board.{IsLegalHistory};
ghost use Rattle.board_store.specs.Calls.{own_rows, has_finished};
ghost use Rattle.board_store.specs.Entries.{entries_of};
ghost use Rattle.uc_model.specs.Data.{unit_count};
ghost use Rattle.uc_model.specs.PlainCases.{market_of, schedules_of, proposal_of};
ghost use Rattle.uc_model.specs.PlainUnits.{schedule_of};
ghost use Rattle.uc_model.specs.PriceRule.{chosen_number};
ghost use Rattle.board_core.specs.Boards.{kept_answer};
ghost use Rattle.board_core.specs.Setups.{IsSetup, setup_of};
ghost use Rattle.board_store.specs.Answers.{answer_of};

use super::Board;
use crate::terms::Terms;
use board_store::entries::Entry;
use price_space::row_of_greatest_dual_value;
use std::marker::Model;
use uc_model::cases::{Case, Plan, Row};
use uc_model::units::Answered;

/// The record of a board: what it was made for, its rows and its answers. Contracts see it as they
/// see the board.
#[derive(Drop)]
pub struct Closed {
    board: Board,
}

impl Model for Closed {
    ghost use Rattle.board_store.specs.Board.{Content};

    ghost Value = { Content };

    ghost view = { λ c. c.board };
}

impl Board {
    /// Ends the board and gives its record.
    pub fn close(self) -> Closed
        ensures { result ≡ self }
    {
        Closed { board: self }
    }
}

impl Closed {
    pub fn case(&self) -> &Case
        ensures { market_of result.now ≡ self.now.setup.market }
    {
        &self.board.terms.case
    }

    /// The plan, which is feasible for the case. What the board was made for is within the limits.
    pub fn plan(&self) -> &Plan
        ensures plan { schedules_of result.now ≡ self.now.setup.plan }
        ensures setup { IsSetup self.now.setup }
    {
        &self.board.terms.plan
    }

    /// What the plan costs, in money. What the board was made for is within the limits, and its
    /// cost is that of its plan.
    pub fn cost(&self) -> i128
        ensures cost { result ≡ self.now.setup.cost }
        ensures setup { IsSetup self.now.setup }
    {
        self.board.terms.cost
    }

    /// How many proposals there may be.
    pub fn budget(&self) -> u32
        ensures { result ≡ self.now.setup.budget }
    {
        self.board.terms.budget
    }

    /// How many proposals are open ahead of the closed ones.
    pub fn ahead(&self) -> u32
        ensures { result ≡ self.now.setup.ahead }
    {
        self.board.terms.ahead
    }

    /// The rows of the closed proposals from 1 up to the first that isn't closed. They are those of
    /// a legal history, in which each answer fits its task, and of a board that was made for a
    /// feasible plan at its cost and for numbers within the limits.
    pub fn rows(&self) -> &[Row]
        ensures rows { map proposal_of result.now ≡ own_rows self.now }
        ensures legal { IsLegalHistory self.now.setup self.now.events }
        ensures setup { IsSetup self.now.setup }
    {
        self.board.rows()
    }

    /// The entries of the history.
    pub fn history(&self) -> &[Entry]
        ensures { result.now ≡ entries_of self.now.events }
    {
        self.board.history()
    }

    /// Whether every proposal that exists is closed.
    pub fn finished(&self) -> bool
        ensures { result ≡ has_finished self.now }
    {
        self.board.is_finished()
    }

    /// The number from 1 of the first row with the greatest value. There is a row.
    pub fn chosen(&self) -> u32
        requires { 1 ≤ length (own_rows self.now) }
        ensures { result ≡ chosen_number (own_rows self.now) }
    {
        row_of_greatest_dual_value(self.board.rows()) as u32 + 1
    }

    /// What the answer kept for a unit earns at the prices of a row, in money. Rows count from 1,
    /// units from 0.
    pub fn earned(&self, proposal: u32, unit: u32) -> i64
        requires first { 1 ≤ proposal }
        requires last { proposal ≤ length (own_rows self.now) }
        requires unit { unit < unit_count self.now.setup.market }
        ensures { result ≡ (kept_answer self.now proposal unit).earned }
    {
        self.board.earned(proposal, unit)
    }

    /// Leaves the answer kept for a unit at the prices of a row in another over the same periods,
    /// whose lists keep their lengths. Takes no memory.
    pub fn copy_answer_out(&self, proposal: u32, unit: u32, into: &mut Answered)
        requires first { 1 ≤ proposal }
        requires last { proposal ≤ length (own_rows self.now) }
        requires unit { unit < unit_count self.now.setup.market }
        requires horizon { length (schedule_of into.old.response).on
            ≡ self.now.setup.market.periods }
        ensures answer { answer_of into.new ≡ kept_answer self.now proposal unit }
        ensures horizon { length (schedule_of into.new.response).on
            ≡ self.now.setup.market.periods }
    {
        self.board.copy_answer_out(proposal, unit, into);
    }

    /// Gives back what the board was made for, which is within the limits.
    pub fn into_terms(self) -> Terms
        ensures terms { setup_of result ≡ self.setup }
        ensures setup { IsSetup self.setup }
    {
        self.board.into_terms()
    }

    /// Gives back the case and the plan.
    pub fn into_parts(self) -> (Case, Plan)
        ensures case { market_of result.0 ≡ self.setup.market }
        ensures plan { schedules_of result.1 ≡ self.setup.plan }
    {
        self.board.into_terms().into_parts()
    }
}
