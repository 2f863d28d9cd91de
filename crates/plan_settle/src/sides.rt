//! The sides of `hull fixed`: what a run leaves of itself there, and what the schedule is settled at, at
//! the prices of a run with commitments held.
ghost use Rattle.std.specs.Prelude.{◌≡◌, ◌+◌, ◌≤◌, length, IfOk};
ghost use Rattle.uc_model.specs.Data.{unit_count as units_in};
ghost use Rattle.uc_model.specs.PlainCases.{market_of};
ghost use Rattle.uc_model.specs.PlainUnits.{prices_of};
ghost use Rattle.uc_model.specs.Systems.{IsFeasiblePlan};
ghost use Rattle.plan_settle.specs.FixedCase.{fixed_market};
ghost use Rattle.board_core.specs.Setups.{IsSetup, setup_of};
ghost use Rattle.plan_settle.specs.Compared.{IsPaidSide, IsOwnSide, held_setup};
ghost use Rattle.plan_settle.specs.Ended.{IsEnded};

use crate::done::Done;
use crate::fix_case;
use crate::held_laws::plan_stays_feasible_with_fixed_commitments;
use board_core::Terms;
use plain_lists::lists::Numbers;
use price_settle::settle;
use right_report::laws::{
    settled_sides_of_fixed_report_are_right, settlement_has_entry_for_each_unit,
};
use right_report::{Side, fixed_report_side_of_finished_board};
use std::alloc::{AllocError, Global};
use std::mem;
use uc_model::cases::Case;
use uc_model::units::Prices;
use unit_program::{LastAnswers, earn_all};

/// A case with what its schedule costs, and a side for each run. Both sides settle the case as
/// given.
#[derive(Drop)]
pub struct Sides {
    /// The case as given.
    pub case: Case,
    /// What its schedule costs, in money.
    pub cost: i128,
    /// The side of the case's run.
    pub hull: Side,
    /// The side of the run with the schedule's commitments held.
    pub fixed: Side,
}

/// The side of a run that has ended, with its terms: its chosen prices are copied into the room.
/// Lets all else of the run go, and takes no memory.
pub fn fixed_report_side_of_free_run(done: Done, room: Prices) -> (Side, Terms)
    requires ended { IsEnded done.closed.setup done }
    requires horizon { length (prices_of room).energy ≡ done.closed.setup.market.periods }
    ensures side { IsOwnSide done.closed.setup result.0 }
    ensures terms { setup_of result.1 ≡ done.closed.setup }
    ensures setup { IsSetup done.closed.setup }
{
    let Done {
        closed,
        settlement,
        buffer: _buffer,
        bench: _bench,
    } = done;
    settled_sides_of_fixed_report_are_right();
    settlement_has_entry_for_each_unit();
    let side = fixed_report_side_of_finished_board(&closed, room, settlement);
    (side, closed.into_terms())
}

/// Room for the prices of a side of the case, and for what its units earn.
pub fn make_side_buffers(alloc: Global, given: &Case) -> Result<(Prices, Numbers), AllocError>
    ensures horizon { IfOk result (λ r. length (prices_of r.0).energy
        ≡ (market_of given.now).periods) }
    ensures count { IfOk result (λ r. units_in (market_of given.now)
        ≤ length r.1.items + r.1.spare) }
{
    let room = Prices::make(alloc, given.periods)?;
    let earned = Numbers::make(alloc, given.unit_count())?;
    Ok((room, earned))
}

/// The side of a run with commitments held that has ended: its chosen prices are copied into the
/// room, and the schedule is settled at them for the case as given. Takes no memory.
pub fn fixed_report_side_of_fixed_run(
    alloc: Global,
    given: &Case,
    done: Done,
    room: Prices,
    earned: Numbers,
) -> Side
    requires ended { IsEnded done.closed.setup done }
    requires feasible { IsFeasiblePlan (market_of given.now) done.closed.setup.plan }
    requires held { done.closed.setup.market
        ≡ fixed_market (market_of given.now) done.closed.setup.plan }
    requires horizon { length (prices_of room).energy ≡ (market_of given.now).periods }
    requires count { units_in (market_of given.now) ≤ length earned.items + earned.spare }
    ensures { IsPaidSide (market_of given.now) done.closed.setup result }
{
    let Done {
        closed,
        settlement,
        mut buffer,
        mut bench,
    } = done;
    let mut earned = earned;
    settled_sides_of_fixed_report_are_right();
    settlement_has_entry_for_each_unit();
    plan_stays_feasible_with_fixed_commitments();
    let mut side = fixed_report_side_of_finished_board(&closed, room, settlement);
    let last = LastAnswers::none(alloc);
    let prices = &side.prices;
    earn_all(&mut bench, &last, given, prices, &mut buffer, &mut earned);
    settle(
        given,
        closed.plan(),
        &side.prices,
        earned.as_slice(),
        &mut side.settlement,
    );
    side
}

/// The case as given, and the terms with the commitments of their schedule held. `AllocError` is
/// want of memory for the case that is held; the terms are then dropped.
pub fn fix_commitments_of_run(alloc: Global, terms: Terms) -> Result<(Case, Terms), AllocError>
    requires { IsSetup (setup_of terms) }
    ensures given { IfOk result (λ r. market_of r.0 ≡ (setup_of terms).market) }
    ensures held { IfOk result (λ r. setup_of r.1 ≡ held_setup (setup_of terms)) }
{
    let mut terms = terms;
    let held = fix_case(alloc, &terms.case, &terms.plan)?;
    let given = mem::replace(&mut terms.case, held);
    Ok((given, terms))
}
