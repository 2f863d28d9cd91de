//! The two runs of `hull fixed`: of a case, and of the case with each thermal unit held to its
//! commitment in the schedule.
ghost use Rattle.std.specs.Prelude.{◌≡◌, IfOk};
ghost use Rattle.uc_model.specs.PlainCases.{market_of};
ghost use Rattle.uc_model.specs.Systems.{IsFeasiblePlan};
ghost use Rattle.plan_settle.specs.FixedCase.{fixed_market};
ghost use Rattle.board_core.specs.Setups.{IsSetup, setup_of};
ghost use Rattle.plan_settle.specs.Compared.{IsPaidSide, IsOwnSide, AreSides};

use crate::run::{open_run, run_board};
use answer_workers::Gate;
use board_core::Terms;
use plan_settle::held_laws::plan_stays_feasible_with_fixed_commitments;
use plan_settle::{
    Sides, fix_commitments_of_run, fixed_report_side_of_fixed_run, fixed_report_side_of_free_run,
    make_side_buffers,
};
use right_report::Side;
use std::alloc::{AllocError, Global};
use std::sync::Wait;
use std::thread::Threads;
use uc_model::cases::Case;
use uc_model::units::Prices;

/// Runs the board of these terms. Gives them back, and lets all else of the run go but its side.
/// The memory that is needed after the opening of the run is taken before it.
fn run_with_free_commitments<R: Threads + Wait + Sync, G: Gate>(
    rt: &R,
    alloc: Global,
    terms: Terms,
    gate: &G,
) -> Result<(Side, Terms), AllocError>
    requires { IsSetup (setup_of terms) }
    ensures side { IfOk result (λ r. IsOwnSide (setup_of terms) r.0) }
    ensures terms { IfOk result (λ r. setup_of r.1 ≡ setup_of terms) }
{
    let room = Prices::make(alloc, terms.case.periods)?;
    let opened = open_run(alloc, terms)?;
    Ok(fixed_report_side_of_free_run(run_board(rt, opened, gate), room))
}

/// Runs the board of the case with the commitments of its schedule held. The memory that is needed
/// after the opening of the run is taken before it.
fn run_with_fixed_commitments<R: Threads + Wait + Sync, G: Gate>(
    rt: &R,
    alloc: Global,
    given: &Case,
    held: Terms,
    gate: &G,
) -> Result<Side, AllocError>
    requires setup { IsSetup (setup_of held) }
    requires feasible { IsFeasiblePlan (market_of given.now) (setup_of held).plan }
    requires held { (setup_of held).market
        ≡ fixed_market (market_of given.now) (setup_of held).plan }
    ensures { IfOk result (IsPaidSide (market_of given.now) (setup_of held)) }
{
    let (room, earned) = make_side_buffers(alloc, given)?;
    let opened = open_run(alloc, held)?;
    Ok(fixed_report_side_of_fixed_run(alloc, given, run_board(rt, opened, gate), room, earned))
}

/// Both runs on these terms to their ends: of the case, and of the case with the commitments of its
/// schedule held. The first board is gone before the second is opened. `AllocError` is want of
/// memory, for either; the terms are then dropped.
pub fn run_with_free_and_fixed_commitments<R: Threads + Wait + Sync, G: Gate>(
    rt: &R,
    alloc: Global,
    terms: Terms,
    gate: &G,
) -> Result<Sides, AllocError>
    requires { IsSetup (setup_of terms) }
    ensures { IfOk result (AreSides (setup_of terms)) }
{
    plan_stays_feasible_with_fixed_commitments();
    let cost = terms.cost;
    let (hull, terms) = run_with_free_commitments(rt, alloc, terms, gate)?;
    let (case, held) = fix_commitments_of_run(alloc, terms)?;
    let fixed = run_with_fixed_commitments(rt, alloc, &case, held, gate)?;
    Ok(Sides {
        case,
        cost,
        hull,
        fixed,
    })
}
