//! A run with the best bound round the prices that it chose.
ghost use Rattle.std.specs.Prelude.{IfOk};
ghost use Rattle.gap_proof.specs.PlaneSums.{IsRadius};
ghost use Rattle.plan_settle.specs.Bounded.{IsBounded};
ghost use Rattle.board_core.specs.Setups.{IsSetup, setup_of};

use crate::run::{open_run, run_board};
use answer_workers::Gate;
use board_core::Terms;
use plain_lists::lists::Amounts;
use plan_settle::{Bounded, best_bound_around_chosen_prices};
use std::alloc::{AllocError, Global};
use std::sync::Wait;
use std::thread::Threads;

/// The run on these terms to its end, and the best bound round its chosen prices. All memory for
/// both is taken before the run, the room for the bound first. `AllocError` is want of it; the
/// terms are then dropped.
pub fn run_and_bound<R: Threads + Wait + Sync, G: Gate>(
    rt: &R,
    alloc: Global,
    terms: Terms,
    radius: i64,
    gate: &G,
) -> Result<Bounded, AllocError>
    requires setup { IsSetup (setup_of terms) }
    requires radius { IsRadius radius }
    ensures { IfOk result (λ bounded. IsBounded (setup_of terms) radius bounded) }
{
    let mut work = Amounts::filled(alloc, 2 * terms.case.periods, 0)?;
    let opened = open_run(alloc, terms)?;
    let done = run_board(rt, opened, gate);
    let certified = best_bound_around_chosen_prices(&done.closed, radius, &mut work);
    Ok(Bounded {
        done,
        radius,
        certified,
    })
}
