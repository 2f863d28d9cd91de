//! One run of the price rule: a shared board whose tasks are answered by workers, and the
//! settlement at the prices that it chooses.
ghost use Rattle.std.specs.Prelude.{◌≡◌, IfOk};
ghost use Rattle.board_core.specs.Setups.{IsSetup, setup_of};
ghost use Rattle.board_run.specs.Crews.{IsCrew};
ghost use Rattle.plan_settle.specs.Ended.{IsEnded};

use crate::crew::{answer_board, hire_workers};
use answer_workers::{Gate, Worker};
use board_core::{Board, Terms};
use board_share::SharedBoard;
use plain_lists::lists::Numbers;
use plan_settle::{Done, make_settlement_buffers_of_run, settle_at_chosen_prices};
use price_settle::Settlement;
use std::alloc::{AllocError, Global};
use std::marker::Model;
use std::sync::Wait;
use std::thread::Threads;
use uc_model::units::Answered;
use unit_program::most_cost_points_in_case;

/// A run that is opened: its board with a worker for each seat, and room for the settlement, what
/// each unit earns at best, and an answer. Contracts see it as what its board was made for.
#[derive(Drop)]
pub struct Run {
    board: SharedBoard,
    /// The owner's last.
    workers: Vec<Worker>,
    buffer: Answered,
    settlement: Settlement,
    earned: Numbers,
}

impl Model for Run {
    ghost use Rattle.std.specs.Prelude.{◌+◌, length};
    ghost use Rattle.board_store.specs.Board.{Setup};
    ghost use Rattle.board_run.specs.Crews.{named_by, IsCrew};
    ghost use Rattle.plan_settle.specs.RunRooms.{HasRunRoom};

    ghost Value = { Setup };

    ghost view = { λ r. named_by r.workers.items };

    ghost invariant = { λ r. IsCrew (named_by r.workers.items) r.board r.workers.items
        × HasRunRoom (named_by r.workers.items) r.buffer r.settlement
        (length r.earned.items + r.earned.spare) };
}

/// The shared board of a run, with a worker for each of its seats.
fn make_board_with_workers(
    alloc: Global,
    terms: Terms,
) -> Result<(SharedBoard, Vec<Worker>), AllocError>
    requires { IsSetup (setup_of terms) }
    ensures { IfOk result (λ r. IsCrew (setup_of terms) r.0 r.1.items) }
{
    let callers = terms.callers;
    let periods = terms.case.periods;
    let points = most_cost_points_in_case(&terms.case);
    let thermal = terms.case.thermal.len() as u32;
    let board = Board::make(alloc, terms)?;
    let (board, owner) = SharedBoard::make(alloc, board)?;
    let workers = hire_workers(alloc, &board, owner, callers, thermal, periods, points)?;
    Ok((board, workers))
}

/// Opens a run on these terms: takes all memory that it needs to its end. `AllocError` is want of
/// memory; the terms are then dropped.
pub fn open_run(alloc: Global, terms: Terms) -> Result<Run, AllocError>
    requires { IsSetup (setup_of terms) }
    ensures { IfOk result (λ opened. opened ≡ setup_of terms) }
{
    let (buffer, settlement, earned) = make_settlement_buffers_of_run(alloc, &terms.case)?;
    let (board, workers) = make_board_with_workers(alloc, terms)?;
    Ok(Run {
        board,
        workers,
        buffer,
        settlement,
        earned,
    })
}

/// Runs until every proposal that the budget and the price rule call for is answered, and settles
/// the schedule at the chosen prices. The gate is told of each task. Takes no memory.
pub fn run_board<R: Threads + Wait + Sync, G: Gate>(rt: &R, run: Run, gate: &G) -> Done
    ensures { IsEnded run result }
{
    let Run {
        board,
        workers,
        buffer,
        mut settlement,
        mut earned,
    } = run;
    let (closed, bench) = answer_board(rt, board, workers, gate);
    settle_at_chosen_prices(&closed, &mut earned, &mut settlement);
    Done {
        closed,
        settlement,
        buffer,
        bench,
    }
}
