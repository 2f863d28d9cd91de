//! The workers of a run, from the splitting of their seats to the board's record.
ghost use Rattle.std.specs.Prelude.{◌≡◌, ◌≤◌, true, [], length, IfOk};
ghost use Rattle.std.specs.List.{All};
ghost use Rattle.board_store.specs.Calls.{has_finished};
ghost use Rattle.board_core.specs.Boards.{empty_board};
ghost use Rattle.board_share.specs.Seats.{view_of, IsSeatOf};
ghost use Rattle.board_share.specs.Views.{first_view};
ghost use Rattle.uc_model.specs.Data.{NamedThermalUnit};
ghost use Rattle.uc_model.specs.declared.limits.TheConstants.{MOST_PERIODS, MOST_POINTS};
ghost use Rattle.answer_workers.specs.Answers.{IsBenchOf};
ghost use Rattle.board_run.specs.Crews.{named_by, IsCrew, AreOut};

use answer_workers::{Gate, Worker, answer_all};
use board_core::Closed;
use board_share::{Seat, SharedBoard};
use board_store::laws::finished_stays_finished;
use std::alloc::{AllocError, Global};
use std::sync::{Arc, Wait};
use std::thread::Threads;
use unit_program::{Bench, LastAnswers};

/// Splits a new board's seats, and gives each a worker for so many thermal units, periods and cost
/// points.
pub fn hire_workers(
    alloc: Global,
    board: &SharedBoard,
    mut owner: Seat,
    count: u32,
    units: u32,
    periods: u32,
    points: u32,
) -> Result<Vec<Worker>, AllocError>
    requires own { IsSeatOf board.now owner }
    requires new { view_of owner ≡ first_view (empty_board (view_of owner).setup) }
    requires some { 1 ≤ count }
    requires count { (view_of owner).setup.callers ≡ count }
    requires horizon { (view_of owner).setup.market.periods ≡ periods }
    requires some_period { 1 ≤ periods }
    requires most_periods { periods ≤ MOST_PERIODS }
    requires most_points { points ≤ MOST_POINTS }
    requires points { All (λ (n : NamedThermalUnit). length n.unit.points ≤ points)
        (view_of owner).setup.market.thermal }
    ensures crew { IfOk result (λ ws. IsCrew (view_of owner).setup board.now ws.items) }
{
    let last = LastAnswers::make(alloc, units, periods)?;
    let last = Arc::new(alloc, last)?;
    let mut workers = Vec::with_capacity(alloc, count as usize)?;
    for _ in 1..count {
        let Some(seat) = board.split(&mut owner) else {
            unreachable!()
        };
        workers.push_reserved(Worker::make(alloc, seat, Arc::try_clone(&last)?, periods, points)?);
    }
    workers.push_reserved(Worker::make(alloc, owner, last, periods, points)?);
    Ok(workers)
}

/// Joins the workers' seats to the owner's.
fn join_worker_seats(board: &SharedBoard, owner: &mut Seat, workers: &mut Vec<Worker>)
    requires { AreOut board.now owner.old workers.old.items }
    ensures out { AreOut board.now owner.new [] }
    ensures setup { (view_of owner.new).setup ≡ (view_of owner.old).setup }
{
    while let Some(worker) = workers.pop() {
        let Worker {
            seat,
            bench: _,
            task: _,
            answer: _,
            held: _,
            last: _,
        } = worker;
        board.join(owner, seat);
    }
}

/// The record of a board whose workers have ended.
fn close_board(board: SharedBoard, mut owner: Seat, mut others: Vec<Worker>) -> Closed
    requires { AreOut board owner others.items }
    ensures setup { result.setup ≡ (view_of owner).setup }
    ensures finished { has_finished result ≡ true }
{
    finished_stays_finished();
    join_worker_seats(&board, &mut owner, &mut others);
    board.close(owner)
}

/// Lets the workers answer every task of a new board, and gives its record and the owner's bench.
pub fn answer_board<R: Threads + Wait + Sync, G: Gate>(
    rt: &R,
    board: SharedBoard,
    mut workers: Vec<Worker>,
    gate: &G,
) -> (Closed, Bench)
    requires { IsCrew (named_by workers.items) board workers.items }
    ensures setup { result.0.setup ≡ named_by workers.items }
    ensures finished { has_finished result.0 ≡ true }
    ensures bench { IsBenchOf (named_by workers.items).market result.1 }
{
    // Every seat is a worker's, and no worker halts: the board has finished.
    let _ = answer_all(rt, &board, workers.as_mut_slice(), gate);
    let Some(owner) = workers.pop() else {
        unreachable!()
    };
    let Worker {
        seat,
        bench,
        task: _,
        answer: _,
        held: _,
        last: _,
    } = owner;
    (close_board(board, seat, workers), bench)
}
