//! What a worker does while no task is open.
ghost use Rattle.std.specs.Prelude.{◌≤◌, length};
ghost use Rattle.answer_workers.specs.Workers.{IsWorkerOf, HasWorked, AreGiven, AreAnswered, IsEnd};

use crate::gate::Gate;
use crate::pace::Pace;
use crate::visit::{Crew, Outcome, post_answers_and_claim_tasks};
use crate::worker::Worker;
use board_core::Claim;
use board_share::SharedBoard;
use std::sync::Wait;
use std::thread;

// Visits the board until something is given, or all has ended. Only the worker that holds the
// lookout visits it again and again, and it yields its core in between; the others sleep until it
// has its tasks.
fn poll_board_until_task_given<R: Wait>(
    rt: &R,
    board: &SharedBoard,
    crew: &Crew,
    worker: &mut Worker,
    pace: &mut Pace,
) -> Outcome
    requires { IsWorkerOf board.now worker.old }
    ensures worked { HasWorked worker.old worker.new }
    ensures given { AreGiven result.given worker.new }
    ensures told { IsEnd result.end worker.new }
{
    let _lookout = crew.lookout.lock(rt);
    for _ in rt.forever() {
        let outcome = post_answers_and_claim_tasks(rt, board, crew, worker, 0, pace);
        if outcome.given > 0 || outcome.end != Claim::NotYet {
            return outcome;
        }
        thread::yield_now();
    }
    unreachable!()
}

// Tells the gate of the answers that were posted.
fn notify_test_gate_of_posts<G: Gate>(worker: &Worker, answered: usize, gate: &G)
    requires { answered ≤ length worker.now.held.items }
{
    let caller = worker.seat.caller();
    for k in 0..answered {
        let held = &worker.held[k];
        gate.after(caller, held.proposal, held.unit);
    }
}

/// Posts the answers and claims, and waits where there is no task yet.
pub fn post_and_claim_or_wait_for_task<R: Wait, G: Gate>(
    rt: &R,
    board: &SharedBoard,
    crew: &Crew,
    worker: &mut Worker,
    answered: usize,
    pace: &mut Pace,
    gate: &G,
) -> Outcome
    requires own { IsWorkerOf board.now worker.old }
    requires answered { AreAnswered answered worker.old }
    ensures worked { HasWorked worker.old worker.new }
    ensures given { AreGiven result.given worker.new }
    ensures told { IsEnd result.end worker.new }
{
    let outcome = post_answers_and_claim_tasks(rt, board, crew, worker, answered, pace);
    notify_test_gate_of_posts(worker, answered, gate);
    if outcome.given > 0 || outcome.end != Claim::NotYet {
        return outcome;
    }
    poll_board_until_task_given(rt, board, crew, worker, pace)
}
