//! The work of one worker.
ghost use Rattle.std.specs.Prelude.{◌≡◌, ◌⊎◌, None, IfSome};
ghost use Rattle.board_core.specs.declared.replies.Claim.TheVariants.{Given, NotYet};
ghost use Rattle.answer_workers.specs.Workers.{IsWorkerOf, HasWorked, IsEnd, HasEnded, HasParts};
ghost use Rattle.answer_workers.specs.Workers.{market_at, AreGiven, AreAnswered};
ghost use Rattle.answer_workers.specs.declared.worker.Worker.{Worker};

use crate::gate::Gate;
use crate::pace::Pace;
use crate::tasks::answer_task;
use crate::visit::Crew;
use crate::waiting::post_and_claim_or_wait_for_task;
use crate::worker::{Ended, Worker};
use board_core::Claim;
use board_share::SharedBoard;
use std::mem::swap;
use std::sync::Wait;

// Answers the first tasks that the worker holds.
fn answer_held_tasks<G: Gate>(worker: &mut Worker, given: usize, gate: &G)
    requires parts { HasParts (market_at worker.old.seat) worker.old }
    requires given { AreGiven given worker.old }
    ensures seat { worker.new.seat ≡ worker.old.seat }
    ensures parts { HasParts (market_at worker.new.seat) worker.new }
    ensures answered { AreAnswered given worker.new }
{
    let caller = worker.seat.caller();
    for k in 0..given {
        let held = &mut worker.held[k];
        held.proposal = held.task.proposal;
        held.unit = held.task.unit;
        gate.between(caller, held.proposal, held.unit);
        answer_task(
            &mut worker.bench,
            &worker.last,
            &held.task,
            &mut worker.answer,
        );
        swap(&mut worker.answer, &mut held.answer);
    }
}

// How the work has ended, if the last claim tells so.
fn worker_end_from_claim_answer(end: Claim) -> Option<Ended>
    ensures ended { IfSome result (λ e. (w : Worker) → IsEnd end w → HasEnded e w) }
    ensures going { result ≡ None → (end ≡ Given) ⊎ (end ≡ NotYet) }
{
    match end {
        Claim::Finished => Some(Ended::Finished),
        Claim::Halted => Some(Ended::Halted),
        Claim::Given | Claim::NotYet => None,
    }
}

/// Claims, answers and posts until a claim finds the board finished or halted.
pub fn answer_tasks_until_board_ends<R: Wait, G: Gate>(
    rt: &R,
    board: &SharedBoard,
    crew: &Crew,
    worker: &mut Worker,
    gate: &G,
) -> Ended
    requires { IsWorkerOf board.now worker.old }
    ensures worked { HasWorked worker.old worker.new }
    ensures ended { HasEnded result worker.new }
{
    let mut pace = Pace {
        workers: crew.workers,
        last: worker.last.unit_count(),
    };
    let mut answered = 0;
    for _ in rt.forever() {
        let outcome = post_and_claim_or_wait_for_task(
            rt, board, crew, worker, answered, &mut pace, gate,
        );
        if outcome.given == 0 {
            if let Some(ended) = worker_end_from_claim_answer(outcome.end) {
                return ended;
            }
        }
        answer_held_tasks(worker, outcome.given, gate);
        answered = outcome.given;
    }
    unreachable!()
}
