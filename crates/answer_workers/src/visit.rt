//! One visit of a worker to the board: it posts what it has answered, and claims further tasks.
ghost use Rattle.std.specs.Prelude.{◌≡◌, ◌<◌};
ghost use Rattle.answer_workers.specs.Workers.{IsWorkerOf, HasWorked, AreGiven, AreAnswered};
ghost use Rattle.answer_workers.specs.Workers.{IsTold, IsEnd};

use crate::pace::Pace;
use crate::worker::{MOST_HELD, Worker};
use board_core::Claim;
use board_share::SharedBoard;
use board_store::laws::claim_answers_tell_board_state;
use std::mem::swap;
use std::sync::{Mutex, MutexGuard, Wait};
use std::thread;

// How often a worker looks whether no other visits the board, before it sleeps until that is so. By
// the clock, so many looks cost less than a sleep. Each look yields.
const MOST_LOOKS: u32 = 400;

/// Held during a visit.
#[derive(Drop)]
pub struct Call;

/// Held by the one worker that looks for a task while none is open.
#[derive(Drop)]
pub struct Lookout;

/// How many workers there are, and what they wait for asleep. The board's turns go round in order,
/// and the worker whose turn has come may not be running; so each visit is made under a lock, which
/// any running worker may take.
#[derive(Drop)]
pub struct Crew {
    /// Held during each visit.
    pub call: Mutex<Call>,
    /// Held by the worker that looks for a task.
    pub lookout: Mutex<Lookout>,
    /// How many workers there are, from 1 on.
    pub workers: usize,
    ghost some: { 0 < workers },
}

/// What came of a visit: how many tasks were given, and the answer of its last claim.
#[derive(Clone, Copy)]
pub struct Outcome {
    /// How many tasks were given.
    pub given: usize,
    /// The answer of the last claim.
    pub end: Claim,
}

// Posts the answers to the first tasks that the worker holds.
fn post_answers<R: Wait>(rt: &R, board: &SharedBoard, worker: &mut Worker, answered: usize)
    requires own { IsWorkerOf board.now worker.old }
    requires answered { AreAnswered answered worker.old }
    ensures { HasWorked worker.old worker.new }
{
    for k in 0..answered {
        let held = &worker.held[k];
        // It is taken: the task was given to this caller, who posts it once.
        let _ = board.post(rt, &mut worker.seat, &held.task, &held.answer);
    }
}

// One claim, and what it tells.
fn claim_task<R: Wait>(rt: &R, board: &SharedBoard, worker: &mut Worker) -> Claim
    requires { IsWorkerOf board.now worker.old }
    ensures worked { HasWorked worker.old worker.new }
    ensures held { worker.new.held.items ≡ worker.old.held.items }
    ensures told { IsTold result worker.new }
{
    claim_answers_tell_board_state();
    board.claim(rt, &mut worker.seat, &mut worker.task)
}

// Claims until the worker has its share, or a claim gives nothing.
fn claim_share_of_tasks<R: Wait>(
    rt: &R,
    board: &SharedBoard,
    worker: &mut Worker,
    pace: &mut Pace,
) -> Outcome
    requires { IsWorkerOf board.now worker.old }
    ensures worked { HasWorked worker.old worker.new }
    ensures given { AreGiven result.given worker.new }
    ensures told { IsEnd result.end worker.new }
{
    for k in 0..MOST_HELD {
        let end = claim_task(rt, board, worker);
        let Claim::Given = end else {
            return Outcome { given: k, end };
        };
        let has_worker_enough_tasks = pace.has_worker_enough_tasks(k + 1, worker.task.unit);
        swap(&mut worker.task, &mut worker.held[k].task);
        if has_worker_enough_tasks {
            return Outcome { given: k + 1, end };
        }
    }
    Outcome {
        given: MOST_HELD,
        end: Claim::Given,
    }
}

// Takes the lock of the calls. A visit is short, so it looks for a while before it sleeps.
fn lock_board_for_visit<'a, R: Wait>(rt: &R, crew: &'a Crew) -> MutexGuard<'a, Call> {
    for _ in 0..MOST_LOOKS {
        if let Some(call) = crew.call.try_lock() {
            return call;
        }
        thread::yield_now();
    }
    crew.call.lock(rt)
}

/// Posts the answers to the first tasks that the worker holds, and claims others in their place.
pub fn post_answers_and_claim_tasks<R: Wait>(
    rt: &R,
    board: &SharedBoard,
    crew: &Crew,
    worker: &mut Worker,
    answered: usize,
    pace: &mut Pace,
) -> Outcome
    requires own { IsWorkerOf board.now worker.old }
    requires answered { AreAnswered answered worker.old }
    ensures worked { HasWorked worker.old worker.new }
    ensures given { AreGiven result.given worker.new }
    ensures told { IsEnd result.end worker.new }
{
    let _call = lock_board_for_visit(rt, crew);
    post_answers(rt, board, worker, answered);
    claim_share_of_tasks(rt, board, worker, pace)
}
