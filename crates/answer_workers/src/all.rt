//! All workers at once.
ghost use Rattle.std.specs.Prelude.{◌≡◌, ℕ, ◌<◌, length, slice_index_or};
ghost use Rattle.std.specs.List.{All};
ghost use Rattle.answer_workers.specs.Workers.{IsWorkerOf, HasWorked, HaveWorked, HaveEnded};

use crate::gate::Gate;
use crate::visit::{Call, Crew, Lookout};
use crate::work::answer_tasks_until_board_ends;
use crate::worker::{Ended, Worker};
use board_share::SharedBoard;
use std::sync::{Mutex, Wait};
use std::thread;
use std::thread::{Parker, Threads};
use std::time::Duration;

// For how long a worker sleeps before it works, where there are several.
const START_MICROSECONDS: u64 = 20;

// Sleeps for a moment where there are several workers. A system may queue a new thread on the
// processor of the one that started it, which works on; a thread that wakes up may be put on a
// processor that has nothing to do.
fn sleep_before_first_claim<R: Wait>(rt: &R, crew: &Crew) {
    if crew.workers > 1 {
        Parker::new().park_timeout(rt, Duration::from_micros(START_MICROSECONDS));
    }
}

fn run_worker<R: Wait, G: Gate>(
    rt: &R,
    board: &SharedBoard,
    crew: &Crew,
    worker: &mut Worker,
    gate: &G,
)
    requires { IsWorkerOf board.now worker.old }
    ensures { HasWorked worker.old worker.new }
{
    sleep_before_first_claim(rt, crew);
    let _ = answer_tasks_until_board_ends(rt, board, crew, worker, gate);
}

// Lets each worker work, in a thread of its own where one can be started.
fn run_each_worker<R: Threads + Wait + Sync, G: Gate>(
    rt: &R,
    board: &SharedBoard,
    crew: &Crew,
    workers: &mut [Worker],
    gate: &G,
)
    requires some { 0 < length workers.old }
    requires own { All (IsWorkerOf board.now) workers.old }
    ensures own { All (IsWorkerOf board.now) workers.new }
    ensures count { length workers.new ≡ length workers.old }
    ensures each { (i : ℕ) (d : _) → i < length workers.old
        → HasWorked (slice_index_or workers.old i d) (slice_index_or workers.new i d) }
{
    let count = workers.len();
    let one = |_: usize, worker: &mut Worker|
        requires { IsWorkerOf board.now worker.now }
        ensures { HasWorked worker.entry.now worker.exit.now }
    { run_worker(rt, board, crew, worker, gate) };
    thread::for_each_mut(rt, workers, count, &one);
}

// Asks each worker once more, one after another, and says how they ended: there is nothing left to
// do, but the threads that worked handed back no answer.
fn find_how_workers_ended<R: Wait, G: Gate>(
    rt: &R,
    board: &SharedBoard,
    crew: &Crew,
    workers: &mut [Worker],
    gate: &G,
) -> Ended
    requires { All (IsWorkerOf board.now) workers.old }
    ensures own { All (IsWorkerOf board.now) workers.new }
    ensures worked { HaveWorked workers.old workers.new }
    ensures ended { HaveEnded result workers.new }
{
    for k in 0..workers.len() {
        match answer_tasks_until_board_ends(rt, board, crew, &mut workers[k], gate) {
            Ended::Finished => {}
            Ended::Halted => return Ended::Halted,
        }
    }
    Ended::Finished
}

/// Answers the tasks of a board: each worker, in a thread of its own, claims a few tasks, answers
/// each by the least best response of its unit, and posts that, until its claim finds the board
/// finished or halted. Where a thread can't be started, the work is done on this one. `Finished`
/// comes only where each worker's seat has seen a finished history, and `Halted` only where one has
/// seen a halt. No worker halts, and all memory is the workers' own.
///
/// There is a worker at least, each has a seat of this board and parts that fit its case, and so it
/// is afterwards. A seat keeps its caller and what it names, the owner's also how many seats were
/// made and whose are out; each has seen what it had seen, and more.
pub fn answer_all<R: Threads + Wait + Sync, G: Gate>(
    rt: &R,
    board: &SharedBoard,
    workers: &mut [Worker],
    gate: &G,
) -> Ended
    requires some { 0 < length workers.old }
    requires own { All (IsWorkerOf board.now) workers.old }
    ensures own { All (IsWorkerOf board.now) workers.new }
    ensures worked { HaveWorked workers.old workers.new }
    ensures ended { HaveEnded result workers.new }
{
    let crew = Crew {
        call: Mutex::new(Call),
        lookout: Mutex::new(Lookout),
        workers: workers.len(),
    };
    run_each_worker(rt, board, &crew, workers, gate);
    find_how_workers_ended(rt, board, &crew, workers, gate)
}
