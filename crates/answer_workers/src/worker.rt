//! A worker, and how the work ends.
ghost use Rattle.std.specs.Prelude.{◌≡◌, ◌≤◌, length, IfOk};
ghost use Rattle.std.specs.List.{All};
ghost use Rattle.uc_model.specs.Data.{Market, NamedThermalUnit};
ghost use Rattle.uc_model.specs.PlainUnits.{schedule_of};
ghost use Rattle.uc_model.specs.TaskRoom.{IsTaskFor};
ghost use Rattle.uc_model.specs.declared.limits.TheConstants.{MOST_PERIODS, MOST_POINTS};
ghost use Rattle.answer_workers.specs.Workers.{HasParts, IsHeldFor};
ghost use Rattle.answer_workers.specs.declared.worker.TheConstants.{MOST_HELD};

use board_share::Seat;
use std::alloc::{AllocError, Global};
use std::sync::Arc;
use uc_model::cases::Task;
use uc_model::units::Answered;
use unit_program::laws::bench_suffices_for_fewer_periods;
use unit_program::{Bench, LastAnswers};

/// The most tasks that a worker holds at once.
pub const MOST_HELD: usize = 8;

/// A task that a worker holds, and the answer to it.
pub struct Held {
    /// The task.
    pub task: Task,
    /// The answer to it, or to an earlier one.
    pub answer: Answered,
    /// The proposal of the task that the answer is to.
    pub proposal: u32,
    /// The unit of that task.
    pub unit: u32,
}

// By hand, so that dropping it is one call.
impl Drop for Held {
    fn drop(self) {
        let Held {
            task: _,
            answer: _,
            proposal: _,
            unit: _,
        } = self;
    }
}

/// A seat at a shared board, and all the memory that its answers take.
#[derive(Drop)]
pub struct Worker {
    /// Its seat at the board.
    pub seat: Seat,
    /// Where it answers thermal units.
    pub bench: Bench,
    /// Where it is given a task.
    pub task: Task,
    /// Where it answers one.
    pub answer: Answered,
    /// The tasks that it was given at its last visit to the board, and their answers.
    pub held: Vec<Held>,
    /// What units answered last, shared by all workers.
    pub last: Arc<LastAnswers, Global>,
}

/// How the work at a board ended.
#[derive(Clone, Copy)]
pub enum Ended {
    /// Every proposal that exists is closed.
    Finished,
    /// Some caller halted before that.
    Halted,
}

impl Held {
    fn make(alloc: Global, periods: u32) -> Result<Held, AllocError>
        requires some { 1 ≤ periods }
        requires periods { periods ≤ MOST_PERIODS }
        ensures { IfOk result (λ h. (m : Market) → m.periods ≡ periods → IsHeldFor m h) }
    {
        let task = Task::make(alloc, periods)?;
        let answer = Answered::make(alloc, periods)?;
        Ok(Held {
            task,
            answer,
            proposal: 0,
            unit: 0,
        })
    }
}

// Room for as many tasks as a worker holds.
fn make_task_and_answer_buffers(alloc: Global, periods: u32) -> Result<Vec<Held>, AllocError>
    requires some { 1 ≤ periods }
    requires periods { periods ≤ MOST_PERIODS }
    ensures count { IfOk result (λ hs. length hs.items ≡ MOST_HELD) }
    ensures fits { IfOk result (λ hs. (m : Market) → m.periods ≡ periods
        → All (IsHeldFor m) hs.items) }
{
    let mut held = Vec::with_capacity(alloc, MOST_HELD)?;
    for _ in 0..MOST_HELD {
        held.push_reserved(Held::make(alloc, periods)?);
    }
    Ok(held)
}

// Room for an answer, for the tasks that a worker holds, and for one that it is given.
fn make_worker_buffers(
    alloc: Global,
    periods: u32,
) -> Result<(Answered, Vec<Held>, Task), AllocError>
    requires some { 1 ≤ periods }
    requires periods { periods ≤ MOST_PERIODS }
    ensures answer { IfOk result (λ r. length (schedule_of r.0.response).on ≡ periods) }
    ensures count { IfOk result (λ r. length r.1.items ≡ MOST_HELD) }
    ensures fits { IfOk result (λ r. (m : Market) → m.periods ≡ periods
        → All (IsHeldFor m) r.1.items) }
    ensures task { IfOk result (λ r. IsTaskFor periods r.2) }
{
    let answer = Answered::make(alloc, periods)?;
    let held = make_task_and_answer_buffers(alloc, periods)?;
    let task = Task::make(alloc, periods)?;
    Ok((answer, held, task))
}

impl Worker {
    /// A worker for a case of so many periods, whose thermal units have at most so many cost
    /// points. `AllocError` if memory runs out; the seat is then dropped.
    pub fn make(
        alloc: Global,
        seat: Seat,
        last: Arc<LastAnswers, Global>,
        periods: u32,
        points: u32,
    ) -> Result<Worker, AllocError>
        requires some { 1 ≤ periods }
        requires periods { periods ≤ MOST_PERIODS }
        requires points { points ≤ MOST_POINTS }
        ensures seat { IfOk result (λ w. w.seat ≡ seat) }
        ensures parts { IfOk result (λ w. (m : Market) → m.periods ≡ periods
            → All (λ (n : NamedThermalUnit). length n.unit.points ≤ points) m.thermal
            → HasParts m w) }
    {
        bench_suffices_for_fewer_periods();
        let bench = Bench::make(alloc, periods, points)?;
        let (answer, held, task) = make_worker_buffers(alloc, periods)?;
        Ok(Worker {
            seat,
            bench,
            task,
            answer,
            held,
            last,
        })
    }
}
