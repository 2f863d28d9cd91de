//! The answer to a task: the least best response of its unit at its prices, and what that earns.
ghost use Rattle.std.specs.Prelude.{◌≡◌, ℕ, length};
ghost use Rattle.uc_model.specs.Data.{AnyUnit, horizon_of};
ghost use Rattle.uc_model.specs.PlainCases.{task_unit, unit_of};
ghost use Rattle.uc_model.specs.PlainUnits.{prices_of, schedule_of};
ghost use Rattle.unit_program.specs.Answers.{IsResponse, Suffices};
ghost use Rattle.answer_workers.specs.Answers.{HasSchedule};

use uc_model::cases::{Task, UnitRef};
use uc_model::units::{Answered, UnitKind};
use unit_program::{Bench, LastAnswers, write_best_response_of_unit};

// The unit that a task is for.
fn unit_of_task(task: &Task) -> UnitRef<'_>
    ensures unit { unit_of result ≡ task_unit task.now }
    ensures horizon { horizon_of (task_unit task.now) ≡ length (prices_of task.now.prices).energy }
{
    match task.kind {
        UnitKind::Thermal => UnitRef::Thermal(&task.thermal),
        UnitKind::Flat => UnitRef::Renewable(&task.flat),
        UnitKind::Bid => UnitRef::Bid(&task.bid),
    }
}

/// Leaves the answer to a task in `into`, which is over the task's periods. Some schedule of the
/// unit is feasible, and the bench suffices for the unit; it suffices afterwards for all that it
/// sufficed for before. The answer is the same whatever the last answers are. Takes no memory.
pub fn answer_task(bench: &mut Bench, last: &LastAnswers, task: &Task, into: &mut Answered)
    requires some { HasSchedule (task_unit task.now) (length (prices_of task.now.prices).energy) }
    requires bench { Suffices (length (prices_of task.now.prices).energy) (task_unit task.now)
        bench.old }
    requires horizon { length (schedule_of into.old.response).on
        ≡ length (prices_of task.now.prices).energy }
    ensures response { IsResponse (task_unit task.now) (prices_of task.now.prices) into.new }
    ensures bench { (periods : ℕ) (u : AnyUnit) → Suffices periods u bench.old
        → Suffices periods u bench.new }
{
    let unit = unit_of_task(task);
    write_best_response_of_unit(bench, last, task.unit, unit, &task.prices, into);
}
