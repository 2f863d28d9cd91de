//! One period of a dispatch, written into an answer.
ghost use Rattle.std.specs.Prelude.{◌≡◌, ◌<◌, pos, ◌-ℤ◌, ◌≤ℤ◌, length};
ghost use Rattle.spell_run.specs.Backtracking.{IsWritten};
ghost use Rattle.spell_run.specs.Laws.{best_reserve};
ghost use Rattle.spell_run.specs.Steps.{IsFairStep};
ghost use Rattle.uc_model.specs.Limits.{IsOutput};
ghost use Rattle.uc_model.specs.PlainUnits.{schedule_of};

use slope_list::step_terms::Step;
use uc_model::units::Answered;

/// The best reserve at a power after another.
fn best_reserve_after_power(step: Step, before: i64, power: i64) -> i64
    requires step { IsFairStep step }
    requires before { IsOutput before }
    requires power { IsOutput power }
    requires under { power ≤ℤ step.cap }
    requires rise { (power -ℤ before) ≤ℤ step.ramp_up }
    ensures best { result ≡ best_reserve step.reserve_price step.cap step.ramp_up before power }
    ensures bound { IsOutput result }
{
    if step.reserve_price == 0 {
        return 0;
    }
    (step.cap - power).min(step.ramp_up + before - power)
}

/// Writes a period, whose index counts from 0.
fn write_on_period(into: &mut Answered, index: usize, power: u32, reserve: u32)
    requires { index < length (schedule_of into.old.response).on }
    ensures written { IsWritten index (pos power) (pos reserve) (schedule_of into.old.response)
        (schedule_of into.new.response) }
    ensures earned { into.new.earned ≡ into.old.earned }
{
    into.response.on.set(index, true);
    into.response.power.set(index, power);
    into.response.reserve.set(index, reserve);
}

/// Writes a period with its power, and the best reserve after the power before it.
pub fn write_period_with_best_reserve(
    into: &mut Answered,
    index: usize,
    step: Step,
    before: i64,
    power: i64,
)
    requires index { index < length (schedule_of into.old.response).on }
    requires step { IsFairStep step }
    requires before { IsOutput before }
    requires power { IsOutput power }
    requires under { power ≤ℤ step.cap }
    requires rise { (power -ℤ before) ≤ℤ step.ramp_up }
    ensures written { IsWritten index power
        (best_reserve step.reserve_price step.cap step.ramp_up before power)
        (schedule_of into.old.response) (schedule_of into.new.response) }
    ensures earned { into.new.earned ≡ into.old.earned }
{
    let reserve = best_reserve_after_power(step, before, power);
    write_on_period(into, index, power as u32, reserve as u32);
}
