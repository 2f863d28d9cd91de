//! The least end of the table, and what backtracking from it needs.
ghost use Rattle.std.specs.Prelude.{◌≡◌, ℕ, ◌<◌, ◌≤◌, neg_ℤ, false, IsTrue, IsFalse, IfSome};
ghost use Rattle.std.specs.Prelude.{IfNone};
ghost use Rattle.std.specs.Prelude.{ℤ, Some, length, slice_index, slice_index_or};
ghost use Rattle.uc_model.specs.PlainUnits.{thermal_of, schedule_of};
ghost use Rattle.unit_rows.specs.Rows.{cost_at, IsWithinTimes};
ghost use Rattle.unit_rows.specs.Spells.{IsOffRun};
ghost use Rattle.unit_rows.specs.Ends.{IsLeastEnd};

use uc_model::units::{Answered, Unit};
use unit_rows::commitment::earliest_allowed_last_on_period;
use unit_rows::table::{Ended, Entry, lesser_spell_entry};

// The cost of all, where `last` is the last on period.
fn cost_at_last_on_period(rows: &[Option<Ended>], last: u32) -> Option<i64>
    requires { last < length rows.now }
    ensures { result ≡ cost_at rows.now last }
{
    match rows[last as usize] {
        Some(ended) => Some(ended.cost),
        None => None,
    }
}

/// The least cost of all over a unit's horizon of T periods, with the last on period; of equal ones
/// that with the earliest. None where no schedule is feasible.
pub fn least_cost_end_of_horizon(unit: &Unit, periods: u32, rows: &[Option<Ended>]) -> Option<Entry>
    requires periods { periods ≡ length (thermal_of unit.now).window }
    requires room { periods < length rows.now }
    ensures some { IfSome result (λ r. IsLeastEnd (thermal_of unit.now) periods (cost_at rows.now)
        r.last r.cost) }
    ensures earliest { IfSome result (λ r. (k : ℕ) → cost_at rows.now k ≡ Some r.cost
        → IsOffRun (thermal_of unit.now) k periods → r.last ≤ k) }
    ensures none { IfNone result ((l : ℕ) (v : ℤ) → cost_at rows.now l ≡ Some v
        → IsOffRun (thermal_of unit.now) l periods → ⊥) }
{
    let mut least: Option<Entry> = None;
    for last in earliest_allowed_last_on_period(unit, periods)..periods + 1 {
        least = lesser_spell_entry(least, cost_at_last_on_period(rows, last), last);
    }
    least
}

/// Whether nothing comes before: the unit is off since before the horizon.
pub fn is_all_off(unit: &Unit, last: u32) -> bool
    ensures yes { IsTrue result → (last ≡ 0) × IsFalse unit.now.on0 }
    ensures no { IsFalse result → last ≡ 0 → IsTrue unit.now.on0 }
{
    last == 0 && !unit.on0
}

/// Turns every period off.
pub fn turn_all_off(into: &mut Answered)
    ensures off { (k : ℕ) → slice_index_or (schedule_of into.new.response).on k false ≡ false }
    ensures power { (k : ℕ) → slice_index (schedule_of into.new.response).power k ≡ 0 }
    ensures reserve { (k : ℕ) → slice_index (schedule_of into.new.response).reserve k ≡ 0 }
    ensures length { length (schedule_of into.new.response).on
        ≡ length (schedule_of into.old.response).on }
{
    for index in 0..into.response.on.len() {
        into.response.on.set(index, false);
        into.response.power.set(index, 0);
        into.response.reserve.set(index, 0);
    }
}

/// What a cost within bounds earns.
pub fn earnings_of_cost(cost: i64) -> i64
    requires { IsWithinTimes 400 cost }
    ensures { result ≡ neg_ℤ cost }
{
    0 - cost
}
