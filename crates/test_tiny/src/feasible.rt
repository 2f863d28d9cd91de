//! Whether a schedule is feasible.
ghost use Rattle.std.specs.Prelude.{◌≡◌, ◌<◌, length, IsTrue, ◌↔◌};
ghost use Rattle.test_tiny.specs.Rules.{KeepsRules, KeepsRulesAt};
ghost use Rattle.uc_model.specs.PlainUnits.{thermal_of, schedule_of};
ghost use Rattle.uc_model.specs.Schedules.{IsThermalFeasible};

use crate::commitment::keeps_commitment;
use crate::dispatch::{keeps_dispatch, may_stop_at_once};
use uc_model::units::{Response, Unit};

// Whether the period at an index keeps each rule.
fn keeps_rules_at(unit: &Unit, response: &Response, index: usize) -> bool
    requires index { index < length response.now.on.items }
    requires lengths { length response.now.on.items ≡ length unit.now.window.items }
    ensures { IsTrue result ↔ KeepsRulesAt (thermal_of unit.now) (schedule_of response.now) index }
{
    keeps_commitment(unit, response, index) && keeps_dispatch(unit, response, index)
}

// Whether each period does.
fn keeps_rules(unit: &Unit, response: &Response) -> bool
    requires { length response.now.on.items ≡ length unit.now.window.items }
    ensures { IsTrue result ↔ KeepsRules (thermal_of unit.now) (schedule_of response.now) }
{
    for index in 0..unit.window.len() {
        if !keeps_rules_at(unit, response, index) {
            return false;
        }
    }
    true
}

/// Whether a response over the unit's horizon is a feasible schedule of the unit. Each period's
/// rules are looked at with all later periods, so the time grows with the square of the number of
/// periods.
pub fn is_feasible(unit: &Unit, response: &Response) -> bool
    requires { length (schedule_of response.now).on ≡ length (thermal_of unit.now).window }
    ensures { IsTrue result ↔ IsThermalFeasible (thermal_of unit.now)
        (length (thermal_of unit.now).window) (schedule_of response.now) }
{
    may_stop_at_once(unit, response) && keeps_rules(unit, response)
}
