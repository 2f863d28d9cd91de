//! What a schedule is settled at, at given prices.
ghost use Rattle.std.specs.Prelude.{◌≡◌, IfOk};
ghost use Rattle.uc_model.specs.PlainCases.{market_of, schedules_of};
ghost use Rattle.uc_model.specs.PlainUnits.{prices_of};
ghost use Rattle.price_settle.specs.Settled.{IsSettledAt, settled_of};
ghost use Rattle.hull_input.specs.Answers.{IsFitPriced};
ghost use Rattle.hull_command.specs.Answers.{HasSettled};

use crate::answer::SettledInput;
use hull_input::PricedInput;
use plan_settle::settle_at;
use price_settle::laws::settlements_have_each_unit;
use std::alloc::{AllocError, Global};
use uc_model::laws::{dual_values_are_within, plan_costs_are_within};
use unit_program::make_bench_for_case;

/// What the schedule of an input is settled at, at its prices.
pub fn settle_schedule_at_prices(
    alloc: Global,
    priced: PricedInput,
) -> Result<SettledInput, AllocError>
    requires { IsFitPriced priced }
    ensures input { IfOk result (λ s. s.input ≡ priced.input) }
    ensures settled { IfOk result (λ s. IsSettledAt (market_of s.input.case)
        (schedules_of s.input.plan) (prices_of priced.prices) (settled_of s.settled)) }
    ensures told { IfOk result (λ s. HasSettled s) }
{
    plan_costs_are_within();
    dual_values_are_within();
    settlements_have_each_unit();
    let PricedInput { input, prices } = priced;
    let mut bench = make_bench_for_case(alloc, &input.case)?;
    let settled = settle_at(alloc, &input.case, &input.plan, prices, &mut bench)?;
    Ok(SettledInput { input, settled })
}
