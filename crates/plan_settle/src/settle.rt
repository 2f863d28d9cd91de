//! The settlement at given prices.
ghost use Rattle.std.specs.Prelude.{◌≡◌, length, IfOk};
ghost use Rattle.uc_model.specs.PlainCases.{market_of, schedules_of};
ghost use Rattle.uc_model.specs.PlainUnits.{prices_of};
ghost use Rattle.uc_model.specs.Systems.{IsFeasiblePlan};
ghost use Rattle.unit_program.specs.Tops.{IsBenchOver};
ghost use Rattle.price_settle.specs.Settled.{IsSettledAt, settled_of};
ghost use Rattle.plan_settle.specs.Rooms.{HasRoom};

use crate::answers::answer_each_unit_at_prices;
use crate::room::Room;
use price_settle::{Settled, settle, write_totals_of_responses};
use price_space::{dual_value, earned_sum};
use std::alloc::{AllocError, Global};
use uc_model::cases::{Case, Plan, Row};
use uc_model::laws::{
    earned_sums_are_within, earnings_are_within, feasible_plans_have_shape,
    unit_numbers_go_by_kind, units_are_within,
};
use uc_model::units::Prices;
use unit_program::Bench;

// The settlement in room that is there.
fn settle_plan_at_prices_into_buffers(
    case: &Case,
    plan: &Plan,
    prices: Prices,
    bench: &mut Bench,
    room: Room,
) -> Settled
    requires feasible { IsFeasiblePlan (market_of case.now) (schedules_of plan.now) }
    requires bench { IsBenchOver (market_of case.now) bench.old }
    requires horizon { length (prices_of prices).energy ≡ (market_of case.now).periods }
    requires room { HasRoom (market_of case.now) room }
    ensures settled { IsSettledAt (market_of case.now) (schedules_of plan.now) (prices_of prices)
        (settled_of result) }
    ensures bench { IsBenchOver (market_of case.now) bench.new }
{
    unit_numbers_go_by_kind();
    units_are_within();
    earnings_are_within();
    earned_sums_are_within();
    feasible_plans_have_shape();
    let Room {
        spare,
        mut responses,
        mut earned,
        mut supply,
        mut reserve,
        mut settlement,
    } = room;
    answer_each_unit_at_prices(bench, case, &prices, spare, &mut responses, &mut earned);
    let responses = Plan { responses };
    write_totals_of_responses(case, &responses, &mut supply, &mut reserve);
    let value = dual_value(case, &prices, earned_sum(earned.as_slice()));
    settle(case, plan, &prices, earned.as_slice(), &mut settlement);
    let row = Row {
        prices,
        value,
        supply,
        reserve,
    };
    Settled {
        row,
        responses,
        earned,
        settlement,
    }
}

/// The settlement of a feasible plan at these prices, which are over the periods of the case. The
/// bench suffices for each thermal unit, and does so afterwards. All memory is taken before the
/// first unit answers.
///
/// # Errors
///
/// `AllocError` if memory runs out.
pub fn settle_at(
    alloc: Global,
    case: &Case,
    plan: &Plan,
    prices: Prices,
    bench: &mut Bench,
) -> Result<Settled, AllocError>
    requires feasible { IsFeasiblePlan (market_of case.now) (schedules_of plan.now) }
    requires bench { IsBenchOver (market_of case.now) bench.old }
    requires horizon { length (prices_of prices).energy ≡ (market_of case.now).periods }
    ensures settled { IfOk result (λ s.
        IsSettledAt (market_of case.now) (schedules_of plan.now) (prices_of prices)
        (settled_of s)) }
    ensures bench { IsBenchOver (market_of case.now) bench.new }
{
    let room = Room::make(alloc, case)?;
    Ok(settle_plan_at_prices_into_buffers(case, plan, prices, bench, room))
}
