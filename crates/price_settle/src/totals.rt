//! What all units give and reserve, period by period.
ghost use Rattle.std.specs.Prelude.{◌≡◌, ◌≤◌, [], map};
ghost use Rattle.std.specs.List.{range_with_len};
ghost use Rattle.uc_model.specs.Data.{units};
ghost use Rattle.uc_model.specs.Laws.{HasPlanShape};
ghost use Rattle.uc_model.specs.PlainCases.{market_of, schedules_of};
ghost use Rattle.uc_model.specs.Systems.{total_power, total_reserve};

use plain_lists::lists::Amounts;
use plan_check::totals::{net_power, required_and_given_reserve};
use uc_model::cases::{Case, Plan};

/// Leaves the totals of the responses over the periods, in kilowatts, in lists with room for them:
/// in `supply` the powers of the units less those of the bids, and the reserves in `reserve`.
pub fn write_totals_of_responses(
    case: &Case,
    responses: &Plan,
    supply: &mut Amounts,
    reserve: &mut Amounts,
)
    requires shape { HasPlanShape (market_of case.now) (schedules_of responses.now) }
    requires no_supply { supply.old.items ≡ [] }
    requires supply_room { (market_of case.now).periods ≤ supply.old.spare }
    requires no_reserve { reserve.old.items ≡ [] }
    requires reserve_room { (market_of case.now).periods ≤ reserve.old.spare }
    ensures supply { supply.new.items
        ≡ map (total_power (units (market_of case.now)) (schedules_of responses.now))
        (range_with_len 0 (market_of case.now).periods) }
    ensures reserve { reserve.new.items
        ≡ map (total_reserve (units (market_of case.now)) (schedules_of responses.now))
        (range_with_len 0 (market_of case.now).periods) }
{
    for index in 0..case.periods as usize {
        supply.push(i128::from(net_power(case, responses, index)));
        reserve.push(i128::from(required_and_given_reserve(case, responses, index).given));
    }
}
