//! The least best response of a thermal unit to prices, in memory that is taken once.
//!
//! It goes back over the table from its least end. It begins with the last answer of the unit, and
//! leaves its own in place of that.

ghost use Rattle.std.specs.Prelude.{◌≡◌, ℕ, length, IsTrue, IsFalse};
ghost use Rattle.uc_model.specs.Data.{Schedule, Thermal};
ghost use Rattle.uc_model.specs.Earnings.{earnings, IsBest};
ghost use Rattle.uc_model.specs.PlainUnits.{thermal_of, prices_of, schedule_of};
ghost use Rattle.uc_model.specs.Schedules.{IsThermalFeasible};
ghost use Rattle.uc_model.specs.Ties.{IsLeast};
ghost use Rattle.unit_program.specs.Benches.{IsBenchFor};

use crate::bench::Bench;
use crate::last::LastAnswers;
use uc_model::units::{Answered, Prices, Unit};

/// Leaves in `into` the least best response of a thermal unit to prices, in kilowatts, with what it
/// earns in money, and answers true; or answers false exactly where no schedule of the unit is
/// feasible, and `into` is unchanged. All three are over the same periods. Of several best
/// responses the least is the first by on flags, off first, then by powers, and then by reserves,
/// less first, each compared from the last period back.
///
/// The bench suffices for the prices' periods and the unit's cost points, and afterwards for all
/// that it sufficed for before. The answer is the same whatever the unit's number and the last
/// answers are. Takes no memory.
pub fn least_on_bench(
    bench: &mut Bench,
    last: &LastAnswers,
    number: u32,
    unit: &Unit,
    prices: &Prices,
    into: &mut Answered,
) -> bool
    requires horizon { length (thermal_of unit.now).window ≡ length (prices_of prices.now).energy }
    requires bench { IsBenchFor (length (prices_of prices.now).energy)
        (length (thermal_of unit.now).points) bench.old }
    requires into { length (schedule_of into.old.response).on
        ≡ length (prices_of prices.now).energy }
    ensures best { IsTrue result
        → IsBest (Thermal (thermal_of unit.now)) (prices_of prices.now)
        (schedule_of into.new.response) }
    ensures least { IsTrue result
        → IsLeast (Thermal (thermal_of unit.now)) (prices_of prices.now)
        (schedule_of into.new.response) }
    ensures earned { IsTrue result → into.new.earned
        ≡ earnings (Thermal (thermal_of unit.now)) (prices_of prices.now)
        (schedule_of into.new.response) }
    ensures none { IsFalse result → (s : Schedule)
        → IsThermalFeasible (thermal_of unit.now) (length (prices_of prices.now).energy) s → ⊥ }
    ensures same { IsFalse result → into.new ≡ into.old }
    ensures bench { (periods points : ℕ) → IsBenchFor periods points bench.old
        → IsBenchFor periods points bench.new }
{
    bench.recall_last_answer_of_unit(last, number);
    let Some(end) = bench.find_least_cost_end(unit, prices) else {
        return false;
    };
    bench.write_best_response_from_table(unit, prices, &end, into);
    bench.keep(last, number, prices, into);
    true
}
