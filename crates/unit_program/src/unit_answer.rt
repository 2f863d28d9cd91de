//! The answer of a unit of any kind.
ghost use Rattle.std.specs.Prelude.{◌≡◌, ℕ, ◌<◌, suc, length, slice_index};
ghost use Rattle.uc_model.specs.Data.{Schedule, horizon_of, unit_count};
ghost use Rattle.uc_model.specs.Earnings.{amount_of, supply_in};
ghost use Rattle.uc_model.specs.PlainCases.{market_of, unit_of};
ghost use Rattle.uc_model.specs.PlainUnits.{prices_of, schedule_of};
ghost use Rattle.unit_program.specs.Answers.{CanBeAnswered, Suffices, IsResponse, IsAnswerAt};
ghost use Rattle.unit_program.specs.Benches.{IsBenchFor};
ghost use Rattle.unit_program.specs.Tops.{CanAnswer, IsBenchOver};

use crate::bench::Bench;
use crate::last::LastAnswers;
use crate::least_on_bench;
use flat_answer::{best_bid, best_flat};
use uc_model::cases::{Case, UnitRef};
use uc_model::units::{Answered, Flow, Prices};

/// Leaves in `into` the least best response of a unit to the prices, and what it earns in money.
/// The unit isn't without a feasible schedule, and the bench suffices for it; it suffices
/// afterwards for all that it sufficed for before. The unit, the prices and `into` are over the
/// same periods. The answer is the same whatever the unit's number and the last answers are. Takes
/// no memory.
pub fn write_best_response_of_unit(
    bench: &mut Bench,
    last: &LastAnswers,
    number: u32,
    unit: UnitRef<'_>,
    prices: &Prices,
    into: &mut Answered,
)
    requires horizon { horizon_of (unit_of unit) ≡ length (prices_of prices.now).energy }
    requires some { CanBeAnswered (unit_of unit) (length (prices_of prices.now).energy) }
    requires bench { Suffices (length (prices_of prices.now).energy) (unit_of unit) bench.old }
    requires into { length (schedule_of into.old.response).on
        ≡ length (prices_of prices.now).energy }
    ensures response { IsResponse (unit_of unit.entry) (prices_of prices.now) into.new }
    ensures bench { (periods points : ℕ) → IsBenchFor periods points bench.old
        → IsBenchFor periods points bench.new }
{
    match unit {
        UnitRef::Thermal(unit) => {
            // It is found, since some schedule is feasible.
            let _ = least_on_bench(bench, last, number, unit, prices, into);
        }
        UnitRef::Renewable(flat) => best_flat(flat, prices, into),
        UnitRef::Bid(bid) => best_bid(bid, prices, into),
    }
}

// Which way the unit's powers count.
fn supply_or_demand_side_of_unit(unit: UnitRef<'_>) -> Flow
    ensures { (s : Schedule) (k : ℕ) → supply_in (unit_of unit.entry) s (suc k)
        ≡ amount_of result (slice_index s.power k) }
{
    match unit {
        UnitRef::Thermal(_) => Flow::Gives,
        UnitRef::Renewable(_) => Flow::Gives,
        UnitRef::Bid(_) => Flow::Takes,
    }
}

/// Leaves in `into` the least best response of the unit of a number at the prices, and what it
/// earns in money. Tells which way its powers count. No unit is without a feasible schedule; the
/// bench suffices for each thermal unit, and does so afterwards. Prices and `into` are over the
/// periods of the case. The answer is the same whatever the last answers are. Takes no memory.
pub fn write_best_response_of_numbered_unit(
    bench: &mut Bench,
    last: &LastAnswers,
    case: &Case,
    prices: &Prices,
    number: usize,
    into: &mut Answered,
) -> Flow
    requires some { CanAnswer (market_of case.now) }
    requires bench { IsBenchOver (market_of case.now) bench.old }
    requires horizon { length (prices_of prices.now).energy ≡ (market_of case.now).periods }
    requires number { number < unit_count (market_of case.now) }
    requires into { length (schedule_of into.old.response).on ≡ (market_of case.now).periods }
    ensures answer { IsAnswerAt (market_of case.now) (prices_of prices.now) number result
        into.new }
    ensures bench { IsBenchOver (market_of case.now) bench.new }
    ensures into { length (schedule_of into.new.response).on ≡ (market_of case.now).periods }
{
    let unit = case.unit_at(number).unit;
    write_best_response_of_unit(bench, last, number as u32, unit, prices, into);
    supply_or_demand_side_of_unit(unit)
}
