//! What a mixture costs, and what it lacks of demand and of the required reserve.
ghost use Rattle.std.specs.Prelude.{◌≡◌, ◌<◌, ◌≤◌, suc, pos, ◌+ℤ◌, ◌-ℤ◌, ◌*ℤ◌, length, map};
ghost use Rattle.std.specs.List.{All};
ghost use Rattle.uc_model.specs.declared.limits.TheConstants.{MOST_PERIODS};
ghost use Rattle.uc_model.specs.Data.{Thermal};
ghost use Rattle.uc_model.specs.Earnings.{cost_of, supply_in};
ghost use Rattle.plain_lists.specs.Ranges.{IsFrom};
ghost use Rattle.uc_model.specs.Limits.{IsPower, IsUnitCost};
ghost use Rattle.uc_model.specs.PlainCases.{market_of};
ghost use Rattle.uc_model.specs.PlainUnits.{thermal_of, schedule_of};
ghost use Rattle.uc_model.specs.Schedules.{power_in, reserve_in, IsThermalFeasible};
ghost use Rattle.gap_proof.specs.Mixtures.{WeighedSchedule, entry_of, mixture_of, IsMixture};
ghost use Rattle.gap_proof.specs.Mixtures.{HasMixtureShape, most_whole};
ghost use Rattle.gap_proof.specs.MixtureBound.{weighed, weighed_over, lack, short};
ghost use Rattle.gap_proof.specs.MixtureBound.{mixture_cost};
ghost use Rattle.gap_proof.specs.MixtureSizes.{AreUnitWeights, AreBehind, IsGivenByOne, IsGiven};
ghost use Rattle.gap_proof.specs.MixtureSizes.{IsLack, IsCostOfOne, IsMixtureCost};

use crate::mixtures::{Entry, Mixture};
use crate::wide::wide_product;
use plan_check::costs::{costs_of_starts, power_costs};
use uc_model::cases::Case;
use uc_model::units::{Response, Unit};

/// Power and reserve in kilowatts, each as often as weights say.
#[derive(Clone, Copy)]
pub struct Weighed {
    /// The power.
    pub power: i128,
    /// The reserve.
    pub reserve: i128,
}

// What is given with one more entry.
fn weighted_output_with_entry(given: Weighed, entry: &Entry, index: usize) -> Weighed
    requires index { index < length (entry_of entry.now).schedule.on }
    requires weight { IsFrom (pos 0) most_whole entry.now.weight }
    requires power { IsGivenByOne given.power }
    requires reserve { IsGivenByOne given.reserve }
    ensures power { result.power ≡ given.power
        +ℤ (entry.now.weight *ℤ power_in (entry_of entry.now).schedule (suc index)) }
    ensures reserve { result.reserve ≡ given.reserve
        +ℤ (entry.now.weight *ℤ reserve_in (entry_of entry.now).schedule (suc index)) }
    ensures power_limit { IsFrom given.power
        (given.power +ℤ (pos 4294967296 *ℤ entry.now.weight)) result.power }
    ensures reserve_limit { IsFrom given.reserve
        (given.reserve +ℤ (pos 4294967296 *ℤ entry.now.weight)) result.reserve }
{
    let response = &entry.response;
    Weighed {
        power: given.power + wide_product(entry.weight, response.power_at(index)),
        reserve: given.reserve + wide_product(entry.weight, response.reserve_at(index)),
    }
}

// What the entries of one unit give at an index.
fn weighted_output_of_entries(entries: &[Entry], index: usize) -> Weighed
    requires weights { AreUnitWeights (map entry_of entries.now) }
    requires index { AreBehind index (map entry_of entries.now) }
    ensures power { result.power
        ≡ weighed (λ s. power_in s (suc index)) (map entry_of entries.now) }
    ensures reserve { result.reserve
        ≡ weighed (λ s. reserve_in s (suc index)) (map entry_of entries.now) }
    ensures power_limit { IsFrom (pos 0) (pos 4294967296000000000000) result.power }
    ensures reserve_limit { IsFrom (pos 0) (pos 4294967296000000000000) result.reserve }
{
    let mut given = Weighed {
        power: 0,
        reserve: 0,
    };
    for entry in entries {
        given = weighted_output_with_entry(given, entry, index);
    }
    given
}

// What the mixture gives at an index.
fn weighted_output_of_mixture(case: &Case, mixture: &Mixture, index: usize) -> Weighed
    requires shape { HasMixtureShape (market_of case.now) (mixture_of mixture.now) }
    requires index { index < (market_of case.now).periods }
    ensures power { result.power ≡ weighed_over (λ u s. supply_in u s (suc index))
        (market_of case.now) (mixture_of mixture.now) }
    ensures reserve { result.reserve ≡ weighed_over (λ u s. reserve_in s (suc index))
        (market_of case.now) (mixture_of mixture.now) }
    ensures power_limit { IsGiven result.power }
    ensures reserve_limit { IsGiven result.reserve }
{
    let mut given = Weighed {
        power: 0,
        reserve: 0,
    };
    for unit in 0..case.thermal.len() {
        let more = weighted_output_of_entries(mixture.thermal.get(unit).as_slice(), index);
        given = Weighed {
            power: given.power + more.power,
            reserve: given.reserve + more.reserve,
        };
    }
    given
}

// What is lacking of a power that is required so many times.
fn weighted_shortfall(weight: i64, required: i64, given: i128) -> i128
    requires weight { IsFrom (pos 0) most_whole weight }
    requires required { IsPower required }
    requires given { IsGiven given }
    ensures value { result ≡ (weight *ℤ required) -ℤ given }
    ensures limit { IsLack result }
{
    wide_product(weight, required) - given
}

/// What the mixture lacks of demand and of the required reserve at an index, as often as its weight
/// says: below 0 where it gives more.
pub fn shortfalls_of_mixture_at(case: &Case, mixture: &Mixture, index: usize) -> Weighed
    requires shape { HasMixtureShape (market_of case.now) (mixture_of mixture.now) }
    requires index { index < (market_of case.now).periods }
    ensures power { result.power ≡ lack (market_of case.now) (mixture_of mixture.now) index }
    ensures reserve { result.reserve ≡ short (market_of case.now) (mixture_of mixture.now) index }
    ensures power_limit { IsLack result.power }
    ensures reserve_limit { IsLack result.reserve }
{
    let given = weighted_output_of_mixture(case, mixture, index);
    Weighed {
        power: weighted_shortfall(mixture.weight, *case.demand.get(index), given.power),
        reserve: weighted_shortfall(mixture.weight, *case.reserves.get(index), given.reserve),
    }
}

// What a feasible schedule costs.
fn cost_of_schedule(unit: &Unit, response: &Response) -> i64
    requires horizon { length (schedule_of response.now).on ≤ MOST_PERIODS }
    requires feasible { IsThermalFeasible (thermal_of unit.now)
        (length (schedule_of response.now).on) (schedule_of response.now) }
    ensures value { result ≡ cost_of (Thermal (thermal_of unit.now)) (schedule_of response.now) }
    ensures limit { IsUnitCost result }
{
    power_costs(unit, response) + costs_of_starts(unit, response)
}

// What the entries of one unit cost.
fn weighted_cost_of_entries(unit: &Unit, entries: &[Entry]) -> i128
    requires horizon { length (thermal_of unit.now).window ≤ MOST_PERIODS }
    requires weights { AreUnitWeights (map entry_of entries.now) }
    requires feasible { All (λ (e : WeighedSchedule). IsThermalFeasible (thermal_of unit.now)
        (length (thermal_of unit.now).window) e.schedule) (map entry_of entries.now) }
    ensures value { result
        ≡ weighed (cost_of (Thermal (thermal_of unit.now))) (map entry_of entries.now) }
    ensures limit { IsCostOfOne result }
{
    let mut sum: i128 = 0;
    for entry in entries {
        sum += wide_product(entry.weight, cost_of_schedule(unit, &entry.response));
    }
    sum
}

/// What the mixture costs, as often as its weight says.
pub fn cost_of_mixture(case: &Case, mixture: &Mixture) -> i128
    requires shape { HasMixtureShape (market_of case.now) (mixture_of mixture.now) }
    requires feasible { IsMixture (market_of case.now) (mixture_of mixture.now) }
    ensures value { result ≡ mixture_cost (market_of case.now) (mixture_of mixture.now) }
    ensures limit { IsMixtureCost result }
{
    let mut sum: i128 = 0;
    for index in 0..case.thermal.len() {
        let unit = &case.thermal.get(index).unit;
        sum += weighted_cost_of_entries(unit, mixture.thermal.get(index).as_slice());
    }
    sum
}
