//! What a search has in hand.
ghost use Rattle.std.specs.Prelude.{◌≡◌, length};
ghost use Rattle.uc_model.specs.Limits.{IsWorth};
ghost use Rattle.uc_model.specs.PlainCases.{market_of};
ghost use Rattle.uc_model.specs.PlainUnits.{prices_of};
ghost use Rattle.uc_model.specs.Systems.{IsDualValue};
ghost use Rattle.unit_program.specs.Tops.{HasSchedules, AreTops};
ghost use Rattle.bundle_columns.specs.Pools.{places_in};
ghost use Rattle.convex_search.specs.Searching.{IsSearch};

use crate::best::Best;
use crate::oracle::{Oracle, add_best_responses_as_columns};
use crate::points::round_prices;
use bundle_columns::copies::copy_prices;
use bundle_columns::pool::Pool;
use price_space::{dual_value, earned_sum};
use std::num::nearest_i64_to_f64;
use uc_model::cases::Case;
use uc_model::laws::{
    dual_values_are_within, earned_sums_are_within, earnings_are_within, unit_numbers_go_by_kind,
    units_are_within,
};
use uc_model::units::Prices;

/// What a search has in hand. Its memory is all taken when it opens.
#[derive(Drop)]
pub struct Search {
    /// What answers are worked out on.
    pub oracle: Oracle,
    /// The columns.
    pub pool: Pool,
    /// What was found so far.
    pub best: Best,
    /// The prices that are asked at.
    pub asked: Prices,
    /// The centre of the search.
    pub centre: Vec<f64>,
    /// The prices of a round.
    pub point: Vec<f64>,
    /// Others to be asked at.
    pub trial: Vec<f64>,
}

/// What asking at prices came to.
#[derive(Clone, Copy)]
pub struct Asked {
    /// Their dual value, in money.
    pub value: i128,
    /// Whether there was a new column.
    pub is_new: bool,
}

/// Money in the currency.
pub fn in_currency(money: i128) -> f64 {
    let most = i128::from(i64::MAX);
    nearest_i64_to_f64(money.clamp(-most, most) as i64) / 1e6
}

/// The dual value of prices, at what the best schedules of all units earn.
pub fn value_at(case: &Case, prices: &Prices, earned: &[i64]) -> i128
    requires horizon { length (prices_of prices.now).energy ≡ (market_of case.now).periods }
    requires tops { AreTops (market_of case.now) (prices_of prices.now) earned.now }
    ensures value { IsDualValue (market_of case.now) (prices_of prices.now) result }
    ensures size { IsWorth result }
{
    unit_numbers_go_by_kind();
    units_are_within();
    earnings_are_within();
    earned_sums_are_within();
    dual_values_are_within();
    dual_value(case, prices, earned_sum(earned))
}

/// Asks all units at the prices that are to be asked at; keeps the prices where they are better.
pub fn ask_units_and_keep_better_prices(search: &mut Search, case: &Case) -> Asked
    requires some { HasSchedules (market_of case.now) }
    requires search { IsSearch (market_of case.now) (places_in search.old.pool) search.old }
    ensures { IsSearch (market_of case.now) (places_in search.old.pool) search.new }
{
    let is_new = add_best_responses_as_columns(
        &mut search.oracle,
        case,
        &search.asked,
        &mut search.pool,
    );
    let value = value_at(case, &search.asked, search.oracle.earned.as_slice());
    if value > search.best.value {
        copy_prices(&search.asked, &mut search.best.prices);
        search.best.value = value;
    }
    Asked { value, is_new }
}

/// The same at the whole prices that are nearest to the point of the round.
pub fn ask_units_at_round_point(search: &mut Search, case: &Case) -> Asked
    requires some { HasSchedules (market_of case.now) }
    requires search { IsSearch (market_of case.now) (places_in search.old.pool) search.old }
    ensures { IsSearch (market_of case.now) (places_in search.old.pool) search.new }
{
    round_prices(&search.point, &mut search.asked);
    ask_units_and_keep_better_prices(search, case)
}

/// And at those nearest to the other point.
pub fn ask_units_at_trial_point(search: &mut Search, case: &Case) -> Asked
    requires some { HasSchedules (market_of case.now) }
    requires search { IsSearch (market_of case.now) (places_in search.old.pool) search.old }
    ensures { IsSearch (market_of case.now) (places_in search.old.pool) search.new }
{
    round_prices(&search.trial, &mut search.asked);
    ask_units_and_keep_better_prices(search, case)
}
