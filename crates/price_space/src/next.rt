//! The prices that follow a list of rows.
ghost use Rattle.std.specs.Prelude.{◌≡◌, ◌<◌, ◌≤◌, ◌-◌, ◌↔◌, ◌-ℤ◌, ◌||◌, ◌==◌, unsigned_abs, pos};
ghost use Rattle.std.specs.Prelude.{IsTrue, length, map, Some, slice_get};
ghost use Rattle.std.specs.List.{All};
ghost use Rattle.plain_lists.specs.declared.limits.TheConstants.{MOST_PROPOSALS};
ghost use Rattle.plain_lists.specs.Ranges.{IsFrom};
ghost use Rattle.uc_model.specs.Limits.{IsWorth};
ghost use Rattle.uc_model.specs.PlainCases.{market_of, proposal_of};
ghost use Rattle.uc_model.specs.PlainUnits.{prices_of};
ghost use Rattle.uc_model.specs.PriceRule.{age, next_prices as prices_after};
ghost use Rattle.price_space.specs.Firsts.{IsFirstUpTo};
ghost use Rattle.price_space.specs.Moves.{is_last_settled, values_of};
ghost use Rattle.price_space.specs.Sizes.{IsRowBelow};

use crate::best_row::row_of_greatest_dual_value;
use crate::entries::Product;
use crate::step::{Step, squared_norm_of_direction, step_divisor, take_step};
use uc_model::cases::{Case, Row};
use uc_model::units::Prices;

/// Whether prices follow a list of rows.
#[derive(Clone, Copy, PartialEq, Eq, Debug)]
pub enum Moved {
    /// They do.
    Made,
    /// The last row's value is the cost of the plan, or its direction is 0 throughout: no step is
    /// left.
    Settled,
}

// How many rows have come since the first with the greatest value, whose place is `best`.
fn rows_since_best(rows: &[Row], best: usize) -> usize
    requires { IsFirstUpTo (values_of (map proposal_of rows.now)) (length rows.now) best }
    ensures { result ≡ age (map proposal_of rows.now) }
{
    rows.len() - 1 - best
}

// What a row's value lacks of the cost of the plan.
fn gap_of_row(case: &Case, row: &Row, cost: i128) -> i128
    requires row { IsRowBelow (market_of case.now) cost (proposal_of row.now) }
    requires cost { IsWorth cost }
    ensures value { result ≡ cost -ℤ (proposal_of row.now).value }
    ensures bound { IsFrom (pos 0) (pos 2000000000000000000000000) result }
{
    cost - row.value
}

// No step is left where the gap or the direction is 0.
fn is_gap_or_direction_zero(gap: i128, norm: i128) -> bool
    ensures { result ≡ ((unsigned_abs gap == 0) || (unsigned_abs norm == 0)) }
{
    gap == 0 || norm == 0
}

// The last of the rows.
fn last_row(rows: &[Row]) -> &Row
    requires { 0 < length rows.now }
    ensures { slice_get (map proposal_of rows.now) (length (map proposal_of rows.now) - 1)
        ≡ Some (proposal_of result.now) }
{
    &rows[rows.len() - 1]
}

/// Leaves in `into` the prices of proposal m + `ahead`, where `rows` are the rows 1 to m: each
/// price of row m moves by gap * d / (N * 2^h), cut toward zero, and is kept within its limits.
/// There d is its entry of the direction, N the sum of the squares of all entries, the gap is
/// `cost` less the value of row m, and h is the least of 20 and a tenth of the rows that have come
/// since the first with the greatest value. Where row m is settled, which is where the gap or N is
/// 0, the answer is `Settled` and `into` is unchanged. Rows and `into` are over the periods of the
/// case; values and `cost` are at most 10^24 and totals 10^13 in magnitude, and no value is above
/// `cost`, the cost of a feasible plan. Takes no memory.
pub fn next_prices(case: &Case, rows: &[Row], ahead: u32, cost: i128, into: &mut Prices) -> Moved
    requires some { 1 ≤ length rows.now }
    requires count { length rows.now ≤ MOST_PROPOSALS }
    requires rows { All (IsRowBelow (market_of case.now) cost) (map proposal_of rows.now) }
    requires cost { IsWorth cost }
    requires horizon { length (prices_of into.old).energy ≡ (market_of case.now).periods }
    ensures settled { (result ≡ Moved.Settled)
        ↔ IsTrue (is_last_settled (market_of case.now) cost (map proposal_of rows.now)) }
    ensures made { result ≡ Moved.Made → prices_of into.new
        ≡ prices_after (market_of case.now) cost (map proposal_of rows.now) }
    ensures unchanged { result ≡ Moved.Settled → prices_of into.new ≡ prices_of into.old }
{
    next_prices_from_best_row(case, rows, row_of_greatest_dual_value(rows), cost, into)
}

/// The same in time that doesn't grow with the rows, where `best` is the place of the first row
/// with the greatest value.
pub fn next_prices_from_best_row(
    case: &Case,
    rows: &[Row],
    best: usize,
    cost: i128,
    into: &mut Prices,
) -> Moved
    requires best { IsFirstUpTo (values_of (map proposal_of rows.now)) (length rows.now) best }
    requires count { length rows.now ≤ MOST_PROPOSALS }
    requires rows { All (IsRowBelow (market_of case.now) cost) (map proposal_of rows.now) }
    requires cost { IsWorth cost }
    requires horizon { length (prices_of into.old).energy ≡ (market_of case.now).periods }
    ensures settled { (result ≡ Moved.Settled)
        ↔ IsTrue (is_last_settled (market_of case.now) cost (map proposal_of rows.now)) }
    ensures made { result ≡ Moved.Made → prices_of into.new
        ≡ prices_after (market_of case.now) cost (map proposal_of rows.now) }
    ensures unchanged { result ≡ Moved.Settled → prices_of into.new ≡ prices_of into.old }
{
    let row = last_row(rows);
    let gap = gap_of_row(case, row, cost);
    let norm = squared_norm_of_direction(case, row);
    if is_gap_or_direction_zero(gap, norm) {
        return Moved::Settled;
    }
    let scale = step_divisor(norm, rows_since_best(rows, best));
    let step = Step { gap, scale };
    take_step(case, row, step, Product::Energy, &mut into.energy);
    take_step(case, row, step, Product::Reserve, &mut into.reserve);
    Moved::Made
}
