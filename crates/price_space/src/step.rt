//! One step of all prices along the direction.
ghost use Rattle.std.specs.Prelude.{◌≡◌, ◌<◌, ◌≤◌, ◌*◌, ◌/◌, ◌^◌, min, ℤ, pos, neg_ℤ};
ghost use Rattle.std.specs.Prelude.{◌*ℤ◌, int_div, length, map};
ghost use Rattle.std.specs.List.{All, range_with_len};
ghost use Rattle.plain_lists.specs.Ranges.{IsFrom};
ghost use Rattle.uc_model.specs.Limits.{price_limit};
ghost use Rattle.uc_model.specs.PlainCases.{market_of, proposal_of};
ghost use Rattle.uc_model.specs.PriceRule.{squared_length};
ghost use Rattle.plain_lists.specs.Sums.{int_at};
ghost use Rattle.price_space.specs.Moves.{low_of, prices_on, price_after as price_after_step};
ghost use Rattle.price_space.specs.Sizes.{IsEntry, IsRowOver};

use crate::entries::{Product, direction, direction_entry};
use plain_lists::lists::Numbers;
use uc_model::cases::{Case, Row};
use uc_model::limits::PRICE_LIMIT;
use uc_model::money::clamp_to_price_limit;

/// A step moves a price by `gap` times its entry of the direction over `scale`.
#[derive(Clone, Copy)]
pub struct Step {
    /// The cost of the plan less the row's dual value, in money.
    pub gap: i128,
    /// The squared length of the direction, doubled the more often the longer no better value was
    /// found.
    pub scale: i128,
}

fn square_of(entry: i64) -> i128
    requires { IsEntry entry }
    ensures value { result ≡ entry *ℤ entry }
    ensures bound { IsFrom (pos 0) (pos 400000000000000000000000000) result }
{
    i128::from(entry) * i128::from(entry)
}

/// The sum of the squares of the direction's entries: at most 336 times the square of 2 * 10^13.
pub fn squared_norm_of_direction(case: &Case, row: &Row) -> i128
    requires { IsRowOver (market_of case.now) (proposal_of row.now) }
    ensures value { result ≡ squared_length (market_of case.now) (proposal_of row.now) }
    ensures bound { IsFrom (pos 0) (pos 134400000000000000000000000000) result }
{
    let mut total: i128 = 0;
    for place in 0..2 * case.periods {
        total += square_of(direction(case, row, place));
    }
    total
}

// Twice as many with each ten rows that brought no better value, up to 2^20.
fn step_halving_factor(age: usize) -> u32
    ensures value { result ≡ 2 ^ min 20 (age / 10) }
    ensures low { 1 ≤ result }
    ensures high { result ≤ 1048576 }
{
    let most: usize = 20;
    2u32.pow(most.min(age / 10) as u32)
}

/// What a step's moves are divided by.
pub fn step_divisor(norm: i128, age: usize) -> i128
    requires { IsFrom (pos 1) (pos 134400000000000000000000000000) norm }
    ensures value { result ≡ norm *ℤ pos (2 ^ min 20 (age / 10)) }
    ensures bound { IsFrom (pos 1) (pos 1000000000000000000000000000000000000) result }
{
    norm * i128::from(step_halving_factor(age))
}

/// How far an entry moves its price, cut toward zero: the product is below 4 * 10^37, and a 128-bit
/// number reaches
/// 1.7 * 10^38.
pub fn price_move_of_direction_entry(step: Step, entry: i64) -> i128
    requires gap { IsFrom (pos 0) (pos 2000000000000000000000000) step.gap }
    requires scale { IsFrom (pos 1) (pos 1000000000000000000000000000000000000) step.scale }
    requires entry { IsEntry entry }
    ensures value { result ≡ int_div (step.gap *ℤ entry) step.scale }
    ensures bound { IsFrom (neg_ℤ (pos 40000000000000000000000000000000000000))
        (pos 40000000000000000000000000000000000000) result }
{
    step.gap * i128::from(entry) / step.scale
}

fn least_price_of_product(product: Product) -> i64
    ensures value { result ≡ low_of product }
    ensures bound { IsFrom (neg_ℤ price_limit) price_limit result }
{
    match product {
        Product::Energy => -PRICE_LIMIT,
        Product::Reserve => 0,
    }
}

fn price_of_product(row: &Row, product: Product, k: usize) -> i64
    requires { k < length (proposal_of row.now).prices.energy }
    ensures value { result ≡ int_at (prices_on product (proposal_of row.now)) k }
    ensures bound { IsFrom (neg_ℤ price_limit) price_limit result }
{
    match product {
        Product::Energy => *row.prices.energy.get(k),
        Product::Reserve => *row.prices.reserve.get(k),
    }
}

// A price after the step.
fn price_of_product_after_step(
    case: &Case,
    row: &Row,
    step: Step,
    product: Product,
    k: usize,
) -> i64
    requires row { IsRowOver (market_of case.now) (proposal_of row.now) }
    requires gap { IsFrom (pos 0) (pos 2000000000000000000000000) step.gap }
    requires scale { IsFrom (pos 1) (pos 1000000000000000000000000000000000000) step.scale }
    requires place { k < (market_of case.now).periods }
    ensures { result ≡ price_after_step (market_of case.now) (proposal_of row.now) step.gap
        step.scale product k }
{
    let by = price_move_of_direction_entry(step, direction_entry(case, row, product, k));
    clamp_to_price_limit(
        least_price_of_product(product),
        i128::from(price_of_product(row, product, k)) + by,
    )
}

/// Writes a product's prices after the step.
pub fn take_step(case: &Case, row: &Row, step: Step, product: Product, into: &mut Numbers)
    requires row { IsRowOver (market_of case.now) (proposal_of row.now) }
    requires gap { IsFrom (pos 0) (pos 2000000000000000000000000) step.gap }
    requires scale { IsFrom (pos 1) (pos 1000000000000000000000000000000000000) step.scale }
    requires length { length into.old.items ≡ (market_of case.now).periods }
    ensures prices { into.new.items
        ≡ map (price_after_step (market_of case.now) (proposal_of row.now) step.gap step.scale product)
        (range_with_len 0 (market_of case.now).periods) }
    ensures limits { All (IsFrom (low_of product) price_limit) into.new.items }
    ensures same_length { length into.new.items ≡ length into.old.items }
    ensures spare { into.new.spare ≡ into.old.spare }
{
    for k in 0..case.periods as usize {
        into.set(k, price_of_product_after_step(case, row, step, product, k));
    }
}
