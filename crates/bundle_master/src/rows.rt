//! The rows of a master problem: what is due, and the limits of the price.
ghost use Rattle.std.specs.Prelude.{◌≡◌, length};

use crate::columns::{Lengths, Sums, Target, clamp_magnitude, step_length_until_zero};
use dense_matrix::matrix::Matrix;

/// The greatest price, and the least energy price.
pub const HIGHEST: f64 = 10000.0;

pub const LOWEST: f64 = -10000.0;

/// What is added on the diagonal, so that no pivot is 0.
const LEAST_CURVATURE: f64 = 1e-12;

/// The balance of energy or reserve in a period.
#[derive(Clone, Copy)]
pub struct Row {
    /// What is due, in megawatts.
    pub due: f64,
    /// The least price.
    pub lowest: f64,
    /// The centre of the ridge.
    pub centre: f64,
    /// What is lacking, at the greatest price, and what is too much, at the least: above 0, and paired with how far the
    /// price is from that limit.
    pub lack: f64,
    pub more: f64,
    /// How the two change in a step.
    pub lack_step: f64,
    pub more_step: f64,
}

impl Row {
    /// A row with nothing due.
    pub fn new(lowest: f64) -> Row {
        Row {
            due: 0.0,
            lowest,
            centre: 0.0,
            lack: 0.0,
            more: 0.0,
            lack_step: 0.0,
            more_step: 0.0,
        }
    }

    /// Makes the two products the same.
    pub fn start_on_central_path(&mut self, price: f64, product: f64) {
        self.lack = product / (HIGHEST - price);
        self.more = product / (price - self.lowest);
    }

    /// What the ridge takes.
    pub fn amount_held_by_ridge(&self, price: f64, ridge: f64) -> f64 {
        ridge * (price - self.centre)
    }

    /// What the columns have to give.
    pub fn amount_wanted_from_columns(&self, price: f64, ridge: f64) -> f64 {
        self.due - self.lack + self.more - self.amount_held_by_ridge(price, ridge)
    }

    /// How fast what is lacking, too much and held follows the price.
    pub fn newton_diagonal(&self, price: f64, ridge: f64) -> f64 {
        self.lack / (HIGHEST - price) + self.more / (price - self.lowest) + ridge + LEAST_CURVATURE
    }

    /// The sums with those of the row, of which so much is left.
    pub fn add_cost_and_complementarity(&self, sums: Sums, price: f64, left: f64) -> Sums {
        Sums {
            cost: sums.cost + left * price + self.lack * HIGHEST - self.more * self.lowest,
            products: sums.products
                + self.lack * (HIGHEST - price)
                + self.more * (price - self.lowest),
            pairs: sums.pairs + 2.0,
        }
    }

    /// Sets the steps to a target at an unchanged price; what they take off what is left. The last step's second order
    /// is that of the price's step too.
    pub fn set_steps_at_fixed_price(&mut self, price: f64, last_step: f64, target: Target) -> f64 {
        let second_lack = clamp_magnitude(last_step * self.lack_step, target.limit);
        let second_more = clamp_magnitude(last_step * self.more_step, target.limit);
        self.lack_step = (target.product + second_lack) / (HIGHEST - price) - self.lack;
        self.more_step = (target.product - second_more) / (price - self.lowest) - self.more;
        self.lack_step - self.more_step
    }

    /// The steps at that step of the price.
    pub fn set_newton_steps(&mut self, price: f64, price_step: f64) {
        self.lack_step += self.lack / (HIGHEST - price) * price_step;
        self.more_step -= self.more / (price - self.lowest) * price_step;
    }

    /// The lengths of a step, or lesser ones at which a number becomes 0.
    pub fn longest_step(&self, lengths: Lengths, price: f64, price_step: f64) -> Lengths {
        let primal = step_length_until_zero(lengths.primal, self.lack, self.lack_step);
        let dual = step_length_until_zero(lengths.dual, HIGHEST - price, -price_step);
        Lengths {
            primal: step_length_until_zero(primal, self.more, self.more_step),
            dual: step_length_until_zero(dual, price - self.lowest, price_step),
        }
    }

    /// The sum of products with the row's two after a step of those lengths.
    pub fn add_complementarity_after_step(
        &self,
        sum: f64,
        lengths: Lengths,
        price: f64,
        price_step: f64,
    ) -> f64 {
        let step = lengths.dual * price_step;
        let lack = self.lack + lengths.primal * self.lack_step;
        let more = self.more + lengths.primal * self.more_step;
        sum + lack * (HIGHEST - price - step) + more * (price + step - self.lowest)
    }

    /// Takes a step of that length.
    pub fn take_newton_step(&mut self, length: f64) {
        self.lack += length * self.lack_step;
        self.more += length * self.more_step;
    }
}

/// Makes the products of all rows the same at those prices.
pub fn start_rows_on_central_path(rows: &mut [Row], prices: &[f64], product: f64)
    requires { length prices.now ≡ length rows.old }
{
    for row in 0..rows.len() {
        rows[row].start_on_central_path(prices[row], product);
    }
}

/// Sets what the columns have to give.
pub fn write_amounts_wanted_from_columns(rows: &[Row], prices: &[f64], ridge: f64, due: &mut [f64])
    requires prices { length prices.now ≡ length rows.now }
    requires due { length due.old ≡ length rows.now }
{
    for row in 0..rows.len() {
        due[row] = rows[row].amount_wanted_from_columns(prices[row], ridge);
    }
}

/// The sums with those of all rows, of which so much is left.
pub fn add_complementarity_of_rows(rows: &[Row], prices: &[f64], left: &[f64], sums: Sums) -> Sums
    requires prices { length prices.now ≡ length rows.now }
    requires left { length left.now ≡ length rows.now }
{
    let mut sums = sums;
    for row in 0..rows.len() {
        sums = rows[row].add_cost_and_complementarity(sums, prices[row], left[row]);
    }
    sums
}

/// What the ridge holds, priced; and the sum of the magnitudes.
pub fn ridge_penalty_cost_and_magnitude(rows: &[Row], prices: &[f64], ridge: f64) -> (f64, f64)
    requires { length prices.now ≡ length rows.now }
{
    let mut cost = 0.0;
    let mut sum = 0.0;
    for row in 0..rows.len() {
        let held = rows[row].amount_held_by_ridge(prices[row], ridge);
        cost += held * prices[row];
        sum += held.abs();
    }
    (cost, sum)
}

/// Adds to the matrix how fast what is lacking, too much and held follows the prices.
pub fn add_rows_to_matrix(rows: &[Row], prices: &[f64], ridge: f64, matrix: &mut Matrix)
    requires prices { length prices.now ≡ length rows.now }
    requires matrix { matrix.old ≡ length rows.now }
    ensures { matrix.new ≡ matrix.old }
{
    for row in 0..rows.len() {
        matrix.add_to_diagonal(row, rows[row].newton_diagonal(prices[row], ridge));
    }
}

/// Sets the steps of all rows to a target at unchanged prices, and takes them off a right-hand side.
pub fn add_rows_to_newton_right_side(
    rows: &mut [Row],
    prices: &[f64],
    last_steps: &[f64],
    target: Target,
    right: &mut [f64],
)
    requires prices { length prices.now ≡ length rows.old }
    requires steps { length last_steps.now ≡ length rows.old }
    requires right { length right.old ≡ length rows.old }
{
    for row in 0..rows.len() {
        right[row] -= rows[row].set_steps_at_fixed_price(prices[row], last_steps[row], target);
    }
}

/// The steps of all rows at that step of the prices.
pub fn set_newton_steps_of_rows(rows: &mut [Row], prices: &[f64], price_steps: &[f64])
    requires prices { length prices.now ≡ length rows.old }
    requires steps { length price_steps.now ≡ length rows.old }
{
    for row in 0..rows.len() {
        rows[row].set_newton_steps(prices[row], price_steps[row]);
    }
}

/// The lengths of a step, or lesser ones at which a number of a row becomes 0.
pub fn longest_row_steps(
    rows: &[Row],
    prices: &[f64],
    price_steps: &[f64],
    lengths: Lengths,
) -> Lengths
    requires prices { length prices.now ≡ length rows.now }
    requires steps { length price_steps.now ≡ length rows.now }
{
    let mut lengths = lengths;
    for row in 0..rows.len() {
        lengths = rows[row].longest_step(lengths, prices[row], price_steps[row]);
    }
    lengths
}

/// The sum of products with those of all rows after a step of those lengths.
pub fn add_complementarity_of_rows_after_step(
    sum: f64,
    rows: &[Row],
    prices: &[f64],
    price_steps: &[f64],
    lengths: Lengths,
) -> f64
    requires prices { length prices.now ≡ length rows.now }
    requires steps { length price_steps.now ≡ length rows.now }
{
    let mut sum = sum;
    for row in 0..rows.len() {
        sum = rows[row].add_complementarity_after_step(sum, lengths, prices[row], price_steps[row]);
    }
    sum
}

/// Takes a step of that length with all rows.
pub fn advance_rows(rows: &mut [Row], length: f64) {
    for row in rows {
        row.take_newton_step(length);
    }
}
