//! Variables of one row, such as a renewable unit's power or a block of a bid.
ghost use Rattle.std.specs.Prelude.{◌≡◌, length};
ghost use Rattle.bundle_master.specs.UnitShape.{AreBelow};

use crate::columns::{self, Column, Lengths, Sums, Target};
use dense_matrix::matrix::Matrix;
use std::marker::Model;

/// A variable from 0 to an amount in one row, as a group of two columns: nothing, and the whole. Contracts see the row.
#[derive(Drop)]
pub struct Single {
    row: usize,
    amount: f64,
    columns: [Column; 2],
    // The mean of nothing and the whole by the columns' weights, and the weights' sum.
    mean: f64,
    weight: f64,
}

impl Model for Single {
    ghost use Rattle.std.specs.Prelude.{ℕ};

    ghost Value = { ℕ };

    ghost view = { λ s. s.row };
}

impl Single {
    /// A variable from 0 to an amount, which costs so much as a whole.
    pub fn new(row: usize, amount: f64, cost: f64) -> Single
        ensures { result ≡ row }
    {
        let mut whole = Column::BLANK;
        whole.cost = cost;
        Single {
            row,
            amount,
            columns: [Column::BLANK, whole],
            mean: 0.0,
            weight: 0.0,
        }
    }

    /// The row.
    pub fn row(&self) -> usize
        ensures { result ≡ self.now }
    {
        self.row
    }

    /// The sums with those of the two columns.
    pub fn add_cost_and_complementarity(&self, sums: Sums) -> Sums {
        columns::add_complementarity_of_columns(sums, &self.columns)
    }

    /// Shares at which each product with the reduced cost at that price is the same.
    pub fn start_on_central_path(&mut self, price: f64, product: f64)
        ensures { self.new ≡ self.old }
    {
        self.columns[0].reduced = 0.0;
        self.columns[1].reduced = self.columns[1].cost - self.amount * price;
        columns::start_columns_on_central_path(&mut self.columns, product);
    }

    /// What the shares give.
    pub fn amount_given(&self) -> f64 {
        self.columns[1].share * self.amount
    }

    /// Sets weights and mean; how fast what the columns give follows the price.
    pub fn set_weights_and_mean(&mut self) -> f64
        ensures { self.new ≡ self.old }
    {
        self.weight = columns::set_column_weights(&mut self.columns);
        self.mean = self.columns[1].weight * self.amount / self.weight;
        let above = self.amount - self.mean;
        self.columns[0].weight * self.mean * self.mean + self.columns[1].weight * above * above
    }

    /// Sets the pushes to a target; what they give.
    pub fn set_steps_at_fixed_price(&mut self, target: Target) -> f64
        ensures { self.new ≡ self.old }
    {
        let sum = columns::set_share_steps_at_fixed_prices(&mut self.columns, target);
        self.columns[1].push * self.amount - sum * self.mean
    }

    /// The steps of shares and reduced costs at that step of the price.
    pub fn set_newton_steps(&mut self, price_step: f64)
        ensures { self.new ≡ self.old }
    {
        self.columns[0].reduced_step = 0.0;
        self.columns[1].reduced_step = self.amount * price_step;
        columns::set_newton_steps_of_columns(&mut self.columns, self.weight);
    }

    /// The lengths of a step, or lesser ones at which a share or a reduced cost becomes 0.
    pub fn longest_step(&self, lengths: Lengths) -> Lengths {
        columns::longest_column_steps(&self.columns, lengths)
    }

    /// The sum of products with those of the columns after a step of those lengths.
    pub fn add_complementarity_after_step(&self, sum: f64, lengths: Lengths) -> f64 {
        columns::add_complementarity_of_columns_after_step(sum, &self.columns, lengths)
    }

    /// Takes a step of that length.
    pub fn take_newton_step(&mut self, length: f64)
        ensures { self.new ≡ self.old }
    {
        columns::advance_columns(&mut self.columns, length);
    }
}

/// The sums with those of all variables.
pub fn add_complementarity_of_row_variables(singles: &[Single], sums: Sums) -> Sums {
    let mut sums = sums;
    for single in singles {
        sums = single.add_cost_and_complementarity(sums);
    }
    sums
}

/// Centres all variables at those prices.
pub fn start_row_variables_on_central_path(singles: &mut [Single], prices: &[f64], product: f64)
    requires { AreBelow (length prices.now) singles.old }
    ensures { singles.new ≡ singles.old }
{
    for single in 0..singles.len() {
        let row = singles[single].row();
        singles[single].start_on_central_path(prices[row], product);
    }
}

/// Takes what the shares of all variables give off what is due.
pub fn subtract_row_variables_from_row_residuals(singles: &[Single], due: &mut [f64])
    requires { AreBelow (length due.old) singles.now }
{
    for single in 0..singles.len() {
        let row = singles[single].row();
        due[row] -= singles[single].amount_given();
    }
}

/// Sets the weights and means of all variables, and adds to the matrix how fast what they give follows the prices.
pub fn add_row_variables_to_matrix(singles: &mut [Single], matrix: &mut Matrix)
    requires { AreBelow matrix.old singles.old }
    ensures singles { singles.new ≡ singles.old }
    ensures matrix { matrix.new ≡ matrix.old }
{
    for single in 0..singles.len() {
        let row = singles[single].row();
        let curvature = singles[single].set_weights_and_mean();
        matrix.add_to_diagonal(row, curvature);
    }
}

/// Sets the pushes of all variables to a target, and takes what they give off a right-hand side.
pub fn add_row_variables_to_newton_right_side(
    singles: &mut [Single],
    target: Target,
    right: &mut [f64],
)
    requires { AreBelow (length right.old) singles.old }
    ensures { singles.new ≡ singles.old }
{
    for single in 0..singles.len() {
        let row = singles[single].row();
        right[row] -= singles[single].set_steps_at_fixed_price(target);
    }
}

/// The steps of all variables at that step of the prices.
pub fn set_newton_steps_of_row_variables(singles: &mut [Single], price_steps: &[f64])
    requires { AreBelow (length price_steps.now) singles.old }
    ensures { singles.new ≡ singles.old }
{
    for single in 0..singles.len() {
        let row = singles[single].row();
        singles[single].set_newton_steps(price_steps[row]);
    }
}

/// The lengths of a step, or lesser ones at which a share or a reduced cost of a variable becomes 0.
pub fn longest_row_variable_steps(singles: &[Single], lengths: Lengths) -> Lengths {
    let mut lengths = lengths;
    for single in singles {
        lengths = single.longest_step(lengths);
    }
    lengths
}

/// The sum of products with those of all variables after a step of those lengths.
pub fn add_complementarity_of_row_variables_after_step(
    sum: f64,
    singles: &[Single],
    lengths: Lengths,
) -> f64 {
    let mut sum = sum;
    for single in singles {
        sum = single.add_complementarity_after_step(sum, lengths);
    }
    sum
}

/// Takes a step of that length with all variables.
pub fn advance_row_variables(singles: &mut [Single], length: f64)
    ensures { singles.new ≡ singles.old }
{
    for single in 0..singles.len() {
        singles[single].take_newton_step(length);
    }
}
