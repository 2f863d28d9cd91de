//! The thermal units of a master problem.
ghost use Rattle.std.specs.Prelude.{◌≡◌, ◌+◌, ◌<◌, ◌≤◌, length, IfOk, max};
ghost use Rattle.bundle_master.specs.UnitShape.{AreOver};

use crate::columns::{self, Column, Lengths, Sums, Target};
use crate::numbers::in_megawatts;
use dense_matrix::matrix::Matrix;
use dense_matrix::table::Table;
use dense_matrix::vectors::{add_difference, add_multiple, dot_product};
use std::alloc::{AllocError, Global};
use std::marker::Model;

/// Schedules of one unit as columns, with what each gives in each row. Contracts see how many there are, for how many
/// there is room, and how many rows each has.
pub struct Unit {
    columns: Vec<Column>,
    amounts: Table,
    // The mean of the columns by their weights, and the weights' sum.
    mean: Vec<f64>,
    weight: f64,
}

// By hand, so that dropping it is one call.
impl Drop for Unit {
    fn drop(self) {
        let Unit {
            columns: _,
            amounts: _,
            mean: _,
            weight: _,
        } = self;
    }
}

impl Model for Unit {
    ghost use Rattle.std.specs.Prelude.{◌≡◌, ◌≤◌, length, vec_capacity};
    ghost use Rattle.bundle_master.specs.UnitShape.{UnitShape};

    ghost Value = { UnitShape };

    ghost view = { λ u. record {
      count = length u.columns.items;
      places = u.amounts.height;
      rows = u.amounts.width;
    } };

    ghost invariant = { λ u. (vec_capacity u.columns ≡ u.amounts.height)
        × (length u.columns.items ≤ u.amounts.height)
        × (length u.mean.items ≡ u.amounts.width) × (u.amounts.width ≤ 2000) };
}

// The place of the column with the greatest reduced cost.
fn index_of_greatest_reduced_cost(columns: &[Column]) -> usize
    requires { 1 ≤ length columns.now }
    ensures { result < length columns.now }
{
    let mut greatest = 0;
    for index in 1..columns.len() {
        if columns[index].reduced > columns[greatest].reduced {
            greatest = index;
        }
    }
    greatest
}

// Writes kilowatts, from an entry of a row on.
fn set_column_amounts(amounts: &mut Table, index: usize, first: usize, kilowatts: &[i64])
    requires index { index < amounts.old.height }
    requires room { first + length kilowatts.now ≤ amounts.old.width }
    requires width { amounts.old.width ≤ 2000 }
    ensures { amounts.new ≡ amounts.old }
{
    for period in 0..kilowatts.len() {
        amounts.set(index, first + period, in_megawatts(kilowatts[period]));
    }
}

// What each column costs at those prices.
fn set_reduced_costs(columns: &mut [Column], amounts: &Table, prices: &[f64])
    requires columns { length columns.old ≤ amounts.now.height }
    requires prices { length prices.now ≡ amounts.now.width }
{
    for index in 0..columns.len() {
        columns[index].reduced = columns[index].cost - dot_product(amounts.row(index), prices);
    }
}

// Takes what the shares give off what is due.
fn subtract_shares_from_row_residuals(columns: &[Column], amounts: &Table, due: &mut [f64])
    requires columns { length columns.now ≤ amounts.now.height }
    requires due { length due.old ≡ amounts.now.width }
{
    for index in 0..columns.len() {
        add_multiple(due, -columns[index].share, amounts.row(index));
    }
}

// The mean of the columns by their weights. Where all give the same, it is that to the bit.
fn write_mean_column(columns: &[Column], amounts: &Table, weight: f64, mean: &mut [f64])
    requires some { 1 ≤ length columns.now }
    requires columns { length columns.now ≤ amounts.now.height }
    requires mean { length mean.old ≡ amounts.now.width }
{
    mean.fill(0.0);
    let first = amounts.row(0);
    for index in 0..columns.len() {
        add_difference(mean, columns[index].weight, amounts.row(index), first);
    }
    for row in 0..first.len() {
        mean[row] = first[row] + mean[row] / weight;
    }
}

// Adds the products of the columns, as they are above their mean, to the matrix.
fn add_columns(columns: &[Column], amounts: &Table, mean: &[f64], matrix: &mut Matrix)
    requires columns { length columns.now ≤ amounts.now.height }
    requires mean { length mean.now ≡ amounts.now.width }
    requires matrix { matrix.old ≡ amounts.now.width }
    ensures { matrix.new ≡ matrix.old }
{
    for index in 0..columns.len() {
        let factor = columns[index].weight.sqrt();
        matrix.add_outer_product_of_column(factor, amounts.row(index), mean);
    }
    matrix.add_remaining_outer_products();
}

// Takes what the pushes give off a right-hand side.
fn subtract_steps_at_fixed_prices(columns: &[Column], amounts: &Table, right: &mut [f64])
    requires columns { length columns.now ≤ amounts.now.height }
    requires right { length right.old ≡ amounts.now.width }
{
    for index in 0..columns.len() {
        add_multiple(right, -columns[index].push, amounts.row(index));
    }
}

// What each column earns by that step of the prices.
fn set_reduced_cost_steps(columns: &mut [Column], amounts: &Table, price_steps: &[f64])
    requires columns { length columns.old ≤ amounts.now.height }
    requires steps { length price_steps.now ≡ amounts.now.width }
{
    for index in 0..columns.len() {
        columns[index].reduced_step = dot_product(amounts.row(index), price_steps);
    }
}

impl Unit {
    /// Adds a part of an amount to the cost of each column, each another part; tells where the parts have come to.
    pub fn perturb_column_costs(&mut self, amount: f64, start: f64) -> f64
        ensures { self.new ≡ self.old }
    {
        columns::perturb_columns(self.columns.as_mut_slice(), amount, start)
    }

    /// A unit with room for so many columns of so many rows.
    pub fn make(alloc: Global, places: usize, rows: usize) -> Result<Unit, AllocError>
        requires places { places ≤ 1000 }
        requires rows { rows ≤ 2000 }
        ensures { IfOk result (λ unit. unit ≡ record { count = 0; places = places; rows = rows }) }
    {
        let columns = Vec::with_capacity(alloc, places)?;
        let mean = vec![in alloc; 0.0; rows]?;
        let amounts = Table::make(alloc, places, rows)?;
        Ok(Unit {
            columns,
            amounts,
            mean,
            weight: 0.0,
        })
    }

    /// How many columns there are.
    pub fn column_count(&self) -> usize
        ensures value { result ≡ self.now.count }
        ensures limit { result ≤ self.now.places }
    {
        self.columns.len()
    }

    /// The first free place, else that of the column with the greatest reduced cost.
    pub fn next_column_index(&self) -> usize
        requires { 1 ≤ self.now.places }
        ensures index { result < self.now.places }
        ensures count { result ≤ self.now.count }
        ensures free { self.now.count < self.now.places → result ≡ self.now.count }
    {
        let count = self.columns.len();
        if count < self.amounts.height() {
            return count;
        }
        index_of_greatest_reduced_cost(self.columns.as_slice())
    }

    /// Adds or replaces a column: what a schedule costs, and its power and reserve in each period, in kilowatts.
    pub fn set_column(&mut self, index: usize, cost: f64, power: &[i64], reserve: &[i64])
        requires index { index < self.old.places }
        requires count { index ≤ self.old.count }
        requires rows { length power.now + length reserve.now ≡ self.old.rows }
        ensures { self.new ≡ record self.old { count = max self.old.count (index + 1) } }
    {
        set_column_amounts(&mut self.amounts, index, 0, power);
        set_column_amounts(&mut self.amounts, index, power.len(), reserve);
        let mut column = Column::BLANK;
        column.cost = cost;
        if index < self.columns.len() {
            self.columns[index] = column;
        } else {
            self.columns.push_reserved(column);
        }
    }

    /// The share of the column at an index, and 0 where there is none.
    pub fn column_share(&self, index: usize) -> f64 {
        if index < self.columns.len() {
            self.columns[index].share
        } else {
            0.0
        }
    }

    /// The sums with those of the columns.
    pub fn add_cost_and_complementarity(&self, sums: Sums) -> Sums {
        columns::add_complementarity_of_columns(sums, self.columns.as_slice())
    }

    /// Shares at which each product with the reduced cost at those prices is the same.
    pub fn start_on_central_path(&mut self, prices: &[f64], product: f64)
        requires { length prices.now ≡ self.old.rows }
        ensures { self.new ≡ self.old }
    {
        set_reduced_costs(self.columns.as_mut_slice(), &self.amounts, prices);
        columns::start_columns_on_central_path(self.columns.as_mut_slice(), product);
    }

    /// Takes what the shares give off what is due.
    pub fn subtract_unit_from_row_residuals(&self, due: &mut [f64])
        requires { length due.old ≡ self.now.rows }
    {
        subtract_shares_from_row_residuals(self.columns.as_slice(), &self.amounts, due);
    }

    /// Sets weights and mean, and adds to the matrix how fast what the columns give follows the prices.
    pub fn add_one_unit_to_matrix(&mut self, matrix: &mut Matrix)
        requires { matrix.old ≡ self.old.rows }
        ensures unit { self.new ≡ self.old }
        ensures matrix { matrix.new ≡ matrix.old }
    {
        if self.columns.is_empty() {
            return;
        }
        self.set_weights_and_mean();
        add_columns(self.columns.as_slice(), &self.amounts, &self.mean, matrix);
    }

    // Sets the weights and the mean of the columns by them.
    fn set_weights_and_mean(&mut self)
        requires { 1 ≤ self.old.count }
        ensures { self.new ≡ self.old }
    {
        self.weight = columns::set_column_weights(self.columns.as_mut_slice());
        write_mean_column(
            self.columns.as_slice(),
            &self.amounts,
            self.weight,
            &mut self.mean,
        );
    }

    /// Sets the pushes to a target, and takes what they give off a right-hand side.
    pub fn set_steps_at_fixed_price(&mut self, target: Target, right: &mut [f64])
        requires { length right.old ≡ self.old.rows }
        ensures { self.new ≡ self.old }
    {
        if self.columns.is_empty() {
            return;
        }
        let sum = columns::set_share_steps_at_fixed_prices(self.columns.as_mut_slice(), target);
        subtract_steps_at_fixed_prices(self.columns.as_slice(), &self.amounts, right);
        add_multiple(right, sum, &self.mean);
    }

    /// The steps of shares and reduced costs at that step of the prices.
    pub fn set_newton_steps(&mut self, price_steps: &[f64])
        requires { length price_steps.now ≡ self.old.rows }
        ensures { self.new ≡ self.old }
    {
        set_reduced_cost_steps(self.columns.as_mut_slice(), &self.amounts, price_steps);
        columns::set_newton_steps_of_columns(self.columns.as_mut_slice(), self.weight);
    }

    /// The lengths of a step, or lesser ones at which a share or a reduced cost becomes 0.
    pub fn longest_step(&self, lengths: Lengths) -> Lengths {
        columns::longest_column_steps(self.columns.as_slice(), lengths)
    }

    /// The sum of products with those of the columns after a step of those lengths.
    pub fn add_complementarity_after_step(&self, sum: f64, lengths: Lengths) -> f64 {
        columns::add_complementarity_of_columns_after_step(sum, self.columns.as_slice(), lengths)
    }

    /// Takes a step of that length.
    pub fn take_newton_step(&mut self, length: f64)
        ensures { self.new ≡ self.old }
    {
        columns::advance_columns(self.columns.as_mut_slice(), length);
    }
}

/// The sums with those of all units.
pub fn add_complementarity_of_units(units: &[Unit], sums: Sums) -> Sums {
    let mut sums = sums;
    for unit in units {
        sums = unit.add_cost_and_complementarity(sums);
    }
    sums
}

/// Adds a part of an amount to the cost of each column of all units, each another part.
pub fn perturb_units(units: &mut [Unit], amount: f64)
    ensures { units.new ≡ units.old }
{
    let mut part = 0.0;
    for unit in 0..units.len() {
        part = units[unit].perturb_column_costs(amount, part);
    }
}

/// Centres all units at those prices.
pub fn start_units_on_central_path(units: &mut [Unit], prices: &[f64], product: f64)
    requires { AreOver (length prices.now) units.old }
    ensures { units.new ≡ units.old }
{
    for unit in 0..units.len() {
        units[unit].start_on_central_path(prices, product);
    }
}

/// Takes what the shares of all units give off what is due.
pub fn subtract_all_units_from_row_residuals(units: &[Unit], due: &mut [f64])
    requires { AreOver (length due.old) units.now }
{
    for unit in 0..units.len() {
        units[unit].subtract_unit_from_row_residuals(due);
    }
}

/// Sets the weights and means of all units, and adds to the matrix how fast what they give follows the prices.
pub fn add_units_to_matrix(units: &mut [Unit], matrix: &mut Matrix)
    requires { AreOver matrix.old units.old }
    ensures units { units.new ≡ units.old }
    ensures matrix { matrix.new ≡ matrix.old }
{
    for unit in 0..units.len() {
        units[unit].add_one_unit_to_matrix(matrix);
    }
}

/// Sets the pushes of all units to a target, and takes what they give off a right-hand side.
pub fn add_units_to_newton_right_side(units: &mut [Unit], target: Target, right: &mut [f64])
    requires { AreOver (length right.old) units.old }
    ensures { units.new ≡ units.old }
{
    for unit in 0..units.len() {
        units[unit].set_steps_at_fixed_price(target, right);
    }
}

/// The steps of all units at that step of the prices.
pub fn set_newton_steps_of_units(units: &mut [Unit], price_steps: &[f64])
    requires { AreOver (length price_steps.now) units.old }
    ensures { units.new ≡ units.old }
{
    for unit in 0..units.len() {
        units[unit].set_newton_steps(price_steps);
    }
}

/// The lengths of a step, or lesser ones at which a share or a reduced cost of a unit becomes 0.
pub fn longest_unit_steps(units: &[Unit], lengths: Lengths) -> Lengths {
    let mut lengths = lengths;
    for unit in units {
        lengths = unit.longest_step(lengths);
    }
    lengths
}

/// The sum of products with those of all units after a step of those lengths.
pub fn add_complementarity_of_units_after_step(sum: f64, units: &[Unit], lengths: Lengths) -> f64 {
    let mut sum = sum;
    for unit in units {
        sum = unit.add_complementarity_after_step(sum, lengths);
    }
    sum
}

/// Takes a step of that length with all units.
pub fn advance_units(units: &mut [Unit], length: f64)
    ensures { units.new ≡ units.old }
{
    for unit in 0..units.len() {
        units[unit].take_newton_step(length);
    }
}
