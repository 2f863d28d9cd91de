//! The master problem.
ghost use Rattle.std.specs.Prelude.{◌≡◌, ◌+◌, ◌*◌, ◌^◌, ◌<◌, ◌≤◌, length, IfOk, replicate};
ghost use Rattle.bundle_master.specs.Shape.{count_of, with_column, with_single};

use crate::columns::{Lengths, Sums, Target, WAY};
use crate::pace::Pace;
use crate::rows::{self, HIGHEST, LOWEST, Row};
use crate::singles::{self, Single};
use crate::units::{self, Unit};
use dense_matrix::matrix::Matrix;
use dense_matrix::vectors::{add_multiple, sum_of_magnitudes};
use std::alloc::{AllocError, Global};
use std::marker::Model;

/// Where a strict solution starts: what is off costs no more than so many of the products; they grow by so much, so
/// often at most.
const START: f64 = 0.1;

const GROWTH: f64 = 4.0;

const GROWTHS: usize = 12;

/// The second order of a step counts up to so many times the product at which it aims.
const SECOND_ORDER: f64 = 3.0;

/// How large a master problem is: rows are twice the periods, and each thermal unit has so many places for columns.
#[derive(Clone, Copy)]
pub struct Sizes {
    pub periods: usize,
    pub thermal: usize,
    pub places: usize,
    pub singles: usize,
}

/// How a master problem is to be solved.
#[derive(Clone, Copy)]
pub struct Aim {
    /// What a megawatt costs for each unit of price that its price is away from the centre.
    pub ridge: f64,
    /// The sum of the products at which it is solved, and at which it starts.
    pub accuracy: f64,
    pub wide: f64,
    /// Whether what is off has to cost less than `balance` at the greatest price.
    pub strict: bool,
    pub balance: f64,
    /// How many Newton steps are made at most.
    pub steps: usize,
}

/// Where a solution ended.
#[derive(Clone, Copy)]
pub struct Standing {
    /// At least the columns' value at the prices.
    pub now: f64,
    /// The sum of the products.
    pub products: f64,
    /// The sum of the megawatts that the ridge holds.
    pub off: f64,
}

/// A master problem.
pub struct Master {
    periods: usize,
    places: usize,
    units: Vec<Unit>,
    singles: Vec<Single>,
    rows: Vec<Row>,
    prices: Vec<f64>,
    price_steps: Vec<f64>,
    // What is off in each row.
    left: Vec<f64>,
    right: Vec<f64>,
    matrix: Matrix,
    ridge: f64,
}

impl Model for Master {
    ghost use Rattle.std.specs.Prelude.{◌-◌, length, map, vec_capacity};
    ghost use Rattle.bundle_master.specs.Shape.{Shape, AreParts};
    ghost use Rattle.bundle_master.specs.UnitShape.{UnitShape};

    ghost Value = { Shape };

    ghost view = { λ m. record {
      periods = m.periods;
      thermal = length m.units.items;
      places = m.places;
      singles = length m.singles.items;
      room =
          vec_capacity m.singles - length m.singles.items;
      counts = map (λ (u : UnitShape). u.count) m.units.items;
    } };

    ghost invariant = { λ m. AreParts m.periods m.places m.units.items m.singles.items (length m.rows.items)
        (length m.prices.items) (length m.price_steps.items) (length m.left.items) (length m.right.items) m.matrix };
}

// By hand, so that dropping it is one call.
impl Drop for Master {
    fn drop(self) {
        let Master {
            periods: _,
            places: _,
            units: _,
            singles: _,
            rows: _,
            prices: _,
            price_steps: _,
            left: _,
            right: _,
            matrix: _,
            ridge: _,
        } = self;
    }
}

/// Makes a master problem without columns or variables of one row, with nothing due, all prices 0.
pub fn make_master(alloc: Global, sizes: Sizes) -> Result<Master, AllocError>
    requires periods { sizes.periods ≤ 1000 }
    requires thermal { sizes.thermal ≤ 4096 }
    requires some { 1 ≤ sizes.places }
    requires places { sizes.places ≤ 1000 }
    requires singles { sizes.singles < 2 ^ 32 }
    ensures { IfOk result (λ master. master ≡ record {
      periods = sizes.periods;
      thermal = sizes.thermal;
      places = sizes.places;
      singles = 0;
      room = sizes.singles;
      counts = replicate sizes.thermal 0;
    }) }
{
    let count = 2 * sizes.periods;
    let units = make_units(alloc, sizes)?;
    let singles = Vec::with_capacity(alloc, sizes.singles)?;
    let rows = make_rows(alloc, sizes.periods)?;
    let prices = vec![in alloc; 0.0; count]?;
    let price_steps = vec![in alloc; 0.0; count]?;
    let left = vec![in alloc; 0.0; count]?;
    let right = vec![in alloc; 0.0; count]?;
    let matrix = Matrix::make(alloc, count)?;
    Ok(Master {
        periods: sizes.periods,
        places: sizes.places,
        units,
        singles,
        rows,
        prices,
        price_steps,
        left,
        right,
        matrix,
        ridge: 0.0,
    })
}

fn make_units(alloc: Global, sizes: Sizes) -> Result<Vec<Unit>, AllocError>
    requires periods { sizes.periods ≤ 1000 }
    requires thermal { sizes.thermal ≤ 4096 }
    requires places { sizes.places ≤ 1000 }
    ensures { IfOk result (λ units. units.items ≡ replicate sizes.thermal
        (record { count = 0; places = sizes.places; rows = 2 * sizes.periods })) }
{
    let mut units = Vec::with_capacity(alloc, sizes.thermal)?;
    for _ in 0..sizes.thermal {
        let unit = Unit::make(alloc, sizes.places, 2 * sizes.periods)?;
        units.push_reserved(unit);
    }
    Ok(units)
}

fn make_rows(alloc: Global, periods: usize) -> Result<Vec<Row>, AllocError>
    requires { periods ≤ 1000 }
    ensures { IfOk result (λ rows. length rows.items ≡ 2 * periods) }
{
    let mut rows = vec![in alloc; Row::new(0.0); 2 * periods]?;
    for row in 0..periods {
        rows[row] = Row::new(LOWEST);
    }
    Ok(rows)
}

impl Master {
    /// Sets what is due in a row: demand or required reserve, in megawatts.
    pub fn set_requirement_of_row(&mut self, row: usize, amount: f64)
        requires { row < 2 * self.old.periods }
        ensures { self.new ≡ self.old }
    {
        self.rows[row].due = amount;
    }

    /// Adds a variable from 0 to an amount in an energy row, which costs so much as a whole.
    pub fn add_row_variable(&mut self, row: usize, amount: f64, cost: f64)
        requires row { row < self.old.periods }
        requires room { 1 ≤ self.old.room }
        ensures { self.new ≡ with_single self.old }
    {
        self.singles.push_reserved(Single::new(row, amount, cost));
    }

    /// How many columns a thermal unit has.
    pub fn column_count(&self, unit: usize) -> usize
        requires { unit < self.now.thermal }
        ensures value { result ≡ count_of self.now unit }
        ensures limit { result ≤ self.now.places }
    {
        self.units[unit].column_count()
    }

    /// The first free place of a thermal unit, else that of the column with the greatest reduced cost.
    pub fn next_column_index(&self, unit: usize) -> usize
        requires { unit < self.now.thermal }
        ensures index { result < self.now.places }
        ensures count { result ≤ count_of self.now unit }
        ensures free { count_of self.now unit < self.now.places → result ≡ count_of self.now unit }
    {
        self.units[unit].next_column_index()
    }

    /// Adds or replaces a column: what a schedule costs, and its power and reserve in each period, in kilowatts.
    pub fn set_column(
        &mut self,
        unit: usize,
        index: usize,
        cost: f64,
        power: &[i64],
        reserve: &[i64],
    )
        requires unit { unit < self.old.thermal }
        requires index { index < self.old.places }
        requires count { index ≤ count_of self.old unit }
        requires power { length power.now ≡ self.old.periods }
        requires reserve { length reserve.now ≡ self.old.periods }
        ensures { self.new ≡ with_column self.old unit index }
    {
        self.units[unit].set_column(index, cost, power, reserve);
    }

    /// Sets the price at which a solution starts.
    pub fn set_price(&mut self, row: usize, price: f64)
        requires { row < 2 * self.old.periods }
        ensures { self.new ≡ self.old }
    {
        self.prices[row] = price;
    }

    /// Sets the centre of the ridge.
    pub fn set_centre(&mut self, row: usize, price: f64)
        requires { row < 2 * self.old.periods }
        ensures { self.new ≡ self.old }
    {
        self.rows[row].centre = price;
    }

    /// Adds a part of an amount of the currency to the cost of each column, each another part: of
    /// the many solutions that
    /// a master problem mostly has one is then the best, and it has few columns (Charnes, 'Optimality and Degeneracy in
    /// Linear Programming', Econometrica 1952, perturbs so).
    pub fn perturb_column_costs(&mut self, amount: f64)
        ensures { self.new ≡ self.old }
    {
        units::perturb_units(self.units.as_mut_slice(), amount);
    }

    /// The price of a row.
    pub fn row_price(&self, row: usize) -> f64
        requires { row < 2 * self.now.periods }
    {
        self.prices[row]
    }

    /// The share of the column at an index of a thermal unit, and 0 where there is none.
    pub fn column_share(&self, unit: usize, index: usize) -> f64
        requires { unit < self.now.thermal }
    {
        self.units[unit].column_share(index)
    }

    /// Changes prices and shares until the products sum to at most what the aim says, in at most so many Newton steps.
    /// Whether they do. A unit without a column takes no part.
    pub fn solve(&mut self, aim: Aim) -> bool
        ensures { self.new ≡ self.old }
    {
        self.ridge = aim.ridge;
        self.set_starting_point(aim);
        let mut pace = Pace::new();
        for _ in 0..aim.steps {
            let off = self.set_row_residuals();
            let sums = self.cost_and_complementarity();
            if sums.products <= aim.accuracy && (!aim.strict || off * HIGHEST < aim.balance) {
                return true;
            }
            let held = aim.strict && off > sums.products;
            self.set_predictor_corrector_step(sums, pace.centring_parameter(), held);
            pace.follow_step_length(self.take_newton_step());
        }
        false
    }

    /// Where the last solution ended.
    pub fn summary_of_last_solution(&self) -> Standing {
        let sums = self.cost_and_complementarity();
        let (cost, off) = rows::ridge_penalty_cost_and_magnitude(
            self.rows.as_slice(),
            self.prices.as_slice(),
            self.ridge,
        );
        Standing {
            now: sums.cost + cost,
            products: sums.products,
            off,
        }
    }

    // Centres all groups, and where a solution is strict so wide that what is off is little beside the products.
    fn set_starting_point(&mut self, aim: Aim)
        ensures { self.new ≡ self.old }
    {
        let pairs = self.cost_and_complementarity().pairs;
        let mut product = aim.wide / pairs;
        for _ in 0..GROWTHS {
            self.start_on_central_path(product);
            if !aim.strict || self.set_row_residuals() * START <= product * pairs {
                break;
            }
            product *= GROWTH;
        }
    }

    fn start_on_central_path(&mut self, product: f64)
        ensures { self.new ≡ self.old }
    {
        units::start_units_on_central_path(
            self.units.as_mut_slice(),
            self.prices.as_slice(),
            product,
        );
        singles::start_row_variables_on_central_path(
            self.singles.as_mut_slice(),
            self.prices.as_slice(),
            product,
        );
        rows::start_rows_on_central_path(self.rows.as_mut_slice(), self.prices.as_slice(), product);
    }

    // Sets what is off in each row; the sum of the magnitudes.
    fn set_row_residuals(&mut self) -> f64
        ensures { self.new ≡ self.old }
    {
        rows::write_amounts_wanted_from_columns(
            self.rows.as_slice(),
            self.prices.as_slice(),
            self.ridge,
            self.left.as_mut_slice(),
        );
        units::subtract_all_units_from_row_residuals(
            self.units.as_slice(),
            self.left.as_mut_slice(),
        );
        singles::subtract_row_variables_from_row_residuals(
            self.singles.as_slice(),
            self.left.as_mut_slice(),
        );
        sum_of_magnitudes(self.left.as_slice())
    }

    fn cost_and_complementarity(&self) -> Sums {
        let sums = units::add_complementarity_of_units(self.units.as_slice(), Sums::NONE);
        let sums = singles::add_complementarity_of_row_variables(self.singles.as_slice(), sums);
        rows::add_complementarity_of_rows(
            self.rows.as_slice(),
            self.prices.as_slice(),
            self.left.as_slice(),
            sums,
        )
    }

    // A step that brings what is off to 0. The products are held at their mean, or brought to that share of it or more:
    // the less a step to 0 would leave of them, the lower (a predictor and a corrector, Mehrotra 1992).
    fn set_predictor_corrector_step(&mut self, sums: Sums, share: f64, held: bool)
        ensures { self.new ≡ self.old }
    {
        let mean = sums.products / sums.pairs;
        self.factor();
        if held {
            self.set_newton_step_to_target(mean, 0.0);
        } else {
            self.set_newton_step_to_target(0.0, 0.0);
            let left = self.complementarity_after_longest_step() / sums.products;
            let product = mean * (left * left * left).max(share).min(1.0);
            self.set_newton_step_to_target(product, SECOND_ORDER * product);
        }
    }

    // The step that brings what is off to 0, and each product to the same, by the root of the matrix.
    fn set_newton_step_to_target(&mut self, product: f64, limit: f64)
        ensures { self.new ≡ self.old }
    {
        self.set_steps_at_fixed_price(Target { product, limit });
        self.matrix.solve(self.right.as_mut_slice());
        self.price_steps.copy_from_slice(self.right.as_slice());
        self.set_newton_steps();
    }

    fn factor(&mut self)
        ensures { self.new ≡ self.old }
    {
        self.matrix.clear();
        units::add_units_to_matrix(self.units.as_mut_slice(), &mut self.matrix);
        singles::add_row_variables_to_matrix(self.singles.as_mut_slice(), &mut self.matrix);
        rows::add_rows_to_matrix(
            self.rows.as_slice(),
            self.prices.as_slice(),
            self.ridge,
            &mut self.matrix,
        );
        self.matrix.factor();
    }

    // Sets the pushes and the right-hand side.
    fn set_steps_at_fixed_price(&mut self, target: Target)
        ensures { self.new ≡ self.old }
    {
        self.right.copy_from_slice(self.left.as_slice());
        let right = self.right.as_mut_slice();
        units::add_units_to_newton_right_side(self.units.as_mut_slice(), target, right);
        singles::add_row_variables_to_newton_right_side(self.singles.as_mut_slice(), target, right);
        rows::add_rows_to_newton_right_side(
            self.rows.as_mut_slice(),
            self.prices.as_slice(),
            self.price_steps.as_slice(),
            target,
            right,
        );
    }

    fn set_newton_steps(&mut self)
        ensures { self.new ≡ self.old }
    {
        units::set_newton_steps_of_units(self.units.as_mut_slice(), self.price_steps.as_slice());
        singles::set_newton_steps_of_row_variables(
            self.singles.as_mut_slice(),
            self.price_steps.as_slice(),
        );
        rows::set_newton_steps_of_rows(
            self.rows.as_mut_slice(),
            self.prices.as_slice(),
            self.price_steps.as_slice(),
        );
    }

    fn longest_step(&self) -> Lengths {
        let whole = Lengths {
            primal: 1.0 / WAY,
            dual: 1.0 / WAY,
        };
        let lengths = units::longest_unit_steps(self.units.as_slice(), whole);
        let lengths = singles::longest_row_variable_steps(self.singles.as_slice(), lengths);
        let prices = self.prices.as_slice();
        let lengths = rows::longest_row_steps(
            self.rows.as_slice(),
            prices,
            self.price_steps.as_slice(),
            lengths,
        );
        Lengths {
            primal: WAY * lengths.primal,
            dual: WAY * lengths.dual,
        }
    }

    // The sum of the products after the longest step.
    fn complementarity_after_longest_step(&self) -> f64 {
        let lengths = self.longest_step();
        let sum = units::add_complementarity_of_units_after_step(
            0.0,
            self.units.as_slice(),
            lengths,
        );
        let sum = singles::add_complementarity_of_row_variables_after_step(
            sum,
            self.singles.as_slice(),
            lengths,
        );
        let prices = self.prices.as_slice();
        rows::add_complementarity_of_rows_after_step(
            sum,
            self.rows.as_slice(),
            prices,
            self.price_steps.as_slice(),
            lengths,
        )
    }

    // Takes the step as far as all numbers stay above 0, and the whole of it at most; how far.
    fn take_newton_step(&mut self) -> f64
        ensures { self.new ≡ self.old }
    {
        let lengths = self.longest_step();
        let length = lengths.primal.min(lengths.dual);
        units::advance_units(self.units.as_mut_slice(), length);
        singles::advance_row_variables(self.singles.as_mut_slice(), length);
        rows::advance_rows(self.rows.as_mut_slice(), length);
        add_multiple(
            self.prices.as_mut_slice(),
            length,
            self.price_steps.as_slice(),
        );
        length
    }
}
