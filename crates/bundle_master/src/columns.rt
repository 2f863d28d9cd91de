//! The columns of a group: schedules, of which it takes shares that sum to 1.

/// A step goes so far of the way to where a number would be 0.
pub const WAY: f64 = 0.95;

/// The golden ratio, less 1.
const GOLDEN: f64 = 0.618_033_988_749_894_9;

/// Newton steps to the level of a group at most, and how near to 1 the sum of the shares has to be.
const LEVEL_STEPS: usize = 30;

const LEVEL_ACCURACY: f64 = 1e-12;

/// A schedule that a group takes a share of.
#[derive(Clone, Copy)]
pub struct Column {
    /// What the schedule costs.
    pub cost: f64,
    /// The share: above 0.
    pub share: f64,
    /// The reduced cost: what it costs at the prices beyond the group's level, above 0.
    pub reduced: f64,
    /// How the two change in a step.
    pub share_step: f64,
    pub reduced_step: f64,
    /// The share over the reduced cost: how fast the share follows the prices.
    pub weight: f64,
    /// How the share changes at unchanged prices.
    pub push: f64,
}

impl Column {
    /// A column that costs nothing, without a share.
    pub const BLANK: Column = Column {
        cost: 0.0,
        share: 0.0,
        reduced: 0.0,
        share_step: 0.0,
        reduced_step: 0.0,
        weight: 0.0,
        push: 0.0,
    };
}

/// Sums over the pairs of a master problem: of what is at least 0, and of what it's multiplied by.
#[derive(Clone, Copy)]
pub struct Sums {
    /// What the shares cost.
    pub cost: f64,
    /// The products of the pairs.
    pub products: f64,
    /// How many pairs there are.
    pub pairs: f64,
}

/// What a step brings each product to. The second order of the last step's counts up to a limit: 0 leaves it out.
#[derive(Clone, Copy)]
pub struct Target {
    pub product: f64,
    pub limit: f64,
}

/// How far a step goes with shares, and with what they are paired with.
#[derive(Clone, Copy)]
pub struct Lengths {
    pub primal: f64,
    pub dual: f64,
}

impl Sums {
    /// Those of nothing.
    pub const NONE: Sums = Sums {
        cost: 0.0,
        products: 0.0,
        pairs: 0.0,
    };
}

// What the shares are above 1 in sum, where each product is the same, and how fast that falls with the level.
fn share_excess(columns: &[Column], product: f64, level: f64) -> (f64, f64) {
    let mut above = -1.0;
    let mut slope = 0.0;
    for column in columns {
        let share = product / (column.reduced + level);
        above += share;
        slope += share * share / product;
    }
    (above, slope)
}

// The level at which the shares sum to 1. Their sum falls with it and is convex: from the left Newton's method comes
// nearer from below each time.
fn level_of_shares(columns: &[Column], product: f64) -> f64 {
    let mut least = f64::INFINITY;
    for column in columns {
        if column.reduced < least {
            least = column.reduced;
        }
    }
    let mut level = product - least;
    for _ in 0..LEVEL_STEPS {
        let (above, slope) = share_excess(columns, product, level);
        if above <= LEVEL_ACCURACY {
            break;
        }
        level += above / slope;
    }
    level
}

/// Shares at which all products with the reduced costs are the same. The reduced costs may be off by one number.
pub fn start_columns_on_central_path(columns: &mut [Column], product: f64) {
    let level = level_of_shares(columns, product);
    let mut sum = 0.0;
    for column in columns.iter_mut() {
        column.reduced += level;
        column.share = product / column.reduced;
        sum += column.share;
    }
    for column in columns.iter_mut() {
        column.share /= sum;
    }
}

/// The sums with those of a group.
pub fn add_complementarity_of_columns(sums: Sums, columns: &[Column]) -> Sums {
    let mut sums = sums;
    for column in columns {
        sums.cost += column.share * column.cost;
        sums.products += column.share * column.reduced;
        sums.pairs += 1.0;
    }
    sums
}

/// Sets the weights; their sum.
pub fn set_column_weights(columns: &mut [Column]) -> f64 {
    let mut sum = 0.0;
    for column in columns {
        column.weight = column.share / column.reduced;
        sum += column.weight;
    }
    sum
}

/// A number kept within a distance of 0.
pub fn clamp_magnitude(x: f64, limit: f64) -> f64 {
    x.max(-limit).min(limit)
}

/// Sets the pushes to a target; their sum.
pub fn set_share_steps_at_fixed_prices(columns: &mut [Column], target: Target) -> f64 {
    let mut sum = 0.0;
    for column in columns {
        let second = clamp_magnitude(column.share_step * column.reduced_step, target.limit);
        column.push = (target.product - second) / column.reduced - column.share;
        sum += column.push;
    }
    sum
}

/// The steps of a group whose columns earn so much more by the step of the prices as their `reduced_step` says: the
/// group's level moves so that the shares sum to what they did.
pub fn set_newton_steps_of_columns(columns: &mut [Column], weight: f64) {
    let mut sum = 0.0;
    for column in columns.iter() {
        sum += column.push + column.weight * column.reduced_step;
    }
    let level = -sum / weight;
    for column in columns.iter_mut() {
        let earned = column.reduced_step + level;
        column.share_step = column.push + column.weight * earned;
        column.reduced_step = -earned;
    }
}

/// The length of a step, or a lesser one at which a number becomes 0.
pub fn step_length_until_zero(length: f64, number: f64, step: f64) -> f64 {
    if step < 0.0 && number < -step * length {
        return -number / step;
    }
    length
}

/// The lengths of a step, or lesser ones at which a share or a reduced cost becomes 0.
pub fn longest_column_steps(columns: &[Column], lengths: Lengths) -> Lengths {
    let mut lengths = lengths;
    for column in columns {
        lengths.primal = step_length_until_zero(lengths.primal, column.share, column.share_step);
        lengths.dual = step_length_until_zero(lengths.dual, column.reduced, column.reduced_step);
    }
    lengths
}

/// The sum of products with those of the columns after a step of those lengths.
pub fn add_complementarity_of_columns_after_step(
    sum: f64,
    columns: &[Column],
    lengths: Lengths,
) -> f64 {
    let mut sum = sum;
    for column in columns {
        let share = column.share + lengths.primal * column.share_step;
        sum += share * (column.reduced + lengths.dual * column.reduced_step);
    }
    sum
}

/// Takes a step of that length.
pub fn advance_columns(columns: &mut [Column], length: f64) {
    for column in columns {
        column.share += length * column.share_step;
        column.reduced += length * column.reduced_step;
    }
}

/// Adds a part of an amount to the cost of each column. The parts go round from 0 to 1 in steps of the
/// golden ratio, so that no two are alike; tells where they have come to.
pub fn perturb_columns(columns: &mut [Column], amount: f64, start: f64) -> f64 {
    let mut part = start;
    for index in 0..columns.len() {
        part += GOLDEN;
        if part >= 1.0 {
            part -= 1.0;
        }
        columns[index].cost += amount * part;
    }
    part
}
