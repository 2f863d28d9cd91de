//! How far a round goes.

/// What the search counts as near, in the currency: so much, or such a share of the value.
const NEAR: f64 = 0.5;

const NEAR_SHARE: f64 = 5e-8;
/// The products of a master problem at its start, in gaps; the second where it is close.
const WIDE: f64 = 3.0;

const WIDE_CLOSE: f64 = 30.0;
/// The products at its end, in gaps and in what is near.
const ACCURACY: f64 = 0.1;
/// What share of the rise that was foretold counts as one.
const BETTER: f64 = 0.1;
/// How the reach grows and falls; after how many rounds without a rise; and near the end.
const UP: f64 = 1.5;

const DOWN: f64 = 1.5;

const PATIENCE: u32 = 3;

const GROWTH: f64 = 10.0;

const MOST_REACH: f64 = 1e4;

const LEAST_REACH: f64 = 1e-6;
/// A gap of so many times what is near is close.
const CLOSE: f64 = 10.0;

/// Where a search stands.
#[derive(Clone, Copy)]
pub struct Pace {
    /// What counts as near, in the currency.
    pub near: f64,
    /// At most that much may be gained, by what the columns say.
    pub gap: f64,
    /// How far the ridge lets prices go: so many units of price for each megawatt.
    pub reach: f64,
    /// Whether the gap is close to what is near.
    pub close: bool,
    /// Rounds without a rise.
    pub nulls: u32,
    /// Rounds in which it was close.
    pub late: u32,
    /// The dual value at the centre, in the currency.
    pub centre_value: f64,
}

/// What a round came to, in the currency.
#[derive(Clone, Copy)]
pub struct Outcome {
    /// At least the columns' value at the master problem's prices, and the sum of its products.
    pub now: f64,
    pub products: f64,
    /// The dual value at the round's prices, and the best so far.
    pub value: f64,
    pub best: f64,
    /// Whether there was a new column.
    pub is_new: bool,
}

/// What counts as near at a dual value, in the currency.
pub fn tolerance_at_value(value: f64) -> f64 {
    NEAR.max(NEAR_SHARE * value.abs())
}

/// How a search begins: with the dual value and the bound of its opening, and the sum of the
/// squares of what the answers lack there.
pub fn step_size_from_gap(value: f64, bound: f64, squares: f64) -> Pace {
    let near = tolerance_at_value(value);
    let gap = (bound - value).max(near);
    Pace {
        near,
        gap,
        reach: clamped_step_size(gap / squares.max(1.0)),
        close: false,
        nulls: 0,
        late: 0,
        centre_value: value,
    }
}

fn clamped_step_size(reach: f64) -> f64 {
    reach.min(MOST_REACH).max(LEAST_REACH)
}

impl Pace {
    /// How near the products of the master problem have to come to 0.
    pub fn complementarity_tolerance(&self) -> f64 {
        (ACCURACY * self.near).max(ACCURACY * self.gap)
    }

    /// Where they start.
    pub fn initial_complementarity(&self) -> f64 {
        let wide = if self.close { WIDE_CLOSE } else { WIDE };
        wide * self.gap
    }

    /// After a master problem that wasn't solved.
    pub fn shorten_step_size(&mut self) {
        self.reach = clamped_step_size(self.reach / GROWTH);
    }

    // Whether the round is one that counts: the centre moves, and the reach grows.
    fn growth_of_step_size(&self, outcome: Outcome) -> Option<f64> {
        let foretold = outcome.now - self.centre_value;
        if outcome.value - self.centre_value > BETTER * foretold {
            return Some(UP);
        }
        let over = outcome.now - outcome.products - outcome.value;
        let left = outcome.now - outcome.best;
        if self.close && (over < 0.5 * self.near || !outcome.is_new || left < self.near) {
            return Some(GROWTH);
        }
        None
    }

    // After a round without a rise.
    fn count_null_step(&mut self) {
        self.nulls = self.nulls.saturating_add(1);
        if self.nulls < PATIENCE {
            return;
        }
        self.nulls = 0;
        self.reach = if self.close {
            GROWTH * self.reach
        } else {
            self.reach / DOWN
        };
    }

    /// Goes on from what a round came to. Tells whether the centre moves to the round's prices.
    pub fn step(&mut self, outcome: Outcome) -> bool {
        let grown = self.growth_of_step_size(outcome);
        match grown {
            Some(growth) => {
                self.reach *= growth;
                self.nulls = 0;
                self.centre_value = outcome.value;
            }
            None => self.count_null_step(),
        }
        self.reach = clamped_step_size(self.reach);
        self.gap = (outcome.now - outcome.best).max(self.near);
        self.close = self.gap < CLOSE * self.near || !outcome.is_new;
        grown.is_some()
    }
}
