//! What is seen of a thermal unit in one period.
ghost use Rattle.std.specs.Prelude.{pos, neg_ℤ};
ghost use Rattle.plain_lists.specs.Ranges.{IsFrom};

use uc_model::units::{Response, Unit};

/// The two numbers that a broken rule compares.
#[derive(Clone, Copy)]
pub struct Sides {
    /// The first of them.
    pub left: i64,
    /// The second of them.
    pub right: i64,
}

/// Kilowatts of a unit in a period: the power above the least power, which is 0 in an off period,
/// the reserve, and the output, which is power with reserve. All are within 20,000,000,000.
#[derive(Clone, Copy)]
pub struct State {
    /// Whether it is on.
    pub on: bool,
    /// The power above the least power.
    pub above: i64,
    /// The reserve.
    pub reserve: i64,
    /// Power with reserve.
    pub output: i64,
    ghost above_limit: { IsFrom (neg_ℤ (pos 20000000000)) (pos 20000000000) above },
    ghost reserve_limit: { IsFrom (pos 0) (pos 20000000000) reserve },
    ghost output_limit: { IsFrom (pos 0) (pos 20000000000) output },
}
