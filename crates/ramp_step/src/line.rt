//! A line is added.
ghost use Rattle.std.specs.Prelude.{◌≡◌, ℕ, ℤ, ◌+◌, ◌<◌, ◌≤◌, ◌+ℤ◌, ◌*ℤ◌, length};
ghost use Rattle.ramp_step.specs.Knots.{power, height, AreRaised, knot};
ghost use Rattle.ramp_step.specs.Tables.{table_of, AreBreaks};
ghost use Rattle.slope_list.specs.Effect.{IsSum};
ghost use Rattle.slope_list.specs.Table.{IsPlace, IsAmount, CanAdd};

use crate::breakpoint::Knot;
use slope_list::shape_laws::operations_keep_limits;

/// The knot after a line is added.
fn on_line(knot: Knot, slope: i64) -> Knot
    requires at { IsPlace knot.at }
    requires before { IsAmount knot.value }
    requires after { IsAmount (knot.value +ℤ slope *ℤ knot.at) }
    ensures at { result.at ≡ knot.at }
    ensures value { result.value ≡ knot.value +ℤ slope *ℤ knot.at }
{
    Knot {
        at: knot.at,
        value: knot.value + slope * knot.at,
    }
}

/// Adds a line to each of the first heights.
fn raise_line(knots: &mut [Knot], used: usize, slope: i64)
    requires room { used ≤ length knots.old }
    requires powers { (k : ℕ) → k < used → IsPlace (power knots.old k) }
    requires before { (k : ℕ) → k < used → IsAmount (height knots.old k) }
    requires after { (k : ℕ) → k < used
        → IsAmount (height knots.old k +ℤ slope *ℤ power knots.old k) }
    ensures { AreRaised (λ x. slope *ℤ x) used knots.old knots.new }
{
    for i in 0..used {
        knots[i] = on_line(knots[i], slope);
    }
}

/// Adds `slope * x` to the value at each power x. It takes no knot.
pub fn line_step(knots: &mut [Knot], used: u32, slope: i64)
    requires room { used ≤ length knots.old }
    requires breaks { AreBreaks knots.old used }
    requires fits { CanAdd (λ x. slope *ℤ x) (table_of knots.old used) }
    ensures sum { IsSum (λ x. slope *ℤ x) (table_of knots.old used) (table_of knots.new used) }
    ensures breaks { AreBreaks knots.new used }
{
    raise_line(knots, used as usize, slope);
    operations_keep_limits();
}
