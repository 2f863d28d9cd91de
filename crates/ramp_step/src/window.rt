//! The least value in reach.
ghost use Rattle.std.specs.Prelude.{◌≡◌, ℕ, ℤ, ◌+◌, ◌^◌, ◌-◌, ◌<◌, ◌≤◌, pos, ◌+ℤ◌, ◌-ℤ◌, ◌≤ℤ◌};
ghost use Rattle.std.specs.Prelude.{length};
ghost use Rattle.ramp_step.specs.Knots.{power, height, IsShape, knot};
ghost use Rattle.ramp_step.specs.Tables.{table_of, AreBreaks};
ghost use Rattle.slope_list.specs.Effect.{IsWindow};
ghost use Rattle.slope_list.specs.Table.{IsPlace, IsAmount};
ghost use Rattle.ramp_step.specs.Cut.{IsLimited};
ghost use Rattle.ramp_step.specs.Window.{IsTurn, AreSpread, AreWindow};

use crate::breakpoint::Knot;
use crate::cutting::{cut_above, cut_below};
use slope_list::shape_laws::operations_keep_limits;

/// The knot moved to the right.
fn later(knot: Knot, by: i64) -> Knot
    requires at { IsPlace knot.at }
    requires by { IsPlace by }
    ensures at { result.at ≡ knot.at +ℤ by }
    ensures value { result.value ≡ knot.value }
{
    Knot {
        at: knot.at + by,
        value: knot.value,
    }
}

/// The knot moved to the left.
fn earlier(knot: Knot, by: i64) -> Knot
    requires at { IsPlace knot.at }
    requires by { IsPlace by }
    ensures at { result.at ≡ knot.at -ℤ by }
    ensures value { result.value ≡ knot.value }
{
    Knot {
        at: knot.at - by,
        value: knot.value,
    }
}

/// The first index at which the heights don't fall.
pub(crate) fn turn(knots: &[Knot], used: usize) -> usize
    requires some { 0 < used }
    requires room { used ≤ length knots.now }
    ensures { IsTurn knots.now used result }
{
    for j in 1..used {
        if knots[j - 1].value <= knots[j].value {
            return j - 1;
        }
    }
    used - 1
}

/// Moves the knots up to index `turn` to the left, and those from it on to the right.
fn spread(knots: &mut [Knot], used: usize, turn: usize, up: i64, down: i64)
    requires inside { turn < used }
    requires room { used < length knots.old }
    requires powers { (k : ℕ) → k < used → IsPlace (power knots.old k) }
    requires up { IsPlace up }
    requires down { IsPlace down }
    ensures { AreSpread up down used turn knots.old knots.new }
{
    let mut k = used;
    while k > turn {
        knots[k] = later(knots[k - 1], up);
        k -= 1;
    }
    for i in 0..turn + 1 {
        knots[i] = earlier(knots[i], down);
    }
}

/// Moves the falling part by `-down` and the rising part by `up`.
fn shift(knots: &mut [Knot], used: usize, up: i64, down: i64) -> usize
    requires some { 0 < used }
    requires room { used < length knots.old }
    requires stand { IsShape knots.old used }
    requires powers { (k : ℕ) → k < used → IsPlace (power knots.old k) }
    requires amounts { (k : ℕ) → k < used → IsAmount (height knots.old k) }
    requires up { pos 0 ≤ℤ up }
    requires up_fits { IsPlace up }
    requires down { pos 0 ≤ℤ down }
    requires down_fits { IsPlace down }
    ensures window { AreWindow up down knots.old used knots.new result }
    ensures limits { IsLimited knots.new result }
    ensures charge { result ≤ used + 1 }
{
    let reach = up + down;
    if reach == 0 {
        return used;
    }
    let j = turn(knots, used);
    spread(knots, used, j, up, down);
    used + 1
}

/// The new value at x is the least old value at the powers from `x - up` to `x + down`; the new
/// interval is the powers from `lo` to `hi` where there is one. Its charge is 4: one knot for the
/// flat part, and one at each cut.
pub fn window_step(knots: &mut [Knot], used: u32, up: i64, down: i64, lo: i64, hi: i64) -> u32
    requires count { used + 4 < 2 ^ 32 }
    requires room { used + 4 ≤ length knots.old }
    requires breaks { AreBreaks knots.old used }
    requires up { pos 0 ≤ℤ up }
    requires up_fits { IsPlace up }
    requires down { pos 0 ≤ℤ down }
    requires down_fits { IsPlace down }
    requires lo { IsPlace lo }
    requires hi { IsPlace hi }
    ensures window { IsWindow up down lo hi (table_of knots.old used) (table_of knots.new result) }
    ensures breaks { AreBreaks knots.new result }
    ensures charge { result ≤ used + 4 }
{
    if used == 0 {
        return 0;
    }
    let moved = shift(knots, used as usize, up, down);
    let kept = cut_above(knots, moved, hi);
    let left = cut_below(knots, kept, lo);
    operations_keep_limits();
    left as u32
}
