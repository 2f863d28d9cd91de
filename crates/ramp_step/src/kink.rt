//! The worth of the reserve is taken off.
ghost use Rattle.std.specs.Prelude.{◌≡◌, ℕ, ℤ, ◌+◌, ◌^◌, ◌-◌, ◌<◌, ◌≤◌, pos, ◌+ℤ◌, ◌≤ℤ◌, length};
ghost use Rattle.ramp_step.specs.Knots.{power, height, IsFar, AreRaised, knot};
ghost use Rattle.ramp_step.specs.Tables.{table_of, AreBreaks};
ghost use Rattle.slope_list.specs.Curve.{reserve_term};
ghost use Rattle.slope_list.specs.Effect.{IsSum};
ghost use Rattle.slope_list.specs.Table.{IsPlace, IsAmount, CanAdd};

use crate::breakpoint::Knot;
use crate::splitting::split;
use slope_list::shape_laws::operations_keep_limits;

/// The knot after the worth of the reserve is taken off.
fn lowered(knot: Knot, mu: i64, cap: i64, up: i64) -> Knot
    requires at { IsFar knot.at }
    requires cap { IsPlace cap }
    requires up { IsPlace up }
    requires before { IsAmount knot.value }
    requires after { IsAmount (knot.value +ℤ reserve_term mu cap up knot.at) }
    ensures at { result.at ≡ knot.at }
    ensures value { result.value ≡ knot.value +ℤ reserve_term mu cap up knot.at }
{
    let most = cap.min(up + knot.at);
    Knot {
        at: knot.at,
        value: knot.value - mu * most,
    }
}

/// Takes the worth of the reserve off each of the first heights.
fn lower(knots: &mut [Knot], used: usize, mu: i64, cap: i64, up: i64)
    requires room { used ≤ length knots.old }
    requires cap { IsPlace cap }
    requires up { IsPlace up }
    requires powers { (k : ℕ) → k < used → IsFar (power knots.old k) }
    requires before { (k : ℕ) → k < used → IsAmount (height knots.old k) }
    requires after { (k : ℕ) → k < used
        → IsAmount (height knots.old k +ℤ reserve_term mu cap up (power knots.old k)) }
    ensures { AreRaised (reserve_term mu cap up) used knots.old knots.new }
{
    for i in 0..used {
        knots[i] = lowered(knots[i], mu, cap, up);
    }
}

/// Subtracts `mu * min(cap, up + x)` from the value at each power x. Its charge is 1, for a knot at
/// `cap - up`.
pub fn kink_step(knots: &mut [Knot], used: u32, mu: i64, cap: i64, up: i64) -> u32
    requires count { used + 1 < 2 ^ 32 }
    requires room { used < length knots.old }
    requires breaks { AreBreaks knots.old used }
    requires mu { pos 0 ≤ℤ mu }
    requires cap { IsPlace cap }
    requires up { IsPlace up }
    requires fits { CanAdd (reserve_term mu cap up) (table_of knots.old used) }
    ensures sum { IsSum (reserve_term mu cap up) (table_of knots.old used)
        (table_of knots.new result) }
    ensures breaks { AreBreaks knots.new result }
    ensures charge { result ≤ used + 1 }
{
    let n = split(knots, used as usize, cap - up);
    lower(knots, n, mu, cap, up);
    operations_keep_limits();
    n as u32
}
