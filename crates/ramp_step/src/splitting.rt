//! A breakpoint is put in between two others.
ghost use Rattle.std.specs.Prelude.{◌≡◌, ℤ, ◌+◌, ◌-◌, ◌<◌, ◌≤◌, pos, ◌+ℤ◌, ◌*ℤ◌, ◌≤ℤ◌, ◌<ℤ◌};
ghost use Rattle.std.specs.Prelude.{length};
ghost use Rattle.ramp_step.specs.Knots.{power, IsShape, knot};
ghost use Rattle.slope_list.specs.Table.{IsAmount};
ghost use Rattle.ramp_step.specs.Cut.{IsOnLine, IsBetween, AreWithin, IsInserted, IsSplit};
ghost use Rattle.ramp_step.specs.Cut.{IsLimited, AreBelow};

use crate::breakpoint::Knot;

/// The whole slope.
fn slope_of(rise: i64, run: i64) -> i64
    requires run { pos 0 <ℤ run }
    requires run_fits { run ≤ℤ pos 16000000000 }
    ensures { (s : ℤ) → rise ≡ s *ℤ run → result ≡ s }
{
    rise / run
}

/// The value some steps further on a line.
pub(crate) fn along(value: i64, slope: i64, x: i64) -> i64
    requires before { IsAmount value }
    requires after { IsAmount (value +ℤ slope *ℤ x) }
    ensures { result ≡ value +ℤ slope *ℤ x }
{
    value + slope * x
}

/// The knot at a power on the line from one knot to another.
pub(crate) fn between(a: Knot, b: Knot, x: i64) -> Knot
    requires line { IsOnLine a b x }
    requires within { AreWithin a b }
    ensures { IsBetween a b x result }
{
    let slope = slope_of(b.value - a.value, b.at - a.at);
    let value = along(a.value, slope, x - a.at);
    Knot { at: x, value }
}

/// How many of the first knots are below a power.
pub(crate) fn below(knots: &[Knot], used: usize, x: i64) -> usize
    requires room { used ≤ length knots.now }
    ensures { AreBelow knots.now used x result }
{
    for i in 0..used {
        if knots[i].at >= x {
            return i;
        }
    }
    used
}

/// Puts a knot in.
fn insert(knots: &mut [Knot], used: usize, m: usize, knot: Knot)
    requires inside { m ≤ used }
    requires room { used < length knots.old }
    ensures { IsInserted m used knot knots.old knots.new }
{
    let mut k = used;
    while k > m {
        knots[k] = knots[k - 1];
        k -= 1;
    }
    knots[m] = knot;
}

/// Puts a knot in at `x`, where that power is between two knots.
pub(crate) fn split(knots: &mut [Knot], used: usize, x: i64) -> usize
    requires room { used < length knots.old }
    requires stand { IsShape knots.old used }
    requires limits { IsLimited knots.old used }
    ensures split { IsSplit x knots.old used knots.new result }
    ensures limits { IsLimited knots.new result }
    ensures charge { result ≤ used + 1 }
{
    let m = below(knots, used, x);
    if m == 0 {
        return used;
    }
    if m == used {
        return used;
    }
    if knots[m].at == x {
        return used;
    }
    let knot = between(knots[m - 1], knots[m], x);
    insert(knots, used, m, knot);
    used + 1
}
