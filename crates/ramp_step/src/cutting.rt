//! Parts of the interval.
ghost use Rattle.std.specs.Prelude.{ℤ, ◌+◌, ◌-◌, ◌<◌, ◌≤◌, ◌≤ℤ◌, length};
ghost use Rattle.ramp_step.specs.Knots.{IsShape};
ghost use Rattle.ramp_step.specs.Cut.{IsLimited, IsCut, AreDropped};

use crate::breakpoint::Knot;
use crate::splitting::{below, split};

/// Drops so many knots from index `from` on.
pub(crate) fn drop_from(knots: &mut [Knot], from: usize, used: usize, by: usize)
    requires room { used ≤ length knots.old }
    requires by { from + by ≤ used }
    ensures { AreDropped from by used knots.old knots.new }
{
    for i in from..used - by {
        knots[i] = knots[i + by];
    }
}

/// Keeps the powers up to `hi`.
pub(crate) fn cut_above(knots: &mut [Knot], used: usize, hi: i64) -> usize
    requires room { used < length knots.old }
    requires stand { IsShape knots.old used }
    requires limits { IsLimited knots.old used }
    ensures cut { IsCut (λ x. x ≤ℤ hi) knots.old used knots.new result }
    ensures limits { IsLimited knots.new result }
    ensures charge { result ≤ used + 1 }
{
    let n = split(knots, used, hi);
    let m = below(knots, n, hi);
    if m == n {
        return m;
    }
    if knots[m].at == hi {
        return m + 1;
    }
    m
}

/// Keeps the powers from `lo` on.
pub(crate) fn cut_below(knots: &mut [Knot], used: usize, lo: i64) -> usize
    requires room { used < length knots.old }
    requires stand { IsShape knots.old used }
    requires limits { IsLimited knots.old used }
    ensures cut { IsCut (λ x. lo ≤ℤ x) knots.old used knots.new result }
    ensures charge { result ≤ used + 1 }
{
    let n = split(knots, used, lo);
    let m = below(knots, n, lo);
    drop_from(knots, 0, n, m);
    n - m
}
