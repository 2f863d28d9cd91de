//! Values and least values.
ghost use Rattle.std.specs.Prelude.{◌≡◌, ◌≤◌, length, MatchOption};
ghost use Rattle.ramp_step.specs.Tables.{table_of, AreBreaks};
ghost use Rattle.slope_list.specs.Effect.{IsLeast, IsLeastIn};
ghost use Rattle.slope_list.specs.Table.{value_of, IsEmpty, HasNone};

use crate::breakpoint::Knot;
use crate::splitting::{below, between};
use crate::window::turn;

/// The value at a power; None exactly outside the interval.
pub fn value_at(knots: &[Knot], used: u32, x: i64) -> Option<i64>
    requires room { used ≤ length knots.now }
    requires breaks { AreBreaks knots.now used }
    ensures { result ≡ value_of (table_of knots.now used) x }
{
    let m = below(knots, used as usize, x);
    if m == used as usize {
        return None;
    }
    if knots[m].at == x {
        return Some(knots[m].value);
    }
    if m == 0 {
        return None;
    }
    let knot = between(knots[m - 1], knots[m], x);
    Some(knot.value)
}

/// The least value, with the least power where it is; None exactly on an empty interval.
pub fn least(knots: &[Knot], used: u32) -> Option<Knot>
    requires room { used ≤ length knots.now }
    requires breaks { AreBreaks knots.now used }
    ensures { MatchOption result (IsEmpty (table_of knots.now used))
        (λ q. IsLeast (table_of knots.now used) q.value q.at) }
{
    if used == 0 {
        return None;
    }
    let j = turn(knots, used as usize);
    Some(knots[j])
}

/// The least value at the powers from `lo` to `hi`, with the least power where it is; None exactly
/// where there is no such power.
pub fn least_in(knots: &[Knot], used: u32, lo: i64, hi: i64) -> Option<Knot>
    requires room { used ≤ length knots.now }
    requires breaks { AreBreaks knots.now used }
    ensures { MatchOption result (HasNone lo hi (table_of knots.now used))
        (λ q. IsLeastIn lo hi (table_of knots.now used) q.value q.at) }
{
    if used == 0 {
        return None;
    }
    if hi < lo {
        return None;
    }
    let j = turn(knots, used as usize);
    let at = lo.max(hi.min(knots[j].at));
    match value_at(knots, used, at) {
        Some(value) => Some(Knot { at, value }),
        None => None,
    }
}
