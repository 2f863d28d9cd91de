//! Steps on a whole list, which take the room that they need first.
ghost use Rattle.std.specs.Prelude.{◌≡◌, ℕ, ℤ, ◌+◌, ◌^◌, ◌<◌, ◌≤◌, pos, ◌*ℤ◌, ◌≤ℤ◌, length};
ghost use Rattle.std.specs.Prelude.{IfOk, OnOk, OnErr, MatchOption};
ghost use Rattle.slope_list.specs.Curve.{curve_value, reserve_term, IsLimitedCurve};
ghost use Rattle.slope_list.specs.Effect.{IsPoint, IsSum, IsCurveSum, CanAddCurve, IsWindow};
ghost use Rattle.slope_list.specs.Effect.{IsLeast, IsLeastIn};
ghost use Rattle.slope_list.specs.Table.{value_of, IsPlace, IsAmount, IsEmpty, HasNone, CanAdd};
ghost use Rattle.ramp_step.specs.Knots.{knot};
ghost use Rattle.ramp_step.specs.Tables.{function_of};
ghost use Rattle.point_list.specs.Breaks.{IsCountedList};

use ramp_step::breakpoint::Knot;
use ramp_step::curve::curve_step;
use ramp_step::kink::kink_step;
use ramp_step::law::knots_decide;
use ramp_step::line::line_step;
use ramp_step::read;
use ramp_step::window::window_step;
use slope_list::shape_laws::operations_depend_on_values_alone;
use std::alloc::{AllocError, Global};
use uc_model::units::Curve;

/// Puts free cells behind the knots, and answers how many knots there are. Where they could no
/// longer be counted it answers that memory ran out.
fn make_room(knots: &mut Vec<Knot>, cells: usize) -> Result<u32, AllocError>
    requires { length knots.old.items < 2 ^ 32 }
    ensures used { IfOk result (λ used. used ≡ length knots.old.items) }
    ensures room { OnOk result (length knots.new.items ≡ length knots.old.items + cells) }
    ensures count { OnOk result (length knots.old.items + cells < 2 ^ 32) }
    ensures same { (k : ℕ) → k < length knots.old.items
        → knot knots.new.items k ≡ knot knots.old.items k }
    ensures err { OnErr result (knots.new.items ≡ knots.old.items) }
{
    let used = knots.len();
    if cells > u32::MAX as usize - used {
        return Err(AllocError);
    }
    knots.resize(used + cells, Knot { at: 0, value: 0 })?;
    Ok(used as u32)
}

/// Adds `slope * x` at each power x.
pub(crate) fn add_line(knots: &mut Vec<Knot>, slope: i64)
    requires breaks { IsCountedList knots.old.items }
    requires fits { CanAdd (λ x. slope *ℤ x) (function_of knots.old.items) }
    ensures sum { IsSum (λ x. slope *ℤ x) (function_of knots.old.items)
        (function_of knots.new.items) }
    ensures breaks { IsCountedList knots.new.items }
    ensures count { length knots.new.items ≡ length knots.old.items }
{
    knots_decide();
    operations_depend_on_values_alone();
    let used = knots.len() as u32;
    line_step(knots, used, slope);
}

/// Subtracts `mu * min(cap, up + x)` at each power x.
pub(crate) fn add_reserve(
    knots: &mut Vec<Knot>,
    mu: i64,
    cap: i64,
    up: i64,
) -> Result<(), AllocError>
    requires breaks { IsCountedList knots.old.items }
    requires mu { pos 0 ≤ℤ mu }
    requires cap { IsPlace cap }
    requires up { IsPlace up }
    requires fits { CanAdd (reserve_term mu cap up) (function_of knots.old.items) }
    ensures ok { OnOk result (IsSum (reserve_term mu cap up) (function_of knots.old.items)
        (function_of knots.new.items)) }
    ensures breaks { IsCountedList knots.new.items }
    ensures charge { length knots.new.items ≤ length knots.old.items + 1 }
    ensures err { OnErr result (knots.new.items ≡ knots.old.items) }
{
    knots_decide();
    operations_depend_on_values_alone();
    let used = make_room(knots, 1)?;
    let left = kink_step(knots, used, mu, cap, up);
    knots.truncate(left as usize);
    Ok(())
}

/// Adds the curve's value at `x + shift` at each power x.
pub(crate) fn add_curve(knots: &mut Vec<Knot>, curve: &Curve, shift: i64) -> Result<(), AllocError>
    requires breaks { IsCountedList knots.old.items }
    requires limited { IsLimitedCurve curve.now }
    requires fits { CanAddCurve (curve_value curve.now) shift (function_of knots.old.items) }
    ensures ok { OnOk result (IsCurveSum (curve_value curve.now) shift (function_of knots.old.items)
        (function_of knots.new.items)) }
    ensures breaks { IsCountedList knots.new.items }
    ensures charge { length knots.new.items ≤ length knots.old.items
        + length curve.now.blocks.items }
    ensures err { OnErr result (knots.new.items ≡ knots.old.items) }
{
    let len = knots.len();
    if len == 0 {
        return Ok(());
    }
    knots_decide();
    operations_depend_on_values_alone();
    let used = make_room(knots, curve.blocks.len())?;
    let left = curve_step(knots, used, curve, shift);
    knots.truncate(left as usize);
    Ok(())
}

/// The least values at the powers from `x - up` to `x + down`, at the powers x from `lo` to `hi`.
pub(crate) fn window(
    knots: &mut Vec<Knot>,
    up: i64,
    down: i64,
    lo: i64,
    hi: i64,
) -> Result<(), AllocError>
    requires breaks { IsCountedList knots.old.items }
    requires up { pos 0 ≤ℤ up }
    requires up_fits { IsPlace up }
    requires down { pos 0 ≤ℤ down }
    requires down_fits { IsPlace down }
    requires lo { IsPlace lo }
    requires hi { IsPlace hi }
    ensures ok { OnOk result (IsWindow up down lo hi (function_of knots.old.items)
        (function_of knots.new.items)) }
    ensures breaks { IsCountedList knots.new.items }
    ensures charge { length knots.new.items ≤ length knots.old.items + 4 }
    ensures err { OnErr result (knots.new.items ≡ knots.old.items) }
{
    knots_decide();
    operations_depend_on_values_alone();
    let used = make_room(knots, 4)?;
    let left = window_step(knots, used, up, down, lo, hi);
    knots.truncate(left as usize);
    Ok(())
}

/// One breakpoint.
pub(crate) fn point(alloc: Global, at: i64, value: i64) -> Result<Vec<Knot>, AllocError>
    requires power { IsPlace at }
    requires amount { IsAmount value }
    ensures ok { IfOk result (λ knots. IsPoint at value (function_of knots.items)) }
    ensures breaks { IfOk result (λ knots. IsCountedList knots.items) }
    ensures count { IfOk result (λ knots. length knots.items ≡ 1) }
{
    let mut knots = Vec::new(alloc);
    knots.push(Knot { at, value })?;
    knots_decide();
    Ok(knots)
}

/// The least value and its least power.
pub(crate) fn least(knots: &[Knot]) -> Option<(i64, i64)>
    requires { IsCountedList knots.now }
    ensures { MatchOption result (IsEmpty (function_of knots.now))
        (λ r. IsLeast (function_of knots.now) r.0 r.1) }
{
    match read::least(knots, knots.len() as u32) {
        Some(lowest) => Some((lowest.value, lowest.at)),
        None => None,
    }
}

/// The least value at the powers from `lo` to `hi` and its least power.
pub(crate) fn least_in(knots: &[Knot], lo: i64, hi: i64) -> Option<(i64, i64)>
    requires { IsCountedList knots.now }
    ensures { MatchOption result (HasNone lo hi (function_of knots.now))
        (λ r. IsLeastIn lo hi (function_of knots.now) r.0 r.1) }
{
    match read::least_in(knots, knots.len() as u32, lo, hi) {
        Some(lowest) => Some((lowest.value, lowest.at)),
        None => None,
    }
}

/// The value at a power.
pub(crate) fn value_at(knots: &[Knot], x: i64) -> Option<i64>
    requires { IsCountedList knots.now }
    ensures { result ≡ value_of (function_of knots.now) x }
{
    read::value_at(knots, knots.len() as u32, x)
}
