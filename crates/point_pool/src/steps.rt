//! Steps on the first breakpoints of the work list.
ghost use Rattle.std.specs.Prelude.{◌≡◌, ℤ, ◌+◌, ◌<◌, ◌≤◌, pos, ◌*ℤ◌, ◌≤ℤ◌, length, take};
ghost use Rattle.slope_list.specs.Curve.{curve_value, reserve_term, IsLimitedCurve};
ghost use Rattle.slope_list.specs.Effect.{IsSum, IsCurveSum, CanAddCurve, IsWindow};
ghost use Rattle.slope_list.specs.Table.{IsPlace, CanAdd};
ghost use Rattle.ramp_step.specs.Tables.{function_of, IsBreakList};

use crate::pool::Pool;
use ramp_step::curve::curve_step;
use ramp_step::kink::kink_step;
use ramp_step::law::knots_decide;
use ramp_step::line::line_step;
use ramp_step::window::window_step;
use slope_list::shape_laws::operations_depend_on_values_alone;
use uc_model::units::Curve;

impl Pool {
    /// Adds `slope * x` at each power x.
    pub(crate) fn add_line(&mut self, used: u32, slope: i64)
        requires room { used ≤ length self.old.work.items }
        requires breaks { IsBreakList (take used self.old.work.items) }
        requires fits { CanAdd (λ x. slope *ℤ x) (function_of (take used self.old.work.items)) }
        ensures sum { IsSum (λ x. slope *ℤ x) (function_of (take used self.old.work.items))
            (function_of (take used self.new.work.items)) }
        ensures breaks { IsBreakList (take used self.new.work.items) }
        ensures slots { self.new.slots.items ≡ self.old.slots.items }
        ensures spare { self.new.spare ≡ self.old.spare }
    {
        knots_decide();
        operations_depend_on_values_alone();
        line_step(&mut self.work, used, slope);
    }

    /// Subtracts `mu * min(cap, up + x)` at each power x, and answers how many breakpoints there
    /// are.
    pub(crate) fn add_reserve(&mut self, used: u32, mu: i64, cap: i64, up: i64) -> u32
        requires room { used + 1 ≤ length self.old.work.items }
        requires breaks { IsBreakList (take used self.old.work.items) }
        requires mu { pos 0 ≤ℤ mu }
        requires cap { IsPlace cap }
        requires up { IsPlace up }
        requires fits { CanAdd (reserve_term mu cap up)
            (function_of (take used self.old.work.items)) }
        ensures sum { IsSum (reserve_term mu cap up) (function_of (take used self.old.work.items))
            (function_of (take result self.new.work.items)) }
        ensures breaks { IsBreakList (take result self.new.work.items) }
        ensures charge { result ≤ used + 1 }
        ensures slots { self.new.slots.items ≡ self.old.slots.items }
        ensures spare { self.new.spare ≡ self.old.spare }
    {
        knots_decide();
        operations_depend_on_values_alone();
        kink_step(&mut self.work, used, mu, cap, up)
    }

    /// Adds the curve's value at `x + shift` at each power x, and answers how many breakpoints
    /// there are.
    pub(crate) fn add_curve(&mut self, used: u32, curve: &Curve, shift: i64) -> u32
        requires some { 0 < used }
        requires room { used + length curve.now.blocks.items ≤ length self.old.work.items }
        requires breaks { IsBreakList (take used self.old.work.items) }
        requires limited { IsLimitedCurve curve.now }
        requires fits { CanAddCurve (curve_value curve.now) shift
            (function_of (take used self.old.work.items)) }
        ensures sum { IsCurveSum (curve_value curve.now) shift
            (function_of (take used self.old.work.items))
            (function_of (take result self.new.work.items)) }
        ensures breaks { IsBreakList (take result self.new.work.items) }
        ensures charge { result ≤ used + length curve.now.blocks.items }
        ensures slots { self.new.slots.items ≡ self.old.slots.items }
        ensures spare { self.new.spare ≡ self.old.spare }
    {
        knots_decide();
        operations_depend_on_values_alone();
        curve_step(&mut self.work, used, curve, shift)
    }

    /// Takes the least values at the powers from `x - up` to `x + down`, at the powers x from `lo`
    /// to `hi`, and answers how many breakpoints there are.
    pub(crate) fn window(&mut self, used: u32, up: i64, down: i64, lo: i64, hi: i64) -> u32
        requires room { used + 4 ≤ length self.old.work.items }
        requires breaks { IsBreakList (take used self.old.work.items) }
        requires up { pos 0 ≤ℤ up }
        requires up_fits { IsPlace up }
        requires down { pos 0 ≤ℤ down }
        requires down_fits { IsPlace down }
        requires lo { IsPlace lo }
        requires hi { IsPlace hi }
        ensures window { IsWindow up down lo hi (function_of (take used self.old.work.items))
            (function_of (take result self.new.work.items)) }
        ensures breaks { IsBreakList (take result self.new.work.items) }
        ensures charge { result ≤ used + 4 }
        ensures slots { self.new.slots.items ≡ self.old.slots.items }
        ensures spare { self.new.spare ≡ self.old.spare }
    {
        knots_decide();
        operations_depend_on_values_alone();
        window_step(&mut self.work, used, up, down, lo, hi)
    }
}
