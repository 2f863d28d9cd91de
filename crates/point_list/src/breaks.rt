//! The shape that keeps its breakpoints.
ghost use Rattle.std.specs.Prelude.{◌≡◌, ◌≤◌, length, refl, [], IfOk};
ghost use Rattle.test_shapes.proofs.HomeLaws.{uncounted};
ghost use Rattle.point_list.specs.Breaks.{IsCountedList};

use crate::steps;
use ramp_step::breakpoint::Knot;
use std::alloc::AllocError;
use test_shapes::{Heap, Shape};
use uc_model::units::Curve;

/// A convex function on a whole interval, kept as its breakpoints: a straight line lies between
/// each two neighbours. Its cells are its breakpoints.
#[derive(Drop)]
pub struct Breaks {
    knots: Vec<Knot>,
    ghost valid: { IsCountedList knots.items },
}

impl Breaks {
    ghost use Rattle.point_list.specs.Shown.{count_of};

    /// How many breakpoints it keeps.
    pub fn count(&self) -> u32
        ensures { result ≡ count_of self.now }
    {
        self.knots.len() as u32
    }
}

impl Shape for Breaks {
    ghost use Rattle.std.specs.Prelude.{◌+◌, OnOk, OnErr, pos, ◌*ℤ◌, ◌≤ℤ◌};
    ghost use Rattle.slope_list.specs.Curve.{curve_value, reserve_term, IsLimitedCurve};
    ghost use Rattle.slope_list.specs.Effect.{IsPoint, IsSame, IsSum, IsCurveSum, CanAddCurve};
    ghost use Rattle.slope_list.specs.Effect.{IsWindow};
    ghost use Rattle.slope_list.specs.Table.{IsPlace, IsAmount, CanAdd};
    ghost use Rattle.point_list.specs.Shown.{count_of, shown, IsUntouched};

    type Home = Heap;

    ghost is_in = { λ _ _. Unit {0} };

    ghost function = { λ _ s. shown s };

    ghost numbers = { λ _ _. [] };

    ghost cells = { count_of };

    ghost same_cells = { λ h h' s _ _. (refl, refl) };

    ghost convex = { λ h s _. s.valid.breaks.convex };

    ghost within = { λ h s _. s.valid.breaks.within };

    ghost owns = { λ h s _. record { used = λ n among. absurd among; distinct = tt } };

    ghost as_many = { λ h s _ e. uncounted e };

    ghost no_numbers = { λ h s _. (refl, refl, refl) };

    ghost always_in = { λ h s _. tt };

    fn point(home: &mut Heap, at: i64, value: i64) -> Result<Breaks, AllocError>
        requires power { IsPlace at }
        requires amount { IsAmount value }
        ensures ok { IfOk result (λ s. IsPoint at value (shown s)) }
        ensures charge { IfOk result (λ s. count_of s ≡ 1) }
        ensures home { home.new ≡ home.old }
    {
        let knots = steps::point(home.alloc, at, value)?;
        Ok(Breaks { knots })
    }

    fn copy(&self, home: &mut Heap) -> Result<Breaks, AllocError>
        ensures ok { IfOk result (λ s. IsSame (shown self.now) (shown s)) }
        ensures charge { IfOk result (λ s. count_of s ≡ count_of self.now) }
        ensures home { home.new ≡ home.old }
    {
        let knots = Vec::from_slice(home.alloc, &self.knots)?;
        Ok(Breaks { knots })
    }

    fn add_curve(&mut self, _home: &mut Heap, curve: &Curve, shift: i64) -> Result<(), AllocError>
        requires limited { IsLimitedCurve curve.now }
        requires fits { CanAddCurve (curve_value curve.now) shift (shown self.old) }
        ensures ok { OnOk result (IsCurveSum (curve_value curve.now) shift (shown self.old)
            (shown self.new)) }
        ensures charge { count_of self.new ≤ count_of self.old + length curve.now.blocks.items }
        ensures err { OnErr result (IsUntouched self.old self.new) }
        ensures home { _home.new ≡ _home.old }
    {
        steps::add_curve(&mut self.knots, curve, shift)
    }

    fn add_line(&mut self, _home: &mut Heap, slope: i64)
        requires fits { CanAdd (λ x. slope *ℤ x) (shown self.old) }
        ensures line { IsSum (λ x. slope *ℤ x) (shown self.old) (shown self.new) }
        ensures charge { count_of self.new ≡ count_of self.old }
        ensures home { _home.new ≡ _home.old }
    {
        steps::add_line(&mut self.knots, slope);
    }

    fn add_reserve(
        &mut self,
        _home: &mut Heap,
        mu: i64,
        cap: i64,
        up: i64,
    ) -> Result<(), AllocError>
        requires mu { pos 0 ≤ℤ mu }
        requires cap { IsPlace cap }
        requires up { IsPlace up }
        requires fits { CanAdd (reserve_term mu cap up) (shown self.old) }
        ensures ok { OnOk result (IsSum (reserve_term mu cap up) (shown self.old)
            (shown self.new)) }
        ensures charge { count_of self.new ≤ count_of self.old + 1 }
        ensures err { OnErr result (IsUntouched self.old self.new) }
        ensures home { _home.new ≡ _home.old }
    {
        steps::add_reserve(&mut self.knots, mu, cap, up)
    }

    fn window(
        &mut self,
        _home: &mut Heap,
        up: i64,
        down: i64,
        lo: i64,
        hi: i64,
    ) -> Result<(), AllocError>
        requires up { pos 0 ≤ℤ up }
        requires up_fits { IsPlace up }
        requires down { pos 0 ≤ℤ down }
        requires down_fits { IsPlace down }
        requires lo { IsPlace lo }
        requires hi { IsPlace hi }
        ensures ok { OnOk result (IsWindow up down lo hi (shown self.old) (shown self.new)) }
        ensures charge { count_of self.new ≤ count_of self.old + 4 }
        ensures err { OnErr result (IsUntouched self.old self.new) }
        ensures home { _home.new ≡ _home.old }
    {
        steps::window(&mut self.knots, up, down, lo, hi)
    }

    fn least(&self, _home: &Heap) -> Option<(i64, i64)> {
        steps::least(&self.knots)
    }

    fn least_in(&self, _home: &Heap, lo: i64, hi: i64) -> Option<(i64, i64)> {
        steps::least_in(&self.knots, lo, hi)
    }

    fn value_at(&self, _home: &Heap, x: i64) -> Option<i64> {
        steps::value_at(&self.knots, x)
    }

    fn give_back(self, _home: &mut Heap) {}
}
