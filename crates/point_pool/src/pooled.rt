//! The shape that keeps its breakpoints in a pool.
ghost use Rattle.std.specs.Prelude.{true};

use crate::pool::Pool;
use ramp_step::breakpoint::Knot;
use ramp_step::law::{knots_decide, turn_is_least};
use std::alloc::AllocError;
use test_shapes::{Cells, Shape};
use uc_model::units::Curve;

impl Cells for Pool {
    ghost use Rattle.point_pool.specs.Seen.{cells_of};

    ghost cell_list = { cells_of };

    ghost sure = { λ pool. pool.spare };

    ghost counts = { true };
}

/// A convex function on a whole interval, kept as its breakpoints in cells of a pool: a straight
/// line lies between each two neighbours. Only `give_back` ends it, so no cell is lost.
pub struct Pooled {
    pub(crate) head: u32,
    pub(crate) count: u32,
}

impl Shape for Pooled {
    ghost use Rattle.point_pool.specs.CellLaws.{owns_of, counted, length-walk};
    ghost use Rattle.point_pool.specs.Seen.{IsIn, shown, numbers_of, seen_by_contents};

    type Home = Pool;

    ghost is_in = { IsIn };

    ghost function = { shown };

    ghost numbers = { numbers_of };

    ghost cells = { λ s. s.count };

    ghost same_cells = { λ h h' s here same. seen_by_contents h h' s here same };

    ghost convex = { λ h s here. here.breaks.convex };

    ghost within = { λ h s here. here.breaks.within };

    ghost owns = { λ h s here. owns_of h.slots.items (numbers_of h s) here.used };

    ghost as_many = { λ h s _ _. length-walk h.slots.items s.count s.head };

    ghost no_numbers = { λ h s not. counted not };

    ghost always_in = { λ h s not. counted not };

    fn point(home: &mut Pool, at: i64, value: i64) -> Result<Pooled, AllocError> {
        if home.spare == 0 {
            return Err(AllocError);
        }
        let head = home.take(0, Knot { at, value });
        knots_decide();
        Ok(Pooled { head, count: 1 })
    }

    fn copy(&self, home: &mut Pool) -> Result<Pooled, AllocError> {
        if home.spare < self.count {
            return Err(AllocError);
        }
        home.load(self.head, self.count);
        let head = home.store(self.count);
        Ok(Pooled {
            head,
            count: self.count,
        })
    }

    fn add_curve(&mut self, home: &mut Pool, curve: &Curve, shift: i64) -> Result<(), AllocError> {
        if self.count == 0 {
            return Ok(());
        }
        if (home.spare as usize) < curve.blocks.len() {
            return Err(AllocError);
        }
        home.load(self.head, self.count);
        let left = home.add_curve(self.count, curve, shift);
        self.head = home.replace(self.head, self.count, left);
        self.count = left;
        Ok(())
    }

    fn add_line(&mut self, home: &mut Pool, slope: i64) {
        home.load(self.head, self.count);
        home.add_line(self.count, slope);
        self.head = home.replace(self.head, self.count, self.count);
    }

    fn add_reserve(
        &mut self,
        home: &mut Pool,
        mu: i64,
        cap: i64,
        up: i64,
    ) -> Result<(), AllocError> {
        if home.spare == 0 {
            return Err(AllocError);
        }
        home.load(self.head, self.count);
        let left = home.add_reserve(self.count, mu, cap, up);
        self.head = home.replace(self.head, self.count, left);
        self.count = left;
        Ok(())
    }

    fn window(
        &mut self,
        home: &mut Pool,
        up: i64,
        down: i64,
        lo: i64,
        hi: i64,
    ) -> Result<(), AllocError> {
        if home.spare < 4 {
            return Err(AllocError);
        }
        home.load(self.head, self.count);
        let left = home.window(self.count, up, down, lo, hi);
        self.head = home.replace(self.head, self.count, left);
        self.count = left;
        Ok(())
    }

    fn least(&self, home: &Pool) -> Option<(i64, i64)> {
        if self.count == 0 {
            return None;
        }
        let lowest = home.lowest(self.head, self.count);
        turn_is_least();
        Some((lowest.value, lowest.at))
    }

    fn least_in(&self, home: &Pool, lo: i64, hi: i64) -> Option<(i64, i64)> {
        if self.count == 0 {
            return None;
        }
        if hi < lo {
            return None;
        }
        let lowest = home.lowest(self.head, self.count);
        let at = lo.max(hi.min(lowest.at));
        turn_is_least();
        match home.value_in(self.head, self.count, at) {
            Some(value) => Some((value, at)),
            None => None,
        }
    }

    fn value_at(&self, home: &Pool, x: i64) -> Option<i64> {
        if self.count == 0 {
            return None;
        }
        home.value_in(self.head, self.count, x)
    }

    fn give_back(self, home: &mut Pool) {
        let Pooled { head, count } = self;
        home.release(head, count);
    }
}
