//! The shape that keeps every value, over the heap: the plain one that others are compared with.
//!
//! For tests alone: the program takes `slope_list`.
#![tactic(auto)]

ghost use Rattle.std.specs.Prelude.{◌≡◌, ℕ, ℤ, ◌+◌, ◌<◌, ◌≤◌, pos, ◌+ℤ◌, ◌-ℤ◌, ◌*ℤ◌, ◌≤ℤ◌, ◌<ℤ◌};
ghost use Rattle.std.specs.Prelude.{length, IfOk, vec_len, slice_index_or, MatchOption, Option};
ghost use Rattle.std.specs.Prelude.{Some, refl, []};
ghost use Rattle.std.specs.Int.{int_max};
ghost use Rattle.test_shapes.proofs.HomeLaws.{uncounted};
ghost use Rattle.level_table.specs.Values.{table, AreWithin, IsLeastOf};
ghost use Rattle.slope_list.specs.Curve.{curve_value, reserve_term, IsLimitedCurve};
ghost use Rattle.slope_list.specs.Effect.{IsWindow, IsLeastIn, Reaches};
ghost use Rattle.slope_list.proofs.Lookup.{within_by_index};
ghost use Rattle.slope_list.specs.Table.{value_of, IsConvexList, IsPlace, IsAmount, HasNone};

use slope_list::shape_laws::{
    curve_powers_are_within_limits, operations_keep_convexity, operations_keep_limits,
};
use std::alloc::{AllocError, Global};
use test_shapes::{Cells, Heap, Shape, curve_at};
use uc_model::units::Curve;

/// A convex function by its values, one for each power from `lo` on.
#[derive(Drop)]
pub struct Levels {
    lo: i64,
    values: Vec<i64>,
    ghost convex: { IsConvexList values.items },
    ghost within: { AreWithin lo values.items },
}

/// How many of the `len` powers from `lo` on are below x.
fn count_below(lo: i64, len: usize, x: i64) -> usize
    ensures within { result ≤ len }
    ensures below { (k : ℕ) → k < result → (lo +ℤ pos k) <ℤ x }
    ensures above { (k : ℕ) → result ≤ k → k < len → x ≤ℤ (lo +ℤ pos k) }
{
    if x <= lo {
        0
    } else {
        (x.abs_diff(lo) as usize).min(len)
    }
}

/// How many of the `len` powers from `lo` on are at most x.
fn count_up_to(lo: i64, len: usize, x: i64) -> usize
    ensures within { result ≤ len }
    ensures up_to { (k : ℕ) → k < result → (lo +ℤ pos k) ≤ℤ x }
    ensures above { (k : ℕ) → result ≤ k → k < len → x <ℤ (lo +ℤ pos k) }
{
    if x < lo {
        0
    } else {
        (x.abs_diff(lo) as usize).saturating_add(1).min(len)
    }
}

/// The least value, and the first index that has it.
fn least_of(values: &[i64]) -> Option<(i64, usize)>
    ensures { MatchOption result (length values.now ≡ 0) (λ r. IsLeastOf values.now r.0 r.1) }
{
    let first = values.first()?;
    let mut best = *first;
    let mut at = 0;
    for (k, value) in values.iter().enumerate() {
        if *value < best {
            best = *value;
            at = k;
        }
    }
    Some((best, at))
}

/// The least value at the powers from `from` to `to` and its least power.
fn least_between(values: &[i64], lo: i64, from: i64, to: i64) -> Option<(i64, i64)>
    requires { AreWithin lo values.now }
    ensures { MatchOption result (HasNone from to (table lo values.now))
        (λ r. IsLeastIn from to (table lo values.now) r.0 r.1) }
{
    let start = count_below(lo, values.len(), from);
    let end = count_up_to(lo, values.len(), to);
    if end <= start {
        return None;
    }
    let (value, at) = least_of(&values[start..end])?;
    Some((value, lo + (start + at) as i64))
}

/// The least value at the powers from `x - up` to `x + down`.
fn least_in_reach(values: &[i64], lo: i64, up: i64, down: i64, x: i64) -> i64
    requires within { AreWithin lo values.now }
    requires up { IsPlace up }
    requires down { IsPlace down }
    requires x { IsPlace x }
    requires some { (y w : ℤ) × (value_of (table lo values.now) y ≡ Some w) × Reaches up down x y }
    ensures { (y : ℤ) × IsLeastIn (x -ℤ up) (x +ℤ down) (table lo values.now) result y }
{
    match least_between(values, lo, x - up, x + down) {
        Some((value, _)) => value,
        None => unreachable!(),
    }
}

/// The least values in reach of `count` powers from `from` on.
fn windowed(
    alloc: Global,
    s: &Levels,
    up: i64,
    down: i64,
    from: i64,
    count: usize,
) -> Result<Vec<i64>, AllocError>
    requires up { IsPlace up }
    requires down { IsPlace down }
    requires powers { (k : ℕ) → k < count → IsPlace (from +ℤ pos k) }
    requires some { (k : ℕ) → k < count → (y w : ℤ)
        × (value_of (table s.now.lo s.now.values.items) y ≡ Some w)
        × Reaches up down (from +ℤ pos k) y }
    ensures len { IfOk result (λ out. length out.items ≡ count) }
    ensures each { IfOk result (λ out. (k : ℕ) → k < count → (y : ℤ)
        × IsLeastIn ((from +ℤ pos k) -ℤ up) ((from +ℤ pos k) +ℤ down)
        (table s.now.lo s.now.values.items) (slice_index_or out.items k (pos 0)) y) }
{
    let mut out = Vec::with_capacity(alloc, count)?;
    for k in 0..count {
        let least = least_in_reach(&s.values, s.lo, up, down, from + k as i64);
        out.push(least)?;
    }
    Ok(out)
}

/// How many whole numbers there are from `from` to `to`.
fn count_between(from: i64, to: i64) -> usize
    requires from { IsPlace from }
    requires to { IsPlace to }
    ensures { pos result ≡ int_max (pos 0) ((to +ℤ pos 1) -ℤ from) }
{
    (to + 1 - from).max(0) as usize
}

/// The function after a window.
fn window_of(
    alloc: Global,
    s: &Levels,
    up: i64,
    down: i64,
    lo: i64,
    hi: i64,
) -> Result<Levels, AllocError>
    requires up { pos 0 ≤ℤ up }
    requires up_fits { IsPlace up }
    requires down { pos 0 ≤ℤ down }
    requires down_fits { IsPlace down }
    requires lo { IsPlace lo }
    requires hi { IsPlace hi }
    ensures { IfOk result (λ r. IsWindow up down lo hi (table s.now.lo s.now.values.items)
        (table r.lo r.values.items)) }
{
    let len = s.values.len();
    if len == 0 {
        return Ok(Levels {
            lo: 0,
            values: Vec::new(alloc),
        });
    }
    operations_keep_convexity();
    operations_keep_limits();
    let last = s.lo + (len - 1) as i64;
    let from = lo.max(s.lo - down);
    let to = hi.min(last + up);
    let count = count_between(from, to);
    let values = windowed(alloc, s, up, down, from, count)?;
    Ok(Levels { lo: from, values })
}

/// The value after some steps on a line.
fn along(value: i64, slope: i64, x: i64) -> i64
    requires before { IsAmount value }
    requires after { IsAmount (value +ℤ slope *ℤ x) }
    ensures { result ≡ value +ℤ slope *ℤ x }
{
    value + slope * x
}

/// What is added to the value at each power.
trait Term {
    /// What it adds at a power, if it is known there.
    ghost added: { Self → ℤ → Option ℤ };

    /// Its numbers are within the limits.
    ghost limited: { Self → Type 0 };

    /// The value at a power with the term added.
    fn plus(&self, value: i64, x: i64) -> i64
        requires limited { limited self.now }
        requires x { IsPlace x }
        requires before { IsAmount value }
        requires fits { (t : ℤ) × (added self.now x ≡ Some t) × IsAmount (value +ℤ t) }
        ensures { (t : ℤ) × (added self.now x ≡ Some t) × (result ≡ value +ℤ t) };
}

/// `slope * x`.
#[derive(Drop)]
struct Line {
    slope: i64,
}

impl Term for Line {
    ghost added = { λ l x. Some (l.slope *ℤ x) };

    ghost limited = { λ _. Unit {0} };

    fn plus(&self, value: i64, x: i64) -> i64 {
        along(value, self.slope, x)
    }
}

/// Less the worth of the most reserve, `mu * min(cap, up + x)`.
#[derive(Drop)]
struct Reserve {
    mu: i64,
    cap: i64,
    up: i64,
}

impl Term for Reserve {
    ghost added = { λ r x. Some (reserve_term r.mu r.cap r.up x) };

    ghost limited = { λ r. IsPlace r.cap × IsPlace r.up };

    fn plus(&self, value: i64, x: i64) -> i64 {
        value - self.mu * self.cap.min(self.up + x)
    }
}

/// The curve's value at `x + shift`.
#[derive(Drop)]
struct Moved<'a> {
    curve: &'a Curve,
    shift: i64,
}

impl Term for Moved<'_> {
    ghost added = { λ m x. curve_value m.curve.now (x +ℤ m.shift) };

    ghost limited = { λ m. IsLimitedCurve m.curve.now };

    fn plus(&self, value: i64, x: i64) -> i64 {
        curve_powers_are_within_limits();
        value + curve_at(self.curve, x + self.shift)
    }
}

/// Adds a term to the value at each power.
fn add_term<T: Term>(values: &mut [i64], lo: i64, term: &T)
    requires limited { T.limited term.now }
    requires within { AreWithin lo values.old }
    requires fits { (k : ℕ) → k < length values.old → (t : ℤ)
        × (T.added term.now (lo +ℤ pos k) ≡ Some t)
        × IsAmount (slice_index_or values.old k (pos 0) +ℤ t) }
    ensures { (k : ℕ) → k < length values.old → (t : ℤ) × (T.added term.now (lo +ℤ pos k) ≡ Some t)
        × (slice_index_or values.new k (pos 0) ≡ slice_index_or values.old k (pos 0) +ℤ t) }
{
    for (k, value) in values.iter_mut().enumerate() {
        *value = term.plus(*value, lo + k as i64);
    }
}

/// The value at a power.
fn value_in(values: &[i64], lo: i64, x: i64) -> Option<i64>
    ensures { result ≡ value_of (table lo values.now) x }
{
    if x < lo {
        None
    } else {
        values.get(x.abs_diff(lo) as usize).copied()
    }
}

impl Shape for Levels {
    type Home = Heap;

    ghost is_in = { λ _ _. Unit {0} };

    ghost function = { λ _ s. table s.lo s.values.items };

    ghost numbers = { λ _ _. [] };

    ghost cells = { λ s. vec_len s.values };

    ghost same_cells = { λ h h' s _ _. (refl, refl) };

    ghost convex = { λ h s _. s.convex };

    ghost within = { λ h s _. within_by_index (table s.lo s.values.items) s.within.powers
        s.within.amounts };

    ghost owns = { λ h s _. record { used = λ n among. absurd among; distinct = tt } };

    ghost as_many = { λ h s _ e. uncounted e };

    ghost no_numbers = { λ h s _. (refl, refl, refl) };

    ghost always_in = { λ h s _. tt };

    fn point(home: &mut Heap, at: i64, value: i64) -> Result<Levels, AllocError> {
        let mut values = Vec::new(home.alloc);
        values.push(value)?;
        Ok(Levels { lo: at, values })
    }

    fn copy(&self, home: &mut Heap) -> Result<Levels, AllocError> {
        let values = Vec::from_slice(home.alloc, &self.values)?;
        Ok(Levels {
            lo: self.lo,
            values,
        })
    }

    fn add_curve(&mut self, _home: &mut Heap, curve: &Curve, shift: i64) -> Result<(), AllocError> {
        operations_keep_convexity();
        operations_keep_limits();
        add_term(&mut self.values, self.lo, &Moved { curve, shift });
        Ok(())
    }

    fn add_line(&mut self, _home: &mut Heap, slope: i64) {
        operations_keep_convexity();
        operations_keep_limits();
        add_term(&mut self.values, self.lo, &Line { slope });
    }

    fn add_reserve(
        &mut self,
        _home: &mut Heap,
        mu: i64,
        cap: i64,
        up: i64,
    ) -> Result<(), AllocError> {
        operations_keep_convexity();
        operations_keep_limits();
        add_term(&mut self.values, self.lo, &Reserve { mu, cap, up });
        Ok(())
    }

    fn window(
        &mut self,
        home: &mut Heap,
        up: i64,
        down: i64,
        lo: i64,
        hi: i64,
    ) -> Result<(), AllocError> {
        *self = window_of(home.alloc, self, up, down, lo, hi)?;
        Ok(())
    }

    fn least(&self, _home: &Heap) -> Option<(i64, i64)> {
        let (value, at) = least_of(&self.values)?;
        Some((value, self.lo + at as i64))
    }

    fn least_in(&self, _home: &Heap, lo: i64, hi: i64) -> Option<(i64, i64)> {
        least_between(&self.values, self.lo, lo, hi)
    }

    fn value_at(&self, _home: &Heap, x: i64) -> Option<i64> {
        value_in(&self.values, self.lo, x)
    }

    fn give_back(self, _home: &mut Heap) {}
}
