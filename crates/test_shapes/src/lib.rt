//! Convex functions on whole intervals, for tests: what every representation of them in the cells of a
//! home keeps, and the cost of a power as a curve with its values.
#![tactic(auto)]

ghost use Rattle.std.specs.Prelude.{◌≡◌, ℕ, ℤ, ◌+◌, ◌≤◌, pos, ◌*ℤ◌, ◌≤ℤ◌, List, [], Bool, true};
ghost use Rattle.std.specs.Prelude.{false, IfOk, OnOk, OnErr, IsOk, MatchOption, length};
ghost use Rattle.test_shapes.specs.Cell.{Cell, Frame, AreSameAt, IsAmong, IsUsed, IsUnchanged};
ghost use Rattle.test_shapes.specs.Cell.{Owns};
ghost use Rattle.test_shapes.specs.Cell.{Balance};
ghost use Rattle.slope_list.specs.Curve.{curve_value, reserve_term, IsLimitedCurve};
ghost use Rattle.slope_list.specs.Effect.{IsPoint, IsSame, IsSum, IsCurveSum, CanAddCurve};
ghost use Rattle.slope_list.specs.Effect.{IsWindow};
ghost use Rattle.slope_list.specs.Effect.{IsLeast, IsLeastIn};
ghost use Rattle.slope_list.specs.Table.{Table, value_of, IsConvex, IsPlace, IsAmount};
ghost use Rattle.slope_list.specs.Table.{IsWithinLimits, IsEmpty, CanAdd, HasNone};

mod curves;
pub mod laws;

pub use curves::{curve_at, curve_of};
use std::alloc::{AllocError, Global};
use uc_model::units::Curve;

/// Where shapes keep their cells.
pub trait Cells {
    /// The cells, by their numbers.
    ghost cell_list: { Self → List Cell };

    /// The cells that it can give without memory.
    ghost sure: { Self → ℕ };

    /// Whether it counts its cells.
    ghost counts: { Bool };
}

/// The home of the heap. It doesn't count: a shape there takes what memory it needs.
#[derive(Drop)]
pub struct Heap {
    /// Where the memory comes from.
    pub alloc: Global,
}

impl Cells for Heap {
    ghost cell_list = { λ _. [] };

    ghost sure = { λ _. 0 };

    ghost counts = { false };
}

/// A convex function on a whole interval, which may be empty.
///
/// Powers are kilowatts within 4 * 10^9, and values are millionths of the currency within 10^18.
/// Each call on a shape is made with the home that the shape is in. A refused call leaves the
/// shape and the home unchanged. In a home that counts, a call with a charge answers Ok where the
/// home's `sure` is at least the charge.
pub trait Shape: Sized {
    type Home: Cells;

    /// The shape is in the home.
    ghost is_in: { Self.Home → Self → Type 0 };

    /// Its function, in that state of the home.
    ghost function: { Self.Home → Self → Table };

    /// The numbers of its cells.
    ghost numbers: { Self.Home → Self → List ℕ };

    /// How many cells it has.
    ghost cells: { Self → ℕ };

    /// A shape of one power. Its charge is 1.
    fn point(home: &mut Self::Home, at: i64, value: i64) -> Result<Self, AllocError>
        requires power { IsPlace at }
        requires amount { IsAmount value }
        ensures ok { IfOk result (λ s. IsPoint at value (function home.new s)) }
        ensures here { IfOk result (λ s. is_in home.new s) }
        ensures frame { IfOk result
            (λ s. Frame Self.Home.cell_list is_in numbers [] (numbers home.new s) home.old
            home.new) }
        ensures sure { Self.Home.counts ≡ true → 1 ≤ Self.Home.sure home.old → IsOk result }
        ensures balance { IfOk result (λ s. Self.Home.counts ≡ true → (cells s ≡ 1)
            × (Self.Home.sure home.new + 1 ≡ Self.Home.sure home.old)) }
        ensures err { OnErr result (home.new ≡ home.old) };

    /// Another shape with the same function. Its charge is this one's cells.
    fn copy(&self, home: &mut Self::Home) -> Result<Self, AllocError>
        requires { is_in home.old self.now }
        ensures ok { IfOk result (λ s. IsSame (function home.old self.now) (function home.new s)) }
        ensures here { IfOk result (λ s. is_in home.new s) }
        ensures frame { IfOk result
            (λ s. Frame Self.Home.cell_list is_in numbers [] (numbers home.new s) home.old
            home.new) }
        ensures sure { Self.Home.counts ≡ true → cells self.now ≤ Self.Home.sure home.old
            → IsOk result }
        ensures balance { IfOk result (λ s. Self.Home.counts ≡ true → (cells s ≤ cells self.now)
            × (Self.Home.sure home.new + cells s ≡ Self.Home.sure home.old)) }
        ensures err { OnErr result (home.new ≡ home.old) };

    /// Adds the curve's value at `x + shift` to the value at each power x. Its charge is the
    /// number of the curve's blocks.
    fn add_curve(
        &mut self,
        home: &mut Self::Home,
        curve: &Curve,
        shift: i64,
    ) -> Result<(), AllocError>
        requires here { is_in home.old self.old }
        requires limited { IsLimitedCurve curve.now }
        requires fits { CanAddCurve (curve_value curve.now) shift (function home.old self.old) }
        ensures ok { OnOk result (IsCurveSum (curve_value curve.now) shift
            (function home.old self.old) (function home.new self.new)) }
        ensures here { is_in home.new self.new }
        ensures frame { Frame Self.Home.cell_list is_in numbers (numbers home.old self.old)
            (numbers home.new self.new) home.old home.new }
        ensures sure { Self.Home.counts ≡ true
            → length curve.now.blocks.items ≤ Self.Home.sure home.old → IsOk result }
        ensures balance { Balance Self.Home.counts (length curve.now.blocks.items)
            (Self.Home.sure home.old) (cells self.old) (Self.Home.sure home.new) (cells self.new) }
        ensures err { OnErr result (IsUnchanged function numbers cells home.old self.old home.new
            self.new) };

    /// Adds `slope * x` to the value at each power x. It takes no cell.
    fn add_line(&mut self, home: &mut Self::Home, slope: i64)
        requires here { is_in home.old self.old }
        requires fits { CanAdd (λ x. slope *ℤ x) (function home.old self.old) }
        ensures line { IsSum (λ x. slope *ℤ x) (function home.old self.old)
            (function home.new self.new) }
        ensures here { is_in home.new self.new }
        ensures frame { Frame Self.Home.cell_list is_in numbers (numbers home.old self.old)
            (numbers home.new self.new) home.old home.new }
        ensures balance { Balance Self.Home.counts 0 (Self.Home.sure home.old) (cells self.old)
            (Self.Home.sure home.new) (cells self.new) };

    /// Subtracts `mu * min(cap, up + x)` from the value at each power x. Its charge is 1.
    fn add_reserve(
        &mut self,
        home: &mut Self::Home,
        mu: i64,
        cap: i64,
        up: i64,
    ) -> Result<(), AllocError>
        requires here { is_in home.old self.old }
        requires mu { pos 0 ≤ℤ mu }
        requires cap { IsPlace cap }
        requires up { IsPlace up }
        requires fits { CanAdd (reserve_term mu cap up) (function home.old self.old) }
        ensures ok { OnOk result (IsSum (reserve_term mu cap up) (function home.old self.old)
            (function home.new self.new)) }
        ensures here { is_in home.new self.new }
        ensures frame { Frame Self.Home.cell_list is_in numbers (numbers home.old self.old)
            (numbers home.new self.new) home.old home.new }
        ensures sure { Self.Home.counts ≡ true → 1 ≤ Self.Home.sure home.old → IsOk result }
        ensures balance { Balance Self.Home.counts 1 (Self.Home.sure home.old) (cells self.old)
            (Self.Home.sure home.new) (cells self.new) }
        ensures err { OnErr result (IsUnchanged function numbers cells home.old self.old home.new
            self.new) };

    /// The new value at x is the least old value at the powers from `x - up` to `x + down`. The
    /// new interval is the powers from `lo` to `hi` where there is one. Its charge is 4.
    fn window(
        &mut self,
        home: &mut Self::Home,
        up: i64,
        down: i64,
        lo: i64,
        hi: i64,
    ) -> Result<(), AllocError>
        requires here { is_in home.old self.old }
        requires up { pos 0 ≤ℤ up }
        requires up_fits { IsPlace up }
        requires down { pos 0 ≤ℤ down }
        requires down_fits { IsPlace down }
        requires lo { IsPlace lo }
        requires hi { IsPlace hi }
        ensures ok { OnOk result (IsWindow up down lo hi (function home.old self.old)
            (function home.new self.new)) }
        ensures here { is_in home.new self.new }
        ensures frame { Frame Self.Home.cell_list is_in numbers (numbers home.old self.old)
            (numbers home.new self.new) home.old home.new }
        ensures sure { Self.Home.counts ≡ true → 4 ≤ Self.Home.sure home.old → IsOk result }
        ensures balance { Balance Self.Home.counts 4 (Self.Home.sure home.old) (cells self.old)
            (Self.Home.sure home.new) (cells self.new) }
        ensures err { OnErr result (IsUnchanged function numbers cells home.old self.old home.new
            self.new) };

    /// The least value and its least power, or None on an empty interval.
    fn least(&self, home: &Self::Home) -> Option<(i64, i64)>
        requires { is_in home.now self.now }
        ensures { MatchOption result (IsEmpty (function home.now self.now))
            (λ r. IsLeast (function home.now self.now) r.0 r.1) };

    /// The least value at the powers from `lo` to `hi` and its least power, or None where none of
    /// them is in the interval.
    fn least_in(&self, home: &Self::Home, lo: i64, hi: i64) -> Option<(i64, i64)>
        requires { is_in home.now self.now }
        ensures { MatchOption result (HasNone lo hi (function home.now self.now))
            (λ r. IsLeastIn lo hi (function home.now self.now) r.0 r.1) };

    /// The value at a power, or None outside the interval.
    fn value_at(&self, home: &Self::Home, x: i64) -> Option<i64>
        requires { is_in home.now self.now }
        ensures { result ≡ value_of (function home.now self.now) x };

    /// Ends the shape. Its cells return to the home.
    fn give_back(self, home: &mut Self::Home)
        requires { is_in home.old self }
        ensures frame { Frame Self.Home.cell_list is_in numbers (numbers home.old self) [] home.old
            home.new }
        ensures free { (n : ℕ) → IsAmong n (numbers home.old self)
            → IsUsed (Self.Home.cell_list home.new) n → ⊥ }
        ensures balance { Self.Home.counts ≡ true
            → Self.Home.sure home.new ≡ Self.Home.sure home.old + cells self };

    /// Where the contents at its numbers are equal, it has the same numbers and the same function.
    ghost same_cells: { (h h' : Self.Home) (s : Self) → is_in h s
        → AreSameAt (numbers h s) (Self.Home.cell_list h) (Self.Home.cell_list h')
        → (numbers h' s ≡ numbers h s) × (function h' s ≡ function h s) };

    /// Its function is convex.
    ghost convex: { (h : Self.Home) (s : Self) → is_in h s → IsConvex (function h s) };

    /// Its powers and values are within the limits.
    ghost within: { (h : Self.Home) (s : Self) → is_in h s → IsWithinLimits (function h s) };

    /// Its cells are in use, and differ.
    ghost owns: { (h : Self.Home) (s : Self) → is_in h s
        → Owns (Self.Home.cell_list h) (numbers h s) };

    /// In a home that counts it has as many numbers as cells.
    ghost as_many: { (h : Self.Home) (s : Self) → is_in h s → Self.Home.counts ≡ true
        → length (numbers h s) ≡ cells s };

    /// In a home that doesn't count there are no cells to give and no numbers.
    ghost no_numbers: { (h : Self.Home) (s : Self) → Self.Home.counts ≡ false
        → (Self.Home.sure h ≡ 0) × (Self.Home.cell_list h ≡ []) × (numbers h s ≡ []) };

    /// In a home that doesn't count, as the heap, is every shape.
    ghost always_in: { (h : Self.Home) (s : Self) → Self.Home.counts ≡ false → is_in h s };
}
