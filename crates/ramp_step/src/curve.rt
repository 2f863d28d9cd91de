//! A curve is added.
ghost use Rattle.std.specs.Prelude.{◌≡◌, ℕ, ℤ, ◌+◌, ◌^◌, ◌-◌, ◌<◌, ◌≤◌, ◌+ℤ◌, ◌≤ℤ◌};
ghost use Rattle.std.specs.Prelude.{◌<ℤ◌, length};
ghost use Rattle.ramp_step.specs.Knots.{power, height, StandFor, IsShape, HaveSameEnds};
ghost use Rattle.ramp_step.specs.Knots.{CanAdd, AreRaised, knot, IsWide};
ghost use Rattle.ramp_step.specs.Tables.{table_of, AreBreaks};
ghost use Rattle.slope_list.specs.Curve.{curve_value, IsLimitedCurve};
ghost use Rattle.slope_list.specs.Effect.{IsCurveSum, CanAddCurve};
ghost use Rattle.slope_list.specs.Table.{IsAmount};
ghost use Rattle.ramp_step.specs.Cut.{IsLimited};
ghost use Rattle.ramp_step.specs.Curve.{block_end, IsOver, AreBlocks, AreLimitedBlocks, IsRefined};
ghost use Rattle.ramp_step.specs.Curve.{curve_term};
ghost use Rattle.ramp_step.specs.Raise.{line_from, CanRaise, AreRaisedUpto};

use crate::breakpoint::Knot;
use crate::cutting::drop_from;
use crate::spaced::{advance, fill, open};
use crate::splitting::along;
use slope_list::shape_laws::operations_keep_limits;
use uc_model::units::{Block, Curve};

/// Puts a knot in wherever a block ends between two knots.
fn split_all(knots: &mut [Knot], used: usize, from: i64, blocks: &[Block]) -> usize
    requires room { used + length blocks.now ≤ length knots.old }
    requires stand { IsShape knots.old used }
    requires limits { IsLimited knots.old used }
    requires ascending { (lowest : ℤ) × AreBlocks lowest blocks.now }
    requires powers { (j : ℕ) → j ≤ length blocks.now → IsWide (block_end blocks.now from j) }
    ensures refined { IsRefined blocks.now from (length blocks.now) knots.old used knots.new
        result }
    ensures limits { IsLimited knots.new result }
    ensures charge { result ≤ used + length blocks.now }
{
    let total = used + blocks.len();
    let mut room = blocks.len();
    open(knots, used, room);
    let mut front = 0;
    let mut end = from;
    for block in blocks {
        end += block.width;
        front = advance(knots, front, room, total, end);
        room = fill(knots, front, room, total, end);
    }
    drop_from(knots, front, total, room);
    total - room
}

/// The knot after a line is added that has this level at `start`.
fn on_block(knot: Knot, start: i64, level: i64, price: i64) -> Knot
    requires start { IsWide start }
    requires level { IsAmount level }
    requires fits { CanRaise start level price knot }
    ensures at { result.at ≡ knot.at }
    ensures value { result.value ≡ knot.value +ℤ line_from start level price knot.at }
{
    let line = along(level, price, knot.at - start);
    Knot {
        at: knot.at,
        value: knot.value + line,
    }
}

/// Adds the line of a block, which has this level at `start`, to the knots from index `first` on up
/// to the power `end`, and answers the index of the first knot beyond it.
fn raise_block(
    knots: &mut [Knot],
    first: usize,
    used: usize,
    start: i64,
    level: i64,
    price: i64,
    end: i64,
) -> usize
    requires order { first ≤ used }
    requires room { used ≤ length knots.old }
    requires start { IsWide start }
    requires level { IsAmount level }
    requires fits { (k : ℕ) → first ≤ k → k < used → power knots.old k ≤ℤ end
        → CanRaise start level price (knot knots.old k) }
    ensures { AreRaisedUpto (line_from start level price) end used first result knots.old
        knots.new }
{
    for i in first..used {
        let knot = knots[i];
        if knot.at > end {
            return i;
        }
        knots[i] = on_block(knot, start, level, price);
    }
    used
}

/// Adds a curve to each of the first heights.
fn raise_curve(knots: &mut [Knot], used: usize, value: i64, blocks: &[Block], from: i64)
    requires room { used ≤ length knots.old }
    requires curve { AreLimitedBlocks value blocks.now from }
    requires rise { (k : ℕ) → k + 1 < used → power knots.old k <ℤ power knots.old (k + 1) }
    requires low { (k : ℕ) → k < used → from ≤ℤ power knots.old k }
    requires high { (k : ℕ) → k < used → power knots.old k
        ≤ℤ block_end blocks.now from (length blocks.now) }
    requires before { (k : ℕ) → k < used → IsAmount (height knots.old k) }
    requires after { (k : ℕ) → k < used
        → IsAmount (height knots.old k +ℤ curve_term value blocks.now from (power knots.old k)) }
    ensures { AreRaised (curve_term value blocks.now from) used knots.old knots.new }
{
    let mut done = raise_block(knots, 0, used, from, value, 0, from);
    let mut start = from;
    let mut level = value;
    for block in blocks {
        let end = start + block.width;
        done = raise_block(knots, done, used, start, level, block.price, end);
        level = along(level, block.price, block.width);
        start = end;
    }
}

/// Adds the blocks' value to the value at each power.
fn add_blocks(knots: &mut [Knot], used: usize, value: i64, blocks: &[Block], from: i64) -> usize
    requires room { used + length blocks.now ≤ length knots.old }
    requires stand { IsShape knots.old used }
    requires curve { AreLimitedBlocks value blocks.now from }
    requires inside { IsOver blocks.now from knots.old used }
    requires fits { (f : ℤ → ℤ) → StandFor knots.old used f
        → CanAdd (curve_term value blocks.now from) knots.old used f }
    ensures stand { (f : ℤ → ℤ) → StandFor knots.old used f
        → StandFor knots.new result (λ x. f x +ℤ curve_term value blocks.now from x) }
    ensures ends { HaveSameEnds knots.old used knots.new result }
    ensures charge { result ≤ used + length blocks.now }
{
    let n = split_all(knots, used, from, blocks);
    raise_curve(knots, n, value, blocks, from);
    n
}

/// Adds the curve's value at `x + shift` to the value at each power x, which has to be in the
/// curve. Its charge is the number of the curve's blocks, for a knot where a block ends.
pub fn curve_step(knots: &mut [Knot], used: u32, curve: &Curve, shift: i64) -> u32
    requires some { 0 < used }
    requires room { used + length curve.now.blocks.items ≤ length knots.old }
    requires count { used + length curve.now.blocks.items < 2 ^ 32 }
    requires breaks { AreBreaks knots.old used }
    requires limited { IsLimitedCurve curve.now }
    requires fits { CanAddCurve (curve_value curve.now) shift (table_of knots.old used) }
    ensures sum { IsCurveSum (curve_value curve.now) shift (table_of knots.old used)
        (table_of knots.new result) }
    ensures breaks { AreBreaks knots.new result }
    ensures charge { result ≤ used + length curve.now.blocks.items }
{
    let from = curve.at - shift;
    let blocks = curve.blocks.as_slice();
    let n = add_blocks(knots, used as usize, curve.value, blocks, from);
    operations_keep_limits();
    n as u32
}
