//! Pieces that are written one after another.
ghost use Rattle.std.specs.Prelude.{◌≡◌, ℤ, suc, ◌+◌, ◌<◌, ◌≤◌, ◌+ℤ◌, ◌≤ℤ◌, ◌<ℤ◌, length};
ghost use Rattle.slope_list.specs.Curve.{IsLimitedCurve};
ghost use Rattle.std.specs.Int.{int_max};
ghost use Rattle.slope_list.specs.Pieces.{IsLine};
ghost use Rattle.slope_list.specs.Totals.{IsTotal};
ghost use Rattle.slope_list.specs.Blocks.{IsInBlock, HasCosts, IsPrice};
ghost use Rattle.slope_list.specs.Drawn.{with_cost, IsDrawn};

use crate::blocks::Span;
use crate::piece::Piece;
use uc_model::units::Curve;

/// Where the next piece goes.
#[derive(Clone, Copy)]
pub struct Pen {
    /// Its first power, in kilowatts.
    pub at: i64,
    /// Its index.
    pub used: usize,
    /// The block of the curve that goes on there.
    pub span: Span,
}

/// Writes a piece up to a power in the pen's block.
fn write_piece(slope: i64, end: i64, pen: Pen, out: &mut [Piece]) -> Pen
    requires total { IsTotal slope }
    requires price { IsPrice pen.span.price }
    requires room { pen.used < length out.old }
    ensures drawn { (h : ℤ → ℤ) (lo : ℤ) → IsLine h pen.at end (slope +ℤ pen.span.price)
        → IsDrawn h lo out.old pen → IsDrawn h lo out.new result }
    ensures at { result.at ≡ end }
    ensures used { result.used ≡ pen.used + 1 }
    ensures span { result.span ≡ pen.span }
{
    out[pen.used] = Piece {
        end,
        slope: slope + pen.span.price,
    };
    Pen {
        at: end,
        used: pen.used + 1,
        span: pen.span,
    }
}

/// The same pen at the next block.
fn advance_to_next_cost_block(curve: &Curve, pen: Pen) -> Pen
    requires limited { IsLimitedCurve curve.now }
    requires block { IsInBlock curve.now pen.at pen.span }
    requires passed { pen.span.end ≤ℤ pen.at }
    requires more { suc pen.span.index < length curve.now.blocks.items }
    ensures block { IsInBlock curve.now pen.at result.span }
    ensures next { result.span.index ≡ pen.span.index + 1 }
    ensures same { (result.at ≡ pen.at) × (result.used ≡ pen.used) }
{
    let blocks = curve.blocks.as_slice();
    let index = pen.span.index + 1;
    Pen {
        at: pen.at,
        used: pen.used,
        span: Span {
            index,
            end: pen.span.end + blocks[index].width,
            price: blocks[index].price,
        },
    }
}

/// Writes up to where the pen's block ends, if the pen isn't there, and goes on with the next
/// block.
fn write_piece_to_cost_block_end(curve: &Curve, slope: i64, pen: Pen, out: &mut [Piece]) -> Pen
    requires limited { IsLimitedCurve curve.now }
    requires block { IsInBlock curve.now pen.at pen.span }
    requires costs { HasCosts curve.now pen.at pen.span.end }
    requires total { IsTotal slope }
    requires room { pen.used < length out.old }
    requires more { suc pen.span.index < length curve.now.blocks.items }
    ensures drawn { (f : ℤ → ℤ) (lo end : ℤ) → pen.span.end <ℤ end → IsLine f pen.at end slope
        → IsDrawn (with_cost f curve.now) lo out.old pen
        → IsDrawn (with_cost f curve.now) lo out.new result }
    ensures block { IsInBlock curve.now result.at result.span }
    ensures next { result.span.index ≡ pen.span.index + 1 }
    ensures used { result.used ≤ pen.used + 1 }
    ensures at { result.at ≡ int_max pen.at pen.span.end }
{
    if pen.at < pen.span.end {
        let written = write_piece(slope, pen.span.end, pen, out);
        return advance_to_next_cost_block(curve, written);
    }
    advance_to_next_cost_block(curve, pen)
}

/// Writes the pieces of a part of one slope and the curve, up to a power in kilowatts. The slope is
/// in millionths of the currency for a kilowatt.
pub fn write_part_over_cost_blocks(
    curve: &Curve,
    slope: i64,
    end: i64,
    from: Pen,
    out: &mut [Piece],
) -> Pen
    requires limited { IsLimitedCurve curve.now }
    requires rise { from.at <ℤ end }
    requires block { IsInBlock curve.now from.at from.span }
    requires costs { HasCosts curve.now from.at end }
    requires total { IsTotal slope }
    requires room { from.used + length curve.now.blocks.items ≤ length out.old + from.span.index }
    ensures drawn { (f : ℤ → ℤ) (lo : ℤ) → IsLine f from.at end slope
        → IsDrawn (with_cost f curve.now) lo out.old from
        → IsDrawn (with_cost f curve.now) lo out.new result }
    ensures at { result.at ≡ end }
    ensures block { IsInBlock curve.now end result.span }
    ensures used { result.used + from.span.index ≤ from.used + result.span.index + 1 }
{
    let mut pen = from;
    while pen.span.end < end {
        pen = write_piece_to_cost_block_end(curve, slope, pen, out);
    }
    write_piece(slope, end, pen, out)
}
