//! The curve of the envelope, and its values.
ghost use Rattle.std.specs.Prelude.{◌≡◌, ℤ, pos, ◌+ℤ◌, ◌-ℤ◌, ◌*ℤ◌, Some, IsSome, IfOk};
ghost use Rattle.cost_curve.specs.CostCurve.{AreCostPoints, IsAmount, IsCostCurve, CanEvaluate};
ghost use Rattle.uc_model.specs.Curves.{curve_value};
ghost use Rattle.plain_lists.specs.Ranges.{IsFrom};

use cost_curve::curves::curve_into;
use std::alloc::{AllocError, Global};
use uc_model::units::{Block, Blocks, Curve, Point};

/// The curve of the envelope, as `curve_into` leaves it. `points` are those of a unit.
pub fn curve_of(alloc: Global, points: &[Point]) -> Result<Curve, AllocError>
    requires { AreCostPoints points.now }
    ensures curve { IfOk result (IsCostCurve points.now) }
    ensures evaluates { IfOk result CanEvaluate }
{
    let blocks = Blocks::make(alloc, 2 * (points.len() as u32 - 1))?;
    let mut curve = Curve {
        at: 0,
        value: 0,
        blocks,
    };
    curve_into(points, &mut curve);
    Ok(curve)
}

// A value of a curve, and how many kilowatts further the power lies.
#[derive(Clone, Copy)]
struct Reached {
    value: i64,
    rest: i64,
}

// What a block adds within its width.
fn within_block(reached: Reached, block: &Block) -> i64
    requires value { IsAmount reached.value }
    requires sum { IsAmount (reached.value +ℤ (block.now.price *ℤ reached.rest)) }
    ensures { result ≡ reached.value +ℤ (block.now.price *ℤ reached.rest) }
{
    reached.value + block.price * reached.rest
}

// What is reached at the end of a block.
fn after_block(reached: Reached, block: &Block) -> Reached
    requires value { IsAmount reached.value }
    requires sum { IsAmount (reached.value +ℤ (block.now.price *ℤ block.now.width)) }
    requires rest { IsFrom (pos 0) (pos 8000000000) reached.rest }
    requires width { IsFrom (pos 0) (pos 8000000000) block.now.width }
    ensures value { result.value ≡ reached.value +ℤ (block.now.price *ℤ block.now.width) }
    ensures rest { result.rest ≡ reached.rest -ℤ block.now.width }
{
    Reached {
        value: reached.value + block.price * block.width,
        rest: reached.rest - block.width,
    }
}

/// The curve's value at a power in it. No width is negative, the powers are within 4 * 10^9
/// kilowatts, and the values within 10^18 money.
pub fn curve_at(c: &Curve, x: i64) -> i64
    requires curve { CanEvaluate c.now }
    requires inside { IsSome (curve_value c.now x) }
    ensures { curve_value c.now x ≡ Some result }
{
    let mut reached = Reached {
        value: c.value,
        rest: x - c.at,
    };
    let blocks = c.blocks.as_slice();
    for block in blocks {
        if reached.rest <= block.width {
            return within_block(reached, block);
        }
        reached = after_block(reached, block);
    }
    reached.value
}
