//! The envelope as a curve.
ghost use Rattle.std.specs.Prelude.{◌≡◌, ◌+◌, ◌-◌, ◌*◌, ◌≤◌, pos, ◌-ℤ◌, ◌<ℤ◌, length};
ghost use Rattle.uc_model.specs.Limits.{IsPoint};
ghost use Rattle.cost_curve.specs.Building.{extended};
ghost use Rattle.cost_curve.specs.CostCurve.{AreCostPoints, IsCostCurve, CanEvaluate};

use crate::edges::Slope;
use crate::walk::{first_envelope_point, next_envelope_point};
use uc_model::laws::{envelope_is_greatest, power_costs_are_within};
use uc_model::units::{Block, Blocks, Curve, Point};

// Adds a block, where it has some width.
fn push_block(into: &mut Blocks, block: Block)
    requires { 1 ≤ into.old.spare }
    ensures items { into.new.items ≡ extended into.old.items block }
    ensures room { length into.new.items + into.new.spare ≡ length into.old.items + into.old.spare }
    ensures spare { into.old.spare ≤ into.new.spare + 1 }
{
    if 0 < block.width {
        into.push(block);
    }
}

// Adds the blocks between two points of the envelope.
fn push_blocks_between_points(into: &mut Blocks, from: &Point, to: &Point, slope: Slope)
    requires room { 2 ≤ into.old.spare }
    requires from_limits { IsPoint from.now }
    requires to_limits { IsPoint to.now }
    requires width { slope.width <ℤ (to.now.at -ℤ from.now.at) }
    ensures items { into.new.items
        ≡ extended (extended into.old.items
        (record { width = slope.width; price = slope.price -ℤ pos 1 }))
        (record { width = (to.now.at -ℤ from.now.at) -ℤ slope.width; price = slope.price }) }
    ensures room { length into.new.items + into.new.spare ≡ length into.old.items + into.old.spare }
    ensures spare { into.old.spare ≤ into.new.spare + 2 }
{
    let before = Block {
        width: slope.width,
        price: slope.price - 1,
    };
    let after = Block {
        width: to.at - from.at - slope.width,
        price: slope.price,
    };
    push_block(into, before);
    push_block(into, after);
}

/// Leaves the curve of the envelope in `into`, whose blocks have room for it. `points` are those of
/// a unit. The curve goes from the first to the last point's power, no width is negative, and
/// prices rise from block to block.
pub fn curve_into(points: &[Point], into: &mut Curve)
    requires points { AreCostPoints points.now }
    requires room { 2 * (length points.now - 1) ≤ length into.old.blocks.items
        + into.old.blocks.spare }
    ensures curve { IsCostCurve points.now into.new }
    ensures evaluates { CanEvaluate into.new }
    ensures room { length into.new.blocks.items + into.new.blocks.spare
        ≡ length into.old.blocks.items + into.old.blocks.spare }
{
    envelope_is_greatest();
    power_costs_are_within();
    let mut from = first_envelope_point(points);
    into.at = points[from].at;
    into.value = points[from].cost;
    into.blocks.clear();
    'walk: while let Some(edge) = next_envelope_point(points, from) {
        push_blocks_between_points(
            &mut into.blocks,
            &points[from],
            &points[edge.index],
            edge.slope,
        );
        from = edge.index;
    }
}
