//! Worked curves: what they are at whole places, and their blocks.
ghost use Rattle.uc_model.specs.Limits.{Spans};
ghost use Rattle.cost_curve.specs.CostCurve.{AreCostPoints, IsCostCurve, CanEvaluate};

use crate::same::{same, same_of};
use cost_curve::costs::{envelope_at, envelope_cost_with_cached_piece};
use cost_curve::curves::curve_into;
use std::process::Abort;
use std::test::Fail;
use test_shapes::{curve_at, curve_of};
use uc_model::units::{Blocks, Curve, Point};

// The cost at a place, by the points, by the piece that it is on, and by a curve of them.
fn has_cost(rt: &impl Abort, points: &[Point], curve: &Curve, x: i64, cost: i64)
    requires points { AreCostPoints points.now }
    requires place { Spans points.now x x }
    requires curve { IsCostCurve points.now curve.now }
    requires evaluates { CanEvaluate curve.now }
{
    same_of(rt, &x, envelope_at(points, x), cost);
    let mut near = None;
    same_of(
        rt,
        &x,
        envelope_cost_with_cached_piece(points, x, &mut near),
        cost,
    );
    same_of(
        rt,
        &x,
        envelope_cost_with_cached_piece(points, x, &mut near),
        cost,
    );
    same_of(rt, &x, curve_at(curve, x), cost);
}

fn block_is(rt: &impl Abort, curve: &Curve, place: usize, width: i64, price: i64) {
    assert!(rt; place < curve.blocks.len());
    let block = curve.blocks.get(place);
    same(rt, block.width, width);
    same(rt, block.price, price);
}

// A slope between whole prices: 2 kilowatts at 3, and then 1 at 4.
#[test]
fn rounds_at_whole_prices(rt: HostRuntime) -> Result<(), Fail> {
    let points = [Point { at: 0, cost: 0 }, Point { at: 3, cost: 10 }];
    let curve = curve_of(rt.alloc(), &points)?;
    has_cost(&rt, &points, &curve, 0, 0);
    has_cost(&rt, &points, &curve, 1, 3);
    has_cost(&rt, &points, &curve, 2, 6);
    has_cost(&rt, &points, &curve, 3, 10);
    same(&rt, curve.blocks.len(), 2);
    block_is(&rt, &curve, 0, 2, 3);
    block_is(&rt, &curve, 1, 1, 4);
    Ok(())
}

// The middle point costs 3, and the envelope there only 2.
#[test]
fn passes_below_a_point(rt: HostRuntime) -> Result<(), Fail> {
    let points = [
        Point { at: 0, cost: 0 },
        Point { at: 2, cost: 3 },
        Point { at: 4, cost: 6 },
    ];
    let blocks = Blocks::make(rt.alloc(), 4)?;
    let mut curve = Curve {
        at: 7,
        value: 7,
        blocks,
    };
    curve_into(&points, &mut curve);
    has_cost(&rt, &points, &curve, 0, 0);
    has_cost(&rt, &points, &curve, 1, 1);
    has_cost(&rt, &points, &curve, 2, 2);
    has_cost(&rt, &points, &curve, 3, 4);
    has_cost(&rt, &points, &curve, 4, 6);
    Ok(())
}

#[test]
fn one_point_has_no_block(rt: HostRuntime) -> Result<(), Fail> {
    let points = [Point {
        at: 100,
        cost: 3000,
    }];
    let curve = curve_of(rt.alloc(), &points)?;
    has_cost(&rt, &points, &curve, 100, 3000);
    same(&rt, curve.blocks.len(), 0);
    Ok(())
}
