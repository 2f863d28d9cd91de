//! How the next point of the envelope is found.
ghost use Rattle.std.specs.Prelude.{◌≡◌, ◌+◌, ◌<◌, ◌≤◌, ◌⊎◌, ◌<ℤ◌, ◌≤ℤ◌, length};
ghost use Rattle.std.specs.Bool.{OnTrue, OnFalse};
ghost use Rattle.uc_model.specs.Limits.{IsPoint};
ghost use Rattle.cost_curve.specs.CostCurve.{AreCostPoints};
ghost use Rattle.cost_curve.specs.Edges.{point_at, IsSlope, IsWayOn, IsStart};

use crate::edges::{Edge, Slope};
use uc_model::units::Point;

// The slope from one point to another of more power.
fn slope_between_points(from: &Point, to: &Point) -> Slope
    requires from_limits { IsPoint from.now }
    requires to_limits { IsPoint to.now }
    requires rising { from.now.at <ℤ to.now.at }
    ensures { IsSlope from.now to.now result.price result.width }
{
    let run = to.at - from.at;
    let rise = to.cost - from.cost;
    let price = rise.div_euclid(run);
    let rest = rise.rem_euclid(run);
    if rest == 0 {
        return Slope { price, width: 0 };
    }
    Slope {
        price: price + 1,
        width: run - rest,
    }
}

// Whether a later point with the new slope is to be gone to in place of the one found.
fn is_better_slope(new: Slope, found: Slope) -> bool
    ensures better { OnTrue result ((new.price <ℤ found.price)
        ⊎ ((new.price ≡ found.price) × (found.width ≤ℤ new.width))) }
    ensures worse { OnFalse result ((found.price <ℤ new.price)
        ⊎ ((found.price ≡ new.price) × (new.width <ℤ found.width))) }
{
    if new.price == found.price {
        found.width <= new.width
    } else {
        new.price < found.price
    }
}

// The better of the way on that is found and the one to the point at an index.
fn better_next_envelope_point(
    points: &[Point],
    from: usize,
    found: Option<Edge>,
    index: usize,
) -> Option<Edge>
    requires points { AreCostPoints points.now }
    requires later { from < index }
    requires within { index < length points.now }
    requires found { IsWayOn points.now from index found }
    ensures { IsWayOn points.now from (index + 1) result }
{
    let start = &points[from];
    let end = &points[index];
    if end.at <= start.at {
        return found;
    }
    let slope = slope_between_points(start, end);
    match found {
        None => Some(Edge { index, slope }),
        Some(edge) => {
            if is_better_slope(slope, edge.slope) {
                Some(Edge { index, slope })
            } else {
                Some(edge)
            }
        }
    }
}

/// The way on from the point at an index, or None where no point has more power.
pub fn next_envelope_point(points: &[Point], from: usize) -> Option<Edge>
    requires points { AreCostPoints points.now }
    requires within { from < length points.now }
    ensures { IsWayOn points.now from (length points.now) result }
{
    let mut found = None;
    for index in from + 1..points.len() {
        found = better_next_envelope_point(points, from, found, index);
    }
    found
}

// The place of the cheaper of the point found so far and the one at an index, if both have the least
// power.
fn cheaper_point(points: &[Point], best: usize, index: usize) -> usize
    requires points { AreCostPoints points.now }
    requires earlier { best < index }
    requires within { index < length points.now }
    requires start { IsStart (point_at points.now best) index points.now }
    ensures within { result ≤ index }
    ensures start { IsStart (point_at points.now result) (index + 1) points.now }
{
    let found = &points[best];
    let point = &points[index];
    if found.at < point.at {
        return best;
    }
    if found.cost <= point.cost {
        return best;
    }
    index
}

/// The place of the first point of the envelope: the cheapest of those of least power.
pub fn first_envelope_point(points: &[Point]) -> usize
    requires { AreCostPoints points.now }
    ensures within { result < length points.now }
    ensures start { IsStart (point_at points.now result) (length points.now) points.now }
{
    let mut best = 0;
    for index in 1..points.len() {
        best = cheaper_point(points, best, index);
    }
    best
}
