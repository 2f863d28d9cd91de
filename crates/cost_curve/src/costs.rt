//! The envelope at one power.
ghost use Rattle.std.specs.Prelude.{◌≡◌, ◌+◌, ◌<◌, ◌≤◌, ℤ, pos, neg_ℤ, ◌+ℤ◌, ◌-ℤ◌};
ghost use Rattle.std.specs.Prelude.{◌≤ℤ◌, IsTrue};
ghost use Rattle.uc_model.specs.Envelope.{envelope, line_at};
ghost use Rattle.plain_lists.specs.Ranges.{IsFrom};
ghost use Rattle.uc_model.specs.Limits.{IsCost, IsPoint, IsPower, Spans};
ghost use Rattle.cost_curve.specs.CostCurve.{AreCostPoints};
ghost use Rattle.cost_curve.specs.EnvelopePieces.{IsEnvelopePiece, IsNear, IsOn};

use crate::edges::{Edge, Slope};
use crate::walk::{first_envelope_point, next_envelope_point};
use uc_model::laws::{envelope_is_greatest, power_costs_are_within};
use uc_model::units::Point;

// The cost of a power between a point and the next one of the envelope.
fn cost_between_envelope_points(from: &Point, slope: Slope, x: i64) -> i64
    requires limits { IsPoint from.now }
    requires power { IsPower x }
    requires above { from.now.at ≤ℤ x }
    requires line { IsFrom (neg_ℤ (pos 20000000000000)) (pos 20000000000000)
        (line_at (slope.price -ℤ pos 1) x from.now) }
    ensures before { (x -ℤ from.now.at) ≤ℤ slope.width
        → result ≡ line_at (slope.price -ℤ pos 1) x from.now }
    ensures after { slope.width ≤ℤ (x -ℤ from.now.at)
        → result ≡ line_at (slope.price -ℤ pos 1) x from.now
        +ℤ ((x -ℤ from.now.at) -ℤ slope.width) }
{
    let over = x - from.at;
    let cost = from.cost + (slope.price - 1) * over;
    if over <= slope.width {
        return cost;
    }
    cost + (over - slope.width)
}

/// Where on the envelope a power is: a point of the envelope at or below it, and the way on from
/// that point, if there is one.
#[derive(Clone, Copy)]
pub struct EnvelopePiece {
    from: usize,
    way: Option<Edge>,
}

// The piece that a power is on.
fn envelope_piece_of_power(points: &[Point], x: i64) -> EnvelopePiece
    requires points { AreCostPoints points.now }
    requires within { Spans points.now x x }
    ensures piece { IsEnvelopePiece points.now result }
    ensures on { IsOn points.now x result }
{
    let mut from = first_envelope_point(points);
    'walk: while let Some(edge) = next_envelope_point(points, from) {
        if x <= points[edge.index].at {
            return EnvelopePiece {
                from,
                way: Some(edge),
            };
        }
        from = edge.index;
    }
    EnvelopePiece { from, way: None }
}

// Whether a power is on a piece.
fn is_power_on_envelope_piece(points: &[Point], x: i64, piece: EnvelopePiece) -> bool
    requires { IsEnvelopePiece points.now piece }
    ensures { IsTrue result → IsOn points.now x piece }
{
    if x < points[piece.from].at {
        return false;
    }
    match piece.way {
        Some(edge) => x <= points[edge.index].at,
        None => true,
    }
}

// The cost of a power that is on a piece.
fn cost_on_envelope_piece(points: &[Point], x: i64, piece: EnvelopePiece) -> i64
    requires points { AreCostPoints points.now }
    requires within { Spans points.now x x }
    requires piece { IsEnvelopePiece points.now piece }
    requires on { IsOn points.now x piece }
    ensures value { result ≡ envelope points.now x }
    ensures limit { IsCost result }
{
    envelope_is_greatest();
    power_costs_are_within();
    match piece.way {
        Some(edge) => cost_between_envelope_points(&points[piece.from], edge.slope, x),
        None => points[piece.from].cost,
    }
}

/// The cost of a power in money for one period: the whole-price envelope of the points at `x`
/// kilowatts. `points` are those of a unit, and `x` is from the first to the last point's power.
/// Takes no memory.
pub fn envelope_at(points: &[Point], x: i64) -> i64
    requires points { AreCostPoints points.now }
    requires within { Spans points.now x x }
    ensures value { result ≡ envelope points.now x }
    ensures limit { IsCost result }
{
    cost_on_envelope_piece(points, x, envelope_piece_of_power(points, x))
}

/// The same cost, found sooner where the power is on the piece in `near`, which is one of the same
/// points: the one that the call before left there. Takes no memory.
pub fn envelope_cost_with_cached_piece(
    points: &[Point],
    x: i64,
    near: &mut Option<EnvelopePiece>,
) -> i64
    requires points { AreCostPoints points.now }
    requires within { Spans points.now x x }
    requires near { IsNear points.now near.old }
    ensures value { result ≡ envelope points.now x }
    ensures limit { IsCost result }
    ensures near { IsNear points.now near.new }
{
    if let Some(piece) = *near {
        if is_power_on_envelope_piece(points, x, piece) {
            return cost_on_envelope_piece(points, x, piece);
        }
    }
    let piece = envelope_piece_of_power(points, x);
    *near = Some(piece);
    cost_on_envelope_piece(points, x, piece)
}
