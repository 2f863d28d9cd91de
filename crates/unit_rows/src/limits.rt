//! What all up to a period may cost where the whole is to cost no more than an amount.
//!
//! A period that the unit is on in costs no less than it would alone, with no ramps and no limits
//! of starts and stops. So what is above the amount and all that later periods may earn is never
//! within the amount.
ghost use Rattle.std.specs.Prelude.{◌≡◌, ◌<◌, ◌≤◌, ℤ, pos, neg_ℤ, ◌+ℤ◌, ◌-ℤ◌, ◌*ℤ◌, ◌≤ℤ◌};
ghost use Rattle.std.specs.Prelude.{◌⊎◌, length};
ghost use Rattle.std.specs.List.{All};
ghost use Rattle.uc_model.specs.Envelope.{envelope};
ghost use Rattle.plain_lists.specs.Ranges.{IsFrom};
ghost use Rattle.uc_model.specs.Limits.{IsPoint, ArePointsOrdered};
ghost use Rattle.uc_model.specs.PlainUnits.{thermal_of, prices_of};
ghost use Rattle.plain_lists.specs.Sums.{int_at};
ghost use Rattle.uc_model.specs.declared.limits.TheConstants.{GAIN_LIMIT, PRICE_LIMIT};
ghost use Rattle.unit_rows.specs.Limits.{AreLimits};
ghost use Rattle.unit_rows.specs.Nets.{AreKnown};

use cost_curve::laws::envelope_earns_as_points;
use plain_lists::lists::Numbers;
use uc_model::units::{Point, Prices, Unit};

// What a point costs less what its power is worth at a price.
fn net_cost_of_point(point: &Point, price: i64) -> i64
    requires point { IsPoint point.now }
    requires price { IsFrom (neg_ℤ GAIN_LIMIT) GAIN_LIMIT price }
    ensures value { result ≡ point.now.cost -ℤ (price *ℤ point.now.at) }
    ensures bound { IsFrom (neg_ℤ (pos 20010000000000000)) (pos 20010000000000000) result }
{
    point.cost - price * point.at
}

// At most what any of the points costs less what its power is worth at a price.
fn least_net_cost(points: &[Point], price: i64) -> i64
    requires points { All IsPoint points.now }
    requires price { IsFrom (neg_ℤ GAIN_LIMIT) GAIN_LIMIT price }
    ensures least { All (λ (p : Point). result ≤ℤ (p.cost -ℤ (price *ℤ p.at))) points.now }
    ensures bound { IsFrom (neg_ℤ (pos 20010000000000000)) (pos 20010000000000000) result }
{
    let mut least = 20_010_000_000_000_000;
    for point in points {
        least = net_cost_of_point(point, price).min(least);
    }
    least
}

// Prices at which an end of a list of points is known to have the least net cost: the first point
// at lower prices, the last at higher ones. So few periods ask for a look at all points.
#[derive(Clone, Copy)]
struct Known {
    // The first has it at each price up to this one.
    first_to: i64,
    // The last has it at each price from this one on.
    last_from: i64,
}

// Up to which price, or from which one on, an end of the points has the least net cost: the new
// one, if it has it there.
fn updated_price_bound_of_end_point(known: i64, price: i64, net: i64, least: i64) -> i64
    ensures { (result ≡ known) ⊎ ((result ≡ price) × (net ≡ least)) }
{
    if net == least { price } else { known }
}

// As `least_net_cost`, without a look at all points where one of their ends is known to have the least.
fn least_net_cost_with_price_bounds(points: &[Point], price: i64, known: &mut Known) -> i64
    requires some { 1 ≤ length points.now }
    requires points { All IsPoint points.now }
    requires ordered { ArePointsOrdered points.now }
    requires price { IsFrom (neg_ℤ GAIN_LIMIT) GAIN_LIMIT price }
    requires known { AreKnown points.now known.old.first_to known.old.last_from }
    ensures least { All (λ (p : Point). result ≤ℤ (p.cost -ℤ (price *ℤ p.at))) points.now }
    ensures bound { IsFrom (neg_ℤ (pos 20010000000000000)) (pos 20010000000000000) result }
    ensures known { AreKnown points.now known.new.first_to known.new.last_from }
{
    let first = net_cost_of_point(&points[0], price);
    if price <= known.first_to {
        return first;
    }
    let last = net_cost_of_point(&points[points.len() - 1], price);
    if price >= known.last_from {
        return last;
    }
    let least = least_net_cost(points, price);
    known.first_to = updated_price_bound_of_end_point(known.first_to, price, first, least);
    known.last_from = updated_price_bound_of_end_point(known.last_from, price, last, least);
    least
}

// At most 0, and at most what a period at those prices costs where the unit is on, whatever its
// power and reserve.
fn least_cost_of_period(unit: &Unit, energy: i64, reserve: i64, known: &mut Known) -> i64
    requires energy { IsFrom (neg_ℤ PRICE_LIMIT) PRICE_LIMIT energy }
    requires reserve { IsFrom (pos 0) PRICE_LIMIT reserve }
    requires known { AreKnown unit.now.points.items known.old.first_to known.old.last_from }
    ensures known { AreKnown unit.now.points.items known.new.first_to known.new.last_from }
    ensures bound { IsFrom (neg_ℤ (pos 20110000000000000)) (pos 0) result }
    ensures least { (p r : ℤ) → unit.now.min_power ≤ℤ p → (p +ℤ r) ≤ℤ unit.now.max_power
        → pos 0 ≤ℤ r →
        result ≤ℤ (envelope (thermal_of unit.now).points p -ℤ ((energy *ℤ p) +ℤ (reserve *ℤ r))) }
{
    envelope_earns_as_points();
    let least = least_net_cost_with_price_bounds(unit.points.as_slice(), energy - reserve, known);
    (least - reserve * unit.max_power).min(0)
}

/// Writes the limits of a unit at prices over T periods: at place t what all up to the end of
/// period t may cost where the whole costs at most `most`, in money. There are at least T + 1
/// places. `most` is within 4 * 10^18.
pub fn write_cost_limits_by_period(unit: &Unit, prices: &Prices, most: i64, limits: &mut Numbers)
    requires most { IsFrom (neg_ℤ (pos 4000000000000000000)) (pos 4000000000000000000) most }
    requires room { length (prices_of prices.now).energy < length limits.old.items }
    ensures limits { AreLimits (thermal_of unit.now) (prices_of prices.now) most
        (int_at limits.new.items) }
    ensures length { length limits.new.items ≡ length limits.old.items }
{
    let periods = prices.energy.len();
    let mut limit = most;
    let mut known = Known {
        first_to: -20_000_001,
        last_from: 20_000_001,
    };
    limits.set(periods, limit);
    for back in 0..periods {
        let index = periods - 1 - back;
        let energy = *prices.energy.get(index);
        limit -= least_cost_of_period(unit, energy, *prices.reserve.get(index), &mut known);
        limits.set(index, limit);
    }
}
