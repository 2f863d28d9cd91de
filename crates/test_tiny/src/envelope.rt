//! The cost of a power, by the halving of whole prices that defines it.
ghost use Rattle.std.specs.Prelude.{◌≡◌, ◌≤◌, ℤ, pos, neg_ℤ, ◌+ℤ◌, ◌-ℤ◌, ◌*ℤ◌, ◌≤ℤ◌, ◌^◌};
ghost use Rattle.std.specs.Prelude.{if◌then◌else◌, length};
ghost use Rattle.std.specs.List.{All, fold};
ghost use Rattle.std.specs.Int.{int_min};
ghost use Rattle.plain_lists.specs.Ranges.{IsFrom};
ghost use Rattle.uc_model.specs.Limits.{IsPoint};
ghost use Rattle.uc_model.specs.Envelope.{line_at, least_line, rises_after, best_price, envelope};

use uc_model::units::Point;

// A price times kilowatts.
fn product(price: i128, kilowatts: i128) -> i128
    requires price { IsFrom (neg_ℤ (pos 70368744177664)) (pos 70368744177664) price }
    requires kilowatts { IsFrom (neg_ℤ (pos 17179869184)) (pos 17179869184) kilowatts }
    ensures value { result ≡ price *ℤ kilowatts }
    ensures bound { IsFrom (neg_ℤ (pos 1208925819614629174706176)) (pos 1208925819614629174706176)
        result }
{
    price * kilowatts
}

// How far a power is above a point's.
fn kilowatts_above(power: u32, point: &Point) -> i128
    requires { IsPoint point.now }
    ensures value { result ≡ pos power -ℤ point.now.at }
    ensures bound { IsFrom (neg_ℤ (pos 17179869184)) (pos 17179869184) result }
{
    i128::from(power) - i128::from(point.at)
}

// What the line through a point that rises by `price` per kilowatt is at a power.
fn line(price: i128, power: u32, point: &Point) -> i128
    requires price { IsFrom (neg_ℤ (pos 70368744177664)) (pos 70368744177664) price }
    requires point { IsPoint point.now }
    ensures value { result ≡ line_at price (pos power) point.now }
    ensures bound { IsFrom (neg_ℤ (pos 2417851639229258349412352)) (pos 2417851639229258349412352)
        result }
{
    i128::from(point.cost) + product(price, kilowatts_above(power, point))
}

// The least of a number and the points' lines.
fn least_from(start: i128, points: &[Point], price: i128, power: u32) -> i128
    requires start { IsFrom (neg_ℤ (pos 2417851639229258349412352)) (pos 2417851639229258349412352)
        start }
    requires points { All IsPoint points.now }
    requires price { IsFrom (neg_ℤ (pos 70368744177664)) (pos 70368744177664) price }
    ensures value { result ≡ fold (λ a p. int_min a (line_at price (pos power) p)) start
        points.now }
    ensures bound { IsFrom (neg_ℤ (pos 2417851639229258349412352)) (pos 2417851639229258349412352)
        result }
{
    let mut least = start;
    for point in points {
        least = least.min(line(price, power, point));
    }
    least
}

// The least of the points' lines.
fn least(points: &[Point], power: u32, price: i128) -> i128
    requires some { 1 ≤ length points.now }
    requires points { All IsPoint points.now }
    requires price { IsFrom (neg_ℤ (pos 70368744177664)) (pos 70368744177664) price }
    ensures value { result ≡ least_line points.now (pos power) price }
    ensures bound { IsFrom (neg_ℤ (pos 2417851639229258349412352)) (pos 2417851639229258349412352)
        result }
{
    least_from(line(price, power, &points[0]), points, price, power)
}

// Whether the least line is still rising at a price.
fn rises(points: &[Point], power: u32, price: i128) -> bool
    requires some { 1 ≤ length points.now }
    requires points { All IsPoint points.now }
    requires price { IsFrom (neg_ℤ (pos 70368744177664)) (pos 70368744177663) price }
    ensures { result ≡ rises_after points.now (pos power) price }
{
    least(points, power, price) < least(points, power, price + 1)
}

// 2 to a power.
fn power_of_two(exponent: u32) -> i128
    requires { exponent ≤ 46 }
    ensures { result ≡ pos (2 ^ exponent) }
{
    i128::from(2u64.pow(exponent))
}

// Where to look on: above the middle where the least line is still rising there, else from where it
// was.
fn half(points: &[Point], power: u32, steps: u32, low: i128) -> i128
    requires some { 1 ≤ length points.now }
    requires points { All IsPoint points.now }
    requires steps { steps ≤ 45 }
    requires low { neg_ℤ (pos 70368744177664) ≤ℤ low }
    requires high { (low +ℤ pos (2 ^ steps)) ≤ℤ pos 70368744177664 }
    ensures { result ≡ (if rises_after points.now (pos power)
        ((low +ℤ pos (2 ^ steps)) -ℤ pos 1) then low +ℤ pos (2 ^ steps) else low) }
{
    let middle = low + power_of_two(steps);
    if rises(points, power, middle - 1) {
        middle
    } else {
        low
    }
}

// The first of the 2 ^ steps prices from `low` on after which the least line no longer rises.
fn price_from(points: &[Point], power: u32, steps: u32, low: i128) -> i128
    requires some { 1 ≤ length points.now }
    requires points { All IsPoint points.now }
    requires steps { steps ≤ 46 }
    requires low { neg_ℤ (pos 70368744177664) ≤ℤ low }
    requires high { (low +ℤ pos (2 ^ steps)) ≤ℤ pos 70368744177664 }
    ensures price { result ≡ best_price steps points.now (pos power) low }
    ensures bound { IsFrom (neg_ℤ (pos 70368744177664)) (pos 70368744177664) result }
{
    if steps == 0 {
        return low;
    }
    let next = half(points, power, steps - 1, low);
    price_from(points, power, steps - 1, next)
}

// How often the prices are halved.
fn halvings() -> u32
    ensures { result ≡ 46 }
{
    46
}

// The least price that is looked at.
fn least_price() -> i128
    ensures { result ≡ neg_ℤ (pos (2 ^ 45)) }
{
    -35_184_372_088_832
}

/// The cost of a power for a unit with these cost points, in money.
pub fn cost_of_power(points: &[Point], power: u32) -> i128
    requires some { 1 ≤ length points.now }
    requires points { All IsPoint points.now }
    ensures cost { result ≡ envelope points.now (pos power) }
    ensures bound { IsFrom (neg_ℤ (pos 2417851639229258349412352)) (pos 2417851639229258349412352)
        result }
{
    let price = price_from(points, power, halvings(), least_price());
    least(points, power, price)
}
