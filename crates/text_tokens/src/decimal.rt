//! Decimal numbers, and the whole numbers nearest to them.

ghost use Rattle.std.specs.Prelude.{◌≡◌, ◌<◌, ◌≤◌, ◌^◌, ◌*◌, ◌↔◌, Ok, Err, IsTrue, SomeIff};
ghost use Rattle.std.specs.Prelude.{if◌then◌else◌, nat_lt, nat_le, unsigned_abs};
ghost use Rattle.text_tokens.specs.Rounding.{IsWholeValue, is_whole_value, rounded, rounded_size};
ghost use Rattle.text_tokens.specs.Rounding.{size_cut};

use thiserror::Error;

/// The number `digits * 10^exponent`, negated where `negative`.
#[derive(Clone, Copy, Debug, PartialEq, Eq)]
pub struct Decimal {
    /// The digits as a whole number.
    pub digits: u128,
    /// The power of ten that they are multiplied by.
    pub exponent: i32,
    /// Whether it is negated.
    pub negative: bool,
}

/// Why a decimal is no whole number of the wanted size.
#[derive(Clone, Copy, Debug, PartialEq, Eq, Drop, Error)]
pub enum NumFault {
    /// The magnitude of the rounded number is above the limit.
    #[error("the number is above {limit}")]
    TooLarge { limit: u64 },
}

/// Whether the number is a whole number.
pub fn is_whole(d: Decimal) -> bool
    ensures exact { IsTrue result ↔ IsWholeValue d.digits d.exponent }
    ensures computed { result ≡ is_whole_value d.digits d.exponent }
{
    if 0 <= d.exponent {
        return true;
    }
    let places = d.exponent.unsigned_abs();
    if 38 < places {
        return d.digits == 0;
    }
    d.digits % 10u128.pow(places) == 0
}

/// The whole number nearest to `d * 10^scale`, the upper one of two that are as near; `decimal_laws` says
/// that it is that number.
///
/// Refuses with `TooLarge` exactly where the magnitude of that number is above the limit.
// Written out where it is called: a case has tens of thousands of numbers, and it is short for most.
#[inline(always)]
pub fn whole(d: Decimal, scale: u32, limit: u64) -> Result<i64, NumFault>
    requires scale { scale ≤ 6 }
    requires limit { limit ≤ 10 ^ 18 }
    ensures { result ≡ (if nat_lt limit (unsigned_abs (rounded d scale)) then Err
        (NumFault.TooLarge limit) else Ok (rounded d scale)) }
{
    let Some(size) = rounded_magnitude(d, scale, limit) else {
        return Err(NumFault::TooLarge { limit });
    };
    let size = size as i64;
    Ok(if d.negative { -size } else { size })
}

/// The magnitude of the rounded number, unless it is above the limit.
fn rounded_magnitude(d: Decimal, scale: u32, limit: u64) -> Option<u64>
    requires scale { scale ≤ 6 }
    requires limit { limit ≤ 10 ^ 18 }
    ensures { SomeIff result (rounded_size d scale ≤ limit) (rounded_size d scale) }
{
    let power = d.exponent as i64 + scale as i64;
    let places = power.unsigned_abs();
    if 0 <= power {
        digits_times_power_of_ten(d.digits, places, limit)
    } else {
        digits_divided_by_power_of_ten(d, places, limit)
    }
}

/// The digits with so many zeros behind them.
fn digits_times_power_of_ten(digits: u128, places: u64, limit: u64) -> Option<u64>
    requires { limit ≤ 10 ^ 18 }
    ensures { SomeIff result (digits * 10 ^ places ≤ limit) (digits * 10 ^ places) }
{
    if digits == 0 {
        return Some(0);
    }
    if 18 < places {
        return None;
    }
    if digits > u128::from(limit) {
        return None;
    }
    // (a power of up to 18 places fits 64 bits)
    let number = digits * u128::from(10u64.pow(places as u32));
    if number > u128::from(limit) {
        return None;
    }
    Some(number as u64)
}

/// The digits without the last so many of them, rounded.
// A call of its own, so that the way of most numbers stays short.
#[inline(never)]
fn digits_divided_by_power_of_ten(d: Decimal, places: u64, limit: u64) -> Option<u64>
    requires { limit ≤ 10 ^ 18 }
    ensures { SomeIff result (size_cut d.negative d.digits (10 ^ places) ≤ limit)
        (size_cut d.negative d.digits (10 ^ places)) }
{
    if 38 < places {
        return Some(0);
    }
    let number = nearest_quotient(d.negative, d.digits, 10u128.pow(places as u32));
    if number > u128::from(limit) {
        return None;
    }
    Some(number as u64)
}

/// The magnitude of the whole number nearest to `digits / unit`.
fn nearest_quotient(negative: bool, digits: u128, unit: u128) -> u128
    requires some { 0 < unit }
    requires fits { unit ≤ 10 ^ 38 }
    ensures { result ≡ size_cut negative digits unit }
{
    let kept = digits / unit;
    let twice = 2 * (digits % unit);
    if rounds_up(negative, twice, unit) {
        kept + 1
    } else {
        kept
    }
}

/// Whether a rest counts as one more, where it is twice the rest.
fn rounds_up(negative: bool, twice: u128, unit: u128) -> bool
    ensures { result ≡ (if negative then nat_lt unit twice else nat_le unit twice) }
{
    if negative {
        unit < twice
    } else {
        unit <= twice
    }
}
