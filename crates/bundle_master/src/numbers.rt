//! From whole numbers to floating-point ones, and back.
ghost use Rattle.std.specs.Prelude.{◌≤ℤ◌};

use std::num::{nearest_i64_to_f64, saturating_f64_to_i64};

/// Kilowatts in megawatts.
pub fn in_megawatts(kilowatts: i64) -> f64 {
    nearest_i64_to_f64(kilowatts) / 1000.0
}

/// A number rounded down, and kept within limits. What is no number is the lower limit.
pub fn floor_within(x: f64, low: i64, high: i64) -> i64
    requires { low ≤ℤ high }
    ensures low { low ≤ℤ result }
    ensures high { result ≤ℤ high }
{
    if x.is_nan() {
        return low;
    }
    saturating_f64_to_i64(x.floor()).clamp(low, high)
}
