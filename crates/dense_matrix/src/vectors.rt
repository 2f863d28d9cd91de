//! Sums, multiples and products of lists of equal length.
ghost use Rattle.std.specs.Prelude.{◌≡◌, length};

/// The sum of the products of the entries at each place, in four partial sums.
pub fn dot_product(a: &[f64], b: &[f64]) -> f64
    requires { length a.now ≡ length b.now }
{
    let quarters = a.len() / 4;
    let mut first = 0.0;
    let mut second = 0.0;
    let mut third = 0.0;
    let mut fourth = 0.0;
    for quarter in 0..quarters {
        let at = 4 * quarter;
        first += a[at] * b[at];
        second += a[at + 1] * b[at + 1];
        third += a[at + 2] * b[at + 2];
        fourth += a[at + 3] * b[at + 3];
    }
    let mut sum = first + second + third + fourth;
    for at in 4 * quarters..a.len() {
        sum += a[at] * b[at];
    }
    sum
}

/// Adds a multiple of one list to another.
pub fn add_multiple(into: &mut [f64], factor: f64, list: &[f64])
    requires { length into.old ≡ length list.now }
{
    for at in 0..list.len() {
        into[at] += factor * list[at];
    }
}

/// Adds a multiple of what one list is above another to a third.
pub fn add_difference(into: &mut [f64], factor: f64, list: &[f64], base: &[f64])
    requires list { length into.old ≡ length list.now }
    requires base { length into.old ≡ length base.now }
{
    for at in 0..list.len() {
        into[at] += factor * (list[at] - base[at]);
    }
}

/// Leaves a multiple of what one list is above another in a third.
pub(crate) fn write_difference(into: &mut [f64], factor: f64, list: &[f64], base: &[f64])
    requires list { length into.old ≡ length list.now }
    requires base { length into.old ≡ length base.now }
{
    for at in 0..list.len() {
        into[at] = factor * (list[at] - base[at]);
    }
}

/// The sum of the entries' magnitudes.
pub fn sum_of_magnitudes(list: &[f64]) -> f64 {
    let mut sum = 0.0;
    for entry in list {
        sum += entry.abs();
    }
    sum
}
