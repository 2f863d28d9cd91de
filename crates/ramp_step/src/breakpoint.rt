//! Breakpoints.

/// A breakpoint: a power in kilowatts, and the value there in millionths of the currency. The first
/// knots of a slice stand for the convex function through them, with a straight line between
/// neighbours; no knot stands for the empty interval.
#[derive(Clone, Copy)]
pub struct Knot {
    /// The power.
    pub at: i64,
    /// The value.
    pub value: i64,
}
