//! Steps over breakpoints that stand for a convex function on a whole interval.
//!
//! Each step works in place on the first `used` knots of a slice, and answers how many knots there
//! are afterwards: at most `used` and its charge. The slice has room for as many. What it does is
//! said of the function that the knots stand for, as of any shape. Powers are kilowatts within
//! 4 * 10^9 and values millionths of the currency within 10^18, before and after.
//!
//! For tests alone: the program takes `slope_list`.
#![tactic(auto)]

pub mod breakpoint;
pub mod curve;
mod cutting;
pub mod kink;
pub mod law;
pub mod line;
pub mod read;
mod spaced;
mod splitting;
pub mod window;
