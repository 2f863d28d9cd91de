//! A search for convex hull prices: prices whose dual value is near the greatest, with a mixture of
//! schedules that proves how near.
//!
//! Convex hull prices are those at which the Lagrangian dual is greatest (Gribik, Hogan and Pope,
//! "Market-Clearing Electricity Prices and Energy Uplift", 2007). Which prices the search finds is
//! not promised; what it tells of them is. The prices are within their limits, each entry of the
//! mixture is a feasible schedule of its unit, and the bound is that of the mixture over all prices.
//! Whoever reads them needs no trust in the search.
//!
//! It is a proximal bundle method (Lemarechal, Nemirovskii and Nesterov, "New variants of bundle
//! methods", 1995) whose columns are the schedules of each thermal unit apart, as Dantzig and Wolfe
//! have them. Each round solves the master problem of the columns seen so far, near the best
//! prices; asks all units what they would do at its prices; and keeps their answers as columns. The
//! shares of the columns in the master problem are the weights of a mixture. Floating-point numbers
//! say where to look, and whole numbers what was found and when to end.
#![tactic(auto)]

mod best;
mod bounds;
mod find;
mod found;
mod goals;
mod opening;
mod oracle;
mod pace;
mod points;
mod rounds;
mod search;
mod short;
mod start;

pub use find::find_convex;
pub use found::Found;
pub use goals::Goal;
