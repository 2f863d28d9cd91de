//! Bounds on how much better any other prices near given ones can be: by the rows of a run, and by
//! a mixture of schedules of each thermal unit.
//!
//! The dual value is concave in the prices, and what the answers to a proposal lack of demand and
//! of the required reserve is a subgradient of it. So each answered proposal gives a plane that is
//! nowhere below the dual (Gribik, Hogan and Pope, "Market-Clearing Electricity Prices and Energy
//! Uplift", 2007, for the dual; the subgradient inequality and the mean of such planes are of
//! textbook convex analysis). The greatest height of a mean of planes over a box of prices is the
//! bound: no prices in the box have a dual value above it, `law_parts::bounds::bound_holds`.
//!
//! Each schedule of a mixture earns at most what its unit earns at best, so the weighted mean of
//! what they earn is at most that too. The dual value of any prices is so at most what the mixture
//! costs, with what it lacks of demand and of the required reserve paid for at these prices, less
//! what renewable units and bids earn there at best: weak duality (Gribik, Hogan and Pope) for the
//! pseudo-schedules of bundle methods (Dubost, Gonzalez and Lemarechal, 2005). The greatest of that
//! over the box is the bound, `law_parts::bounds::mixture_bound_holds`. Whoever made the mixture
//! needs no trust: a poor one gives a poor bound, and never a wrong one.
#![tactic(auto)]

mod flat;
mod mixture_bound;
mod mixture_check;
pub mod mixture_laws;
mod mixture_sums;
mod mixtures;
mod plane_sums;
mod planes;
mod ranges;
mod rows_bound;
mod wide;
mod worst;

pub use mixture_bound::bound_of_mixture;
pub use mixture_check::{EntryFault, check_mixture};
pub use mixtures::{Entries, Entry, EntryLists, Mixture};
pub use ranges::{Certified, best_range};
pub use rows_bound::bound_of;
