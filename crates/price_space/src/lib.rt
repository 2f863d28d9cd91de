//! What prices are: the first ones of a run, the dual value of a proposal, and how the prices of a
//! later one follow from it.
//!
//! The first prices are start prices, from the thermal units' full-load prices, and the opening
//! proposals that are shares of them (this project's profile).
//!
//! The dual is that of Gribik, Hogan and Pope, "Market-Clearing Electricity Prices and Energy
//! Uplift" (2007): demand and required reserve are paid for at the prices, and each unit earns what
//! its best schedule earns.
//!
//! Prices move along the direction in which the dual value rises (a step of the subgradient method
//! with Polyak's step length, halved the longer no better value was found; the rule is this
//! project's profile). No prices that ask nothing below 0 for reserve have a dual value above the
//! cost of a feasible plan, `uc_model::laws::dual_is_at_most_cost`, so the gap that a step is taken
//! from is never below 0.
#![tactic(auto)]

mod best_row;
mod entries;
mod full_load;
mod next;
mod opening;
mod start;
mod step;
mod totals;
mod value;

pub use best_row::{row_of_greatest_dual_value, row_of_greatest_dual_value_up_to};
pub use entries::{direction, shortfall_of_total};
pub use next::{Moved, next_prices, next_prices_from_best_row};
pub use opening::opening_prices;
pub use start::start_prices;
pub use totals::{add_nonzero_powers_to_totals, add_response, take_bid};
pub use value::{dual_value, earned_sum};
