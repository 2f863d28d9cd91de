//! The board of a unit commitment case: tasks are claimed and answered, and rows and prices follow
//! from the answers.
//!
//! A board has proposals of prices, each with a task for every unit. A proposal is closed once each
//! of its units has an answer, and then its row has the dual value of its prices. The prices of a
//! later proposal follow from the rows of those at least so many before it (this project's profile
//! of a subgradient method, `price_space`). What each call answers and what it adds to the history
//! is the machine of `board_store`, exactly. All memory is taken when a board is made.
#![tactic(auto)]

mod advance;
mod board;
mod history;
mod ledger;
mod opening;
mod posts;
mod replies;
mod terms;

pub use board::{Board, Closed};
pub use replies::{Claim, Differs, Posted};
pub use terms::Terms;
