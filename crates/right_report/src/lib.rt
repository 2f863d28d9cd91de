//! What makes a report right, and a side of `hull fixed`: what a run's record chooses, the settlement
//! at the chosen prices, and the laws that of each there is one, and one at most.
//!
//! Nothing is read or written here.
#![tactic(auto)]

mod choice;
pub mod laws;
mod side;

pub use choice::{Choice, chosen_proposal_of_finished_board};
pub use side::{Side, fixed_report_side_of_finished_board};
