//! The least best response of a thermal unit to prices: a dynamic program over its spells of on
//! periods. From it follows what all units of a case answer and earn.
//!
//! A schedule is a list of spells with times off between them, and what it costs is the sum of the
//! spells' net costs and of the costs of starts. So the least cost of all up to a last on period is
//! the least over the spells that end there, of what comes before the spell and its own least net
//! cost.
//!
//! Of several schedules that cost the same the first is the answer: from the last period back, off
//! comes before on. So the table is read from its earliest least end; it names for each last period
//! the latest first period of a spell, and for that one the earliest on period before it. Of the
//! dispatches of a spell the first by powers and reserves is written.
//!
//! All memory is taken once, with a bench. An answer begins with the last answer of the unit, and
//! leaves its own in place of that.
#![tactic(auto)]

mod backtrack;
mod bench;
mod case_bench;
pub mod case_laws;
mod choice;
mod earn;
mod kept;
mod last;
pub mod laws;
pub mod least_end;
mod unit_answer;

pub use bench::Bench;
pub use case_bench::{make_bench_for_case, most_cost_points_in_case};
pub use choice::least_on_bench;
pub use earn::earn_all;
pub use last::LastAnswers;
pub use unit_answer::{write_best_response_of_numbered_unit, write_best_response_of_unit};
