//! The input of a command: what its files are read as, and judged, up to the first refusal.
//!
//! Nothing is run or written here, no thread is started, and nothing is waited for.
#![tactic(auto)]

mod commands;
mod files;
mod input;
pub mod laws;

pub use commands::{
    read_audit_input, read_certify_input, read_convex_input, read_pricing_run_input,
    read_settle_input,
};
pub use files::read_case_and_schedule;
pub use input::{
    Input, MixedInput, PricedInput, ReportedRun, SearchInput, run_terms_within_work_limit,
};
