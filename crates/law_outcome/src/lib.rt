//! What holds of every run of `hull`, in full words: what each status has for its cause, what a
//! printed text promises, and that at most one text may be printed of what was read.
//!
//! Nothing here runs. Each law follows from the relation `IsOutcome` alone, which
//! `hull_engine::hull_run` ensures of its run.
#![tactic(auto)]

pub mod existence;
pub mod laws;
pub mod texts;
