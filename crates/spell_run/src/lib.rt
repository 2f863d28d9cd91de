//! One spell of a thermal unit: a run of periods in which it is on.
//!
//! The least net cost of a spell is found by a dynamic program over convex functions of the power
//! at the end of a period. One pass forward gives it for every last period, and leaves what a pass
//! back needs. From that a dispatch of least net cost is written, with no step taken again.
#![tactic(auto)]

mod backtrack;
pub mod laws;
pub mod notes;
mod running;
pub mod step;
pub mod write;

pub use backtrack::{SpellTrace, write_least_cost_dispatch_of_spell};
pub use notes::{Log, Logged, Note, Passage, Passed, Trace};
pub use running::{
    advance_spell_and_find_end_cost, advance_spell_over_period, begin_spell_cost_function,
};
