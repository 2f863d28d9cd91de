//! The table of least costs by the last on period, filled period by period.
//!
//! The spells of all first periods go forward together, each as a convex function of its power at
//! the end of a period, until another one stands for all that it may become, or until it costs more
//! than a limit. Each leaves of its periods what backtracking from a row needs.
#![tactic(auto)]

pub mod laws;
pub mod periods;
pub mod question;
pub mod roster;
pub mod running_spell;
pub mod shared;

pub use periods::fill_table;
pub use question::{Period, Question};
pub use running_spell::RunningSpell;
pub use shared::Shared;
