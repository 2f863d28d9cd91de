//! The texts of what commands answer.
#![tactic(auto)]

mod audit;
mod bound;
mod certified;
mod check;
mod convex;
mod fixed;
mod record;
mod settled;

pub use audit::write_audit;
pub use bound::write_bound;
pub use certified::{MixtureBound, write_certificate};
pub use check::write_check;
pub use convex::{SearchNumbers, write_convex};
pub use fixed::write_fixed;
pub use record::{write_report, write_try};
pub use settled::write_settlement;
