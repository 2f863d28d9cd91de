//! Shapes that keep their breakpoints in the cells of a pool, whose memory is taken when it is
//! made.
//!
//! For tests alone: the program takes `slope_list`.
#![tactic(auto)]

pub mod law;
pub mod pool;
pub mod pooled;
mod read;
pub mod slot;
mod steps;
