//! The shape that keeps its breakpoints in a list on the heap.
//!
//! For tests alone: the program takes `slope_list`.
#![tactic(auto)]

pub mod breaks;
pub mod law;
mod steps;
