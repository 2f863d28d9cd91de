//! The columns of a search for convex hull prices: schedules of each thermal unit that were seen, as
//! entries of a mixture and as columns of a master problem.
//!
//! Each unit has as many entries throughout. A feasible schedule may take the place of any other,
//! and weights only move from one entry to another, so that the columns are a mixture at any time:
//! each entry is a feasible schedule of its unit, and the weights of a unit sum to the whole
//! (Dubost, Gonzalez and Lemarechal, 2005, call it a pseudo-schedule).
#![tactic(auto)]

pub mod copies;
pub mod plans;
pub mod pool;
pub mod weights;
pub mod written;
