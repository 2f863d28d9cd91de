//! The cost of a power: the whole-price envelope of a unit's cost points, as a number and as a
//! curve.
#![tactic(auto)]

pub mod costs;
pub mod curves;
mod edges;
pub mod laws;
mod walk;
