//! A convex function on a whole interval, and one step of a spell on it.
//!
//! What a step does to such a function is said power by power, with laws on it (`shape_laws`). The
//! function is kept as pieces of one slope, in room that is taken once. Its powers are found among
//! the pieces. What is read off them are its least values, and whether it lies above a limit or
//! below another function.
//!
//! The step takes the worth of the best reserve off, takes the least value in reach of the ramps,
//! and adds what the prices pay and the production cost, all in one pass. It goes over the function
//! before it in runs of pieces that go into the function after it alike, and writes those pieces
//! one after another along the blocks of the cost curve.
#![tactic(auto)]

mod below;
mod blocks;
mod cursor;
mod draw;
mod kink;
mod piece;
mod piece_laws;
mod progress;
mod read;
mod run;
pub mod shape_laws;
mod slopes;
mod step;
pub mod step_terms;
mod window;

pub use read::Spot;
pub use slopes::{Lowest, Slopes, Spare};
