//! Workers that answer the tasks of one shared board, each in a thread of its own.
//!
//! A worker claims a few tasks, answers each on its own bench and posts the answers, until a claim
//! finds the board finished or halted. It posts and claims in one visit to the board, and it holds
//! neither a turn at the board nor a lock while it answers.
#![tactic(auto)]

mod all;
mod gate;
mod pace;
mod tasks;
mod visit;
mod waiting;
mod work;
mod worker;

pub use all::answer_all;
pub use gate::{Gate, NoGate};
pub use worker::{Ended, Worker};
