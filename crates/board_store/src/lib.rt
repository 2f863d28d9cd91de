//! What a board keeps: its history, the answers of the units of a case, and a unit's task.
//!
//! A board has proposals of prices, each with a task for every unit. Callers claim tasks and post
//! answers; the state is the list of events, and everything else is read off it
//! (`specs/Rounds.antt`). The board machine over such lists is a definition, and `laws` are on the
//! histories that it makes. The crates above keep the list in their own ways, and say by these
//! definitions what they do.
//!
//! Answers stand at places that count from 0. All memory is taken when a store is made, and a page
//! of it costs none until it is written to. What an answer does is kept as three rows: flags,
//! powers and reserves. Each row is kept as runs, a length and a value for as many periods as the
//! value stays, or for 255. A row that is the same as the one at an index that the caller names, or
//! that is blank, is not written again.
//!
//! A unit's task is written into room that is there already, and compared with one that comes back.
#![tactic(auto)]

pub mod entries;
pub mod laws;
pub mod same;
mod store;
mod table;
pub mod tasks;

pub use store::Store;
