//! The fields of a case file: a number, a flag, a time or a list under a key, or the first of its
//! faults with its site.
#![tactic(auto)]

pub mod blocks;
pub mod fault;
pub mod forms;
mod items;
pub mod keys;
pub mod limits;
pub mod lists;
pub mod windows;
