//! What holds of what files are read as: each is a case, or prices, or has a first fault; a case keeps
//! all limits, and its units' names are UTF-8; and a file of prices is said in plain words.
//!
//! What holds of every run: of the history of its board, beside what the board and the program go by
//! (`board_store::laws`); of the bounds on dual values that its rows, or a mixture, give; of its
//! report, which an audit never refuses as out of form; and of a longer run beside a shorter one.
//!
//! Nothing here runs. The laws follow from what such files, a history, a bound and a right report are.
#![tactic(auto)]

pub mod audit;
pub mod board;
pub mod bounds;
pub mod budget;
pub mod cases;
pub mod prices;
