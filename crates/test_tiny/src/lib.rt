//! Plain and slow functions on one thermal unit, each with the definition itself as its contract:
//! whether a schedule is feasible, what it earns, and the least of the best schedules by trying all
//! of them. Faster ones are tested against these.
#![tactic(auto)]

pub mod commitment;
pub mod dispatch;
pub mod earnings;
pub mod envelope;
pub mod feasible;
pub mod order;
pub mod parts;
pub mod small;
pub mod state;
pub mod trying;
