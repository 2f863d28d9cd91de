//! The spells and times off that a unit's rules allow, and the table of least costs by the last on
//! period: its rows, the ends that the next start may follow, and what all up to a period may cost
//! where the whole is to cost no more than an amount.
#![tactic(auto)]

pub mod commitment;
pub mod limits;
pub mod origins;
pub mod table;
