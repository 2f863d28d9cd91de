//! Lists whose memory is taken when they are made, and how large a file and a run may be.
#![tactic(auto)]

pub mod limits;
pub mod lists;
