//! Generated cases: a market of 73 thermal and 81 renewable units over 48 periods, with a feasible
//! schedule, for each number. All that is random comes from PCG32 words, so a number always gives
//! the same case. `specs/Drawn.antt` has the draws and what follows from them for one unit,
//! `specs/Made.antt` the whole.
#![tactic(auto)]

mod draws;
mod growing;
mod make;
mod names;
mod renewables;
mod schedules;
mod units;

pub use make::make_case;
