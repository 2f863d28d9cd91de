//! Tests over more than one crate. They stand above the program's own crates, so that what a test
//! alone needs isn't proved below the program.
#![tactic(auto)]

#[cfg(test)]
mod audits;
#[cfg(test)]
mod boards;
#[cfg(test)]
mod case_files;
#[cfg(test)]
mod dealt_rows;
#[cfg(test)]
mod generated;
#[cfg(test)]
mod held;
#[cfg(test)]
mod plan_files;
pub mod pool_bench;
#[cfg(test)]
mod random_units;
#[cfg(test)]
mod responses;
#[cfg(test)]
mod runs;
#[cfg(test)]
mod same;
#[cfg(test)]
mod seats;
#[cfg(test)]
mod shapes;
#[cfg(test)]
mod spells;
#[cfg(test)]
mod steps;
#[cfg(test)]
mod texts;
#[cfg(test)]
mod threads;
#[cfg(test)]
mod units;
#[cfg(test)]
mod values;
