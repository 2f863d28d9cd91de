//! Numbers dealt to jobs in many threads, by work stealing (Blumofe and Leiserson, 'Scheduling
//! multithreaded computations by work stealing', Journal of the ACM, 1999) over the queues of
//! `crossbeam_deque`.
//!
//! An injector holds the numbers, and each worker has a first-in-first-out deque. A worker takes
//! one number from the injector at first and batches after that, and steals from the others when
//! its own deque and the injector are empty. One rule holds of all queues: however numbers are
//! weighed, what was put into a queue weighs as much as what was taken from it and what it holds.
//! After the threads the caller puts the accounts of all queues together, and the first job runs
//! whatever is left. So each number is run once and no other, whatever the schedule was.
#![tactic(auto)]

mod apart;
mod deal;
mod drain;
mod job;
pub mod law;
mod member;
mod open;
mod pour;
mod rule;
mod seat;
mod settle;
mod start;

pub use deal::deal_all;
pub use job::Job;
