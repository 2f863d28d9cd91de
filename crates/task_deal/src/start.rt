//! How threads that work side by side begin.

use std::sync::Wait;
use std::thread::Parker;
use std::time::Duration;

// For how long a thread makes way.
const MICROSECONDS: u64 = 20;

/// Sleeps for some microseconds where `threads` is above 1. Each of so many threads calls it before
/// it works.
///
/// A system may queue a new thread on the processor of the one that started it, where it waits for
/// milliseconds while that one works. While that one sleeps it can run, and who wakes may be put on
/// a processor that has nothing to do.
pub(crate) fn sleep_before_first_task<R: Wait>(rt: &R, threads: usize) {
    if threads > 1 {
        Parker::new().park_timeout(rt, Duration::from_micros(MICROSECONDS));
    }
}
