//! How many tasks a worker takes at once.
ghost use Rattle.std.specs.Prelude.{◌<◌};

/// How many tasks a worker takes at a visit: the fewer, the fewer the proposal has left, so that
/// the other workers get some too.
#[derive(Clone, Copy)]
pub struct Pace {
    /// How many workers there are, from 1 on.
    pub workers: usize,
    /// The greatest unit number of the tasks so far, and at least the number of thermal units.
    pub last: usize,
    ghost some: { 0 < workers },
}

impl Pace {
    /// Whether a worker has its share that holds so many tasks, the last of them of that unit: one
    /// task where there is no other worker, since it then waits for none.
    pub fn has_worker_enough_tasks(&mut self, held: usize, unit: u32) -> bool {
        let unit = unit as usize;
        self.last = self.last.max(unit);
        let left = self.last - unit;
        self.workers < 2 || held >= left / self.workers / 2
    }
}
