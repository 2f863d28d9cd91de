//! What a caller may watch of the workers.

/// Two calls that each worker makes for each task, for a caller that counts or holds them: the one
/// object is shared by all workers. Proposals count from 1, callers and units from 0.
pub trait Gate: Sync {
    /// Comes after a task was given and before it is answered.
    fn between(&self, caller: u32, proposal: u32, unit: u32);

    /// Comes after the answer was posted.
    fn after(&self, caller: u32, proposal: u32, unit: u32);
}

/// A gate that does nothing, which the program passes; tests pass one that counts or holds.
pub struct NoGate;

impl Gate for NoGate {
    fn between(&self, _caller: u32, _proposal: u32, _unit: u32) {}

    fn after(&self, _caller: u32, _proposal: u32, _unit: u32) {}
}
