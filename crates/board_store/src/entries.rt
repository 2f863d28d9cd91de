//! What a history shows of each event.

/// What a caller asked for.
#[derive(Clone, Copy, PartialEq, Eq)]
pub enum Call {
    /// A task to work on.
    Claim,
    /// That an answer be kept.
    Post,
    /// That no further task be given.
    Halt,
}

/// What the call brought about.
#[derive(Clone, Copy, PartialEq, Eq)]
pub enum Reply {
    /// A task was given to the caller.
    Given,
    /// An answer was taken, and its proposal still lacks others.
    Taken,
    /// An answer was taken that closed its proposal.
    Closing,
    /// The caller halted for the first time.
    Stopped,
}

/// A call that changed the board: a claim that was given, a post that was taken, or a caller's
/// first halt. Other calls make no entry. Callers and units count from 0, proposals from 1; a halt
/// has proposal 0 and unit 0. A board has two entries for each task, so they are kept small: the
/// callers, proposals and units of a run are within 16 bits.
#[derive(Clone, Copy, PartialEq, Eq)]
pub struct Entry {
    /// Who called.
    pub caller: u16,
    /// The proposal of the task.
    pub proposal: u16,
    /// The unit of the task.
    pub unit: u16,
    /// What was asked for.
    pub call: Call,
    /// What came of it.
    pub reply: Reply,
}
