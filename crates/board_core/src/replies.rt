//! What the calls of a board answer.

/// What a claim answers: the first that applies.
#[derive(Clone, Copy, PartialEq, Eq)]
pub enum Claim {
    /// Every proposal that exists is closed.
    Finished,
    /// Some caller has halted.
    Halted,
    /// The task was given to the caller.
    Given,
    /// Every task of the open proposals is claimed, and not all are answered.
    NotYet,
}

/// In what a task differs from the board's own.
#[derive(Clone, Copy, PartialEq, Eq)]
pub enum Differs {
    /// The task's proposal is 0 or above the last that is open.
    Proposal { task: u32, opened: u32 },
    /// There is no unit of the task's number.
    Unit { task: u32, units: u32 },
    /// The first place, from 0, at which the flat lists of the two tasks differ, and the two
    /// numbers there.
    Content { place: u32, board: i64, task: i64 },
    /// The task wasn't given to this caller, but to the holder, if to one.
    Holder { caller: u32, holder: Option<u32> },
}

/// What a post answers: the first that applies, where a stranger task's holder comes after a second
/// answer.
#[derive(Clone, Copy, PartialEq, Eq)]
pub enum Posted {
    /// The task isn't the board's own, or isn't held by this caller.
    Stranger(Differs),
    /// The task has an answer, by this caller.
    Doubled { by: u32 },
    /// The answer was taken, and closed this proposal, if it closed one.
    Taken { closed: Option<u32> },
}
