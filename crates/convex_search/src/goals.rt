//! What a search is to reach.

/// What a search is to reach.
#[derive(Clone, Copy, PartialEq, Eq, Debug)]
pub struct Goal {
    /// It ends as soon as the bound is at most that much above the dual value, in money.
    pub within: i64,
    /// It ends after so many rounds at most.
    pub rounds: u32,
}
