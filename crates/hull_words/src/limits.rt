//! The limits of the words of a search.

/// The greatest distance at which a search may be told to end, in money.
pub const MOST_WITHIN: u64 = 1_000_000_000_000;

/// The most rounds of a search.
pub const MOST_ROUNDS: u32 = 1_000;
