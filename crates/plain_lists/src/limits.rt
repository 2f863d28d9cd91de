//! The limits of a file, of the words of a command and of a run (this project's profile).

/// Bytes of an input file.
pub const MOST_BYTES: usize = 67_108_864;

/// Units of a case, bids among them.
pub const MOST_UNITS: u32 = 12_288;

/// Proposals of a run.
pub const MOST_PROPOSALS: u32 = 10_000;

/// Proposals that may be open ahead of the last answered one.
pub const MOST_AHEAD: u32 = 16;

/// Workers of a run.
pub const MOST_WORKERS: u32 = 32;

/// Callers of a board: a worker each, and one more.
pub const MOST_CALLERS: u32 = 33;

/// Tasks of a run: one for each unit and proposal.
pub const MOST_TASKS: u32 = 122_880_000;

/// Units times periods times proposals of a run.
pub const MOST_WORK: u64 = 50_000_000;

/// The greatest distance of a price from a chosen one, in money for a kilowatt and period.
pub const MOST_RADIUS: u32 = 20_000_000;
