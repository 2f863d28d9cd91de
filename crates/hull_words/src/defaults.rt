//! What a command takes where its words don't say.

use plain_lists::limits::MOST_RADIUS;

/// The most price vectors that a run tries.
pub const DEFAULT_PROPOSALS: u32 = 100;

/// The workers of a run.
pub const DEFAULT_WORKERS: u32 = 4;

/// The proposals that may be open ahead of the last answered one.
pub const DEFAULT_AHEAD: u32 = 4;

/// How far each price may be from a chosen one, in thousandths of the currency per MW and period:
/// as far as prices can be from one another.
pub const DEFAULT_RADIUS: u32 = MOST_RADIUS;

/// The distance at which a search ends, in money: one of the currency.
pub const DEFAULT_WITHIN: u64 = 1_000_000;

/// The most rounds of a search, where the limit of work allows so many.
pub const DEFAULT_ROUNDS: u32 = 150;
