//! The limits of a case in this project's profile: within them, and those of a run in
//! [`plain_lists::limits`], each sum over a case fits its type.

/// Periods of a horizon.
pub const MOST_PERIODS: u32 = 168;

/// Periods of a minimum time, of a lag, or of a state before the horizon.
pub const MOST_TIME: u32 = 1_000_000;

/// Units of one kind in a case: thermal units, renewable units, or bids.
pub const MOST_OF_A_KIND: u32 = 4_096;

/// Lags of a thermal unit's start costs.
pub const MOST_LAGS: u32 = 32;

/// Points of a thermal unit's cost.
pub const MOST_POINTS: u32 = 32;

/// Blocks of a bid in one period.
pub const MOST_BLOCKS: u32 = 8;

/// The greatest power, demand or reserve in kilowatts.
pub const POWER_LIMIT: i64 = 1_000_000_000;

/// The greatest power of a thermal unit in kilowatts.
pub const OUTPUT_LIMIT: i64 = 10_000_000;

/// The greatest amount of money of a case in magnitude, in millionths of the currency.
pub const COST_LIMIT: i64 = 10_000_000_000_000;

/// The greatest price in magnitude, in money for a kilowatt and period.
pub const PRICE_LIMIT: i64 = 10_000_000;

/// The greatest magnitude of what a kilowatt of a period gains: a price, or one less another.
pub const GAIN_LIMIT: i64 = 20_000_000;

/// The greatest magnitude of what a spell costs up to a period, less what prices pay for it.
pub const SPELL_LIMIT: i64 = 500_000_000_000_000_000;
