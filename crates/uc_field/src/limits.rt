//! The limits of the model, in the types that tests take them in.
use uc_model::limits;

/// Periods of a horizon.
pub const PERIODS: u64 = limits::MOST_PERIODS as u64;

/// Periods of a minimum time, of a lag, or of a state before the horizon.
pub const TIME: u64 = limits::MOST_TIME as u64;

/// Units of one kind, or bids.
pub const UNITS: usize = limits::MOST_OF_A_KIND as usize;

/// Lags of a thermal unit's start costs.
pub const LAGS: usize = limits::MOST_LAGS as usize;

/// Points of a thermal unit's cost.
pub const POINTS: usize = limits::MOST_POINTS as usize;

/// Blocks of a bid in one period.
pub const BLOCKS: usize = limits::MOST_BLOCKS as usize;

/// The greatest power, demand or reserve, in kilowatts.
pub const POWER: u64 = limits::POWER_LIMIT as u64;

/// The greatest power of a thermal unit, in kilowatts.
pub const OUTPUT: u64 = limits::OUTPUT_LIMIT as u64;

/// The greatest amount of money in magnitude, in millionths of the currency.
pub const COST: u64 = limits::COST_LIMIT as u64;

/// The greatest price, in money for a kilowatt and period.
pub const PRICE: u64 = limits::PRICE_LIMIT as u64;
