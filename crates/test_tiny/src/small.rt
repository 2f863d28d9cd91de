//! Units of a few kilowatts, for tests.

/// The numbers of a thermal unit of at most 510 kilowatts, with two lags, and two points for its
/// least and greatest power. Kilowatts, periods and money, as in a unit.
#[derive(Clone, Copy)]
pub struct SmallUnit {
    /// Whether it must be on in every period.
    pub must_run: bool,
    /// The least power.
    pub min_power: u8,
    /// How far the greatest power is above the least one.
    pub range: u8,
    /// The upward ramp.
    pub ramp_up: u8,
    /// The downward ramp.
    pub ramp_down: u8,
    /// The start limit.
    pub start_limit: u8,
    /// The stop limit.
    pub stop_limit: u8,
    /// How far the minimum time up is above one period.
    pub more_up: u8,
    /// How far the minimum time down is above one period.
    pub more_down: u8,
    /// The power in period 0.
    pub power0: u8,
    /// Whether it was on in period 0.
    pub on0: bool,
    /// How long it had been on by the end of period 0.
    pub up0: u8,
    /// How long it had been off by the end of period 0.
    pub down0: u8,
    /// The lag of the first start cost.
    pub first_lag: u8,
    /// How far the second lag is above the first one.
    pub lag_gap: u8,
    /// The cost of a start after the first lag.
    pub first_cost: u16,
    /// The cost of a start after the second lag.
    pub second_cost: u16,
    /// The cost of the least power.
    pub least_cost: u16,
    /// The cost of the greatest power.
    pub greatest_cost: u16,
}
