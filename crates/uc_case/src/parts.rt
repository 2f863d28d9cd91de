//! Groups of keys of a thermal unit and of the case.

use plain_lists::lists::Numbers;
use uc_model::units::{BidList, FlatList, Lags, Marks, Points, ThermalList};

/// Whether the unit must run, and its least and greatest power.
#[derive(Clone, Copy)]
pub struct Output {
    /// Whether it must be on in every period.
    pub must_run: bool,
    /// The least power, in kilowatts.
    pub least: i64,
    /// The greatest power with reserve, in kilowatts.
    pub most: i64,
}

/// How far the output may change, also at a start and before a stop.
#[derive(Clone, Copy)]
pub struct Ramps {
    /// The upward ramp, in kilowatts from a period to the next.
    pub up: i64,
    /// The downward ramp, in kilowatts from a period to the next.
    pub down: i64,
    /// The start limit, in kilowatts.
    pub start: i64,
    /// The stop limit, in kilowatts.
    pub stop: i64,
}

/// The least times, and the state before period 1.
#[derive(Clone, Copy)]
pub struct Past {
    /// The least number of periods on after a start.
    pub min_up: u32,
    /// The least number of periods off after a stop.
    pub min_down: u32,
    /// The power in period 0, in kilowatts.
    pub power: i64,
    /// Whether it was on in period 0.
    pub on: bool,
    /// How many periods it had been on, where it was on.
    pub up: u32,
    /// How many periods it had been off, where it was off.
    pub down: u32,
}

/// The lists of a thermal unit.
#[derive(Drop)]
pub struct Lists {
    /// What a start costs, by the time down before it.
    pub lags: Lags,
    /// What a power costs in a period.
    pub points: Points,
    /// One mark for each period.
    pub window: Marks,
}

/// What each period of a case wants, in kilowatts.
#[derive(Drop)]
pub struct Needs {
    /// The demand.
    pub demand: Numbers,
    /// The required reserve.
    pub reserves: Numbers,
}

/// The units and bids of a case.
#[derive(Drop)]
pub struct Units {
    /// The thermal units.
    pub thermal: ThermalList,
    /// The renewable units.
    pub flat: FlatList,
    /// The demand bids.
    pub bids: BidList,
}
