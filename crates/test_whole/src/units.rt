//! Worked units, with powers in kilowatts and times in periods.
use test_tiny::small::SmallUnit;

/// On at 50 kilowatts, from 10 to 100 kilowatts at no cost.
pub const FALLING: SmallUnit = SmallUnit {
    must_run: false,
    min_power: 10,
    range: 90,
    ramp_up: 20,
    ramp_down: 20,
    start_limit: 100,
    stop_limit: 10,
    more_up: 0,
    more_down: 0,
    power0: 50,
    on0: true,
    up0: 1,
    down0: 0,
    first_lag: 1,
    lag_gap: 0,
    first_cost: 0,
    second_cost: 0,
    least_cost: 0,
    greatest_cost: 0,
};

/// Off for five periods, from 10 to 100 kilowatts at no cost.
pub const OFF: SmallUnit = SmallUnit {
    ramp_up: 45,
    ramp_down: 30,
    start_limit: 60,
    stop_limit: 50,
    power0: 0,
    on0: false,
    up0: 0,
    down0: 5,
    ..FALLING
};

/// The same with a least power above the stop limit.
pub const TOO_HIGH: SmallUnit = SmallUnit {
    min_power: 55,
    range: 45,
    ..OFF
};

/// On at 0 kilowatts, to 100 kilowatts at no cost, and must run.
pub const KINKED: SmallUnit = SmallUnit {
    must_run: true,
    min_power: 0,
    range: 100,
    ramp_up: 60,
    ramp_down: 100,
    stop_limit: 100,
    power0: 0,
    ..FALLING
};

/// Must run, and is off until its minimum time down is over.
pub const BARRED: SmallUnit = SmallUnit {
    must_run: true,
    more_down: 2,
    down0: 1,
    ..OFF
};
