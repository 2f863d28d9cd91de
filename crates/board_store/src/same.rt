//! Whether a task that comes back has the prices and the unit that were given out, compared where
//! they lie.
ghost use Rattle.std.specs.Prelude.{◌≡◌, ◌↔◌, ◌<◌, ◌≤◌, IsTrue, Some, length, map, slice_get};
ghost use Rattle.std.specs.List.{All, flat_map};
ghost use Rattle.uc_model.specs.Data.{units, unit_count};
ghost use Rattle.uc_model.specs.PlainCases.{market_of, task_unit};
ghost use Rattle.uc_model.specs.PlainUnits.{prices_of, thermal_of, renewable_of};
ghost use Rattle.plain_lists.specs.Reserved.{items_in};
ghost use Rattle.uc_model.specs.TaskLists.{period_numbers, task_numbers};
ghost use Rattle.uc_model.specs.declared.limits.TheConstants.{MOST_BLOCKS, MOST_PERIODS};
ghost use Rattle.board_store.specs.Same.{HaveSamePowers, HaveSameTimes, AreSame};

use uc_model::cases::{Case, Task, UnitRef};
use uc_model::units::{Block, BlockLists, Lag, Mark, Point, Prices, Renewable, Unit, UnitKind};

fn same_numbers(a: &[i64], b: &[i64]) -> bool
    ensures { IsTrue result ↔ (a.now ≡ b.now) }
{
    a == b
}

fn same_lag(a: Lag, b: Lag) -> bool
    ensures { IsTrue result ↔ (a ≡ b) }
{
    a.lag == b.lag && a.cost == b.cost
}

fn same_lags(a: &[Lag], b: &[Lag]) -> bool
    ensures { IsTrue result ↔ (a.now ≡ b.now) }
{
    if a.len() != b.len() {
        return false;
    }
    for k in 0..a.len() {
        if !same_lag(a[k], b[k]) {
            return false;
        }
    }
    true
}

fn same_point(a: Point, b: Point) -> bool
    ensures { IsTrue result ↔ (a ≡ b) }
{
    a.at == b.at && a.cost == b.cost
}

fn same_points(a: &[Point], b: &[Point]) -> bool
    ensures { IsTrue result ↔ (a.now ≡ b.now) }
{
    if a.len() != b.len() {
        return false;
    }
    for k in 0..a.len() {
        if !same_point(a[k], b[k]) {
            return false;
        }
    }
    true
}

fn same_window_marks(a: &[Mark], b: &[Mark]) -> bool
    ensures { IsTrue result ↔ (a.now ≡ b.now) }
{
    if a.len() != b.len() {
        return false;
    }
    for k in 0..a.len() {
        if a[k] != b[k] {
            return false;
        }
    }
    true
}

fn same_block(a: Block, b: Block) -> bool
    ensures { IsTrue result ↔ (a ≡ b) }
{
    a.width == b.width && a.price == b.price
}

fn same_blocks(a: &[Block], b: &[Block]) -> bool
    ensures { IsTrue result ↔ (a.now ≡ b.now) }
{
    if a.len() != b.len() {
        return false;
    }
    for k in 0..a.len() {
        if !same_block(a[k], b[k]) {
            return false;
        }
    }
    true
}

fn same_bid_blocks(a: &BlockLists, b: &BlockLists) -> bool
    ensures { IsTrue result ↔ (map items_in a.now.items ≡ map items_in b.now.items) }
{
    if a.len() != b.len() {
        return false;
    }
    for k in 0..a.len() {
        if !same_blocks(a.get(k).as_slice(), b.get(k).as_slice()) {
            return false;
        }
    }
    true
}

// How many numbers the flat lists of two bids' blocks begin with alike, up to the first period with
// other blocks.
fn count_equal_leading_bid_numbers(a: &BlockLists, b: &BlockLists) -> u32
    requires few { length a.now.items ≤ MOST_PERIODS }
    requires counts { All (λ bs. length bs.items ≤ MOST_BLOCKS) a.now.items }
    ensures { AreSame (flat_map period_numbers (map items_in a.now.items))
        (flat_map period_numbers (map items_in b.now.items)) result }
{
    let mut numbers = 0;
    for k in 0..a.len().min(b.len()) {
        let blocks = a.get(k).as_slice();
        if !same_blocks(blocks, b.get(k).as_slice()) {
            return numbers;
        }
        numbers += 1 + 2 * blocks.len() as u32;
    }
    numbers
}

/// How many numbers the flat lists of two tasks begin with alike, as far as that is seen at once:
/// up to the first period with other blocks where both are of bids at the same prices.
pub fn count_equal_leading_task_numbers(own: &Task, task: &Task) -> u32
    ensures { AreSame (task_numbers (prices_of own.now.prices) (task_unit own.now))
        (task_numbers (prices_of task.now.prices) (task_unit task.now)) result }
{
    let UnitKind::Bid = own.kind else {
        return 0;
    };
    let UnitKind::Bid = task.kind else {
        return 0;
    };
    if !same_prices(&own.prices, &task.prices) {
        return 0;
    }
    let prices = (own.prices.energy.len() + own.prices.reserve.len()) as u32;
    2 + prices + count_equal_leading_bid_numbers(&own.bid.blocks, &task.bid.blocks)
}

fn same_power_limits(a: &Unit, b: &Unit) -> bool
    ensures { IsTrue result ↔ HaveSamePowers (thermal_of a.now) (thermal_of b.now) }
{
    a.min_power == b.min_power
        && a.max_power == b.max_power
        && a.ramp_up == b.ramp_up
        && a.ramp_down == b.ramp_down
        && a.start_limit == b.start_limit
        && a.stop_limit == b.stop_limit
        && a.power0 == b.power0
}

fn same_up_and_down_times(a: &Unit, b: &Unit) -> bool
    ensures { IsTrue result ↔ HaveSameTimes (thermal_of a.now) (thermal_of b.now) }
{
    if a.must_run != b.must_run || a.on0 != b.on0 {
        return false;
    }
    a.min_up == b.min_up && a.min_down == b.min_down && a.up0 == b.up0 && a.down0 == b.down0
}

fn same_thermal(a: &Unit, b: &Unit) -> bool
    ensures { IsTrue result ↔ (thermal_of a.now ≡ thermal_of b.now) }
{
    same_power_limits(a, b)
        && same_up_and_down_times(a, b)
        && same_lags(a.lags.as_slice(), b.lags.as_slice())
        && same_points(a.points.as_slice(), b.points.as_slice())
        && same_window_marks(a.window.as_slice(), b.window.as_slice())
}

fn same_renewable(a: &Renewable, b: &Renewable) -> bool
    ensures { IsTrue result ↔ (renewable_of a.now ≡ renewable_of b.now) }
{
    same_numbers(a.least.as_slice(), b.least.as_slice())
        && same_numbers(a.most.as_slice(), b.most.as_slice())
}

/// Whether two lists of prices are the same.
pub fn same_prices(a: &Prices, b: &Prices) -> bool
    ensures { IsTrue result ↔ (prices_of a.now ≡ prices_of b.now) }
{
    same_numbers(a.energy.as_slice(), b.energy.as_slice())
        && same_numbers(a.reserve.as_slice(), b.reserve.as_slice())
}

/// Whether a task's unit is the one of that number in the case: where it says so, it is.
pub fn is_task_unit_same_as_case_unit(case: &Case, unit: u32, task: &Task) -> bool
    requires { unit < unit_count (market_of case.now) }
    ensures { IsTrue result → slice_get (units (market_of case.now)) unit
        ≡ Some (task_unit task.now) }
{
    match (case.unit_at(unit as usize).unit, task.kind) {
        (UnitRef::Thermal(own), UnitKind::Thermal) => same_thermal(own, &task.thermal),
        (UnitRef::Renewable(own), UnitKind::Flat) => same_renewable(own, &task.flat),
        (UnitRef::Bid(own), UnitKind::Bid) => same_bid_blocks(&own.blocks, &task.bid.blocks),
        _ => false,
    }
}
