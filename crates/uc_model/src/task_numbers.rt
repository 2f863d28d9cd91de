//! The numbers of a task one by one, as a board compares a task that comes back with its own.
ghost use Rattle.std.specs.Prelude.{◌≡◌, map, slice_get};
ghost use Rattle.std.specs.List.{flat_map};
ghost use Rattle.uc_model.specs.Data.{Thermal, Flat, Bid as BidOf};
ghost use Rattle.uc_model.specs.PlainUnits.{thermal_of, renewable_of, bid_of, prices_of};
ghost use Rattle.uc_model.specs.PlainCases.{task_unit};
ghost use Rattle.uc_model.specs.TaskLists.{lag_numbers, point_numbers, mark_number, block_numbers};
ghost use Rattle.uc_model.specs.TaskLists.{period_numbers, fixed_numbers, list_numbers};
ghost use Rattle.uc_model.specs.TaskLists.{unit_numbers, task_numbers};

use crate::cases::Task;
use crate::units::{Bid, Block, Lag, Mark, Point, Renewable, Unit, UnitKind};

const FIXED: usize = 13;

fn number_in_list(numbers: &[i64], place: usize) -> Option<i64>
    ensures { result ≡ slice_get numbers.now place }
{
    numbers.get(place).copied()
}

fn lag_at(lags: &[Lag], place: usize) -> Option<Lag>
    ensures { result ≡ slice_get lags.now place }
{
    lags.get(place).copied()
}

fn point_at(points: &[Point], place: usize) -> Option<Point>
    ensures { result ≡ slice_get points.now place }
{
    points.get(place).copied()
}

fn window_mark_at(marks: &[Mark], place: usize) -> Option<Mark>
    ensures { result ≡ slice_get marks.now place }
{
    marks.get(place).copied()
}

fn block_at(blocks: &[Block], place: usize) -> Option<Block>
    ensures { result ≡ slice_get blocks.now place }
{
    blocks.get(place).copied()
}

fn flattened_lag_number_at(lags: &[Lag], place: usize) -> Option<i64>
    ensures { result ≡ slice_get (flat_map lag_numbers lags.now) place }
{
    match lag_at(lags, place / 2) {
        Some(lag) if place % 2 == 0 => Some(i64::from(lag.lag)),
        Some(lag) => Some(lag.cost),
        None => None,
    }
}

fn flattened_cost_point_number_at(points: &[Point], place: usize) -> Option<i64>
    ensures { result ≡ slice_get (flat_map point_numbers points.now) place }
{
    match point_at(points, place / 2) {
        Some(point) if place % 2 == 0 => Some(point.at),
        Some(point) => Some(point.cost),
        None => None,
    }
}

fn flattened_window_mark_at(marks: &[Mark], place: usize) -> Option<i64>
    ensures { result ≡ slice_get (map mark_number marks.now) place }
{
    match window_mark_at(marks, place) {
        Some(Mark::Free) => Some(0),
        Some(Mark::MustOff) => Some(1),
        Some(Mark::MustOn) => Some(2),
        None => None,
    }
}

fn flattened_block_number_at(blocks: &[Block], place: usize) -> Option<i64>
    ensures { result ≡ slice_get (flat_map block_numbers blocks.now) place }
{
    match block_at(blocks, place / 2) {
        Some(block) if place % 2 == 0 => Some(block.width),
        Some(block) => Some(block.price),
        None => None,
    }
}

fn thermal_unit_field_at(u: &Unit, place: usize) -> Option<i64>
    ensures { result ≡ slice_get (fixed_numbers (thermal_of u.now)) place }
{
    match place {
        0 => Some(i64::from(u.must_run)),
        1 => Some(u.min_power),
        2 => Some(u.max_power),
        3 => Some(u.ramp_up),
        4 => Some(u.ramp_down),
        5 => Some(u.start_limit),
        6 => Some(u.stop_limit),
        7 => Some(i64::from(u.min_up)),
        8 => Some(i64::from(u.min_down)),
        9 => Some(u.power0),
        10 => Some(i64::from(u.on0)),
        11 => Some(i64::from(u.up0)),
        12 => Some(i64::from(u.down0)),
        _ => None,
    }
}

// The numbers of the unit's lists, from the count of lags on.
fn flattened_unit_lists_number_at(u: &Unit, place: usize) -> Option<i64>
    ensures { result ≡ slice_get (list_numbers (thermal_of u.now)) place }
{
    let lags = u.lags.as_slice();
    let points = u.points.as_slice();
    if place == 0 {
        return Some(lags.len() as i64);
    }
    if place <= 2 * lags.len() {
        return flattened_lag_number_at(lags, place - 1);
    }
    if place == 2 * lags.len() + 1 {
        return Some(points.len() as i64);
    }
    if place < 2 * lags.len() + 2 + 2 * points.len() {
        return flattened_cost_point_number_at(points, place - 2 * lags.len() - 2);
    }
    flattened_window_mark_at(
        u.window.as_slice(),
        place - 2 * lags.len() - 2 - 2 * points.len(),
    )
}

fn flattened_thermal_unit_number_at(u: &Unit, place: usize) -> Option<i64>
    ensures { result ≡ slice_get (unit_numbers (Thermal (thermal_of u.now))) place }
{
    if place == 0 {
        return Some(0);
    }
    if place <= FIXED {
        return thermal_unit_field_at(u, place - 1);
    }
    flattened_unit_lists_number_at(u, place - FIXED - 1)
}

fn flattened_renewable_number_at(r: &Renewable, place: usize) -> Option<i64>
    ensures { result ≡ slice_get (unit_numbers (Flat (renewable_of r.now))) place }
{
    let least = r.least.as_slice();
    let most = r.most.as_slice();
    if place == 0 {
        return Some(1);
    }
    if place <= least.len() {
        return number_in_list(least, place - 1);
    }
    number_in_list(most, place - least.len() - 1)
}

// The numbers of one period's blocks.
fn flattened_period_blocks_number_at(blocks: &[Block], place: usize) -> Option<i64>
    ensures { result ≡ slice_get (period_numbers blocks.now) place }
{
    if place == 0 {
        return Some(blocks.len() as i64);
    }
    flattened_block_number_at(blocks, place - 1)
}

// The numbers of a bid after its kind, period by period.
fn flattened_bid_blocks_number_at(b: &Bid, place: usize) -> Option<i64>
    ensures { result ≡ slice_get (flat_map period_numbers (bid_of b.now).blocks) place }
{
    let mut left = place;
    for period in b.blocks.as_slice() {
        let blocks = period.as_slice();
        let size = 1 + 2 * blocks.len();
        if left < size {
            return flattened_period_blocks_number_at(blocks, left);
        }
        left -= size;
    }
    None
}

fn flattened_bid_number_at(b: &Bid, place: usize) -> Option<i64>
    ensures { result ≡ slice_get (unit_numbers (BidOf (bid_of b.now))) place }
{
    if place == 0 {
        return Some(2);
    }
    flattened_bid_blocks_number_at(b, place - 1)
}

fn flattened_task_unit_number_at(task: &Task, place: usize) -> Option<i64>
    ensures { result ≡ slice_get (unit_numbers (task_unit task.now)) place }
{
    match task.kind {
        UnitKind::Thermal => flattened_thermal_unit_number_at(&task.thermal, place),
        UnitKind::Flat => flattened_renewable_number_at(&task.flat, place),
        UnitKind::Bid => flattened_bid_number_at(&task.bid, place),
    }
}

/// The number at a place of the task's flat list, and `None` exactly past its end. Places count
/// from 0. The list has the number of periods, the energy prices, the reserve prices, and then the
/// unit, each count before its items; the proposal and the unit's number aren't in it.
pub fn flat_number(task: &Task, place: u32) -> Option<i64>
    ensures { result ≡ slice_get (task_numbers (prices_of task.now.prices) (task_unit task.now))
        place }
{
    let place = place as usize;
    let energy = task.prices.energy.as_slice();
    let reserve = task.prices.reserve.as_slice();
    if place == 0 {
        return Some(energy.len() as i64);
    }
    if place <= energy.len() {
        return number_in_list(energy, place - 1);
    }
    if place <= energy.len() + reserve.len() {
        return number_in_list(reserve, place - energy.len() - 1);
    }
    flattened_task_unit_number_at(task, place - energy.len() - reserve.len() - 1)
}
