//! The columns: schedules of each thermal unit that were seen, as entries of a mixture and in the
//! master problem.
ghost use Rattle.std.specs.Prelude.{◌≡◌, ◌+◌, ◌<◌, ◌≤◌, length, Some, slice_get};
ghost use Rattle.uc_model.specs.PlainCases.{market_of};
ghost use Rattle.uc_model.specs.PlainUnits.{thermal_of, schedule_of};
ghost use Rattle.uc_model.specs.Schedules.{IsThermalFeasible};
ghost use Rattle.uc_model.specs.declared.limits.TheConstants.{MOST_PERIODS};
ghost use Rattle.gap_proof.specs.declared.mixtures.Entry.{Entry};
ghost use Rattle.bundle_master.specs.Shape.{count_of};
ghost use Rattle.gap_proof.specs.Mixtures.{entries_of};
ghost use Rattle.bundle_columns.specs.Pools.{IsPool, places_in};
ghost use Rattle.bundle_columns.specs.Weights.{rescheduled, IsFitAt};

use crate::copies::copy_response;
use crate::weights::{WHOLE, redistribute_entry_weights};
use bundle_master::master::Master;
use bundle_master::numbers::floor_within;
use gap_proof::{Entries, Mixture};
use plain_lists::lists::Numbers;
use plan_check::costs::{costs_of_starts, power_costs};
use std::num::nearest_i64_to_f64;
use uc_model::cases::Case;
use uc_model::units::{Powers, Response, Unit};

/// The columns of all thermal units.
#[derive(Drop)]
pub struct Pool {
    /// Each column as an entry: places without a column have the plan's schedule, and no weight.
    pub columns: Mixture,
    /// The same columns as the master problem has them.
    pub master: Master,
    /// A number for each place.
    pub wanted: Numbers,
    /// The power of a column in each period, in kilowatts.
    pub power: Numbers,
    /// And its reserve.
    pub reserve: Numbers,
}

fn is_same_response(a: &Response, b: &Response) -> bool {
    a.power.as_slice() == b.power.as_slice()
        && a.reserve.as_slice() == b.reserve.as_slice()
        && a.on.as_slice() == b.on.as_slice()
}

// Whether a response is that of one of the first entries.
fn is_among_entries(entries: &Entries, count: usize, response: &Response) -> bool {
    for index in 0..count.min(entries.len()) {
        if is_same_response(&entries.get(index).response, response) {
            return true;
        }
    }
    false
}

// What a schedule costs, in the currency.
fn column_cost(unit: &Unit, response: &Response) -> f64
    requires horizon { length (schedule_of response.now).on ≤ MOST_PERIODS }
    requires feasible { IsThermalFeasible (thermal_of unit.now)
        (length (schedule_of response.now).on) (schedule_of response.now) }
{
    let cost = power_costs(unit, response) + costs_of_starts(unit, response);
    nearest_i64_to_f64(cost) / 1e6
}

// Leaves powers in as many numbers.
fn copy_powers(from: &Powers, into: &mut Numbers)
    requires { length into.old.items ≡ length from.now.items }
    ensures { length into.new.items ≡ length into.old.items }
{
    for k in 0..from.len() {
        into.set(k, i64::from(*from.get(k)));
    }
}

// Writes the schedule of the entry at an index.
fn write_schedule_of_entry(entries: &mut Entries, index: usize, response: &Response)
    requires index { index < length entries.old.items }
    requires horizon { (d : Entry) → slice_get entries.old.items index ≡ Some d
        → length (schedule_of d.response).on ≡ length (schedule_of response.now).on }
    ensures { entries_of entries.new ≡ rescheduled (entries_of entries.old) index
        (schedule_of response.now) }
{
    copy_response(response, &mut entries.get_mut(index).response);
}

// Writes the column of a place.
fn set_column(pool: &mut Pool, case: &Case, number: usize, index: usize, response: &Response)
    requires pool { IsPool (market_of case.now) (places_in pool.old) pool.old }
    requires fit { IsFitAt (market_of case.now) number (schedule_of response.now) }
    requires index { index < places_in pool.old }
    requires count { index ≤ count_of pool.old.master number }
    ensures { IsPool (market_of case.now) (places_in pool.old) pool.new }
{
    let cost = column_cost(&case.thermal.get(number).unit, response);
    write_schedule_of_entry(pool.columns.thermal.get_mut(number), index, response);
    copy_powers(&response.power, &mut pool.power);
    copy_powers(&response.reserve, &mut pool.reserve);
    let power = pool.power.as_slice();
    let reserve = pool.reserve.as_slice();
    pool.master.set_column(number, index, cost, power, reserve);
}

/// Keeps a feasible schedule of the thermal unit of a number as a column, where it is a new one;
/// tells whether it is. Where there is no free place it takes that of another.
pub fn add_column_if_new(pool: &mut Pool, case: &Case, number: usize, response: &Response) -> bool
    requires pool { IsPool (market_of case.now) (places_in pool.old) pool.old }
    requires fit { IsFitAt (market_of case.now) number (schedule_of response.now) }
    ensures { IsPool (market_of case.now) (places_in pool.old) pool.new }
{
    let count = pool.master.column_count(number);
    if is_among_entries(pool.columns.thermal.get(number), count, response) {
        return false;
    }
    let index = pool.master.next_column_index(number);
    set_column(pool, case, number, index, response);
    true
}

/// The same for the unit of a number, of which only a thermal one has columns.
pub fn add_answer_as_column(
    pool: &mut Pool,
    case: &Case,
    number: usize,
    response: &Response,
) -> bool
    requires pool { IsPool (market_of case.now) (places_in pool.old) pool.old }
    requires fit { number < length (market_of case.now).thermal
        → IsFitAt (market_of case.now) number (schedule_of response.now) }
    ensures { IsPool (market_of case.now) (places_in pool.old) pool.new }
{
    if number < case.thermal.len() {
        return add_column_if_new(pool, case, number, response);
    }
    false
}

// Reads the shares of a unit's columns as weights.
fn read_master_shares(master: &Master, number: usize, wanted: &mut Numbers)
    requires number { number < master.now.thermal }
    requires places { length wanted.old.items ≡ master.now.places }
    ensures { length wanted.new.items ≡ length wanted.old.items }
{
    let count = master.column_count(number);
    for index in 0..wanted.len() {
        let mut weight = 0;
        if index < count {
            weight = floor_within(1e12 * master.column_share(number, index) + 0.5, 0, WHOLE);
        }
        wanted.set(index, weight);
    }
}

// Gives the columns of a unit the weights that are their shares.
fn weigh_columns_of_unit(pool: &mut Pool, case: &Case, number: usize)
    requires pool { IsPool (market_of case.now) (places_in pool.old) pool.old }
    requires number { number < length (market_of case.now).thermal }
    ensures { IsPool (market_of case.now) (places_in pool.old) pool.new }
{
    read_master_shares(&pool.master, number, &mut pool.wanted);
    redistribute_entry_weights(pool.columns.thermal.get_mut(number), &pool.wanted);
}

/// Gives the columns the weights that are their shares in the master problem.
pub fn weigh_columns(pool: &mut Pool, case: &Case)
    requires { IsPool (market_of case.now) (places_in pool.old) pool.old }
    ensures { IsPool (market_of case.now) (places_in pool.old) pool.new }
{
    for number in 0..case.thermal.len() {
        weigh_columns_of_unit(pool, case, number);
    }
}
