//! Mixtures of few entries.
ghost use Rattle.std.specs.Prelude.{◌≡◌, ◌<◌, length, IsTrue};
ghost use Rattle.uc_model.specs.Limits.{IsWorth};
ghost use Rattle.uc_model.specs.PlainCases.{market_of};
ghost use Rattle.gap_proof.specs.MixtureSizes.{IsBound};
ghost use Rattle.convex_search.specs.FoundPrices.{IsNear};
ghost use Rattle.bundle_columns.specs.Pools.{IsPool, places_in};
ghost use Rattle.convex_search.specs.Searching.{IsSearch};

use crate::best::{Best, is_bound_near_value, is_bound_within, is_bound_within_or_near};
use crate::bounds::{bound_of_columns, take_columns_as_best};
use crate::goals::Goal;
use crate::pace::tolerance_at_value;
use crate::points::write_prices_as_point;
use crate::rounds::write_centre_into_master;
use crate::search::{Search, in_currency};
use bundle_columns::copies::copy_mixture;
use bundle_columns::pool::{Pool, weigh_columns};
use bundle_columns::weights::{WHOLE, redistribute_entry_weights, weight_at};
use bundle_master::master::Aim;
use bundle_master::numbers::{floor_within, in_megawatts};
use gap_proof::Entries;
use plain_lists::lists::Numbers;
use std::num::nearest_i64_to_f64;
use uc_model::cases::Case;

/// Shares below which entries are left out, in parts of the whole, as far as the bound allows.
const THRESHOLDS: [i64; 10] = [
    1_000_000_000,
    100_000_000,
    10_000_000,
    1_000_000,
    100_000,
    10_000,
    1_000,
    100,
    10,
    2,
];

/// By how much costs are made to differ for a mixture of few entries, in what may be lost for each
/// unit; how near the products come to 0, in that difference; where they start, in what is near; and
/// what is off, in what may be lost.
const PERTURBATION: f64 = 25.0;

const ACCURACY: f64 = 1e-6;

const WIDE: f64 = 30.0;

const BALANCE: f64 = 0.05;

const RIDGE: f64 = 1e-4;

const STEPS: usize = 150;

// Writes the weights without those below a threshold, the others grown to the whole.
fn write_weights_above_threshold(entries: &Entries, threshold: i64, wanted: &mut Numbers)
    requires { length wanted.old.items ≡ length entries.now.items }
    ensures { length wanted.new.items ≡ length wanted.old.items }
{
    let mut kept = 0.0;
    for entry in entries.as_slice() {
        if entry.weight >= threshold {
            kept += nearest_i64_to_f64(entry.weight);
        }
    }
    for index in 0..wanted.len() {
        let weight = weight_at(entries, index);
        let mut grown = 0;
        if weight >= threshold {
            grown = floor_within(1e12 * (nearest_i64_to_f64(weight) / kept) + 0.5, 0, WHOLE);
        }
        wanted.set(index, grown);
    }
}

// Leaves out the entries of a unit that are below a threshold.
fn leave_out_light_columns_of_unit(pool: &mut Pool, case: &Case, number: usize, threshold: i64)
    requires pool { IsPool (market_of case.now) (places_in pool.old) pool.old }
    requires number { number < length (market_of case.now).thermal }
    ensures { IsPool (market_of case.now) (places_in pool.old) pool.new }
{
    write_weights_above_threshold(
        pool.columns.thermal.get(number),
        threshold,
        &mut pool.wanted,
    );
    redistribute_entry_weights(pool.columns.thermal.get_mut(number), &pool.wanted);
}

// Leaves out, unit by unit, the columns below the threshold.
fn leave_out_light_columns(pool: &mut Pool, case: &Case, threshold: i64)
    requires { IsPool (market_of case.now) (places_in pool.old) pool.old }
    ensures { IsPool (market_of case.now) (places_in pool.old) pool.new }
{
    for number in 0..case.thermal.len() {
        leave_out_light_columns_of_unit(pool, case, number, threshold);
    }
}

// The greatest distance that a shorter mixture may have.
fn greatest_allowed_duality_gap(best: &Best, within: i64) -> i128
    requires bound { IsBound best.now.bound }
    requires value { IsWorth best.now.value }
{
    let distance = best.bound - best.value;
    let grown = distance + distance / 10;
    if is_bound_within(best.bound, best.value, within) {
        return i128::from(within);
    }
    if is_bound_near_value(best.bound, best.value) {
        return grown.min(best.value.abs() / 1_000_000);
    }
    grown
}

// Whether a bound may stand in place of a lesser one: a search that has ended early stays near.
fn is_bound_within_allowed_gap(best: &Best, bound: i128, most: i128, goal: Goal, made: u32) -> bool
    requires bound { IsBound bound }
    requires value { IsWorth best.now.value }
    ensures { IsTrue result → made < goal.rounds → IsNear goal.within bound best.now.value }
{
    if bound - best.value > most {
        return false;
    }
    if made < goal.rounds {
        return is_bound_within_or_near(bound, best.value, goal.within);
    }
    true
}

// Takes the columns but for those below a threshold, where the bound allows it; tells whether it does.
fn take_columns_above_threshold(
    search: &mut Search,
    case: &Case,
    threshold: i64,
    most: i128,
    goal: Goal,
    made: u32,
) -> bool
    requires search { IsSearch (market_of case.now) (places_in search.old.pool) search.old }
    requires near { made < goal.rounds
        → IsNear goal.within search.old.best.bound search.old.best.value }
    ensures search { IsSearch (market_of case.now) (places_in search.old.pool) search.new }
    ensures near { made < goal.rounds
        → IsNear goal.within search.new.best.bound search.new.best.value }
{
    leave_out_light_columns(&mut search.pool, case, threshold);
    let bound = bound_of_columns(search, case);
    if !is_bound_within_allowed_gap(&search.best, bound, most, goal, made) {
        return false;
    }
    take_columns_as_best(search, case, bound);
    true
}

// Solves the master problem at the best prices, with costs that differ a little: then few columns
// have a share. What may be lost by that is shared among the units.
fn solve_perturbed(search: &mut Search, case: &Case, most: i128) -> bool
    requires { IsSearch (market_of case.now) (places_in search.old.pool) search.old }
    ensures search { IsSearch (market_of case.now) (places_in search.old.pool) search.new }
    ensures best { search.new.best ≡ search.old.best }
{
    let value = in_currency(search.best.value);
    let distance = in_currency(search.best.bound) - value;
    let left = (in_currency(most) - distance).max(0.0);
    let amount = PERTURBATION * left / in_megawatts(1000 * case.thermal.len() as i64).max(1.0);
    search.pool.master.perturb_column_costs(amount);
    write_prices_as_point(&search.best.prices, &mut search.centre);
    write_centre_into_master(search, case);
    search.pool.master.solve(Aim {
        ridge: RIDGE,
        accuracy: ACCURACY * amount,
        wide: WIDE * tolerance_at_value(value),
        strict: true,
        balance: BALANCE * left,
        steps: STEPS,
    })
}

// Takes the shares of a master problem in which few columns have one, and leaves out those of little
// weight; tells whether the bound allows it.
fn shorten_mixture_of_master(
    search: &mut Search,
    case: &Case,
    most: i128,
    goal: Goal,
    made: u32,
) -> bool
    requires search { IsSearch (market_of case.now) (places_in search.old.pool) search.old }
    requires near { made < goal.rounds
        → IsNear goal.within search.old.best.bound search.old.best.value }
    ensures search { IsSearch (market_of case.now) (places_in search.old.pool) search.new }
    ensures near { made < goal.rounds
        → IsNear goal.within search.new.best.bound search.new.best.value }
{
    if !solve_perturbed(search, case, most) {
        return false;
    }
    for step in 0..THRESHOLDS.len() {
        weigh_columns(&mut search.pool, case);
        if take_columns_above_threshold(search, case, THRESHOLDS[step], most, goal, made) {
            return true;
        }
    }
    false
}

// Leaves entries of little weight out of the best mixture, as far as the bound allows.
fn shorten_best_mixture(search: &mut Search, case: &Case, most: i128, goal: Goal, made: u32)
    requires search { IsSearch (market_of case.now) (places_in search.old.pool) search.old }
    requires near { made < goal.rounds
        → IsNear goal.within search.old.best.bound search.old.best.value }
    ensures search { IsSearch (market_of case.now) (places_in search.old.pool) search.new }
    ensures near { made < goal.rounds
        → IsNear goal.within search.new.best.bound search.new.best.value }
{
    let places = search.pool.wanted.len();
    for step in 0..THRESHOLDS.len() {
        let columns = &mut search.pool.columns;
        copy_mixture(case, places, &search.best.mixture, columns);
        if take_columns_above_threshold(search, case, THRESHOLDS[step], most, goal, made) {
            return;
        }
    }
}

/// Leaves a mixture of fewer entries, as long as the distance stays within what was asked for, or
/// else grows by a tenth at most.
pub fn shorten_mixture(search: &mut Search, case: &Case, goal: Goal, made: u32)
    requires search { IsSearch (market_of case.now) (places_in search.old.pool) search.old }
    requires near { made < goal.rounds
        → IsNear goal.within search.old.best.bound search.old.best.value }
    ensures search { IsSearch (market_of case.now) (places_in search.old.pool) search.new }
    ensures near { made < goal.rounds
        → IsNear goal.within search.new.best.bound search.new.best.value }
{
    let most = greatest_allowed_duality_gap(&search.best, goal.within);
    if !shorten_mixture_of_master(search, case, most, goal, made) {
        shorten_best_mixture(search, case, most, goal, made);
    }
}
