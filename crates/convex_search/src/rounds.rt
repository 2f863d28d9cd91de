//! The rounds of a search.
ghost use Rattle.std.specs.Prelude.{◌≡◌, ◌*◌, ◌<◌, ◌≤◌, IsTrue};
ghost use Rattle.uc_model.specs.Limits.{IsWorth};
ghost use Rattle.uc_model.specs.PlainCases.{market_of};
ghost use Rattle.unit_program.specs.Tops.{HasSchedules};
ghost use Rattle.gap_proof.specs.MixtureSizes.{IsBound};
ghost use Rattle.convex_search.specs.FoundPrices.{IsNear};
ghost use Rattle.bundle_columns.specs.Pools.{places_in};
ghost use Rattle.convex_search.specs.Searching.{IsSearch};

use crate::best::{Best, is_bound_within, is_bound_within_or_near};
use crate::bounds::{bound_of_columns, take_columns_as_best};
use crate::goals::Goal;
use crate::pace::{Outcome, Pace, step_size_from_gap};
use crate::points::{HIGHEST, extrapolate_point, least_price_of_row};
use crate::search::{
    Asked, Search, ask_units_at_round_point, ask_units_at_trial_point, in_currency,
};
use bundle_columns::pool::weigh_columns;
use bundle_master::master::Aim;
use bundle_master::numbers::in_megawatts;
use uc_model::cases::Case;

/// After so many close rounds a millionth of the dual value is enough.
const LATE: u32 = 10;

/// Newton steps of a master problem at most.
const STEPS: usize = 60;

/// How far from the limits of prices a master problem starts.
const INSIDE: f64 = 1.0;

const INSIDE_LEAST: f64 = 0.01;

/// Where a round asks beside the master problem's prices, on the way from the centre through them.
const WAYS: [f64; 12] = [
    0.5, 1.5, 0.75, 1.25, 2.0, 0.25, 1.1, 0.9, 3.0, 0.6, 1.75, 0.4,
];

// What the answers lack in all rows: the sum of the squares. Reserve beyond what is required lacks
// nothing.
fn sum_of_squared_imbalances(search: &Search, case: &Case) -> f64
    requires { IsSearch (market_of case.now) (places_in search.now.pool) search.now }
{
    let periods = case.periods as usize;
    let mut sum = 0.0;
    for k in 0..periods {
        let power = in_megawatts(*case.demand.get(k)) - search.oracle.given[k];
        let reserve = in_megawatts(*case.reserves.get(k)) - search.oracle.given[periods + k];
        let short = reserve.max(0.0);
        sum += power * power + short * short;
    }
    sum
}

fn first_step_size_of_search(search: &Search, case: &Case) -> Pace
    requires { IsSearch (market_of case.now) (places_in search.now.pool) search.now }
{
    let value = in_currency(search.best.value);
    let bound = in_currency(search.best.bound);
    step_size_from_gap(value, bound, sum_of_squared_imbalances(search, case))
}

/// Puts the centre into the master problem, and its prices there too, or just inside the limits.
pub fn write_centre_into_master(search: &mut Search, case: &Case)
    requires { IsSearch (market_of case.now) (places_in search.old.pool) search.old }
    ensures search { IsSearch (market_of case.now) (places_in search.old.pool) search.new }
    ensures best { search.new.best ≡ search.old.best }
{
    let periods = case.periods as usize;
    for row in 0..2 * periods {
        let low = if row < periods {
            least_price_of_row(row, periods) + INSIDE
        } else {
            INSIDE_LEAST
        };
        let price = search.centre[row];
        search.pool.master.set_centre(row, price);
        search
            .pool
            .master
            .set_price(row, price.max(low).min(HIGHEST - INSIDE));
    }
}

fn take_master_prices(search: &mut Search, case: &Case)
    requires { IsSearch (market_of case.now) (places_in search.old.pool) search.old }
    ensures { IsSearch (market_of case.now) (places_in search.old.pool) search.new }
{
    let periods = case.periods as usize;
    for row in 0..2 * periods {
        search.point[row] = search.pool.master.row_price(row);
    }
}

// Proves a bound by the shares of the master problem, and keeps it where it is the least.
fn prove_bound(search: &mut Search, case: &Case)
    requires { IsSearch (market_of case.now) (places_in search.old.pool) search.old }
    ensures { IsSearch (market_of case.now) (places_in search.old.pool) search.new }
{
    weigh_columns(&mut search.pool, case);
    let bound = bound_of_columns(search, case);
    if bound < search.best.bound {
        take_columns_as_best(search, case, bound);
    }
}

// How often a round asks beside: the more, the fewer units there are for the rows.
fn trial_count(case: &Case) -> usize
    ensures { result ≤ 12 }
{
    let thermal = case.thermal.len();
    if thermal == 0 {
        return 0;
    }
    WAYS.len().min(1 + case.periods as usize / thermal)
}

// Asks at the prices of the round, and at others on the way to them, and goes on from the best.
fn ask_units_along_line(search: &mut Search, case: &Case) -> Asked
    requires some { HasSchedules (market_of case.now) }
    requires search { IsSearch (market_of case.now) (places_in search.old.pool) search.old }
    ensures { IsSearch (market_of case.now) (places_in search.old.pool) search.new }
{
    let mut asked = ask_units_at_round_point(search, case);
    let mut best = 1.0;
    for way in 0..trial_count(case) {
        extrapolate_point(&search.centre, &search.point, WAYS[way], &mut search.trial);
        let other = ask_units_at_trial_point(search, case);
        asked.is_new = asked.is_new || other.is_new;
        if other.value > asked.value {
            asked.value = other.value;
            best = WAYS[way];
        }
    }
    extrapolate_point(&search.centre, &search.point, best, &mut search.trial);
    asked
}

// One round.
fn make_round(search: &mut Search, case: &Case, pace: &mut Pace)
    requires some { HasSchedules (market_of case.now) }
    requires search { IsSearch (market_of case.now) (places_in search.old.pool) search.old }
    ensures { IsSearch (market_of case.now) (places_in search.old.pool) search.new }
{
    write_centre_into_master(search, case);
    let aim = Aim {
        ridge: 1.0 / pace.reach,
        accuracy: pace.complementarity_tolerance(),
        wide: pace.initial_complementarity(),
        strict: pace.close,
        balance: pace.complementarity_tolerance(),
        steps: STEPS,
    };
    if !search.pool.master.solve(aim) {
        pace.shorten_step_size();
        return;
    }
    take_master_prices(search, case);
    if pace.close {
        pace.late = pace.late.saturating_add(1);
        prove_bound(search, case);
    }
    let standing = search.pool.master.summary_of_last_solution();
    let asked = ask_units_along_line(search, case);
    let outcome = Outcome {
        now: standing.now,
        products: standing.products,
        value: in_currency(asked.value),
        best: in_currency(search.best.value),
        is_new: asked.is_new,
    };
    if pace.step(outcome) {
        search.centre.copy_from_slice(&search.trial);
    }
}

// Whether the search may end.
fn is_done(best: &Best, within: i64, late: u32) -> bool
    requires bound { IsBound best.now.bound }
    requires value { IsWorth best.now.value }
    ensures { IsTrue result → IsNear within best.now.bound best.now.value }
{
    if late < LATE {
        return is_bound_within(best.bound, best.value, within);
    }
    is_bound_within_or_near(best.bound, best.value, within)
}

/// Makes rounds until the goal is reached. Tells how many.
pub fn make_rounds(search: &mut Search, case: &Case, goal: Goal) -> u32
    requires some { HasSchedules (market_of case.now) }
    requires search { IsSearch (market_of case.now) (places_in search.old.pool) search.old }
    ensures search { IsSearch (market_of case.now) (places_in search.old.pool) search.new }
    ensures made { result ≤ goal.rounds }
    ensures near { result < goal.rounds
        → IsNear goal.within search.new.best.bound search.new.best.value }
{
    let mut pace = first_step_size_of_search(search, case);
    for made in 0..goal.rounds {
        if is_done(&search.best, goal.within, pace.late) {
            return made;
        }
        make_round(search, case, &mut pace);
    }
    goal.rounds
}
