//! What all units would do at prices.
ghost use Rattle.std.specs.Prelude.{◌≡◌, ◌+◌, ◌*◌, length};
ghost use Rattle.uc_model.specs.PlainCases.{market_of};
ghost use Rattle.uc_model.specs.PlainUnits.{prices_of, schedule_of};
ghost use Rattle.unit_program.specs.Tops.{HasSchedules, AreTops};
ghost use Rattle.bundle_columns.specs.Pools.{IsPool, places_in};
ghost use Rattle.convex_search.specs.Searching.{IsOracle};

use bundle_columns::pool::{Pool, add_answer_as_column};
use plain_lists::lists::Numbers;
use std::num::nearest_i64_to_f64;
use uc_model::cases::Case;
use uc_model::laws::unit_numbers_go_by_kind;
use uc_model::units::{Answered, Flow, Prices, Response};
use unit_program::case_laws::feasible_units_can_answer;
use unit_program::{Bench, LastAnswers, write_best_response_of_numbered_unit};

/// What answers are worked out on.
#[derive(Drop)]
pub struct Oracle {
    /// The bench of the thermal units.
    pub bench: Bench,
    /// Their last answers.
    pub last: LastAnswers,
    /// The last answer of any unit.
    pub answer: Answered,
    /// What each unit earns.
    pub earned: Numbers,
    /// What all units give together in each row, in megawatts.
    pub given: Vec<f64>,
}

// Adds what a response gives.
fn add_response_totals(given: &mut [f64], flow: Flow, response: &Response)
    requires { length given.old ≡ 2 * length (schedule_of response.now).on }
{
    let periods = response.periods();
    for k in 0..periods {
        let power = nearest_i64_to_f64(response.power_at(k)) / 1e3;
        match flow {
            Flow::Gives => given[k] += power,
            Flow::Takes => given[k] -= power,
        }
        given[periods + k] += nearest_i64_to_f64(response.reserve_at(k)) / 1e3;
    }
}

fn write_zeros(numbers: &mut [f64]) {
    for number in numbers {
        *number = 0.0;
    }
}

/// Asks each unit for its answer at prices, and keeps those of the thermal units as columns. Tells
/// whether one is a new one. Leaves what each unit earns, and what all give. Takes no memory.
pub fn add_best_responses_as_columns(
    oracle: &mut Oracle,
    case: &Case,
    prices: &Prices,
    pool: &mut Pool,
) -> bool
    requires some { HasSchedules (market_of case.now) }
    requires oracle { IsOracle (market_of case.now) oracle.old }
    requires horizon { length (prices_of prices.now).energy ≡ (market_of case.now).periods }
    requires pool { IsPool (market_of case.now) (places_in pool.old) pool.old }
    ensures tops { AreTops (market_of case.now) (prices_of prices.now) oracle.new.earned.items }
    ensures oracle { IsOracle (market_of case.now) oracle.new }
    ensures pool { IsPool (market_of case.now) (places_in pool.old) pool.new }
{
    feasible_units_can_answer();
    unit_numbers_go_by_kind();
    oracle.earned.clear();
    write_zeros(&mut oracle.given);
    let mut is_new = false;
    for number in 0..case.unit_count() as usize {
        let flow = write_best_response_of_numbered_unit(
            &mut oracle.bench,
            &oracle.last,
            case,
            prices,
            number,
            &mut oracle.answer,
        );
        oracle.earned.push(oracle.answer.earned);
        add_response_totals(&mut oracle.given, flow, &oracle.answer.response);
        let kept = add_answer_as_column(pool, case, number, &oracle.answer.response);
        is_new = is_new || kept;
    }
    is_new
}
