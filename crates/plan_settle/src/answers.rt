//! What each unit does at prices.
ghost use Rattle.std.specs.Prelude.{◌≡◌, ◌≤◌, [], length, map};
ghost use Rattle.uc_model.specs.Data.{unit_count};
ghost use Rattle.uc_model.specs.PlainCases.{market_of};
ghost use Rattle.uc_model.specs.PlainUnits.{prices_of, schedule_of};
ghost use Rattle.unit_program.specs.Tops.{HasSchedules, IsBenchOver};
ghost use Rattle.plan_settle.specs.Answers.{AreAnswersTo};
ghost use Rattle.plan_settle.specs.Rooms.{AreOver};

use crate::room::Spare;
use plain_lists::lists::Numbers;
use uc_model::cases::Case;
use uc_model::units::{Prices, ResponseList};
use unit_program::case_laws::feasible_units_can_answer;
use unit_program::{Bench, write_best_response_of_numbered_unit};

/// Leaves the least best response of each unit and bid at the prices in `responses`, and what it
/// earns in money in `earned`, in the order of the units' numbers. Both lists have room for them.
/// Each answer is written over a spare one, of which there is one for each unit. Takes no memory.
pub fn answer_each_unit_at_prices(
    bench: &mut Bench,
    case: &Case,
    prices: &Prices,
    spare: Spare,
    responses: &mut ResponseList,
    earned: &mut Numbers,
)
    requires some { HasSchedules (market_of case.now) }
    requires bench { IsBenchOver (market_of case.now) bench.old }
    requires horizon { length (prices_of prices.now).energy ≡ (market_of case.now).periods }
    requires spare { AreOver (market_of case.now).periods (unit_count (market_of case.now))
        spare.answers.items }
    requires no_response { responses.old.items ≡ [] }
    requires response_room { unit_count (market_of case.now) ≤ responses.old.spare }
    requires nothing_earned { earned.old.items ≡ [] }
    requires earned_room { unit_count (market_of case.now) ≤ earned.old.spare }
    ensures answers { AreAnswersTo (market_of case.now) (prices_of prices.now)
        (unit_count (market_of case.now)) (map schedule_of responses.new.items)
        earned.new.items }
    ensures bench { IsBenchOver (market_of case.now) bench.new }
{
    feasible_units_can_answer();
    let Spare { mut answers, last } = spare;
    for number in 0..case.unit_count() as usize {
        let Some(mut answer) = answers.pop() else {
            return;
        };
        write_best_response_of_numbered_unit(bench, &last, case, prices, number, &mut answer);
        earned.push(answer.earned);
        responses.push(answer.response);
    }
}
