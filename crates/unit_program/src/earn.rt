//! What all units of a case earn at best at prices.
ghost use Rattle.std.specs.Prelude.{◌≡◌, ◌+◌, ◌≤◌, length};
ghost use Rattle.uc_model.specs.Data.{unit_count};
ghost use Rattle.uc_model.specs.PlainCases.{market_of};
ghost use Rattle.uc_model.specs.PlainUnits.{prices_of, schedule_of};
ghost use Rattle.unit_program.specs.Tops.{HasSchedules, IsBenchOver, AreTops};

use crate::bench::Bench;
use crate::case_laws::feasible_units_can_answer;
use crate::last::LastAnswers;
use crate::unit_answer::write_best_response_of_numbered_unit;
use plain_lists::lists::Numbers;
use uc_model::cases::Case;
use uc_model::units::{Answered, Prices};

/// Leaves in `into` what the best schedules of each unit and bid earn at the prices, in money and
/// in the order of the units' numbers. Each of them has a feasible schedule. The bench suffices for
/// each thermal unit, and does so afterwards. Prices and buffer are over the periods of the case,
/// and `into` has room for a number for each unit. The buffer is left with any answer over those
/// periods. Takes no memory.
pub fn earn_all(
    bench: &mut Bench,
    last: &LastAnswers,
    case: &Case,
    prices: &Prices,
    buffer: &mut Answered,
    into: &mut Numbers,
)
    requires some { HasSchedules (market_of case.now) }
    requires bench { IsBenchOver (market_of case.now) bench.old }
    requires horizon { length (prices_of prices.now).energy ≡ (market_of case.now).periods }
    requires buffer { length (schedule_of buffer.old.response).on ≡ (market_of case.now).periods }
    requires room { unit_count (market_of case.now) ≤ length into.old.items + into.old.spare }
    ensures tops { AreTops (market_of case.now) (prices_of prices.now) into.new.items }
    ensures bench { IsBenchOver (market_of case.now) bench.new }
    ensures buffer { length (schedule_of buffer.new.response).on ≡ (market_of case.now).periods }
{
    feasible_units_can_answer();
    into.clear();
    for number in 0..case.unit_count() as usize {
        write_best_response_of_numbered_unit(bench, last, case, prices, number, buffer);
        into.push(buffer.earned);
    }
}
