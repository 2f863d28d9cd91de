//! The answer of a number, added to sums.
ghost use Rattle.std.specs.Prelude.{◌≡◌, ℕ, ◌+◌, length};
ghost use Rattle.plain_lists.specs.declared.limits.TheConstants.{MOST_UNITS};
ghost use Rattle.uc_model.specs.PlainCases.{market_of};
ghost use Rattle.uc_model.specs.PlainUnits.{prices_of, schedule_of};
ghost use Rattle.unit_program.specs.Tops.{CanAnswer, IsBenchOver};
ghost use Rattle.audit_check.specs.Sums.{AreWithin, IsMore};

use crate::sums::Sums;
use std::alloc::Global;
use std::sync::Arc;
use uc_model::cases::Case;
use uc_model::laws::{
    earnings_are_within, outputs_are_within, unit_numbers_go_by_kind, units_are_within,
};
use uc_model::units::{Answered, Prices};
use unit_program::{Bench, LastAnswers, write_best_response_of_numbered_unit};

/// What units are answered with: a bench, their last answers, which other benches may share, and
/// room for an answer.
#[derive(Drop)]
pub struct AnswerRoom {
    pub bench: Bench,
    pub last: Arc<LastAnswers, Global>,
    pub answer: Answered,
}

/// Answers the unit of a number at the prices, and adds what it earns, gives or takes, and
/// reserves; adds nothing where there is no unit of that number. Takes no memory.
pub fn answer_unit_and_add_to_sums(
    means: &mut AnswerRoom,
    case: &Case,
    prices: &Prices,
    number: u32,
    sums: &mut Sums,
)
    requires some { CanAnswer (market_of case.now) }
    requires bench { IsBenchOver (market_of case.now) means.old.bench }
    requires horizon { length (prices_of prices.now).energy ≡ (market_of case.now).periods }
    requires answer { length (schedule_of means.old.answer.response).on
        ≡ (market_of case.now).periods }
    requires within { AreWithin (market_of case.now).periods MOST_UNITS sums.old }
    ensures more { IsMore (market_of case.now) (prices_of prices.now) number sums.old sums.new }
    ensures within { (n : ℕ) → AreWithin (market_of case.now).periods n sums.old
        → AreWithin (market_of case.now).periods (n + 1) sums.new }
    ensures bench { IsBenchOver (market_of case.now) means.new.bench }
    ensures answer { length (schedule_of means.new.answer.response).on
        ≡ (market_of case.now).periods }
{
    unit_numbers_go_by_kind();
    units_are_within();
    outputs_are_within();
    earnings_are_within();
    if number >= case.unit_count() {
        return;
    }
    let flow = write_best_response_of_numbered_unit(
        &mut means.bench,
        &means.last,
        case,
        prices,
        number as usize,
        &mut means.answer,
    );
    sums.count(flow, &means.answer);
}
