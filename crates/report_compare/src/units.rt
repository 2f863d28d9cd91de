//! The lines of units and bids.
ghost use Rattle.std.specs.Prelude.{◌≡◌, ◌+◌, ◌*◌, ◌<◌, ◌≤◌, ◌^◌, List, length, map, IfOk};
ghost use Rattle.std.specs.Bool.{Decides};
ghost use Rattle.std.specs.List.{AllZip, flat_map};
ghost use Rattle.uc_model.specs.Data.{Schedule, units, unit_count};
ghost use Rattle.uc_model.specs.PlainCases.{market_of};
ghost use Rattle.uc_model.specs.PlainUnits.{prices_of, schedule_of};
ghost use Rattle.uc_model.specs.Runs.{Fits};
ghost use Rattle.plain_lists.specs.Sums.{int_at};
ghost use Rattle.unit_program.specs.Tops.{HasSchedules};
ghost use Rattle.report_form.specs.ReportText.{owed_line};
ghost use Rattle.report_read.specs.Plain.{told_of};
ghost use Rattle.report_compare.specs.Compared.{Compares};
ghost use Rattle.report_compare.specs.Desks.{IsDeskFor};
ghost use Rattle.report_compare.specs.ReportLines.{response_lines, unit_lines, told_lines};
ghost use Rattle.report_compare.specs.RightLines.{answers_of, titles, told_from};

use crate::compare_room::CompareRoom;
use crate::due::{Title, title_of_unit};
use crate::lines::{same_flags, same_name, same_powers};
use crate::wrong::{WrongLine, first_wrong_line};
use report_form::report::Owed;
use report_read::UnitLine;
use uc_model::cases::Case;
use uc_model::kinds::Kind;
use uc_model::laws::least_best_schedule_is_unique;
use uc_model::units::{Prices, Response};
use unit_program::case_laws::feasible_units_can_answer;
use unit_program::write_best_response_of_numbered_unit;

// Whether the money is what a unit earns and is owed.
fn are_unit_amounts_same(mine: &UnitLine, owed: &Owed) -> bool
    ensures { Decides result ((mine.now.earned ≡ owed.now.earned)
        × (mine.now.scheduled ≡ owed.now.scheduled) × (mine.now.payment ≡ owed.now.payment)) }
{
    mine.earned == owed.earned && mine.scheduled == owed.scheduled && mine.payment == owed.payment
}

// Whether kind and name are those of a unit.
fn is_unit_title_same(mine: &UnitLine, title: &Title<'_>) -> bool
    ensures { Decides result ((mine.now.kind ≡ title.now.kind)
        × (mine.now.name.items ≡ title.now.name.now)) }
{
    mine.kind == title.kind && same_name(mine.name.as_str(), title.name)
}

// The lines behind a unit's first one, of which the first has the number `first`.
fn compare_response(
    first: u32,
    kind: Kind,
    mine: &Response,
    right: &Response,
) -> Result<u32, WrongLine>
    requires { first + 3 < 2 ^ 32 }
    ensures { Compares first result
        (response_lines kind (schedule_of mine.now)) (response_lines kind (schedule_of right.now)) }
{
    let power = same_powers(&mine.power, &right.power);
    match kind {
        Kind::Thermal => {
            let on = same_flags(&mine.on, &right.on);
            let reserve = same_powers(&mine.reserve, &right.reserve);
            first_wrong_line(first, &[on, power, reserve])
        }
        Kind::Renewable | Kind::Bid => first_wrong_line(first, &[power]),
        Kind::Case => Ok(first),
    }
}

// The lines of a unit, of which the first has the number `first`.
fn compare_unit_lines(
    first: u32,
    mine: &UnitLine,
    title: &Title<'_>,
    owed: &Owed,
    right: &Response,
) -> Result<u32, WrongLine>
    requires { first + 4 < 2 ^ 32 }
    ensures lines { Compares first result (told_lines (told_of mine.now))
        (unit_lines title.now.kind
        (owed_line title.now.name.now owed.now (schedule_of right.now))) }
    ensures few { IfOk result (λ next. next ≤ first + 4) }
{
    if !is_unit_title_same(mine, title) || !are_unit_amounts_same(mine, owed) {
        return Err(WrongLine { line: first });
    }
    compare_response(first + 1, title.kind, &mine.response, right)
}

// What the unit of a number earns at best and in the plan, and what it is owed.
fn earnings_and_payment_of_unit(compare_room: &CompareRoom, number: usize) -> Owed
    requires earned { number < length compare_room.now.earned.items }
    requires scheduled { number < length compare_room.now.settlement.scheduled.items }
    requires payments { number < length compare_room.now.settlement.payments.items }
    ensures earned { result.earned ≡ int_at compare_room.now.earned.items number }
    ensures scheduled { result.scheduled ≡ int_at compare_room.now.settlement.scheduled.items number }
    ensures payment { result.payment ≡ int_at compare_room.now.settlement.payments.items number }
{
    Owed {
        earned: *compare_room.earned.get(number),
        scheduled: *compare_room.settlement.scheduled.get(number),
        payment: *compare_room.settlement.payments.get(number),
    }
}

/// The lines of all units and bids, of which the first has the number `first`. The compare_room suffices for
/// the case and has the money of each unit at the prices, which are over the periods of the case.
/// Each unit has a feasible schedule.
pub fn compare_units(
    first: u32,
    case: &Case,
    prices: &Prices,
    lines: &[UnitLine],
    compare_room: &mut CompareRoom,
) -> Result<u32, WrongLine>
    requires some { HasSchedules (market_of case.now) }
    requires compare_room { IsDeskFor (market_of case.now) compare_room.old }
    requires earned { length compare_room.old.earned.items ≡ unit_count (market_of case.now) }
    requires horizon { length (prices_of prices.now).energy ≡ (market_of case.now).periods }
    requires lines { length lines.now ≡ unit_count (market_of case.now) }
    requires numbers { first + 4 * length lines.now < 2 ^ 32 }
    ensures lines { (responses : List Schedule)
        → AllZip (λ u s. Fits u (prices_of prices.now) s) (units (market_of case.now)) responses
        → Compares first result (flat_map told_lines (map told_of lines.now))
        (flat_map told_lines (told_from
        (answers_of compare_room.old.earned.items compare_room.old.settlement responses)
        0 (titles (market_of case.now)))) }
    ensures few { IfOk result (λ next. next ≤ first + 4 * length lines.now) }
    ensures settlement { compare_room.new.settlement ≡ compare_room.old.settlement }
{
    least_best_schedule_is_unique();
    feasible_units_can_answer();
    let mut line = first;
    for number in 0..lines.len() {
        write_best_response_of_numbered_unit(
            &mut compare_room.bench,
            &compare_room.last,
            case,
            prices,
            number,
            &mut compare_room.answer,
        );
        let owed = earnings_and_payment_of_unit(compare_room, number);
        let title = title_of_unit(case, number);
        line = compare_unit_lines(
            line,
            &lines[number],
            &title,
            &owed,
            &compare_room.answer.response,
        )?;
    }
    Ok(line)
}
