//! The blocks of the text of `hull convex` that no settlement has.
ghost use Rattle.hull_io.specs.Edge.{Writes};
ghost use Rattle.uc_model.specs.PlainCases.{proposal_of};
ghost use Rattle.uc_model.specs.PlainUnits.{schedule_of};
ghost use Rattle.report_form.specs.ConvexText.{search_text, searched_text, weighed_text, share_text};
ghost use Rattle.report_form.specs.ConvexText.{mixed_text, bounded_text};

use crate::form::write_form_filled_with_parts;
use crate::laws::texts_written_in_turn_add_up;
use crate::parts::Part;
use crate::settlement::write_prices_and_totals;
use hull_io::{Sink, WriteFailed};
use uc_model::cases::Row;
use uc_model::units::Response;

/// What the text begins with: the number of periods and of units with bids, the cost of the plan in
/// money, and of the search the distance in money within which it ends, the most rounds, and how
/// many were made.
#[derive(Clone, Copy)]
pub struct SearchLines {
    /// How many periods the case has.
    pub periods: u32,
    /// How many units and bids it has.
    pub units: u32,
    /// The cost of the plan.
    pub cost: i128,
    /// The distance within which the search ends.
    pub within: i64,
    /// The most rounds of the search.
    pub rounds: u32,
    /// How many rounds were made.
    pub made: u32,
}

// Writes the lines before the prices.
#[tactic(auto, unfolding(crate::specs::ConvexText::search_text))]
fn write_convex_opening<S: Sink>(lines: &SearchLines, out: &mut S) -> Result<(), WriteFailed>
    ensures { Writes S.held S.faults S.last out.old out.new result
        (search_text lines.now.periods lines.now.units lines.now.cost lines.now.within
        lines.now.rounds lines.now.made) }
{
    write_form_filled_with_parts(
        out,
        b"hull-convex 1\nperiods %\nunits %\ncost %\nwithin %\nrounds %\nmade %\n",
        &[
            Part::Count(lines.periods as u64),
            Part::Count(lines.units as u64),
            Part::Amount(lines.cost),
            Part::Amount(lines.within as i128),
            Part::Count(lines.rounds as u64),
            Part::Count(lines.made as u64),
        ],
    )
}

/// Writes the lines before the units: what the search was and the prices that it found, with their
/// dual value and the totals of the best responses.
#[tactic(auto, unfolding(crate::specs::ConvexText::searched_text))]
pub fn write_convex_lines_before_units<S: Sink>(
    lines: &SearchLines,
    row: &Row,
    out: &mut S,
) -> Result<(), WriteFailed>
    ensures { Writes S.held S.faults S.last out.old out.new result
        (searched_text lines.now.periods lines.now.units lines.now.cost lines.now.within
        lines.now.rounds lines.now.made (proposal_of row.now)) }
{
    texts_written_in_turn_add_up::<S>();
    write_convex_opening(lines, out)?;
    write_prices_and_totals(row, out)
}

/// Writes the lines behind the units: in money what the surplus reserve of the plan is worth, the
/// sum of the payments, and the cost of the plan less the dual value; and the mixture's weight.
#[tactic(auto, unfolding(crate::specs::ConvexText::weighed_text))]
pub fn write_convex_totals<S: Sink>(
    surplus: i128,
    payments: i128,
    gap: i128,
    weight: i64,
    out: &mut S,
) -> Result<(), WriteFailed>
    ensures { Writes S.held S.faults S.last out.old out.new result
        (weighed_text surplus payments gap weight) }
{
    write_form_filled_with_parts(
        out,
        b"surplus %\npayments %\ngap %\nweight %\n",
        &[
            Part::Amount(surplus),
            Part::Amount(payments),
            Part::Amount(gap),
            Part::Amount(weight as i128),
        ],
    )
}

/// Writes the line before the entries of a thermal unit, with its name and their number.
#[tactic(auto, unfolding(crate::specs::ConvexText::mixed_text))]
pub fn write_mixture_unit<S: Sink>(name: &str, entries: u64, out: &mut S) -> Result<(), WriteFailed>
    ensures { Writes S.held S.faults S.last out.old out.new result
        (mixed_text name.now entries) }
{
    let bytes = name.as_bytes();
    write_form_filled_with_parts(
        out,
        b"mixture thermal % entries %\n",
        &[Part::Name(bytes), Part::Count(entries)],
    )
}

/// Writes the lines of an entry: how often it counts, and its schedule.
#[tactic(auto, unfolding(crate::specs::ConvexText::share_text))]
pub fn write_mixture_entry<S: Sink>(
    weight: i64,
    schedule: &Response,
    out: &mut S,
) -> Result<(), WriteFailed>
    ensures { Writes S.held S.faults S.last out.old out.new result
        (share_text (record { weight = weight; schedule = schedule_of schedule.now })) }
{
    let on = schedule.on.as_slice();
    let power = schedule.power.as_slice();
    let reserve = schedule.reserve.as_slice();
    write_form_filled_with_parts(
        out,
        b"share %\non%\npower%\nreserve%\n",
        &[
            Part::Amount(weight as i128),
            Part::Flags(on),
            Part::Counts(power),
            Part::Counts(reserve),
        ],
    )
}

/// Writes the last lines, in money: the bound on the dual value of all prices, how far it is above
/// that of the prices found, and what payments and surplus sum to at least.
#[tactic(auto, unfolding(crate::specs::ConvexText::bounded_text))]
pub fn write_convex_bound<S: Sink>(
    bound: i128,
    distance: i128,
    least: i128,
    out: &mut S,
) -> Result<(), WriteFailed>
    ensures { Writes S.held S.faults S.last out.old out.new result
        (bounded_text bound distance least) }
{
    write_form_filled_with_parts(
        out,
        b"bound %\ndistance %\nleast %\nend\n",
        &[
            Part::Amount(bound),
            Part::Amount(distance),
            Part::Amount(least),
        ],
    )
}
