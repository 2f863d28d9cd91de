//! The text of `hull bound`.
ghost use Rattle.std.specs.Prelude.{◌≡◌, ◌-ℤ◌, true, length, unsigned_abs};
ghost use Rattle.board_store.specs.Calls.{own_rows, has_finished};
ghost use Rattle.hull_io.specs.Edge.{Writes};
ghost use Rattle.hull_report.specs.BoundText.{bound_text};
ghost use Rattle.right_report.specs.Told.{IsTold};
ghost use Rattle.right_report.specs.RecordReport.{chosen_of, value_of};

use board_core::Closed;
use gap_proof::Certified;
use hull_io::{Sink, WriteFailed};
use report_form::{Part, write_form_filled_with_parts};
use right_report::chosen_proposal_of_finished_board;

/// What the text tells: how many proposals there are, the number of the chosen one and its dual
/// value, the radius round its prices, the rows from `first` to `last` whose mean gives the bound,
/// and the bound. Values and bound are in money, the radius in money for a kilowatt and period, and
/// proposals are numbered from 1.
#[derive(Clone, Copy)]
pub struct BoundLines {
    /// How many proposals there are.
    pub proposals: u32,
    /// The chosen one.
    pub chosen: u32,
    /// Its dual value.
    pub value: i128,
    /// The radius round its prices.
    pub radius: u64,
    /// The first of the rows.
    pub first: u32,
    /// The last of them.
    pub last: u32,
    /// What no dual value within the radius is above.
    pub bound: i128,
}

// How far the bound is above the value.
fn distance_from_value_to_bound(lines: &BoundLines) -> i128
    requires value { IsTold lines.now.value }
    requires bound { IsTold lines.now.bound }
    ensures { result ≡ lines.now.bound -ℤ lines.now.value }
{
    lines.bound - lines.value
}

/// Writes the lines of `hull bound`. The value and the bound are at most 10^35 in magnitude.
/// Refused only where the sink's count of faults rose, and then the sink gained a front of the
/// text.
#[tactic(auto, unfolding(crate::specs::BoundText::bound_text))]
pub fn write_bound_lines<S: Sink>(lines: &BoundLines, out: &mut S) -> Result<(), WriteFailed>
    requires value { IsTold lines.now.value }
    requires bound { IsTold lines.now.bound }
    ensures { Writes S.held S.faults S.last out.old out.new result
        (bound_text lines.now.proposals lines.now.chosen lines.now.value
        lines.now.radius lines.now.first lines.now.last lines.now.bound) }
{
    let distance = distance_from_value_to_bound(lines);
    write_form_filled_with_parts(
        out,
        b"hull-bound 1\nproposals %\nchosen % value %\nradius %\ncertificate first % last %\n\
          bound %\ndistance %\nend\n",
        &[
            Part::Count(lines.proposals as u64),
            Part::Count(lines.chosen as u64),
            Part::Amount(lines.value),
            Part::Count(lines.radius),
            Part::Count(lines.first as u64),
            Part::Count(lines.last as u64),
            Part::Amount(lines.bound),
            Part::Amount(distance),
        ],
    )
}

/// Writes the lines of `hull bound` for a finished record: what it chose, and what was certified of
/// all prices within the radius of the chosen ones, in money for a kilowatt and period. The bound
/// is at most 10^35 in magnitude. Refused only where the sink's count of faults rose, and then the
/// sink gained a front of the text.
pub fn write_bound<S: Sink>(
    closed: &Closed,
    radius: i64,
    certified: &Certified,
    out: &mut S,
) -> Result<(), WriteFailed>
    requires finished { has_finished closed.now ≡ true }
    requires bound { IsTold certified.now.bound }
    ensures { Writes S.held S.faults S.last out.old out.new result
        (bound_text (length (own_rows closed.now)) (chosen_of closed.now) (value_of closed.now)
        (unsigned_abs radius) certified.now.first certified.now.last certified.now.bound) }
{
    let choice = chosen_proposal_of_finished_board(closed);
    let lines = BoundLines {
        proposals: choice.proposals,
        chosen: choice.chosen,
        value: choice.value,
        radius: radius.unsigned_abs(),
        first: certified.first,
        last: certified.last,
        bound: certified.bound,
    };
    write_bound_lines(&lines, out)
}
