//! The text of `hull check`.
ghost use Rattle.hull_io.specs.Edge.{Writes};
ghost use Rattle.uc_model.specs.PlainCases.{market_of};
ghost use Rattle.hull_report.specs.CheckText.{check_text};

use hull_io::{Sink, WriteFailed};
use report_form::{Part, write_form_filled_with_parts};
use uc_model::cases::Case;

/// Writes that the schedule is feasible, and its `cost` in money.
#[tactic(auto, unfolding(crate::specs::CheckText::check_text))]
pub fn write_check<S: Sink>(case: &Case, cost: i128, out: &mut S) -> Result<(), WriteFailed>
    ensures { Writes S.held S.faults S.last out.old out.new result
        (check_text (market_of case.now) cost) }
{
    let thermal = case.thermal.len();
    let flat = case.flat.len();
    let bids = case.bids.len();
    write_form_filled_with_parts(
        out,
        b"hull-check 1\nperiods % thermal % renewable %%\ncost %\nfeasible\n",
        &[
            Part::Count(case.periods as u64),
            Part::Count(thermal as u64),
            Part::Count(flat as u64),
            Part::Tally(b" bid ", bids as u64),
            Part::Amount(cost),
        ],
    )
}
