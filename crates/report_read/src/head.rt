//! The lines before the proposals and behind the units.
ghost use Rattle.report_read.specs.Lines.{Gives, head_at, foot_at};

use crate::lines::{Reader, read_amount_line, read_count_line, read_word_line};
use crate::stop::Stop;
use plain_lists::limits::{MOST_AHEAD, MOST_PROPOSALS, MOST_UNITS};
use report_form::report::Head;
use uc_model::limits::MOST_PERIODS;

/// What stands behind the units, in money.
#[derive(Clone, Copy)]
pub struct Foot {
    /// What reserve beyond the requirement is worth.
    pub surplus: i128,
    /// The sum of the payments.
    pub payments: i128,
    /// The cost of the plan less the chosen dual value.
    pub gap: i128,
}

/// The first seven lines.
#[tactic(auto, unfolding(crate::specs::Lines::head_at))]
pub fn read_head(reader: &mut Reader<'_>) -> Result<Head, Stop>
    ensures { Gives (λ x. (x, reader.new.rest.now)) result (head_at reader.old.rest.now) }
{
    read_word_line(reader, b"hull-report 1")?;
    let periods = read_count_line(reader, b"periods ", 1, MOST_PERIODS)?;
    let units = read_count_line(reader, b"units ", 1, MOST_UNITS)?;
    let budget = read_count_line(reader, b"budget ", 1, MOST_PROPOSALS)?;
    let ahead = read_count_line(reader, b"ahead ", 1, MOST_AHEAD)?;
    let cost = read_amount_line(reader, b"cost ")?;
    let proposals = read_count_line(reader, b"proposals ", 1, u32::MAX)?;
    Ok(Head {
        periods,
        units,
        budget,
        ahead,
        cost,
        proposals,
    })
}

/// The last four lines.
#[tactic(auto, unfolding(crate::specs::Lines::foot_at))]
pub fn read_foot(reader: &mut Reader<'_>) -> Result<Foot, Stop>
    ensures { Gives (λ x. (x, reader.new.rest.now)) result (foot_at reader.old.rest.now) }
{
    let surplus = read_amount_line(reader, b"surplus ")?;
    let payments = read_amount_line(reader, b"payments ")?;
    let gap = read_amount_line(reader, b"gap ")?;
    read_word_line(reader, b"end")?;
    Ok(Foot {
        surplus,
        payments,
        gap,
    })
}
