//! The text of `hull certify`.
ghost use Rattle.hull_io.specs.Edge.{Writes};
ghost use Rattle.report_form.specs.CertificateText.{certificate_in, certificate_text};

use crate::form::write_form_filled_with_parts;
use crate::parts::Part;
use hull_io::{Sink, WriteFailed};

/// What the text tells: the number of periods and of units with bids; in money the cost of the
/// plan, the dual value of the given prices, what surplus reserve is worth there, the sum of the
/// payments, and the gap; the radius round these prices, in money for a kilowatt and period; and in
/// money the bound on the dual value of all prices within it, how far that is above the value, and
/// what payments and surplus sum to at least at any of these prices.
#[derive(Clone, Copy)]
pub struct CertificateLines {
    /// How many periods the case has.
    pub periods: u32,
    /// How many units and bids it has.
    pub units: u32,
    /// The cost of the plan.
    pub cost: i128,
    /// The dual value of the given prices.
    pub value: i128,
    /// What surplus reserve is worth at them.
    pub surplus: i128,
    /// The sum of the payments at them.
    pub payments: i128,
    /// The cost less the dual value.
    pub gap: i128,
    /// The radius round the given prices.
    pub radius: u64,
    /// What no dual value within the radius is above.
    pub bound: i128,
    /// The bound less the dual value.
    pub distance: i128,
    /// What payments and surplus sum to at least within the radius.
    pub least: i128,
}

/// Writes the lines of `hull certify`. Refused only where the sink's count of faults rose, and then
/// the sink gained a front of the text.
#[tactic(auto, unfolding(crate::specs::CertificateText::certificate_text))]
pub fn write_certificate_lines<S: Sink>(
    lines: &CertificateLines,
    out: &mut S,
) -> Result<(), WriteFailed>
    ensures { Writes S.held S.faults S.last out.old out.new result
        (certificate_text (certificate_in lines.now)) }
{
    write_form_filled_with_parts(
        out,
        b"hull-certificate 1\nperiods %\nunits %\ncost %\nvalue %\nsurplus %\npayments %\n\
          gap %\nradius %\nbound %\ndistance %\nleast %\nend\n",
        &[
            Part::Count(lines.periods as u64),
            Part::Count(lines.units as u64),
            Part::Amount(lines.cost),
            Part::Amount(lines.value),
            Part::Amount(lines.surplus),
            Part::Amount(lines.payments),
            Part::Amount(lines.gap),
            Part::Count(lines.radius),
            Part::Amount(lines.bound),
            Part::Amount(lines.distance),
            Part::Amount(lines.least),
        ],
    )
}
