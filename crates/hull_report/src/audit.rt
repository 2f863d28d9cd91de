//! The text of `hull audit`.
ghost use Rattle.hull_io.specs.Edge.{Writes};
ghost use Rattle.hull_report.specs.AuditText.{audit_text};

use hull_io::{Sink, WriteFailed};
use report_form::{Part, write_form_filled_with_parts};

/// Writes that a report of so many proposals is right. Refused only where the sink's count of
/// faults rose, and then the sink gained a front of the text.
#[tactic(auto, unfolding(crate::specs::AuditText::audit_text))]
pub fn write_audit<S: Sink>(proposals: u32, out: &mut S) -> Result<(), WriteFailed>
    ensures { Writes S.held S.faults S.last out.old out.new result (audit_text proposals) }
{
    write_form_filled_with_parts(
        out,
        b"hull-audit 1\nproposals %\nright\n",
        &[Part::Count(proposals as u64)],
    )
}
