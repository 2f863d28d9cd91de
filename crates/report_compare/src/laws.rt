//! A law over wrong reports: the contract of a function that does nothing.
ghost use Rattle.report_compare.specs.Right.{SomeDifference};

use report_form::laws::text_determines_the_report;
use right_report::laws::{right_report_has_form, right_reports_exist};

/// A report within the bounds of reading that isn't right for a feasible plan has a first line that
/// differs from the right report, and by `report_read::laws::texts_first_differ_at_one_line` just one.
pub fn wrong_report_has_first_wrong_line()
    ensures { SomeDifference }
{
    text_determines_the_report();
    right_report_has_form();
    right_reports_exist();
}
