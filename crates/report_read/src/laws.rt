//! Laws over reports within the bounds: each is the contract of a function that does nothing.
ghost use Rattle.report_read.specs.Laws.{OneReport, EachTextIsReportOrHasFault, AtMostOneLineIsInFault, OneDifference};

use report_form::laws::text_determines_the_report;

/// No two reports within the bounds have one text, so what is read is the report that was written.
pub fn no_two_reports_share_a_text()
    ensures { OneReport }
{
    text_determines_the_report();
}

/// Each file is the text of a report within the bounds, or has a line in fault.
pub fn each_text_is_report_or_has_fault()
    ensures { EachTextIsReportOrHasFault }
{}

/// A file has at most one line in fault.
pub fn at_most_one_line_is_in_fault()
    ensures { AtMostOneLineIsInFault }
{}

/// Two texts differ first at one line at most.
pub fn texts_first_differ_at_one_line()
    ensures { OneDifference }
{}
