//! Laws over right reports: each is the contract of a function that does nothing.
ghost use Rattle.law_parts.specs.AuditLaws.{RightReportsAreInForm, PrintedReportsAreInForm};

use crate::bounds::run_prices_are_within;
use crate::cases::{case_names_are_utf8, cases_are_within};
use right_report::laws::{report_payments_make_up_the_gap, right_report_has_form};
use uc_model::laws::{
    dual_values_are_within, earnings_are_within, outputs_are_within, payments_are_at_least_zero,
    plan_costs_are_within, power_and_reserve_totals_are_within, units_are_within,
};

/// A right report of a case within its limits, whose units' names are UTF-8, is within the bounds
/// of reading, for each budget and each number of proposals ahead that the words may give.
pub fn right_reports_are_in_form()
    ensures { RightReportsAreInForm }
{
    run_prices_are_within();
    right_report_has_form();
    report_payments_make_up_the_gap();
    units_are_within();
    outputs_are_within();
    earnings_are_within();
    power_and_reserve_totals_are_within();
    plan_costs_are_within();
    dual_values_are_within();
    payments_are_at_least_zero();
}

/// So is a right report of a case that was read: what `hull price` prints, `hull audit` never
/// refuses as out of form.
pub fn printed_reports_are_in_form()
    ensures { PrintedReportsAreInForm }
{
    right_reports_are_in_form();
    cases_are_within();
    case_names_are_utf8();
}
