//! Laws of what exists: each is the contract of a function that answers nothing.
ghost use Rattle.law_outcome.specs.Existence.{SettlementsExist, SomethingIsDue};

use law_parts::cases::case_or_fault;
use law_parts::prices::prices_or_fault;
use plan_check::laws::feasible_exactly_without_broken_rule;
use report_compare::laws::wrong_report_has_first_wrong_line;
use report_form::laws::text_determines_the_report;
use report_read::laws::each_text_is_report_or_has_fault;
use right_report::laws::{
    best_responses_exist, one_report_is_right, right_report_has_form, right_reports_exist,
};
use uc_mixture::laws::mixture_file_has_value_or_fault;
use uc_plan::laws::schedule_file_has_value_or_fault;

/// A feasible schedule has a settlement at any prices over the horizon of its case, and by
/// `price_settle::laws::plan_has_at_most_one_settlement` just one.
pub fn settlements_exist()
    ensures { SettlementsExist }
{
    best_responses_exist();
}

/// Whatever the words and whatever was read of the files, there is an accepted input or a first
/// refusal, and by `laws::one_thing_is_due` just one. So `laws::what_was_read_decides` says of every
/// run what it did.
pub fn something_is_due()
    ensures { SomethingIsDue }
{
    case_or_fault();
    schedule_file_has_value_or_fault();
    feasible_exactly_without_broken_rule();
    each_text_is_report_or_has_fault();
    right_reports_exist();
    one_report_is_right();
    text_determines_the_report();
    right_report_has_form();
    wrong_report_has_first_wrong_line();
    prices_or_fault();
    mixture_file_has_value_or_fault();
}
