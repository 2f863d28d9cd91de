//! Laws over runs: each is the contract of a function that answers nothing. They follow from
//! `IsOutcome`, which `hull_engine::hull_run` ensures of its run.
ghost use Rattle.law_outcome.specs.Laws.{OneDue, OneText, AcceptedIsFeasible};
ghost use Rattle.law_outcome.specs.Laws.{EachStatusHasItsCause, WhatWasReadDecides, WordsFollow};
ghost use Rattle.law_outcome.specs.Laws.{RefusedSchedulesAreInfeasible, ReportsAreRight};
ghost use Rattle.law_outcome.specs.Laws.{BoundsHold, BothGapsAreMadeUp, AuditsHold};
ghost use Rattle.law_outcome.specs.Laws.{SettlementsHold, CertificatesHold, WorkersAreFree};
ghost use Rattle.law_outcome.specs.Laws.{RunsPrintTheSame, SearchesHold};

use gap_proof::mixture_laws::mixtures_break_no_rule;
use hull_command::laws::words_have_numbers_in_range;
use hull_input::laws::{bytes_are_those_read, report_bytes_are_its_text};
use hull_io::{Shelf, Sink};
use law_parts::audit::printed_reports_are_in_form;
use law_parts::bounds::{
    mixture_bound_holds, mixture_bound_reaches_centre, payments_reach_least, run_bounds_hold,
    run_prices_are_within,
};
use law_parts::cases::cases_are_within;
use plan_check::laws::feasible_exactly_without_broken_rule;
use price_settle::laws::{payments_and_surplus_make_the_gap, plan_has_at_most_one_settlement};
use report_form::laws::text_determines_the_report;
use report_read::laws::{
    at_most_one_line_is_in_fault, no_two_reports_share_a_text, texts_first_differ_at_one_line,
};
use right_report::laws::{
    one_report_is_right, one_row_is_chosen, payments_of_fixed_report_side_make_up_the_gap,
    report_payments_make_up_the_gap, right_report_has_form, right_side_of_fixed_report_is_unique,
};
use uc_case::laws::case_file_has_one_value_or_one_fault;
use uc_mixture::laws::mixture_file_has_one_value_or_one_fault;
use uc_model::laws::{feasible_plans_have_shape, payments_are_at_least_zero};
use uc_plan::laws::schedule_file_has_one_value_or_one_fault;
use uc_prices::laws::{
    prices_are_per_period_and_within_limits, prices_file_has_one_value_or_one_fault,
};

/// Over what was read, at most one input is accepted or one refusal is due. So
/// `each_status_has_its_cause` also says that a status comes nowhere else.
pub fn one_thing_is_due()
    ensures { OneDue }
{
    case_file_has_one_value_or_one_fault();
    schedule_file_has_one_value_or_one_fault();
    no_two_reports_share_a_text();
    at_most_one_line_is_in_fault();
    one_report_is_right();
    texts_first_differ_at_one_line();
    prices_file_has_one_value_or_one_fault();
    mixture_file_has_one_value_or_one_fault();
}

/// At most one text may be printed of an input, but for a search: what `hull price` prints is a
/// function of the case, the schedule, the budget and the number of proposals ahead.
pub fn one_text_is_right()
    ensures { OneText }
{
    one_report_is_right();
    right_side_of_fixed_report_is_unique();
    text_determines_the_report();
    right_report_has_form();
    prices_file_has_one_value_or_one_fault();
    plan_has_at_most_one_settlement();
    mixture_file_has_one_value_or_one_fault();
}

/// What a command accepts is a case with a feasible schedule and that schedule's cost.
pub fn accepted_is_feasible()
    ensures { AcceptedIsFeasible }
{}

/// The cause of each status, with what was written.
pub fn each_status_has_its_cause<F: Shelf, S: Sink>()
    ensures { EachStatusHasItsCause F.told F.faults F.last S.held S.faults S.last }
{}

/// Where no count rose, what was read decides: an accepted input ends in 0 and a refusal in its
/// status, unless memory ran out.
pub fn what_was_read_decides<F: Shelf, S: Sink>()
    ensures { WhatWasReadDecides F.told F.faults F.last S.held S.faults S.last }
{
    one_thing_is_due();
}

/// What the words alone say of the status, whatever is told of the files.
pub fn words_follow<F: Shelf, S: Sink>()
    ensures { WordsFollow F.told F.faults F.last S.held S.faults S.last }
{}

/// What a command promises where it answers 4: the case's file is a case within the limits, and the
/// schedule's has too many bytes, or no feasible schedule of the case is in it.
pub fn refused_schedules_are_infeasible<F: Shelf, S: Sink>()
    ensures { RefusedSchedulesAreInfeasible F.told F.faults F.last S.held S.faults S.last }
{
    case_file_has_one_value_or_one_fault();
    cases_are_within();
    schedule_file_has_one_value_or_one_fault();
    feasible_exactly_without_broken_rule();
    feasible_plans_have_shape();
}

/// What `hull price` promises where it answers 0.
pub fn reports_are_right<F: Shelf, S: Sink>()
    ensures { ReportsAreRight F.told F.faults F.last S.held S.faults S.last }
{
    words_have_numbers_in_range();
    bytes_are_those_read();
    report_payments_make_up_the_gap();
    run_prices_are_within();
    payments_are_at_least_zero();
}

/// What `hull bound` promises where it answers 0: no whole prices within the radius of the chosen
/// ones, and within the limits, have a dual value above the printed bound, and the printed distance
/// is at least 0.
pub fn bounds_hold<F: Shelf, S: Sink>()
    ensures { BoundsHold F.told F.faults F.last S.held S.faults S.last }
{
    words_have_numbers_in_range();
    one_row_is_chosen();
    run_bounds_hold();
}

/// What `hull fixed` promises where it answers 0: both of its sides are right, and on each the
/// payments and the surplus sum to the cost of the schedule less the dual value of the case as
/// given at that side's prices, and no payment and no surplus is below 0.
pub fn both_gaps_are_made_up<F: Shelf, S: Sink>()
    ensures { BothGapsAreMadeUp F.told F.faults F.last S.held S.faults S.last }
{
    words_have_numbers_in_range();
    payments_of_fixed_report_side_make_up_the_gap();
    run_prices_are_within();
    payments_are_at_least_zero();
}

/// What `hull audit` promises: where it answers 0, the bytes of the report's file are the text of a
/// report that is right for its own budget and number of proposals ahead; where it answers 8, the
/// file has too many bytes, or the line is the first that is out of form, or the first at which the
/// report differs from the right one.
pub fn audits_hold<F: Shelf, S: Sink>()
    ensures { AuditsHold F.told F.faults F.last S.held S.faults S.last }
{
    bytes_are_those_read();
    report_bytes_are_its_text();
    report_payments_make_up_the_gap();
    run_prices_are_within();
    payments_are_at_least_zero();
    text_determines_the_report();
    right_report_has_form();
    printed_reports_are_in_form();
}

/// The number of workers changes nothing that is due and nothing that may be printed, of any
/// command.
pub fn workers_are_free()
    ensures { WorkersAreFree }
{}

/// What `hull settle` promises: where it answers 0, what it prints is what the schedule is settled
/// at, at the prices of the file, and payments and surplus sum to the cost of the schedule less the
/// dual value, none of them below 0; where it answers 9, the file has too many bytes, or the fault
/// is its first and no prices over the periods are in it.
pub fn settlements_hold<F: Shelf, S: Sink>()
    ensures { SettlementsHold F.told F.faults F.last S.held S.faults S.last }
{
    bytes_are_those_read();
    payments_and_surplus_make_the_gap();
    prices_are_per_period_and_within_limits();
    prices_file_has_one_value_or_one_fault();
}

/// What `hull certify` promises: where it answers 0, what it prints is what the schedule is settled
/// at, at the prices of the file, and the bound by the mixture of the file, and no whole prices
/// within the limits and the radius of the given ones have a dual value above that bound; where it
/// answers 9, as `hull settle` does; where it answers 10, the file has too many bytes, or the fault
/// is its first and no mixture of feasible schedules is in it.
pub fn certificates_hold<F: Shelf, S: Sink>()
    ensures { CertificatesHold F.told F.faults F.last S.held S.faults S.last }
{
    words_have_numbers_in_range();
    bytes_are_those_read();
    payments_and_surplus_make_the_gap();
    cases_are_within();
    prices_are_per_period_and_within_limits();
    prices_file_has_one_value_or_one_fault();
    mixture_file_has_one_value_or_one_fault();
    mixture_bound_holds();
    mixture_bound_reaches_centre();
    payments_reach_least();
    mixtures_break_no_rule();
}

/// What `hull convex` promises where it answers 0: what it prints is prices within their limits, what
/// the schedule is settled at there, a mixture of feasible schedules of each thermal unit, and its
/// bound; no whole prices within the limits have a dual value above that bound, and at any of them
/// payments and surplus sum to at least what is printed.
pub fn searches_hold<F: Shelf, S: Sink>()
    ensures { SearchesHold F.told F.faults F.last S.held S.faults S.last }
{
    bytes_are_those_read();
    payments_and_surplus_make_the_gap();
    cases_are_within();
    mixture_bound_holds();
    mixture_bound_reaches_centre();
    payments_reach_least();
}

/// Two runs of the same words but for the number of workers, of no search, over shelves that tell the
/// same of the files that they name, end in one status where each ends in 0 or in 8. They print the
/// same bytes where that is 0, and where it is 8 and no write failed.
pub fn runs_print_the_same<F: Shelf, S: Sink, G: Shelf, T: Sink>()
    ensures { RunsPrintTheSame F.told F.faults F.last S.held S.faults S.last
        G.told G.faults G.last T.held T.faults T.last }
{
    one_thing_is_due();
    one_text_is_right();
    bytes_are_those_read();
    report_bytes_are_its_text();
}
