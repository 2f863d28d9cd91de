//! Laws over right reports and sides: each is the contract of a function that does nothing.
ghost use Rattle.right_report.specs.Laws.{RightReportHasForm, OneIsChosen, OneRun};
ghost use Rattle.right_report.specs.Laws.{OneRightReport, ReportPaymentsMakeUpTheGap};
ghost use Rattle.right_report.specs.Existence.{BestResponsesExist, DualValuesExist, RunsExist};
ghost use Rattle.right_report.specs.Existence.{RightReportsExist};
ghost use Rattle.right_report.specs.RecordReport.{ReportOfFinishedBoardIsRight, SettlementHasEntryForEachUnit};
ghost use Rattle.right_report.specs.RecordReport.{AnswersToRowEarnTheMost};
ghost use Rattle.right_report.specs.RightSide.{OneRightSide, PaymentsOfFixedReportSideMakeUpTheGap};
ghost use Rattle.right_report.specs.RightSide.{SettledSidesOfFixedReportAreRight};

use board_store::laws::{
    answers_of_history_fit_their_tasks, each_row_has_answer_of_each_unit, finished_has_row,
    finished_history_is_whole_run,
};
use uc_model::laws::{least_best_schedule_is_unique, payments_make_up_the_gap};

/// A right report is such a report as its text determines, so no two have one text.
pub fn right_report_has_form()
    ensures { RightReportHasForm }
{}

/// The report of a finished record is right where the settlement is that of the plan at the prices
/// of the chosen row.
pub fn report_of_finished_board_is_right()
    ensures { ReportOfFinishedBoardIsRight }
{
    answers_of_history_fit_their_tasks();
    each_row_has_answer_of_each_unit();
    finished_has_row();
    finished_history_is_whole_run();
}

/// The settlement of a feasible plan has one number for each unit and bid.
pub fn settlement_has_entry_for_each_unit()
    ensures { SettlementHasEntryForEachUnit }
{}

/// What the answers to a row of a legal history earn is what the units earn at best at that row's
/// prices.
pub fn answers_to_row_earn_the_most()
    ensures { AnswersToRowEarnTheMost }
{
    answers_of_history_fit_their_tasks();
    each_row_has_answer_of_each_unit();
    finished_has_row();
    finished_history_is_whole_run();
}

/// Where there is a row, one is chosen.
pub fn one_row_is_chosen()
    ensures { OneIsChosen }
{}

/// At most one list of rows is the run of a case with a given cost, budget and number of proposals
/// ahead: each row follows from the rows before it, and the budget and the price rule say where
/// they end.
pub fn rows_of_run_are_unique()
    ensures { OneRun }
{
    least_best_schedule_is_unique();
}

/// At most one report of a case and a plan is right for a given budget and number of proposals
/// ahead.
pub fn one_report_is_right()
    ensures { OneRightReport }
{
    least_best_schedule_is_unique();
}

/// In a right report of a feasible plan the payments and the surplus sum to the cost less the
/// chosen dual value.
pub fn report_payments_make_up_the_gap()
    ensures { ReportPaymentsMakeUpTheGap }
{
    payments_make_up_the_gap();
}

/// What a finished record chose is a right side of `hull fixed` where the settlement is that of the
/// record's schedule, for the case as given, at the chosen prices.
pub fn settled_sides_of_fixed_report_are_right()
    ensures { SettledSidesOfFixedReportAreRight }
{
    finished_history_is_whole_run();
}

/// At most one side of `hull fixed` is right for a case as given, a case that is run, a schedule, a
/// budget and a number of proposals ahead.
pub fn right_side_of_fixed_report_is_unique()
    ensures { OneRightSide }
{
    least_best_schedule_is_unique();
}

/// On a right side of a feasible schedule the payments and the surplus sum to the cost less the
/// dual value of the case as given at the side's prices.
pub fn payments_of_fixed_report_side_make_up_the_gap()
    ensures { PaymentsOfFixedReportSideMakeUpTheGap }
{
    payments_make_up_the_gap();
}

/// Where a unit has a feasible schedule over the periods of some prices, it has a least best
/// response to these prices, and by `uc_model::laws::least_best_schedule_is_unique` just one.
pub fn best_responses_exist()
    ensures { BestResponsesExist }
{}

/// Where each unit and bid of a case has a feasible schedule, in balance or not, any prices over
/// its horizon have a dual value.
pub fn dual_values_exist()
    ensures { DualValuesExist }
{}

/// Where each unit and bid of a case has a feasible schedule, in balance or not, there is a run
/// for each cost, each budget of proposals, and each number of them ahead from 1 on.
pub fn runs_exist()
    ensures { RunsExist }
{}

/// A case with a feasible plan has a right report for each budget of proposals and each number of
/// them ahead, both from 1 on, and by `one_report_is_right` just one.
pub fn right_reports_exist()
    ensures { RightReportsExist }
{
    runs_exist();
    one_row_is_chosen();
}
