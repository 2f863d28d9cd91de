//! Laws over two runs of a case: each is the contract of a function that does nothing.
ghost use Rattle.law_parts.specs.BudgetLaws.{LongerRunsBeginSo, LargerBudgetsAreNoWorse};

use right_report::laws::{one_row_is_chosen, rows_of_run_are_unique};

/// The run of a larger budget begins with the proposals of a smaller one.
pub fn longer_runs_begin_so()
    ensures { LongerRunsBeginSo }
{
    rows_of_run_are_unique();
}

/// The right report of a larger budget begins with the proposals of that of a smaller one. Its
/// chosen value is no less, and its gap no larger.
pub fn larger_budgets_are_no_worse()
    ensures { LargerBudgetsAreNoWorse }
{
    longer_runs_begin_so();
    one_row_is_chosen();
}
