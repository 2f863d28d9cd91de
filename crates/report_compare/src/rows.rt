//! The lines of proposals.
ghost use Rattle.std.specs.Prelude.{◌≡◌, ℕ, ◌+◌, ◌*◌, ◌<◌, ◌^◌, length, map, IfOk};
ghost use Rattle.uc_model.specs.PlainCases.{proposal_of};
ghost use Rattle.report_compare.specs.Compared.{Compares};
ghost use Rattle.report_compare.specs.ReportLines.{row_lines, rows_lines};

use crate::lines::{same_amount, same_prices, same_totals};
use crate::wrong::{WrongLine, first_wrong_line};
use uc_model::cases::Row;

// The lines of a proposal, of which the first has the number `first`.
fn compare_row(first: u32, mine: &Row, right: &Row) -> Result<u32, WrongLine>
    requires { first + 5 < 2 ^ 32 }
    ensures lines { (number : ℕ) → Compares first result
        (row_lines number (proposal_of mine.now)) (row_lines number (proposal_of right.now)) }
    ensures next { IfOk result (λ next. next ≡ first + 5) }
{
    let same = [
        same_amount(&mine.value, &right.value),
        same_prices(&mine.prices.energy, &right.prices.energy),
        same_prices(&mine.prices.reserve, &right.prices.reserve),
        same_totals(&mine.supply, &right.supply),
        same_totals(&mine.reserve, &right.reserve),
    ];
    first_wrong_line(first, &same)
}

/// The lines of as many proposals, of which the first has the number `first`.
pub fn compare_rows(first: u32, mine: &[Row], right: &[Row]) -> Result<u32, WrongLine>
    requires count { length mine.now ≡ length right.now }
    requires numbers { first + 5 * length mine.now < 2 ^ 32 }
    ensures lines { Compares first result
        (rows_lines 1 (map proposal_of mine.now)) (rows_lines 1 (map proposal_of right.now)) }
    ensures next { IfOk result (λ next. next ≡ first + 5 * length mine.now) }
{
    let mut line = first;
    for index in 0..mine.len() {
        line = compare_row(line, &mine[index], &right[index])?;
    }
    Ok(line)
}
