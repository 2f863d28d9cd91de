//! The first row with the greatest value.
ghost use Rattle.std.specs.Prelude.{◌≡◌, ◌<◌, ◌+◌, int_lt, if◌then◌else◌, length, map, Some};
ghost use Rattle.uc_model.specs.PlainCases.{proposal_of};
ghost use Rattle.uc_model.specs.PriceRule.{first_greatest, chosen_number};
ghost use Rattle.plain_lists.specs.Sums.{int_at};
ghost use Rattle.price_space.specs.Firsts.{IsFirstUpTo};
ghost use Rattle.price_space.specs.Moves.{values_of};

use uc_model::cases::Row;

// The later place where its row's value is greater.
fn row_of_greater_dual_value(rows: &[Row], best: usize, later: usize) -> usize
    requires best { best < length rows.now }
    requires later { later < length rows.now }
    ensures { result ≡ (if int_lt (int_at (values_of (map proposal_of rows.now)) best)
        (int_at (values_of (map proposal_of rows.now)) later) then later else best) }
{
    if rows[best].value < rows[later].value {
        return later;
    }
    best
}

/// The place from 0 of the first row whose value is at least each row's.
pub fn row_of_greatest_dual_value(rows: &[Row]) -> usize
    requires { 0 < length rows.now }
    ensures place { result < length rows.now }
    ensures up_to { IsFirstUpTo (values_of (map proposal_of rows.now)) (length rows.now) result }
    ensures first { first_greatest (values_of (map proposal_of rows.now)) ≡ Some result }
    ensures number { chosen_number (map proposal_of rows.now) ≡ result + 1 }
{
    let mut best = 0;
    for i in 1..rows.len() {
        best = row_of_greater_dual_value(rows, best, i);
    }
    best
}

/// The place of the first row with the greatest value among those up to and with `last_row`, where
/// `best` is that place among those before it, if there are some.
pub fn row_of_greatest_dual_value_up_to(rows: &[Row], last: usize, best: usize) -> usize
    requires last { last < length rows.now }
    requires best { 0 < last → IsFirstUpTo (values_of (map proposal_of rows.now)) last best }
    ensures { IsFirstUpTo (values_of (map proposal_of rows.now)) (last + 1) result }
{
    if last == 0 {
        return 0;
    }
    row_of_greater_dual_value(rows, best, last)
}
