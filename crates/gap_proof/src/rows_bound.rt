//! The bound by rows with given weights.
ghost use Rattle.std.specs.Prelude.{◌≡◌, ◌<◌, ◌≤◌, ◌*◌, length, map, Some, slice_get};
ghost use Rattle.std.specs.List.{All};
ghost use Rattle.uc_model.specs.PlainCases.{market_of, proposal_of};
ghost use Rattle.plain_lists.specs.declared.limits.TheConstants.{MOST_PROPOSALS};
ghost use Rattle.gap_proof.specs.Candidates.{prices_of_row};
ghost use Rattle.gap_proof.specs.CertifiedBound.{certified_bound, AreWeights};
ghost use Rattle.gap_proof.specs.PlaneSums.{IsRowWithin, IsWeight, IsRadius};

use crate::plane_sums::{
    Sums, add_weighted_plane_of_row, clear_slopes, greatest_mean_plane_height,
};
use plain_lists::lists::{Amounts, Numbers};
use uc_model::cases::{Case, Row};

/// The row of a place.
pub fn row_at(rows: &[Row], index: usize) -> &Row
    requires { index < length rows.now }
    ensures { slice_get (map proposal_of rows.now) index ≡ Some (proposal_of result.now) }
{
    &rows[index]
}

/// The bound on the dual values of all prices in a box, by the mean of the rows' planes with these
/// weights, rounded down: no whole prices within the limits, each within `radius` of that of row
/// `centre`, have a dual value above it, `law_parts::bounds::bound_holds`. Rows are numbered from 1;
/// they are at most 10,000, over the periods of the case, with values of at most 10^24 and totals
/// of at most 10^13 in magnitude, which all answered rows are,
/// `law_parts::bounds::answered_rows_are_within`. There is one weight per row, from 0 to 1,000,000,
/// and their sum is above 0. The radius is from 0 to 20,000,000, in money for a kilowatt and
/// period; the bound is in money. `work` has two numbers for each period, and is left with any
/// numbers. Takes no memory.
pub fn bound_of(
    case: &Case,
    rows: &[Row],
    weights: &Numbers,
    centre: u32,
    radius: i64,
    work: &mut Amounts,
) -> i128
    requires count { length rows.now ≤ MOST_PROPOSALS }
    requires rows { All (IsRowWithin (market_of case.now)) (map proposal_of rows.now) }
    requires weights { AreWeights (map proposal_of rows.now) weights.now.items }
    requires weight_sizes { All IsWeight weights.now.items }
    requires from_one { 1 ≤ centre }
    requires to_last { centre ≤ length rows.now }
    requires radius { IsRadius radius }
    requires work { length work.old.items ≡ 2 * (market_of case.now).periods }
    ensures bound { result ≡ certified_bound (market_of case.now) (map proposal_of rows.now)
        weights.now.items
        (prices_of_row (map proposal_of rows.now) centre) radius }
    ensures work { length work.new.items ≡ length work.old.items }
    ensures spare { work.new.spare ≡ work.old.spare }
{
    clear_slopes(work);
    let mut sums = Sums {
        height: 0,
        weight: 0,
    };
    for index in (0..rows.len()).rev() {
        sums = add_weighted_plane_of_row(
            case,
            row_at(rows, index),
            *weights.get(index),
            sums,
            work,
        );
    }
    let middle = row_at(rows, centre as usize - 1);
    greatest_mean_plane_height(case, &middle.prices, radius, sums, work)
}
