//! The best bound by a range of rows.
ghost use Rattle.std.specs.Prelude.{◌≡◌, ℕ, ◌<◌, ◌≤◌, ◌*◌, pos, ◌≤ℤ◌, ◌<ℤ◌, [], ◌∷◌, length, map};
ghost use Rattle.std.specs.List.{All};
ghost use Rattle.uc_model.specs.PlainCases.{market_of, proposal_of};
ghost use Rattle.uc_model.specs.PlainUnits.{prices_of};
ghost use Rattle.plain_lists.specs.Ranges.{IsFrom};
ghost use Rattle.plain_lists.specs.declared.limits.TheConstants.{MOST_PROPOSALS};
ghost use Rattle.gap_proof.specs.Candidates.{prices_of_row, range_bound, IsFirstLeast};
ghost use Rattle.gap_proof.specs.PlaneSums.{IsRowWithin, IsRadius, AreSums};
ghost use Rattle.gap_proof.specs.PlaneSums.{least_bound, most_bound};

use crate::plane_sums::{
    Sums, add_weighted_plane_of_row, clear_slopes, greatest_mean_plane_height,
};
use crate::rows_bound::row_at;
use plain_lists::lists::Amounts;
use uc_model::cases::{Case, Row};
use uc_model::units::Prices;

/// A bound in money on the dual values of all prices in a box, and the rows from `first` to
/// `last`, numbered from 1, whose mean gives it.
#[derive(Clone, Copy, PartialEq, Eq, Debug)]
pub struct Certified {
    /// The first of the rows.
    pub first: u32,
    /// The last of them.
    pub last: u32,
    /// The bound.
    pub bound: i128,
}

// The sums of one row, once.
fn plane_sums_of_one_row(case: &Case, row: &Row, slopes: &mut Amounts) -> Sums
    requires row { IsRowWithin (market_of case.now) (proposal_of row.now) }
    requires length { length slopes.old.items ≡ 2 * (market_of case.now).periods }
    ensures sums { AreSums (market_of case.now) (pos 1 ∷ []) (proposal_of row.now ∷ [])
        result.height result.weight slopes.new.items }
    ensures spare { slopes.new.spare ≡ slopes.old.spare }
{
    clear_slopes(slopes);
    let none = Sums {
        height: 0,
        weight: 0,
    };
    add_weighted_plane_of_row(case, row, 1, none, slopes)
}

// The bound round a row by that row alone.
fn bound_by_one_row(
    case: &Case,
    rows: &[Row],
    number: u32,
    radius: i64,
    work: &mut Amounts,
) -> Certified
    requires rows { All (IsRowWithin (market_of case.now)) (map proposal_of rows.now) }
    requires from_one { 1 ≤ number }
    requires to_last { number ≤ length rows.now }
    requires radius { IsRadius radius }
    requires work { length work.old.items ≡ 2 * (market_of case.now).periods }
    ensures first { result.first ≡ number }
    ensures last { result.last ≡ number }
    ensures bound { result.bound ≡ range_bound (market_of case.now) (map proposal_of rows.now)
        (prices_of_row (map proposal_of rows.now) number) radius
        (record { first = number; last = number }) }
    ensures limits { IsFrom least_bound most_bound result.bound }
    ensures work { length work.new.items ≡ length work.old.items }
    ensures spare { work.new.spare ≡ work.old.spare }
{
    let row = row_at(rows, number as usize - 1);
    let sums = plane_sums_of_one_row(case, row, work);
    let bound = greatest_mean_plane_height(case, &row.prices, radius, sums, work);
    Certified {
        first: number,
        last: number,
        bound,
    }
}

// The better of a bound and that by the rows from an earlier one on, which is taken in a tie.
fn range_of_lesser_bound(best: Certified, first: u32, bound: i128) -> Certified
    ensures last { result.last ≡ best.last }
    ensures taken { bound ≤ℤ best.bound → (result.first ≡ first) × (result.bound ≡ bound) }
    ensures kept { best.bound <ℤ bound → (result.first ≡ best.first) × (result.bound ≡ best.bound) }
{
    if bound <= best.bound {
        return Certified {
            first,
            last: best.last,
            bound,
        };
    }
    best
}

// The best bound round the centre by the rows from one of them to the last, the longest range in
// a tie.
fn best_suffix_bound(
    case: &Case,
    rows: &[Row],
    centre: &Prices,
    radius: i64,
    work: &mut Amounts,
) -> Certified
    requires some { 1 ≤ length rows.now }
    requires count { length rows.now ≤ MOST_PROPOSALS }
    requires rows { All (IsRowWithin (market_of case.now)) (map proposal_of rows.now) }
    requires horizon { length (prices_of centre.now).energy ≡ (market_of case.now).periods }
    requires radius { IsRadius radius }
    requires work { length work.old.items ≡ 2 * (market_of case.now).periods }
    ensures from_one { 1 ≤ result.first }
    ensures to_last { result.first ≤ length rows.now }
    ensures last { result.last ≡ length rows.now }
    ensures bound { result.bound ≡ range_bound (market_of case.now) (map proposal_of rows.now)
        (prices_of centre.now) radius (record { first = result.first; last = length rows.now }) }
    ensures least { (j : ℕ) → 1 ≤ j → j ≤ length rows.now →
        result.bound ≤ℤ range_bound (market_of case.now) (map proposal_of rows.now)
        (prices_of centre.now) radius (record { first = j; last = length rows.now }) }
    ensures earlier { (j : ℕ) → 1 ≤ j → j < result.first →
        result.bound <ℤ range_bound (market_of case.now) (map proposal_of rows.now)
        (prices_of centre.now) radius (record { first = j; last = length rows.now }) }
    ensures least_limit { least_bound ≤ℤ result.bound }
    ensures work { length work.new.items ≡ length work.old.items }
    ensures spare { work.new.spare ≡ work.old.spare }
{
    let count = rows.len();
    let mut sums = plane_sums_of_one_row(case, row_at(rows, count - 1), work);
    let mut best = Certified {
        first: count as u32,
        last: count as u32,
        bound: greatest_mean_plane_height(case, centre, radius, sums, work),
    };
    for index in (0..count - 1).rev() {
        sums = add_weighted_plane_of_row(case, row_at(rows, index), 1, sums, work);
        let bound = greatest_mean_plane_height(case, centre, radius, sums, work);
        best = range_of_lesser_bound(best, index as u32 + 1, bound);
    }
    best
}

/// The best bound round row `centre` by a range of rows, each with weight 1: by the centre alone,
/// or by the rows from one of them to the last. In a tie it is the centre, and then the longest
/// range. Rows are numbered from 1; they are at most 10,000, over the periods of the case, with
/// values of at most 10^24 and totals of at most 10^13 in magnitude, which all answered rows are,
/// `law_parts::bounds::answered_rows_are_within`. The radius is from 0 to 20,000,000, in money for a
/// kilowatt and period; the bound is in money, and within 10^35. `work` has two numbers for each
/// period, and is left with any numbers. Takes no memory.
pub fn best_range(
    case: &Case,
    rows: &[Row],
    centre: u32,
    radius: i64,
    work: &mut Amounts,
) -> Certified
    requires count { length rows.now ≤ MOST_PROPOSALS }
    requires rows { All (IsRowWithin (market_of case.now)) (map proposal_of rows.now) }
    requires from_one { 1 ≤ centre }
    requires to_last { centre ≤ length rows.now }
    requires radius { IsRadius radius }
    requires work { length work.old.items ≡ 2 * (market_of case.now).periods }
    ensures best { IsFirstLeast (market_of case.now) (map proposal_of rows.now) centre radius
        (record { first = result.first; last = result.last }) result.bound }
    ensures limits { IsFrom least_bound most_bound result.bound }
    ensures work { length work.new.items ≡ length work.old.items }
    ensures spare { work.new.spare ≡ work.old.spare }
{
    let alone = bound_by_one_row(case, rows, centre, radius, work);
    let middle = row_at(rows, centre as usize - 1);
    let trailing = best_suffix_bound(case, rows, &middle.prices, radius, work);
    if trailing.bound < alone.bound {
        return trailing;
    }
    alone
}
