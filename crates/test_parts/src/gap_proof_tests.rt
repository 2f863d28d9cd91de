ghost use Rattle.std.specs.Prelude.{◌≡◌, ◌∷◌, [], pos, length, IfOk};
ghost use Rattle.uc_model.specs.PlainCases.{market_of};
ghost use Rattle.gap_proof.specs.PlaneSums.{IsRadius};

use crate::same::same;
use crate::small_cases::{one_period, one_row};
use gap_proof::{Certified, best_range, bound_of};
use plain_lists::lists::{Amounts, Numbers};
use std::alloc::{AllocError, Global};
use std::test::Fail;
use uc_model::cases::Case;

// A demand of 150 kW.
fn small_case(alloc: Global) -> Result<Case, AllocError>
    ensures { IfOk result (λ case. (market_of case).periods ≡ 1) }
{
    one_period(alloc, 150, 0, 0)
}

fn small_work(alloc: Global) -> Result<Amounts, AllocError>
    ensures { IfOk result (λ work. length work.items ≡ 2) }
{
    Amounts::filled(alloc, 2, 7)
}

// The best range of one row.
fn best_of_one(
    alloc: Global,
    case: &Case,
    radius: i64,
    work: &mut Amounts,
) -> Result<Certified, AllocError>
    requires case { (market_of case.now).periods ≡ 1 }
    requires radius { IsRadius radius }
    requires work { length work.old.items ≡ 2 }
    ensures { length work.new.items ≡ 2 }
{
    let row = one_row(alloc, 30, 2_500, 100)?;
    Ok(best_range(case, &[row], 1, radius, work))
}

// The best ranges of one row, by a radius of 10 and by one of 0.
fn best_by_radius(
    alloc: Global,
    case: &Case,
    work: &mut Amounts,
) -> Result<(Certified, Certified), AllocError>
    requires case { (market_of case.now).periods ≡ 1 }
    requires work { length work.old.items ≡ 2 }
{
    let ten = best_of_one(alloc, case, 10, work)?;
    let none = best_of_one(alloc, case, 0, work)?;
    Ok((ten, none))
}

fn best_by_radius_alone(alloc: Global) -> Result<(Certified, Certified), AllocError> {
    let mut work = small_work(alloc)?;
    let case = small_case(alloc)?;
    best_by_radius(alloc, &case, &mut work)
}

#[test]
fn a_row_alone(rt: HostRuntime) -> Result<(), Fail> {
    let (ten, none) = best_by_radius_alone(rt.alloc())?;
    same(
        &rt,
        ten,
        Certified {
            first: 1,
            last: 1,
            bound: 3_000,
        },
    );
    same(&rt, none.bound, 2_500);
    Ok(())
}

// The best range of two rows round the first.
fn best_of_two(alloc: Global, case: &Case, work: &mut Amounts) -> Result<Certified, AllocError>
    requires case { (market_of case.now).periods ≡ 1 }
    requires work { length work.old.items ≡ 2 }
{
    let first = one_row(alloc, 30, 2_500, 100)?;
    let second = one_row(alloc, 50, 1_500, 200)?;
    Ok(best_range(case, &[first, second], 1, 10, work))
}

fn best_of_two_alone(alloc: Global) -> Result<Certified, AllocError> {
    let mut work = small_work(alloc)?;
    let case = small_case(alloc)?;
    best_of_two(alloc, &case, &mut work)
}

#[test]
fn two_rows_are_better(rt: HostRuntime) -> Result<(), Fail> {
    let best = best_of_two_alone(rt.alloc())?;
    same(
        &rt,
        best,
        Certified {
            first: 1,
            last: 2,
            bound: 2_500,
        },
    );
    Ok(())
}

fn three_and_one(alloc: Global) -> Result<Numbers, AllocError>
    ensures { IfOk result (λ weights. weights.items ≡ pos 3 ∷ pos 1 ∷ []) }
{
    let mut weights = Numbers::make(alloc, 2)?;
    weights.push(3);
    weights.push(1);
    Ok(weights)
}

// The bound by the rows of the test above with those weights.
fn bound_of_usual(
    alloc: Global,
    case: &Case,
    weights: &Numbers,
    work: &mut Amounts,
) -> Result<i128, AllocError>
    requires case { (market_of case.now).periods ≡ 1 }
    requires weights { weights.now.items ≡ pos 3 ∷ pos 1 ∷ [] }
    requires work { length work.old.items ≡ 2 }
    ensures { length work.new.items ≡ 2 }
{
    let first = one_row(alloc, 30, 2_500, 100)?;
    let second = one_row(alloc, 50, 1_500, 200)?;
    Ok(bound_of(case, &[first, second], weights, 1, 10, work))
}

// The bound by two rows that supply the demand.
fn bound_of_level(
    alloc: Global,
    case: &Case,
    weights: &Numbers,
    work: &mut Amounts,
) -> Result<i128, AllocError>
    requires case { (market_of case.now).periods ≡ 1 }
    requires weights { weights.now.items ≡ pos 3 ∷ pos 1 ∷ [] }
    requires work { length work.old.items ≡ 2 }
{
    let first = one_row(alloc, 30, -7, 150)?;
    let second = one_row(alloc, 50, -8, 150)?;
    Ok(bound_of(case, &[first, second], weights, 1, 10, work))
}

fn two_bounds(alloc: Global, case: &Case, work: &mut Amounts) -> Result<(i128, i128), AllocError>
    requires case { (market_of case.now).periods ≡ 1 }
    requires work { length work.old.items ≡ 2 }
{
    let weights = three_and_one(alloc)?;
    let usual = bound_of_usual(alloc, case, &weights, work)?;
    let level = bound_of_level(alloc, case, &weights, work)?;
    Ok((usual, level))
}

fn two_bounds_alone(alloc: Global) -> Result<(i128, i128), AllocError> {
    let mut work = small_work(alloc)?;
    let case = small_case(alloc)?;
    two_bounds(alloc, &case, &mut work)
}

#[test]
fn weights_count(rt: HostRuntime) -> Result<(), Fail> {
    let (usual, level) = two_bounds_alone(rt.alloc())?;
    same(&rt, usual, 2_750);
    same(&rt, level, -8);
    Ok(())
}
