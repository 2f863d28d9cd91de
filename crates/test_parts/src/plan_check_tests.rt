//! A renewable unit alone: it meets demand, misses it, or leaves its range.
ghost use Rattle.std.specs.Prelude.{◌≡◌, true, [], ◌∷◌, IfOk};
ghost use Rattle.uc_model.specs.Limits.{IsPower};
ghost use Rattle.uc_model.specs.PlainCases.{schedules_of};

use crate::small_cases::{one_period, one_response};
use plan_check::{RuleFault, check_plan};
use std::alloc::{AllocError, Global};
use std::test::Fail;
use uc_model::cases::Plan;
use uc_model::kinds::{Kind, RuleCode};
use uc_model::units::ResponseList;

// A schedule with that power.
fn small_plan(alloc: Global, power: u32) -> Result<Plan, AllocError>
    ensures { IfOk result (λ p. schedules_of p ≡ record {
      on = true ∷ [];
      power = power ∷ [];
      reserve = 0 ∷ [];
    } ∷ []) }
{
    let response = one_response(alloc, power, 0)?;
    let mut responses = ResponseList::make(alloc, 1)?;
    responses.push(response);
    Ok(Plan { responses })
}

// What the check answers on a renewable unit of 0 to 9 kilowatts at a power.
fn checked(alloc: Global, demand: i64, power: u32) -> Result<Result<i128, RuleFault>, AllocError>
    requires { IsPower demand }
{
    let case = one_period(alloc, demand, 0, 9)?;
    let plan = small_plan(alloc, power)?;
    Ok(check_plan(&case, &plan))
}

#[test]
fn a_renewable_unit_alone(rt: HostRuntime) -> Result<(), Fail> {
    let alloc = rt.alloc();
    assert!(rt; checked(alloc, 7, 7)? == Ok(0));
    let fault = RuleFault {
        code: RuleCode::Balance,
        kind: Kind::Case,
        unit: 0,
        period: 1,
        left: 7,
        right: 8,
    };
    assert!(rt; checked(alloc, 8, 7)? == Err(fault));
    let fault = RuleFault {
        code: RuleCode::RenewableRange,
        kind: Kind::Renewable,
        unit: 1,
        period: 1,
        left: 10,
        right: 9,
    };
    assert!(rt; checked(alloc, 10, 10)? == Err(fault));
    Ok(())
}
