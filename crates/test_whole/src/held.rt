//! The case of two units with its commitments held.
use crate::boards::{CASE, PLAN, planned};
use crate::same::same;
use plan_settle::fix_case;
use std::alloc::Global;
use std::test::Fail;
use uc_model::cases::Case;
use uc_model::units::Mark;

fn held_case(alloc: Global) -> Result<Case, Fail> {
    let (case, plan, _cost) = planned(alloc, CASE, PLAN)?;
    Ok(fix_case(alloc, &case, &plan)?)
}

#[test]
fn two_units_are_held_on(rt: HostRuntime) -> Result<(), Fail> {
    let held = held_case(rt.alloc())?;
    same(&rt, held.demand.as_slice(), [150].as_slice());
    same(&rt, held.thermal.len(), 2);
    for (named, name) in held.thermal.as_slice().iter().zip(["A", "B"]) {
        same(&rt, named.name.as_str(), name);
        assert!(rt; named.unit.window.as_slice() == [Mark::MustOn].as_slice());
    }
    Ok(())
}
