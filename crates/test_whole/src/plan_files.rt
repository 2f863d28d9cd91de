//! Schedule files of a case: what is read, and the first fault of a file.

use crate::boards::CASE;
use crate::case_files::SMALLEST;
use crate::same::{same, same_of};
use crate::texts::changed_once;
use std::alloc::Global;
use std::process::Abort;
use std::test::Fail;
use uc_case::read_case;
use uc_model::cases::Case;
use uc_model::kinds::Kind;
use uc_model::units::Response;
use uc_plan::fault::ShapeCode::{MissingUnit, PlanNumber, PlanShape, UnknownUnit};
use uc_plan::fault::{PlanFault, ShapeCode, ShapeFault};
use uc_plan::read_plan;

/// What is wrong, of which kind of thing, and the numbers of the unit and the item.
type Due = (ShapeCode, Kind, u32, u32);

fn fault(due: Due) -> PlanFault {
    let (code, kind, unit, item) = due;
    PlanFault::Shape(ShapeFault {
        code,
        kind,
        unit,
        item,
    })
}

/// The fault of a file, where it has one.
fn fault_of(alloc: Global, case: &Case, bytes: &[u8]) -> Option<PlanFault> {
    if bytes.len() > 10_000 {
        return None;
    }
    match read_plan(alloc, case, bytes) {
        Ok(_) => None,
        Err(fault) => Some(fault),
    }
}

/// A file has this fault.
fn has_fault(rt: &impl Abort, alloc: Global, case: &Case, text: &str, due: Due) {
    let found = fault_of(alloc, case, text.as_bytes());
    same_of(rt, &text, found, Some(fault(due)));
}

/// The response is on for its one period, and gives this power and no reserve.
fn gives(rt: &impl Abort, response: &Response, power: u32) {
    same(rt, response.on.as_slice(), [true].as_slice());
    same(rt, response.power.as_slice(), [power].as_slice());
    same(rt, response.reserve.as_slice(), [0].as_slice());
}

const SMALL_FILES: [(&str, Due); 6] = [
    ("[]", (PlanShape, Kind::Case, 0, 0)),
    ("{}", (PlanShape, Kind::Case, 0, 0)),
    ("null", (PlanShape, Kind::Case, 0, 0)),
    (
        "{\"thermal\":{},\"renewable\":{\"W\":[1e400]}}",
        (PlanNumber, Kind::Renewable, 1, 1),
    ),
    (
        "{\"thermal\":{},\"renewable\":{\"W\":[1E+400]}}",
        (PlanNumber, Kind::Renewable, 1, 1),
    ),
    (
        "{\"thermal\":{},\"renewable\":{\"W\":[1e-400]}}",
        (PlanNumber, Kind::Renewable, 1, 1),
    ),
];

#[test]
fn faults_of_the_smallest_case(rt: HostRuntime) -> Result<(), Fail> {
    let case = read_case(rt.alloc(), SMALLEST.as_bytes())?;
    for (text, due) in SMALL_FILES {
        has_fault(&rt, rt.alloc(), &case, text, due);
    }
    Ok(())
}

#[test]
fn a_schedule_of_the_smallest_case(rt: HostRuntime) -> Result<(), Fail> {
    let case = read_case(rt.alloc(), SMALLEST.as_bytes())?;
    let plan = read_plan(
        rt.alloc(),
        &case,
        b"{\"thermal\":{},\"renewable\":{\"W\":[100000]}}",
    )?;
    same(&rt, plan.responses.len(), 1);
    gives(&rt, plan.responses.get(0), 100_000);
    Ok(())
}

/// The two units and a bid.
fn with_bid(alloc: Global) -> Result<Case, Fail> {
    let bid = (
        "\"renewable_generators\":{}",
        "\"renewable_generators\":{},\
        \"demand_bids\":{\"X\":{\"blocks\":[[{\"mw\":0.05,\"price\":0.04}]]}}",
    );
    let text = changed_once(alloc, CASE, &bid)?;
    if text.len() > 10_000 {
        return Err(Fail::new("a long case"));
    }
    Ok(read_case(alloc, text.as_bytes())?)
}

/// A schedule of two units, with A's member and the rest of the file.
fn schedule(alloc: Global, a: &str, others: &str) -> Result<String, Fail> {
    Ok(format!(in alloc;
        "{{\"thermal\":{{\"B\":{{\"on\":[1],\"power\":[100],\"reserve\":[0]}}{a}}},\
        \"renewable\":{{}}{others}}}"
    )?)
}

const A: &str = ",\"A\":{\"on\":[1],\"power\":[50],\"reserve\":[0]}";

const BID: &str = ",\"bids\":{\"X\":[50]}";

/// A's member and the rest of the file.
const FAULTY_UNITS: [(&str, &str, Due); 11] = [
    (A, "", (PlanShape, Kind::Case, 0, 0)),
    (A, ",\"bids\":[]", (PlanShape, Kind::Case, 0, 0)),
    ("", BID, (MissingUnit, Kind::Thermal, 1, 0)),
    (",\"C\":{}", BID, (UnknownUnit, Kind::Thermal, 2, 0)),
    (",\"X\":{}", BID, (UnknownUnit, Kind::Thermal, 2, 0)),
    (A, ",\"bids\":{\"A\":[50]}", (UnknownUnit, Kind::Bid, 1, 0)),
    (
        ",\"A\":{\"on\":[1,1],\"power\":[50],\"reserve\":[0]}",
        BID,
        (PlanShape, Kind::Thermal, 1, 0),
    ),
    (
        ",\"A\":{\"on\":[2],\"power\":[50],\"reserve\":[0]}",
        BID,
        (PlanNumber, Kind::Thermal, 1, 1),
    ),
    (
        ",\"A\":{\"on\":[1],\"power\":[0.5],\"reserve\":[0]}",
        BID,
        (PlanNumber, Kind::Thermal, 1, 1),
    ),
    (
        ",\"A\":{\"on\":[1],\"power\":[50],\"reserve\":[-1]}",
        BID,
        (PlanNumber, Kind::Thermal, 1, 1),
    ),
    (
        A,
        ",\"bids\":{\"X\":[1000000001]}",
        (PlanNumber, Kind::Bid, 1, 1),
    ),
];

#[test]
fn faults_of_two_units_and_a_bid(rt: HostRuntime) -> Result<(), Fail> {
    let case = with_bid(rt.alloc())?;
    for (a, others, due) in FAULTY_UNITS {
        let text = schedule(rt.alloc(), a, others)?;
        has_fault(&rt, rt.alloc(), &case, text.as_str(), due);
    }
    Ok(())
}

#[test]
fn a_schedule_of_two_units_and_a_bid(rt: HostRuntime) -> Result<(), Fail> {
    let case = with_bid(rt.alloc())?;
    let text = schedule(rt.alloc(), A, BID)?;
    assert!(rt; text.len() < 1000);
    let plan = read_plan(rt.alloc(), &case, text.as_bytes())?;
    same(&rt, plan.responses.len(), 3);
    for (unit, power) in [(0, 50), (1, 100), (2, 50)] {
        assert!(rt; unit < plan.responses.len());
        gives(&rt, plan.responses.get(unit), power);
    }
    Ok(())
}
