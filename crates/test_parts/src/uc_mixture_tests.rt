//! Mixture files of a case: what is read, and the first fault of a file.

use crate::same::{same, same_of};
use gap_proof::Entry;
use std::alloc::Global;
use std::process::Abort;
use std::test::Fail;
use uc_case::read_case;
use uc_mixture::fault::{MixtureFault, ShareCode, ShareFault};
use uc_mixture::read_mixture;
use uc_model::cases::Case;
use uc_model::kinds::Kind;
use uc_plan::fault::ShapeCode;

const TWO_UNITS: &[u8] = b"{\"time_periods\":2,\"demand\":[0.1,0.1],\"reserves\":[0,0],\
    \"thermal_generators\":{\
    \"A\":{\"must_run\":0,\"power_output_minimum\":0,\"power_output_maximum\":0.1,\
    \"ramp_up_limit\":1,\"ramp_down_limit\":1,\"ramp_startup_limit\":1,\"ramp_shutdown_limit\":1,\
    \"time_up_minimum\":1,\"time_down_minimum\":1,\"power_output_t0\":0,\"unit_on_t0\":0,\
    \"time_up_t0\":0,\"time_down_t0\":1,\"startup\":[],\
    \"piecewise_production\":[{\"mw\":0,\"cost\":0},{\"mw\":0.1,\"cost\":0.001}]},\
    \"B\":{\"must_run\":0,\"power_output_minimum\":0,\"power_output_maximum\":0.1,\
    \"ramp_up_limit\":1,\"ramp_down_limit\":1,\"ramp_startup_limit\":1,\"ramp_shutdown_limit\":1,\
    \"time_up_minimum\":1,\"time_down_minimum\":1,\"power_output_t0\":0,\"unit_on_t0\":0,\
    \"time_up_t0\":0,\"time_down_t0\":1,\"startup\":[],\
    \"piecewise_production\":[{\"mw\":0,\"cost\":0},{\"mw\":0.1,\"cost\":0.001}]}},\
    \"renewable_generators\":{}}";

/// The fault of a file, where it has one.
fn fault_of(alloc: Global, case: &Case, bytes: &[u8]) -> Option<MixtureFault> {
    if bytes.len() > 10_000 {
        return None;
    }
    match read_mixture(alloc, case, bytes) {
        Ok(_) => None,
        Err(fault) => Some(fault),
    }
}

/// A file, and its fault: what is wrong, and the numbers of the unit, the entry and the item. Unit
/// 0 is the file as a whole.
type Faulty = (&'static str, ShareCode, u32, u32, u32);

const SHAPE: ShareCode = ShareCode::Shape(ShapeCode::PlanShape);

const ITEM: ShareCode = ShareCode::Shape(ShapeCode::PlanNumber);

const MISSING: ShareCode = ShareCode::Shape(ShapeCode::MissingUnit);

const UNKNOWN: ShareCode = ShareCode::Shape(ShapeCode::UnknownUnit);

const WEIGHT: ShareCode = ShareCode::Weight;

/// Faults of the file as a whole.
const WHOLE_FILES: [Faulty; 12] = [
    ("[]", SHAPE, 0, 0, 0),
    ("{}", SHAPE, 0, 0, 0),
    ("{\"weight\":0}", SHAPE, 0, 0, 0),
    ("{\"weight\":0,\"thermal\":[]}", SHAPE, 0, 0, 0),
    ("{\"thermal\":{}}", SHAPE, 0, 0, 0),
    ("{\"weight\":0,\"thermal\":{\"C\":1}}", WEIGHT, 0, 0, 0),
    ("{\"weight\":-1,\"thermal\":{}}", WEIGHT, 0, 0, 0),
    ("{\"weight\":\"1\",\"thermal\":{}}", WEIGHT, 0, 0, 0),
    ("{\"weight\":1.5,\"thermal\":{}}", WEIGHT, 0, 0, 0),
    ("{\"weight\":1000000000001,\"thermal\":{}}", WEIGHT, 0, 0, 0),
    (
        "{\"weight\":1,\"thermal\":{\"A\":1,\"C\":1}}",
        UNKNOWN,
        2,
        0,
        0,
    ),
    ("{\"weight\":1,\"thermal\":{\"B\":1}}", MISSING, 1, 0, 0),
];

/// What stands for A in a file of weight 10 without B, whose fault so comes last.
const FAULTS_OF_A: [Faulty; 14] = [
    ("{}", SHAPE, 1, 0, 0),
    ("[]", SHAPE, 1, 0, 0),
    ("[[]]", SHAPE, 1, 1, 0),
    (
        "[{\"weight\":11,\"on\":[0,0],\"power\":[0,0]}]",
        SHAPE,
        1,
        1,
        0,
    ),
    (
        "[{\"on\":[0,0],\"power\":[0,0],\"reserve\":[0,0]}]",
        SHAPE,
        1,
        1,
        0,
    ),
    (
        "[{\"weight\":11,\"on\":[0,0],\"power\":[0],\"reserve\":[0,0]}]",
        SHAPE,
        1,
        1,
        0,
    ),
    (
        "[{\"weight\":11,\"on\":[2,0],\"power\":[0,0],\"reserve\":[0,0]}]",
        WEIGHT,
        1,
        1,
        0,
    ),
    (
        "[{\"weight\":null,\"on\":[2,0],\"power\":[0,0],\"reserve\":[0,0]}]",
        WEIGHT,
        1,
        1,
        0,
    ),
    (
        "[{\"weight\":-1e0,\"on\":[0,0],\"power\":[0,0],\"reserve\":[0,0]}]",
        WEIGHT,
        1,
        1,
        0,
    ),
    (
        "[{\"weight\":9,\"on\":[0,2],\"power\":[0.5,0],\"reserve\":[0,0]}]",
        ITEM,
        1,
        1,
        2,
    ),
    (
        "[{\"weight\":9,\"on\":[0,0],\"power\":[0,0],\"reserve\":[-1,0]}]",
        ITEM,
        1,
        1,
        1,
    ),
    (
        "[{\"weight\":9,\"on\":[0,0],\"power\":[0,0],\"reserve\":[0,0]},\
          {\"weight\":9,\"on\":[0,0],\"power\":[0,true],\"reserve\":[1e400,0]}]",
        ITEM,
        1,
        2,
        2,
    ),
    (
        "[{\"weight\":9,\"on\":[0,0],\"power\":[0,0],\"reserve\":[0,0]}]",
        WEIGHT,
        1,
        0,
        0,
    ),
    (
        "[{\"weight\":7,\"on\":[0,0],\"power\":[0,0],\"reserve\":[0,0]},\
          {\"weight\":4,\"on\":[0,0],\"power\":[0,0],\"reserve\":[0,0]}]",
        WEIGHT,
        1,
        0,
        0,
    ),
];

const OFF: &str = "[{\"weight\":10,\"on\":[0,0],\"power\":[0,0],\"reserve\":[0,0]}]";

/// Ends the test where the file's fault is another.
fn has_fault(rt: &impl Abort, alloc: Global, case: &Case, file: &str, row: &Faulty) {
    let (_, code, unit, entry, item) = *row;
    let due = MixtureFault::Share(ShareFault {
        code,
        kind: if unit == 0 { Kind::Case } else { Kind::Thermal },
        unit,
        entry,
        item,
    });
    same_of(rt, &file, fault_of(alloc, case, file.as_bytes()), Some(due));
}

#[test]
fn faults_of_the_file(rt: HostRuntime) -> Result<(), Fail> {
    let case = read_case(rt.alloc(), TWO_UNITS)?;
    for row in &WHOLE_FILES {
        has_fault(&rt, rt.alloc(), &case, row.0, row);
    }
    Ok(())
}

#[test]
fn faults_of_a_unit(rt: HostRuntime) -> Result<(), Fail> {
    let case = read_case(rt.alloc(), TWO_UNITS)?;
    for row in &FAULTS_OF_A {
        let file = format!(in rt.alloc(); "{{\"weight\":10,\"thermal\":{{\"A\":{}}}}}", row.0)?;
        has_fault(&rt, rt.alloc(), &case, &file, row);
    }
    Ok(())
}

#[test]
fn a_unit_without_entries_comes_after_those_before(rt: HostRuntime) -> Result<(), Fail> {
    let case = read_case(rt.alloc(), TWO_UNITS)?;
    let file = format!(in rt.alloc(); "{{\"weight\":10,\"thermal\":{{\"A\":{OFF}}}}}")?;
    has_fault(&rt, rt.alloc(), &case, &file, &("", MISSING, 2, 0, 0));
    Ok(())
}

/// Ends the test where the entry is another.
fn entry_is(rt: &impl Abort, entry: &Entry, weight: i64, on: &[bool], power: &[u32]) {
    same(rt, entry.weight, weight);
    same(rt, entry.response.on.as_slice(), on);
    same(rt, entry.response.power.as_slice(), power);
    same(rt, entry.response.reserve.as_slice(), [0, 5].as_slice());
}

#[test]
fn entries_are_read_by_name(rt: HostRuntime) -> Result<(), Fail> {
    let case = read_case(rt.alloc(), TWO_UNITS)?;
    let file: &[u8] = b"{\"x\":[],\"thermal\":{\
        \"B\":[{\"weight\":1e12,\"on\":[1,0],\"power\":[10,0],\"reserve\":[0,5],\"y\":0}],\
        \"A\":[{\"weight\":1.0,\"on\":[0,1],\"power\":[0,7],\"reserve\":[0,5]},\
        {\"weight\":0,\"on\":[0,0],\"power\":[1,1],\"reserve\":[0,5]},\
        {\"weight\":999999999999,\"on\":[1,1],\"power\":[2,2],\"reserve\":[0,5]}]},\
        \"weight\":1000000000000.0}";
    let mixture = read_mixture(rt.alloc(), &case, file)?;
    same(&rt, mixture.weight, 1_000_000_000_000);
    let [first, second] = mixture.thermal.as_slice() else {
        panic!(rt; "another number of units");
    };
    let [one, two, three] = first.as_slice() else {
        panic!(rt; "another number of entries");
    };
    let [four] = second.as_slice() else {
        panic!(rt; "another number of entries");
    };
    entry_is(&rt, one, 1, &[false, true], &[0, 7]);
    entry_is(&rt, two, 0, &[false, false], &[1, 1]);
    entry_is(&rt, three, 999_999_999_999, &[true, true], &[2, 2]);
    entry_is(&rt, four, 1_000_000_000_000, &[true, false], &[10, 0]);
    Ok(())
}

#[test]
fn codes_of_fault_lines(rt: HostRuntime) -> Result<(), Fail> {
    let codes = [UNKNOWN, MISSING, SHAPE, ITEM, WEIGHT];
    same(&rt, codes.map(|code| code.number()), [40, 41, 42, 43, 62]);
    Ok(())
}
