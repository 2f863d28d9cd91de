//! Case files: what is read, and the first fault of a file.

use crate::same::{same, same_of};
use crate::texts::{Change, changed, changed_once};
use std::alloc::Global;
use std::process::Abort;
use std::test::Fail;
use uc_case::fault::CaseFault;
use uc_case::read_case;
use uc_field::fault::CaseCode::{
    BlockOrder, CurveEnds, LagOrder, Missing, Negative, NoPeriods, NoUnits, NotFlag, NotWhole,
    RangeOrder, TooLarge, WindowShape, WrongKind, WrongLength,
};
use uc_field::fault::{CaseCode, Field, FieldFault, Kind};
use uc_text::{TextCode, TextFault};

/// What is wrong, at which key, of which kind of thing, and the numbers of the unit and the item.
type Due = (CaseCode, Field, Kind, u32, u32);

fn fault(due: Due) -> CaseFault {
    let (code, field, kind, unit, item) = due;
    CaseFault::Field(FieldFault {
        code,
        field,
        kind,
        unit,
        item,
    })
}

/// The fault of a file, where it has one.
fn fault_of(alloc: Global, bytes: &[u8]) -> Option<CaseFault> {
    if bytes.len() > 10_000 {
        return None;
    }
    match read_case(alloc, bytes) {
        Ok(_) => None,
        Err(fault) => Some(fault),
    }
}

/// A file has this fault.
fn has_fault(rt: &impl Abort, alloc: Global, text: &str, due: Due) {
    same_of(
        rt,
        &text,
        fault_of(alloc, text.as_bytes()),
        Some(fault(due)),
    );
}

/// With each change the file has the fault beside it.
fn make_faults(
    rt: &impl Abort,
    alloc: Global,
    text: &str,
    rows: &[(Change, Due)],
) -> Result<(), Fail> {
    for (change, due) in rows {
        let text = changed_once(alloc, text, change)?;
        has_fault(rt, alloc, text.as_str(), *due);
    }
    Ok(())
}

// One renewable unit that gives up to 100,000 kW, where just that is wanted.
pub(crate) const SMALLEST: &str =
    "{\"time_periods\":1,\"demand\":[100],\"reserves\":[0],\"thermal_generators\":{},\
    \"renewable_generators\":{\"W\":{\"power_output_minimum\":[0],\
    \"power_output_maximum\":[100]}}}";

#[test]
fn reads_the_smallest_case(rt: HostRuntime) -> Result<(), Fail> {
    let case = read_case(rt.alloc(), SMALLEST.as_bytes())?;
    same(&rt, case.periods, 1);
    same(&rt, case.demand.as_slice(), [100_000].as_slice());
    same(&rt, case.reserves.as_slice(), [0].as_slice());
    same(&rt, case.thermal.len(), 0);
    same(&rt, case.bids.len(), 0);
    assert_eq!(rt; case.flat.len(), 1);
    let unit = case.flat.get(0);
    same(&rt, unit.name.as_str(), "W");
    same(&rt, unit.flat.least.as_slice(), [0].as_slice());
    same(&rt, unit.flat.most.as_slice(), [100_000].as_slice());
    Ok(())
}

#[test]
fn a_cut_file(rt: HostRuntime) -> Result<(), Fail> {
    let file = SMALLEST.as_bytes();
    for (len, offset) in [
        (0, 0),
        (1, 1),
        (2, 1),
        (14, 1),
        (15, 15),
        (17, 17),
        (158, 158),
    ] {
        assert!(rt; len <= file.len());
        let want = CaseFault::Text(TextFault {
            code: TextCode::NotJson,
            offset,
        });
        same_of(&rt, &len, fault_of(rt.alloc(), &file[..len]), Some(want));
    }
    Ok(())
}

/// No units and no demand.
const NO_UNITS: &str =
    "{\"time_periods\":1,\"demand\":[0],\"reserves\":[0],\"thermal_generators\":{},\
    \"renewable_generators\":{}}";

const SMALL_FILES: [(&str, Due); 6] = [
    ("[]", (WrongKind, Field::Whole, Kind::Case, 0, 0)),
    ("{}", (Missing, Field::TimePeriods, Kind::Case, 0, 0)),
    (
        NO_UNITS,
        (NoUnits, Field::RenewableGenerators, Kind::Case, 0, 0),
    ),
    (
        "{\"time_periods\":-169}",
        (TooLarge, Field::TimePeriods, Kind::Case, 0, 0),
    ),
    (
        "{\"time_periods\":-5}",
        (Negative, Field::TimePeriods, Kind::Case, 0, 0),
    ),
    (
        "{\"time_periods\":1.5}",
        (NotWhole, Field::TimePeriods, Kind::Case, 0, 0),
    ),
];

/// Bids of the case without units.
const FAULTY_BIDS: [(Change, Due); 5] = [
    (
        ("{}}", "{},\"demand_bids\":null}"),
        (WrongKind, Field::DemandBids, Kind::Case, 0, 0),
    ),
    (
        ("{}}", "{},\"demand_bids\":{\"X\":{}}}"),
        (Missing, Field::Blocks, Kind::Bid, 1, 0),
    ),
    (
        ("{}}", "{},\"demand_bids\":{\"X\":null}}"),
        (WrongKind, Field::DemandBids, Kind::Bid, 1, 0),
    ),
    (
        ("{}}", "{},\"demand_bids\":{\"X\":{\"blocks\":{}}}}"),
        (WrongKind, Field::Blocks, Kind::Bid, 1, 0),
    ),
    (
        ("{}}", "{},\"demand_bids\":{\"X\":{\"blocks\":[]}}}"),
        (WrongLength, Field::Blocks, Kind::Bid, 1, 0),
    ),
];

const FAULTY_SMALLEST: [(Change, Due); 8] = [
    (
        ("power_output_minimum", "power_output_minimu"),
        (Missing, Field::PowerOutputMinimum, Kind::Renewable, 1, 0),
    ),
    (
        (
            "thermal_generators\":{},\"renew",
            "tehermal_generators\":{},\"renw",
        ),
        (Missing, Field::ThermalGenerators, Kind::Case, 0, 0),
    ),
    (
        ("reserves\":[0],\"thermal", "reherves\":[0],\"tsermal"),
        (Missing, Field::Reserves, Kind::Case, 0, 0),
    ),
    (
        ("time_periods\":1", "time_periods\":0"),
        (NoPeriods, Field::TimePeriods, Kind::Case, 0, 0),
    ),
    (
        ("demand\":[100]", "demand\":[1e400]"),
        (TooLarge, Field::Demand, Kind::Case, 0, 1),
    ),
    (
        ("time_periods\":1", "time_periods\":1e400"),
        (TooLarge, Field::TimePeriods, Kind::Case, 0, 0),
    ),
    (
        ("time_periods\":1", "time_periods\":1e-400"),
        (NotWhole, Field::TimePeriods, Kind::Case, 0, 0),
    ),
    (
        ("power_output_maximum", "power_output_mInfinityximum"),
        (Missing, Field::PowerOutputMaximum, Kind::Renewable, 1, 0),
    ),
];

#[test]
fn faults_of_small_files(rt: HostRuntime) -> Result<(), Fail> {
    for (text, due) in SMALL_FILES {
        has_fault(&rt, rt.alloc(), text, due);
    }
    make_faults(&rt, rt.alloc(), NO_UNITS, &FAULTY_BIDS)?;
    make_faults(&rt, rt.alloc(), SMALLEST, &FAULTY_SMALLEST)
}

/// Two units, A from 0 to 100 kW and B at just 100 kW; A's fields stand in another order.
const TWO_UNITS: &str =
    "{\"time_periods\":1,\"demand\":[0.15],\"reserves\":[0],\"thermal_generators\":{\
    \"A\":{\"power_output_minimum\":0,\"time_up_minimum\":1,\"unit_on_t0\":0,\"startup\":[],\
    \"piecewise_production\":[{\"mw\":0,\"cost\":0},{\"mw\":0.1,\"cost\":0.001}],\
    \"ramp_up_limit\":1,\"ramp_down_limit\":1,\"ramp_startup_limit\":1,\"ramp_shutdown_limit\":1,\
    \"time_down_minimum\":1,\"power_output_t0\":0,\"time_up_t0\":0,\"time_down_t0\":1,\
    \"must_run\":0,\"power_output_maximum\":0.1},\
    \"B\":{\"must_run\":0,\"power_output_minimum\":0.1,\"power_output_maximum\":0.1,\
    \"ramp_up_limit\":1,\"ramp_down_limit\":1,\"ramp_startup_limit\":1,\"ramp_shutdown_limit\":1,\
    \"time_up_minimum\":1,\"time_down_minimum\":1,\"power_output_t0\":0,\"unit_on_t0\":0,\
    \"time_up_t0\":0,\"time_down_t0\":1,\"startup\":[],\
    \"piecewise_production\":[{\"mw\":0.1,\"cost\":0.003}]}},\
    \"renewable_generators\":{}}";

/// At A where both have the part.
const FAULTY_UNITS: [(Change, Due); 9] = [
    (
        ("power_output_minimum\":0", "power_output_minimum\":0.2"),
        (RangeOrder, Field::PowerOutputMinimum, Kind::Thermal, 1, 0),
    ),
    (
        ("{\"mw\":0.1,", "{\"mw\":0.09,"),
        (CurveEnds, Field::PiecewiseProduction, Kind::Thermal, 1, 0),
    ),
    (
        ("time_up_minimum\":1", "time_up_minimum\":1.5"),
        (NotWhole, Field::TimeUpMinimum, Kind::Thermal, 1, 0),
    ),
    (
        ("time_up_minimum\":1", "time_up_minimum\":1e-400"),
        (NotWhole, Field::TimeUpMinimum, Kind::Thermal, 1, 0),
    ),
    (
        ("time_up_minimum\":1", "time_up_minimum\":1e400"),
        (TooLarge, Field::TimeUpMinimum, Kind::Thermal, 1, 0),
    ),
    (
        ("unit_on_t0\":0", "unit_on_t0\":2"),
        (NotFlag, Field::UnitOnT0, Kind::Thermal, 1, 0),
    ),
    (
        ("unit_on_t0\":0", "unit_on_t0\":true"),
        (WrongKind, Field::UnitOnT0, Kind::Thermal, 1, 0),
    ),
    (
        (
            "startup\":[]",
            "startup\":[{\"lag\":3,\"cost\":1},{\"lag\":2,\"cost\":1}]",
        ),
        (LagOrder, Field::Startup, Kind::Thermal, 1, 2),
    ),
    (
        ("\"cost\":0.001", "\"cost\":10000000.000001"),
        (TooLarge, Field::PiecewiseProduction, Kind::Thermal, 1, 2),
    ),
];

#[test]
fn faults_of_two_units(rt: HostRuntime) -> Result<(), Fail> {
    make_faults(&rt, rt.alloc(), TWO_UNITS, &FAULTY_UNITS)
}

const FAULTY_OTHERS: [(Change, Due); 5] = [
    (
        ("0.003}]", "0.003}],\"commitment\":[1,1]"),
        (WindowShape, Field::Commitment, Kind::Thermal, 2, 0),
    ),
    (
        ("0.003}]", "0.003}],\"commitment\":[2]"),
        (WindowShape, Field::Commitment, Kind::Thermal, 2, 1),
    ),
    (
        ("0.003}]", "0.003}],\"commitment\":null"),
        (WindowShape, Field::Commitment, Kind::Thermal, 2, 0),
    ),
    (
        (
            "\"renewable_generators\":{}",
            "\"renewable_generators\":{},\
            \"demand_bids\":{\"X\":{\"blocks\":[[{\"mw\":0.05,\"price\":0.04},\
            {\"mw\":0.05,\"price\":0.041}]]}}",
        ),
        (BlockOrder, Field::Blocks, Kind::Bid, 1, 1),
    ),
    (
        (
            "\"renewable_generators\":{}",
            "\"renewable_generators\":{},\
            \"demand_bids\":{\"X\":{\"blocks\":[[{\"mw\":600000,\"price\":2},\
            {\"mw\":600000,\"price\":1}]]}}",
        ),
        (TooLarge, Field::Blocks, Kind::Bid, 1, 1),
    ),
];

#[test]
fn faults_of_windows_and_bids(rt: HostRuntime) -> Result<(), Fail> {
    make_faults(&rt, rt.alloc(), TWO_UNITS, &FAULTY_OTHERS)
}
/// Changes with which the two units are read.
const RIGHT_UNITS: [&[Change]; 5] = [
    &[
        ("power_output_minimum\":0", "power_output_minimum\":-0.0004"),
        ("time_up_minimum\":1", "time_up_minimum\":1.0"),
        ("0.003}]", "0.003}],\"commitment\":[1.0]"),
    ],
    &[
        ("time_up_minimum\":1", "time_up_minimum\":0"),
        ("0.003}]", "0.003}],\"commitment\":[10e-1]"),
    ],
    &[
        ("0.003}]", "0.003}],\"commitment\":[-0]"),
        (
            "\"renewable_generators\":{}",
            "\"renewable_generators\":{},\
            \"demand_bids\":{}",
        ),
    ],
    &[
        (
            "startup\":[]",
            "startup\":[{\"lag\":2,\"cost\":1},{\"lag\":2,\"cost\":1}]",
        ),
        ("0.003}]", "0.003}],\"commitment\":[null]"),
    ],
    &[(
        "\"renewable_generators\":{}",
        "\"renewable_generators\":{},\
            \"demand_bids\":{\"X\":{\"blocks\":[[{\"mw\":0.05,\"price\":0.04}]]}}",
    )],
];

/// With each of the changes the two units have no fault.
fn make_none(rt: &impl Abort, alloc: Global, rows: &[&[Change]]) -> Result<(), Fail> {
    for changes in rows {
        let text = changed(alloc, TWO_UNITS, changes)?;
        same_of(rt, &text, fault_of(alloc, text.as_bytes()), None);
    }
    Ok(())
}

#[test]
fn accepts_what_reads_within_the_limits(rt: HostRuntime) -> Result<(), Fail> {
    make_none(&rt, rt.alloc(), &RIGHT_UNITS)
}
