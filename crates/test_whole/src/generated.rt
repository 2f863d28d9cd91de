//! A generated case.
use crate::same::same;
use case_make::make_case;
use std::process::Abort;
use std::test::Fail;
use uc_model::units::Unit;

// The numbers of the last thermal unit.
fn assert_last(rt: &impl Abort, unit: &Unit) {
    let lag = unit.lags.as_slice().last().expect(rt, "3 lags");
    let point = unit.points.as_slice().last().expect(rt, "4 points");
    let powers = [unit.min_power, unit.max_power, unit.ramp_up, unit.power0];
    same(
        rt,
        powers.as_slice(),
        [70_140, 334_000, 66_800, 204_708].as_slice(),
    );
    let times = [unit.min_up, unit.min_down, lag.lag];
    same(rt, times.as_slice(), [8, 1, 13].as_slice());
    let places = [lag.cost, point.at, point.cost];
    same(
        rt,
        places.as_slice(),
        [4_500_000_000, 334_000, 15_857_656_100].as_slice(),
    );
}

// Worked out outside this program, from the words that the published PCG32 gives from state 7 on
// stream 54. T73 takes the thermal units' last words, and R81 the last of all.
#[test]
fn a_generated_case(rt: HostRuntime) -> Result<(), Fail> {
    let (case, plan) = make_case(rt.alloc(), 7)?;
    let named = case.thermal.as_slice().last().expect(&rt, "73 units");
    same(&rt, named.name.as_str(), "T73");
    assert_last(&rt, &named.unit);
    let (demand, reserves) = (case.demand.as_slice(), case.reserves.as_slice());
    let wanted = [
        demand.first().copied(),
        demand.get(8).copied(),
        reserves.last().copied(),
    ];
    same(
        &rt,
        wanted.as_slice(),
        [Some(9_850_236), Some(11_301_721), Some(1_102_344)].as_slice(),
    );
    let last = plan.responses.as_slice().last().expect(&rt, "154 units");
    same(&rt, last.power.as_slice().last().copied(), Some(6_270));
    Ok(())
}
