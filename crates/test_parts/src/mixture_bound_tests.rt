//! Bounds by mixtures that were worked out by hand, and the first rule that an entry breaks.
ghost use Rattle.std.specs.Prelude.{◌≤◌, length};
ghost use Rattle.gap_proof.specs.PlaneSums.{IsRadius};

use crate::same::same;
use gap_proof::{EntryFault, bound_of_mixture, check_mixture};
use std::alloc::Global;
use std::process::Abort;
use std::test::Fail;
use uc_case::read_case;
use uc_mixture::read_mixture;
use uc_prices::read_prices;

/// A thermal unit of 8 to 20 MW that costs 50 to start and is off, and a renewable one of 0 to 3
/// MW, with a demand of 10 MW and a required reserve of 2 MW.
pub const CASE: &[u8] = b"{\"time_periods\":1,\"demand\":[10.0],\"reserves\":[2.0],\
    \"thermal_generators\":{\
    \"G1\":{\"must_run\":0,\"power_output_minimum\":8.0,\"power_output_maximum\":20.0,\
    \"ramp_up_limit\":20.0,\"ramp_down_limit\":20.0,\"ramp_startup_limit\":20.0,\
    \"ramp_shutdown_limit\":20.0,\"time_up_minimum\":1,\"time_down_minimum\":1,\
    \"power_output_t0\":0.0,\"unit_on_t0\":0,\"time_up_t0\":0,\"time_down_t0\":8,\
    \"startup\":[{\"lag\":1,\"cost\":50.0}],\
    \"piecewise_production\":[{\"mw\":8.0,\"cost\":800.0},{\"mw\":12.0,\"cost\":1160.0},\
    {\"mw\":20.0,\"cost\":1960.0}]}},\
    \"renewable_generators\":{\
    \"W1\":{\"power_output_minimum\":[0.0],\"power_output_maximum\":[3.0]}}}";

/// The bound round an energy price of 98 and a reserve price of 0, or the rule that an entry
/// breaks.
fn bound_by(alloc: Global, mixture: &[u8], radius: i64) -> Result<Result<i128, EntryFault>, Fail>
    requires bytes { length mixture.now ≤ 1000 }
    requires radius { IsRadius radius }
{
    let case = read_case(alloc, CASE)?;
    let centre = read_prices(alloc, b"{\"energy\":[98]}", case.periods)?;
    let mixture = read_mixture(alloc, &case, mixture)?;
    Ok(match check_mixture(&case, &mixture) {
        Ok(()) => Ok(bound_of_mixture(&case, &mixture, &centre, radius)),
        Err(fault) => Err(fault),
    })
}

/// Ends the test where the bound is another, in money.
fn bound_is(rt: &impl Abort, found: Result<i128, EntryFault>, due: i128) {
    match found {
        Ok(bound) => same(rt, bound, due),
        Err(fault) => panic!(rt; "entry {} breaks a rule", fault.entry),
    }
}

#[test]
fn a_mixture_of_one_schedule(rt: HostRuntime) -> Result<(), Fail> {
    // It lacks 2 MW, which the renewable unit gives at a price of 0.
    let mixture: &[u8] = b"{\"weight\":1,\"thermal\":{\"G1\":[\
        {\"weight\":1,\"on\":[1],\"power\":[8000],\"reserve\":[2000]}]}}";
    bound_is(&rt, bound_by(rt.alloc(), mixture, 20_000_000)?, 850_000_000);
    Ok(())
}

/// 7 parts on at 10 MW, and 3 off.
const TEN_PARTS: &[u8] = b"{\"weight\":10,\"thermal\":{\"G1\":[\
    {\"weight\":7,\"on\":[1],\"power\":[10000],\"reserve\":[0]},\
    {\"weight\":3,\"on\":[0],\"power\":[0],\"reserve\":[0]}]}}";

#[test]
fn a_mixture_of_ten_parts(rt: HostRuntime) -> Result<(), Fail> {
    // The reserve that it lacks, 20 MW for ten, is paid for at the greatest price.
    let wide = bound_by(rt.alloc(), TEN_PARTS, 20_000_000)?;
    bound_is(&rt, wide, 20_721_000_000);
    let near = bound_by(rt.alloc(), TEN_PARTS, 1000)?;
    bound_is(&rt, near, 723_000_000);
    Ok(())
}

#[test]
fn an_entry_below_the_least_power(rt: HostRuntime) -> Result<(), Fail> {
    let mixture: &[u8] = b"{\"weight\":1,\"thermal\":{\"G1\":[\
        {\"weight\":0,\"on\":[0],\"power\":[0],\"reserve\":[0]},\
        {\"weight\":1,\"on\":[1],\"power\":[7999],\"reserve\":[0]}]}}";
    let Err(found) = bound_by(rt.alloc(), mixture, 0)? else {
        panic!(rt; "no rule is broken");
    };
    same(&rt, found.entry, 2);
    same(&rt, found.fault.code.number(), 48);
    same(&rt, [found.fault.unit, found.fault.period], [1, 1]);
    same(&rt, [found.fault.left, found.fault.right], [8000, 7999]);
    Ok(())
}
