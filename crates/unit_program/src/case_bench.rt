//! A bench for the units of a case.
ghost use Rattle.std.specs.Prelude.{◌≤◌, length, IfOk};
ghost use Rattle.std.specs.List.{All};
ghost use Rattle.uc_model.specs.Data.{NamedThermalUnit};
ghost use Rattle.uc_model.specs.PlainCases.{market_of};
ghost use Rattle.uc_model.specs.declared.limits.TheConstants.{MOST_POINTS};
ghost use Rattle.unit_program.specs.Tops.{IsBenchOver};

use crate::Bench;
use crate::case_laws::case_bench_suffices_for_each_unit;
use std::alloc::{AllocError, Global};
use uc_model::cases::Case;

/// The most cost points of a thermal unit of the case; 1 where it has none.
pub fn most_cost_points_in_case(case: &Case) -> u32
    ensures limit { result ≤ MOST_POINTS }
    ensures each { All (λ (n : NamedThermalUnit). length n.unit.points ≤ result)
        (market_of case.now).thermal }
{
    let mut most = 1;
    for named in case.thermal.as_slice() {
        most = most.max(named.unit.points.len() as u32);
    }
    most
}

/// A bench that suffices for every thermal unit of the case.
pub fn make_bench_for_case(alloc: Global, case: &Case) -> Result<Bench, AllocError>
    ensures { IfOk result (λ bench. IsBenchOver (market_of case.now) bench) }
{
    case_bench_suffices_for_each_unit();
    let points = most_cost_points_in_case(case);
    let bench = Bench::make(alloc, case.periods, points)?;
    Ok(bench)
}
