//! Laws of the units of a case: each is the contract of a function that does nothing of its own.
ghost use Rattle.unit_program.specs.CaseLaws.{FeasibleUnitsCanAnswer, CaseBenchSufficesForEachUnit};

use crate::laws::bench_suffices_for_fewer_periods;

/// Where each unit and bid has a feasible schedule, none is without one.
pub fn feasible_units_can_answer()
    ensures { FeasibleUnitsCanAnswer }
{}

/// A bench for the periods of a case, and as many cost points as any of its thermal units has,
/// suffices for each of these.
pub fn case_bench_suffices_for_each_unit()
    ensures { CaseBenchSufficesForEachUnit }
{
    bench_suffices_for_fewer_periods();
}
