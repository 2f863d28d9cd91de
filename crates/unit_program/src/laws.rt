//! Laws of spells and benches: each is the contract of a function that does nothing.
ghost use Rattle.unit_program.specs.Benches.{BenchSufficesForFewerPeriods};
ghost use Rattle.unit_program.specs.Lists.{SchedulesAreSpells};

/// Every feasible schedule is a list of spells with times off between them. A spell has no period
/// marked `MustOff`, and a time off has none marked `MustOn`.
pub fn schedules_are_spells()
    ensures { SchedulesAreSpells }
{}

/// A bench that suffices for so many periods and cost points suffices for fewer.
pub fn bench_suffices_for_fewer_periods()
    ensures { BenchSufficesForFewerPeriods }
{}
