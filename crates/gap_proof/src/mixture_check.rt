//! The first rule that an entry of a mixture breaks.
ghost use Rattle.std.specs.Prelude.{◌∷◌, [], ◌↔◌, IsOk, length, map};
ghost use Rattle.std.specs.List.{All};
ghost use Rattle.uc_model.specs.PlainCases.{market_of};
ghost use Rattle.uc_model.specs.PlainUnits.{thermal_of};
ghost use Rattle.gap_proof.specs.Mixtures.{WeighedSchedule, entry_of, mixture_of, IsMixture};
ghost use Rattle.gap_proof.specs.Mixtures.{HasMixtureShape, IsOver};
ghost use Rattle.gap_proof.specs.MixtureRefused.{FindsEntry, entry_refusals, mixture_refusals};

use crate::mixtures::{Entry, Mixture};
use plan_check::{RuleFault, check_thermal};
use uc_model::cases::Case;
use uc_model::units::Unit;

/// Why an entry isn't a feasible schedule of its unit: the first rule that it breaks.
#[derive(Clone, Copy, PartialEq, Eq)]
pub struct EntryFault {
    /// The entry's position among those of its unit, from 1.
    pub entry: u64,
    /// The rule, with the unit's position among the thermal units.
    pub fault: RuleFault,
}

// The first rule that an entry breaks.
fn check_schedule_of_mixture(
    unit: &Unit,
    entry: &Entry,
    number: u32,
    position: u64,
) -> Result<(), EntryFault>
    requires over { IsOver (length (thermal_of unit.now).window) (entry_of entry.now).schedule }
    ensures { FindsEntry (entry_refusals (length (thermal_of unit.now).window) number
        (thermal_of unit.now) position (entry_of entry.now ∷ [])) result }
{
    match check_thermal(unit, &entry.response, number) {
        Ok(()) => Ok(()),
        Err(fault) => Err(EntryFault {
            entry: position,
            fault,
        }),
    }
}

// The first rule that an entry of a unit breaks.
fn check_unit_schedules_of_mixture(
    unit: &Unit,
    entries: &[Entry],
    number: u32,
) -> Result<(), EntryFault>
    requires over { All (λ (e : WeighedSchedule).
        IsOver (length (thermal_of unit.now).window) e.schedule) (map entry_of entries.now) }
    ensures { FindsEntry (entry_refusals (length (thermal_of unit.now).window) number
        (thermal_of unit.now) 1 (map entry_of entries.now)) result }
{
    for (index, entry) in entries.iter().enumerate() {
        check_schedule_of_mixture(unit, entry, number, index as u64 + 1)?;
    }
    Ok(())
}

// The first rule that an entry of any unit breaks.
fn check_all_schedules_of_mixture(case: &Case, mixture: &Mixture) -> Result<(), EntryFault>
    requires { HasMixtureShape (market_of case.now) (mixture_of mixture.now) }
    ensures { FindsEntry (mixture_refusals (market_of case.now) (mixture_of mixture.now)) result }
{
    for index in 0..case.thermal.len() {
        let unit = &case.thermal.get(index).unit;
        let entries = mixture.thermal.get(index).as_slice();
        check_unit_schedules_of_mixture(unit, entries, index as u32 + 1)?;
    }
    Ok(())
}

/// Whether each entry of a mixture is a feasible schedule of its unit. Otherwise the first rule
/// that one breaks: units in order, for each its entries in order, and for each its rules in the
/// order of `check_plan`. The weights of each unit are from 0 and sum to the mixture's, which is
/// from 1 to 10^12, and the schedules are over the whole horizon. Takes no memory.
pub fn check_mixture(case: &Case, mixture: &Mixture) -> Result<(), EntryFault>
    requires { HasMixtureShape (market_of case.now) (mixture_of mixture.now) }
    ensures feasible { IsOk result ↔ IsMixture (market_of case.now) (mixture_of mixture.now) }
    ensures finds { FindsEntry (mixture_refusals (market_of case.now) (mixture_of mixture.now))
        result }
{
    check_all_schedules_of_mixture(case, mixture)
}
