//! The mixture that is told: only the entries that have some weight.
ghost use Rattle.std.specs.Prelude.{◌≡◌, ◌+◌, ◌≤◌, ℤ, [], ◌∷◌, ◌++◌, IfOk, length};
ghost use Rattle.std.specs.List.{All};
ghost use Rattle.uc_model.specs.declared.limits.TheConstants.{MOST_PERIODS};
ghost use Rattle.uc_model.specs.Data.{PriceLists};
ghost use Rattle.uc_model.specs.PlainCases.{market_of};
ghost use Rattle.uc_model.specs.PlainUnits.{schedule_of};
ghost use Rattle.gap_proof.specs.Mixtures.{WeighedSchedule, entry_of, entries_of, mixture_of};
ghost use Rattle.gap_proof.specs.Mixtures.{IsMixture, HasMixtureShape};
ghost use Rattle.gap_proof.specs.MixtureBound.{mixture_bound};
ghost use Rattle.bundle_columns.specs.Mixing.{IsKept};
ghost use Rattle.bundle_columns.specs.Written.{weighed_of};

use crate::copies::copied_response;
use gap_proof::{Entries, Entry, EntryLists, Mixture};
use std::alloc::{AllocError, Global};
use uc_model::cases::Case;

// Adds a copy of an entry, where it has some weight.
fn push_entry_if_weighted(
    alloc: Global,
    entry: &Entry,
    entries: &mut Entries,
) -> Result<(), AllocError>
    requires periods { length (schedule_of entry.now.response).on ≤ MOST_PERIODS }
    requires room { 1 ≤ entries.old.spare }
    ensures entries { IfOk result (λ _. entries_of entries.new
        ≡ entries_of entries.old ++ weighed_of (entry_of entry.now ∷ [])) }
    ensures spare { IfOk result (λ _. entries.old.spare ≤ entries.new.spare + 1) }
{
    if entry.weight <= 0 {
        return Ok(());
    }
    let response = copied_response(alloc, &entry.response)?;
    entries.push(Entry {
        weight: entry.weight,
        response,
    });
    Ok(())
}

// The entries with some weight.
fn entries_with_weight(alloc: Global, from: &Entries) -> Result<Entries, AllocError>
    requires count { length from.now.items ≤ 1000 }
    requires periods { All (λ (e : WeighedSchedule). length e.schedule.on ≤ MOST_PERIODS)
        (entries_of from.now) }
    ensures { IfOk result (λ entries. entries_of entries ≡ weighed_of (entries_of from.now)) }
{
    let mut entries = Entries::make(alloc, from.len() as u32)?;
    for index in 0..from.len() {
        push_entry_if_weighted(alloc, from.get(index), &mut entries)?;
    }
    Ok(entries)
}

/// The mixture without entries of no weight, in memory of its own.
pub fn mixture_without_zero_weights(
    alloc: Global,
    case: &Case,
    places: usize,
    from: &Mixture,
) -> Result<Mixture, AllocError>
    requires kept { IsKept (market_of case.now) places (mixture_of from.now) }
    requires places { places ≤ 1000 }
    ensures shape { IfOk result (λ x. HasMixtureShape (market_of case.now) (mixture_of x)) }
    ensures mixture { IfOk result (λ x. IsMixture (market_of case.now) (mixture_of x)) }
    ensures bound { IfOk result (λ x. (π : PriceLists) (radius : ℤ)
        → mixture_bound (market_of case.now) (mixture_of x) π radius
        ≡ mixture_bound (market_of case.now) (mixture_of from.now) π radius) }
{
    let mut thermal = EntryLists::make(alloc, case.thermal.len() as u32)?;
    for number in 0..case.thermal.len() {
        thermal.push(entries_with_weight(alloc, from.thermal.get(number))?);
    }
    Ok(Mixture {
        weight: from.weight,
        thermal,
    })
}
