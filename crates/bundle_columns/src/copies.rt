//! Copies into room that is there already.
ghost use Rattle.std.specs.Prelude.{◌≡◌, ◌<◌, ◌≤◌, length, IfOk};
ghost use Rattle.uc_model.specs.PlainCases.{market_of};
ghost use Rattle.uc_model.specs.PlainUnits.{prices_of, schedule_of};
ghost use Rattle.gap_proof.specs.Mixtures.{entry_of, entries_of, mixture_of};
ghost use Rattle.uc_model.specs.declared.limits.TheConstants.{MOST_PERIODS};
ghost use Rattle.bundle_columns.specs.Mixing.{IsKept};
ghost use Rattle.bundle_columns.specs.Copies.{AreAlike};

use gap_proof::{Entries, Entry, Mixture};
use plain_lists::lists::copy_list;
use std::alloc::{AllocError, Global};
use uc_model::cases::Case;
use uc_model::units::{Answered, Prices, Response};

/// Leaves prices in others over as many periods.
pub fn copy_prices(from: &Prices, into: &mut Prices)
    requires { length (prices_of from.now).energy ≡ length (prices_of into.old).energy }
    ensures { prices_of into.new ≡ prices_of from.now }
{
    copy_list(&from.energy, &mut into.energy);
    copy_list(&from.reserve, &mut into.reserve);
}

/// Leaves a response in another over as many periods.
pub fn copy_response(from: &Response, into: &mut Response)
    requires { length (schedule_of from.now).on ≡ length (schedule_of into.old).on }
    ensures { schedule_of into.new ≡ schedule_of from.now }
{
    copy_list(&from.on, &mut into.on);
    copy_list(&from.power, &mut into.power);
    copy_list(&from.reserve, &mut into.reserve);
}

/// The same response in memory of its own.
pub(crate) fn copied_response(alloc: Global, from: &Response) -> Result<Response, AllocError>
    requires { length (schedule_of from.now).on ≤ MOST_PERIODS }
    ensures { IfOk result (λ response. schedule_of response ≡ schedule_of from.now) }
{
    let Answered {
        mut response,
        earned: _,
    } = Answered::make(alloc, from.on.len() as u32)?;
    copy_response(from, &mut response);
    Ok(response)
}

// Leaves an entry in another over as many periods.
fn copy_mixture_entry(from: &Entry, into: &mut Entry)
    requires { length (schedule_of from.now.response).on ≡ length (schedule_of into.old.response).on }
    ensures { entry_of into.new ≡ entry_of from.now }
{
    into.weight = from.weight;
    copy_response(&from.response, &mut into.response);
}

// Leaves entries in as many others.
fn copy_mixture_entries(from: &Entries, into: &mut Entries)
    requires { AreAlike (entries_of from.now) (entries_of into.old) }
    ensures { entries_of into.new ≡ entries_of from.now }
{
    for index in 0..from.len() {
        copy_mixture_entry(from.get(index), into.get_mut(index));
    }
}

/// Leaves a mixture in another of the same case with as many entries.
pub fn copy_mixture(case: &Case, places: usize, from: &Mixture, into: &mut Mixture)
    requires from { IsKept (market_of case.now) places (mixture_of from.now) }
    requires into { IsKept (market_of case.now) places (mixture_of into.old) }
    ensures { mixture_of into.new ≡ mixture_of from.now }
{
    for number in 0..from.thermal.len() {
        copy_mixture_entries(from.thermal.get(number), into.thermal.get_mut(number));
    }
}
