//! The text of `hull convex`.
ghost use Rattle.std.specs.Prelude.{◌-ℤ◌, ◌++◌, map};
ghost use Rattle.std.specs.List.{flat_map};
ghost use Rattle.hull_io.specs.Edge.{Writes};
ghost use Rattle.gap_proof.specs.MixtureLaws.{least_paid};
ghost use Rattle.gap_proof.specs.Mixtures.{entry_of, mixture_of, HasMixtureShape};
ghost use Rattle.uc_model.specs.Limits.{IsSum, IsWorth};
ghost use Rattle.uc_model.specs.PlainCases.{market_of};
ghost use Rattle.price_settle.specs.Settled.{HasEachUnit, settled_of};
ghost use Rattle.report_form.specs.ConvexText.{convex_text, share_text, mixture_text};
ghost use Rattle.report_form.specs.ConvexText.{weighed_text, bounded_text};
ghost use Rattle.right_report.specs.Told.{IsTold};
ghost use Rattle.hull_report.specs.ConvexText.{share_line, mixture_line, mixture_lines, convex_of};

use crate::certified::least_uplift;
use crate::settled::write_settled_units;
use gap_proof::{Entry, Mixture};
use hull_io::{Sink, WriteFailed};
use price_settle::Settled;
use report_form::convex::{
    SearchLines, write_convex_bound, write_convex_lines_before_units, write_convex_totals,
    write_mixture_entry, write_mixture_unit,
};
use report_form::laws::texts_written_in_turn_add_up;
use uc_model::cases::Case;

/// What a search for convex hull prices is told by, besides prices and mixture.
#[derive(Clone, Copy)]
pub struct SearchNumbers {
    /// The distance within which it ends, in money.
    pub within: i64,
    /// The most rounds.
    pub rounds: u32,
    /// How many rounds were made.
    pub made: u32,
    /// The bound on the dual value of all prices, in money.
    pub bound: i128,
}

// Writes the entries of a unit.
fn write_mixture_entries<S: Sink>(entries: &[Entry], out: &mut S) -> Result<(), WriteFailed>
    ensures { Writes S.held S.faults S.last out.old out.new result
        (flat_map share_text (map share_line (map entry_of entries.now))) }
{
    texts_written_in_turn_add_up::<S>();
    for entry in entries {
        write_mixture_entry(entry.weight, &entry.response, out)?;
    }
    Ok(())
}

// Writes the mixture of a unit.
fn write_unit_mixture<S: Sink>(
    name: &str,
    entries: &[Entry],
    out: &mut S,
) -> Result<(), WriteFailed>
    ensures { Writes S.held S.faults S.last out.old out.new result
        (mixture_text (mixture_line name.now (map entry_of entries.now))) }
{
    texts_written_in_turn_add_up::<S>();
    write_mixture_unit(name, entries.len() as u64, out)?;
    write_mixture_entries(entries, out)
}

// Writes the mixture of each thermal unit.
fn write_mixture<S: Sink>(case: &Case, mixture: &Mixture, out: &mut S) -> Result<(), WriteFailed>
    requires { HasMixtureShape (market_of case.now) (mixture_of mixture.now) }
    ensures { Writes S.held S.faults S.last out.old out.new result
        (flat_map mixture_text (mixture_lines (market_of case.now) (mixture_of mixture.now))) }
{
    texts_written_in_turn_add_up::<S>();
    for index in 0..case.thermal.len() {
        let name = case.thermal.get(index).name.as_str();
        let entries = mixture.thermal.get(index).as_slice();
        write_unit_mixture(name, entries, out)?;
    }
    Ok(())
}

// Writes the lines behind the units.
fn write_convex_ending<S: Sink>(
    case: &Case,
    cost: i128,
    settled: &Settled,
    mixture: &Mixture,
    bound: i128,
    out: &mut S,
) -> Result<(), WriteFailed>
    requires cost { IsSum cost }
    requires value { IsWorth (settled_of settled.now).row.value }
    requires shape { HasMixtureShape (market_of case.now) (mixture_of mixture.now) }
    requires bound { IsTold bound }
    ensures { Writes S.held S.faults S.last out.old out.new result (
        weighed_text (settled_of settled.now).surplus (settled_of settled.now).sum
        (cost -ℤ (settled_of settled.now).row.value) (mixture_of mixture.now).whole
        ++ flat_map mixture_text (mixture_lines (market_of case.now) (mixture_of mixture.now))
        ++ bounded_text bound (bound -ℤ (settled_of settled.now).row.value)
        (least_paid cost bound)
        ) }
{
    texts_written_in_turn_add_up::<S>();
    let settlement = &settled.settlement;
    let value = settled.row.value;
    let gap = cost - value;
    let distance = bound - value;
    let least = least_uplift(cost, bound);
    write_convex_totals(
        settlement.surplus,
        settlement.total,
        gap,
        mixture.weight,
        out,
    )?;
    write_mixture(case, mixture, out)?;
    write_convex_bound(bound, distance, least, out)
}

/// Writes the lines of `hull convex` for a plan that costs so much money, settled at the prices
/// that a search found, and for the mixture with the bound that it proves. The settlement has one of
/// each for each unit and bid, the mixture has entries for each thermal unit, and the bound is at
/// most 10^35 in magnitude. Takes no memory. Refused only where the sink's count of faults rose, and
/// then the sink gained a front of the text.
pub fn write_convex<S: Sink>(
    case: &Case,
    cost: i128,
    settled: &Settled,
    mixture: &Mixture,
    numbers: SearchNumbers,
    out: &mut S,
) -> Result<(), WriteFailed>
    requires cost { IsSum cost }
    requires value { IsWorth (settled_of settled.now).row.value }
    requires each { HasEachUnit (market_of case.now) (settled_of settled.now) }
    requires shape { HasMixtureShape (market_of case.now) (mixture_of mixture.now) }
    requires bound { IsTold numbers.bound }
    ensures { Writes S.held S.faults S.last out.old out.new result
        (convex_text (convex_of (market_of case.now) cost (settled_of settled.now)
        (mixture_of mixture.now) numbers.within numbers.rounds numbers.made numbers.bound)) }
{
    texts_written_in_turn_add_up::<S>();
    let lines = SearchLines {
        periods: case.periods,
        units: case.unit_count(),
        cost,
        within: numbers.within,
        rounds: numbers.rounds,
        made: numbers.made,
    };
    write_convex_lines_before_units(&lines, &settled.row, out)?;
    write_settled_units(case, settled, out)?;
    write_convex_ending(case, cost, settled, mixture, numbers.bound, out)
}
