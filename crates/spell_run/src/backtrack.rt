//! Backtracking over a spell, by what its steps noted on the way forward.
//!
//! A convex function whose least power is `turn` is least, at the powers in reach of a power, at
//! the one that is nearest to the turn. So three numbers of a step suffice to find the cheapest
//! power before it.
ghost use Rattle.std.specs.Prelude.{◌≡◌, ℤ, suc, ◌==◌, ◌-◌, ◌<◌, ◌≤◌, length, Some};
ghost use Rattle.slope_list.specs.Effect.{Reaches};
ghost use Rattle.slope_list.specs.Table.{Table, value_of};
ghost use Rattle.slope_list.specs.Turn.{IsTurn, IsFirst, IsLast};
ghost use Rattle.spell_run.specs.Entries.{IsOnFromTo, IsSameOutside};
ghost use Rattle.spell_run.specs.Backtracking.{IsChosen};
ghost use Rattle.spell_run.specs.Logs.{left_by, IsTrace};
ghost use Rattle.spell_run.specs.Notes.{IsNoted, IsSpellNoted};
ghost use Rattle.spell_run.specs.Backtracking.{IsCheapest};
ghost use Rattle.spell_run.specs.Spells.{IsBestDispatch, IsFirstDispatch};
ghost use Rattle.spell_run.specs.Steps.{step_at, IsFairStep};
ghost use Rattle.uc_model.specs.Limits.{IsOutput};
ghost use Rattle.uc_model.specs.PlainUnits.{thermal_of, prices_of, schedule_of};

use crate::notes::{Logged, Note, Trace, first_log_entries_of_spell};
use crate::step::{Step, starts_in_period, step_terms_of_period};
use crate::write::write_period_with_best_reserve;
use cost_curve::laws::envelope_is_within_cost_limit;
use uc_model::units::{Answered, Prices, Unit};

/// A period that backtracking visits.
#[derive(Clone, Copy)]
struct Visit {
    /// The period's place.
    index: usize,
    /// Whether the unit stops after it.
    stops: bool,
    /// What its step left.
    note: Note,
    /// The power at its end, in kilowatts.
    power: i64,
}

/// What a spell left: its entries in a log.
#[derive(Clone, Copy)]
pub struct SpellTrace<'a> {
    /// What all spells of the unit left.
    pub log: &'a [Logged],
    /// Which entries are this spell's.
    pub trace: Trace,
}

/// The cheapest power before a step to a power, the least of those.
fn cheapest_power_before_step(step: Step, note: Note, power: i64) -> i64
    requires step { IsFairStep step }
    requires power { IsOutput power }
    ensures { (f : Table) (v y w : ℤ) → IsTurn step f note.turn → IsFirst f note.first v
        → IsLast f note.last →
        value_of f y ≡ Some w → Reaches step.ramp_up step.ramp_down power y
        → IsCheapest step f power result }
{
    let low = (power - step.ramp_up).max(note.first);
    let high = (power + step.ramp_down).min(note.last);
    low.max(high.min(note.turn))
}

/// Writes a period with its power, and answers the cheapest power before it.
fn write_period_and_find_power_before(
    unit: &Unit,
    prices: &Prices,
    first: u32,
    visit: Visit,
    into: &mut Answered,
) -> i64
    requires index { visit.index < length (prices_of prices.now).energy }
    requires order { first ≤ suc visit.index }
    requires noted { (after : Table)
        × IsNoted (thermal_of unit.now) (prices_of prices.now) first visit.index visit.stops
        visit.note after
        × ((v : ℤ) × (value_of after visit.power ≡ Some v)) }
    requires into { visit.index < length (schedule_of into.old.response).on }
    ensures chosen { (after : Table) (v : ℤ)
        (n : IsNoted (thermal_of unit.now) (prices_of prices.now) first visit.index visit.stops
        visit.note after) → value_of after visit.power ≡ Some v →
        IsChosen
        (step_at (thermal_of unit.now) (prices_of prices.now) visit.index
        (first == suc visit.index) visit.stops)
        n.before visit.index visit.power result (schedule_of into.old.response)
        (schedule_of into.new.response) }
    ensures earned { into.new.earned ≡ into.old.earned }
{
    let index = visit.index;
    let step = step_terms_of_period(
        unit,
        prices,
        index,
        starts_in_period(first, index),
        visit.stops,
    );
    let before = cheapest_power_before_step(step, visit.note, visit.power);
    write_period_with_best_reserve(into, index, step, before, visit.power);
    before
}

/// Leaves a dispatch of least net cost in the periods of the spell from `first` to `last`, the
/// first of those of that cost, by what the spell left of them: by powers
/// from the last period back, less power first, and then by reserves. `first` 0 stands for a spell
/// that goes on from before period 1. All other periods, and what is earned, stay. Prices and `into`
/// are over the same periods. Takes no memory.
pub fn write_least_cost_dispatch_of_spell(
    unit: &Unit,
    prices: &Prices,
    first: u32,
    last: u32,
    left: SpellTrace,
    into: &mut Answered,
)
    requires order { first ≤ last }
    requires some { 1 ≤ last }
    requires end { last ≤ length (prices_of prices.now).energy }
    requires trace { IsTrace left.log.now left.trace }
    requires room { last - (first - 1) ≤ left.trace.count }
    requires noted { IsSpellNoted (thermal_of unit.now) (prices_of prices.now) first last
        (λ k. left_by left.log.now left.trace (k - (first - 1))) }
    requires into { length (schedule_of into.old.response).on
        ≡ length (prices_of prices.now).energy }
    ensures best { (cost : ℤ)
        × IsBestDispatch (thermal_of unit.now) (prices_of prices.now)
        (length (prices_of prices.now).energy) first last (schedule_of into.new.response) cost
        × IsFirstDispatch (thermal_of unit.now) (prices_of prices.now)
        (length (prices_of prices.now).energy) first last (schedule_of into.new.response) cost }
    ensures on { IsOnFromTo first last (schedule_of into.new.response) }
    ensures outside { IsSameOutside first last (schedule_of into.old.response)
        (schedule_of into.new.response) }
    ensures earned { into.new.earned ≡ into.old.earned }
{
    let trace = first_log_entries_of_spell(left.log, left.trace, last - first.saturating_sub(1));
    let entry = left.log[trace.last as usize];
    let Some(lowest) = entry.passed.end else {
        return;
    };
    let note = Note {
        turn: lowest.turn,
        first: entry.passed.note.first,
        last: entry.passed.note.last,
    };
    let end = last as usize - 1;
    envelope_is_within_cost_limit();
    let stops = (last as usize) < prices.energy.len();
    let visit = Visit {
        index: end,
        stops,
        note,
        power: lowest.at,
    };
    let mut power = write_period_and_find_power_before(unit, prices, first, visit, into);
    let mut at = entry.before;
    for back in 1..last + 1 - first.max(1) {
        let entry = left.log[at as usize];
        let visit = Visit {
            index: end - back as usize,
            stops: false,
            note: entry.passed.note,
            power,
        };
        power = write_period_and_find_power_before(unit, prices, first, visit, into);
        at = entry.before;
    }
}
