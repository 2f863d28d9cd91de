//! Backtracking by what the running spells left.
ghost use Rattle.std.specs.Prelude.{◌≡◌, ◌<◌, ◌≤◌, length};
ghost use Rattle.spell_run.specs.Notes.{IsSpellNoted};
ghost use Rattle.uc_model.specs.Data.{Thermal};
ghost use Rattle.uc_model.specs.Earnings.{earnings, IsBest};
ghost use Rattle.uc_model.specs.PlainUnits.{thermal_of, prices_of, schedule_of};
ghost use Rattle.uc_model.specs.Ties.{IsLeast};
ghost use Rattle.unit_program.specs.Backs.{IsWritten, IsWrittenBack};
ghost use Rattle.unit_program.specs.Builds.{IsIdle};
ghost use Rattle.unit_table.specs.Limits.{IsRowWithin, IsEndWithin};
ghost use Rattle.unit_table.specs.Live.{left_at, AreTraces};
ghost use Rattle.unit_rows.specs.Rows.{cost_at, first_at};
ghost use Rattle.unit_table.specs.RunningSpells.{CanBacktrack, since};

use crate::least_end::{earnings_of_cost, is_all_off, turn_all_off};
use spell_run::{Logged, SpellTrace, write_least_cost_dispatch_of_spell};
use uc_model::laws::start_costs_are_within;
use uc_model::units::{Answered, Prices, Unit};
use unit_rows::table::{Ended, Entry};
use unit_table::laws::rows_within_cost_limits_are_kept;
use unit_table::running_spell::RunningSpell;

/// What all spells of a table left.
#[derive(Clone, Copy)]
pub struct Backtracks<'a> {
    /// A running spell for each first period, each with its last entry of the log.
    pub spells: &'a [RunningSpell],
    /// The entries of all of them.
    pub log: &'a [Logged],
}

// Writes a dispatch of least net cost of the spell from `first` to `last`; nothing where it ends
// before period 1.
fn write_spell_dispatch(
    unit: &Unit,
    prices: &Prices,
    backtracks: Backtracks,
    first: u32,
    last: u32,
    into: &mut Answered,
)
    requires order { first ≤ last }
    requires end { last ≤ length (prices_of prices.now).energy }
    requires spells { first < length backtracks.spells.now }
    requires traces { AreTraces backtracks.log.now backtracks.spells.now }
    requires noted { 1 ≤ last
        → IsSpellNoted (thermal_of unit.now) (prices_of prices.now) first last
        (since first (left_at backtracks.log.now backtracks.spells.now first)) }
    requires into { length (schedule_of into.old.response).on
        ≡ length (prices_of prices.now).energy }
    ensures written { IsWritten (thermal_of unit.now) (prices_of prices.now)
        (length (prices_of prices.now).energy) first last (schedule_of into.old.response)
        (schedule_of into.new.response) }
    ensures length { length (schedule_of into.new.response).on
        ≡ length (schedule_of into.old.response).on }
{
    if last > 0 {
        let left = SpellTrace {
            log: backtracks.log,
            trace: backtracks.spells[first as usize].trace,
        };
        write_least_cost_dispatch_of_spell(unit, prices, first, last, left, into);
    }
}

// Writes the spells that the table names, from the one that ends with period `last` back.
fn write_earlier_spells(
    unit: &Unit,
    prices: &Prices,
    rows: &[Option<Ended>],
    backtracks: Backtracks,
    last: u32,
    into: &mut Answered,
)
    requires within { IsRowWithin (thermal_of unit.now) (prices_of prices.now) rows.now last }
    requires backtracks { CanBacktrack (thermal_of unit.now) (prices_of prices.now)
        (length (prices_of prices.now).energy) (cost_at rows.now) (first_at rows.now)
        (left_at backtracks.log.now backtracks.spells.now) }
    requires traces { AreTraces backtracks.log.now backtracks.spells.now }
    requires room { length (prices_of prices.now).energy < length rows.now }
    requires spells { length (prices_of prices.now).energy < length backtracks.spells.now }
    requires last { last ≤ length (prices_of prices.now).energy }
    requires into { length (schedule_of into.old.response).on
        ≡ length (prices_of prices.now).energy }
    requires idle { IsIdle (thermal_of unit.now) (schedule_of into.old.response) 0 last }
    ensures written { IsWrittenBack (thermal_of unit.now) (prices_of prices.now) rows.now last
        (schedule_of into.old.response) (schedule_of into.new.response) }
    ensures length { length (schedule_of into.new.response).on
        ≡ length (schedule_of into.old.response).on }
{
    start_costs_are_within();
    rows_within_cost_limits_are_kept();
    let Some(ended) = rows[last as usize] else {
        return;
    };
    if is_all_off(unit, last) {
        return;
    }
    write_spell_dispatch(unit, prices, backtracks, ended.first, last, into);
    if ended.first == 0 {
        return;
    }
    write_earlier_spells(unit, prices, rows, backtracks, ended.before, into);
}

/// Leaves in `into` the least best response, which the table names from the earliest of its least
/// ends, and what it earns. Unit, prices and `into` are over the same T periods, `end` is that end
/// and within the limits of the rows, and `backtracks` has what backtracking from each needs.
/// Takes no memory.
pub fn write_best_response(
    unit: &Unit,
    prices: &Prices,
    rows: &[Option<Ended>],
    backtracks: Backtracks,
    end: &Entry,
    into: &mut Answered,
)
    requires backtracks { CanBacktrack (thermal_of unit.now) (prices_of prices.now)
        (length (prices_of prices.now).energy) (cost_at rows.now) (first_at rows.now)
        (left_at backtracks.log.now backtracks.spells.now) }
    requires traces { AreTraces backtracks.log.now backtracks.spells.now }
    requires room { length (prices_of prices.now).energy < length rows.now }
    requires spells { length (prices_of prices.now).energy < length backtracks.spells.now }
    requires end { IsEndWithin (thermal_of unit.now) (prices_of prices.now) rows.now end.now.last
        end.now.cost }
    requires into { length (schedule_of into.old.response).on
        ≡ length (prices_of prices.now).energy }
    ensures best { IsBest (Thermal (thermal_of unit.now)) (prices_of prices.now)
        (schedule_of into.new.response) }
    ensures least { IsLeast (Thermal (thermal_of unit.now)) (prices_of prices.now)
        (schedule_of into.new.response) }
    ensures earned { into.new.earned ≡ earnings (Thermal (thermal_of unit.now))
        (prices_of prices.now) (schedule_of into.new.response) }
{
    rows_within_cost_limits_are_kept();
    turn_all_off(into);
    write_earlier_spells(unit, prices, rows, backtracks, end.last, into);
    into.earned = earnings_of_cost(end.cost);
}
