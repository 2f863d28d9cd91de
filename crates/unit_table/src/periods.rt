//! The table filled period by period: the spells of all first periods go forward together.
//!
//! A spell that begins later goes on as an earlier one does from the same power, and of equal costs
//! the later first period is the answer. So an earlier spell goes where a later one, which may stop
//! as soon, is nowhere above it; and a start isn't made where a running spell is at the least power
//! for less than it costs. Nor does one go on, or start, that costs more than a limit, since it
//! can't come within the amount that the limits are for.
ghost use Rattle.std.specs.Prelude.{◌≡◌, ◌≢◌, ℕ, suc, ◌+◌, ◌*◌, ◌<◌, ◌≤◌, ℤ, Option, None, []};
ghost use Rattle.std.specs.Prelude.{length};
ghost use Rattle.slope_list.specs.Slopes.{space_of};
ghost use Rattle.uc_model.specs.Data.{PriceLists};
ghost use Rattle.uc_model.specs.PlainUnits.{thermal_of};
ghost use Rattle.uc_model.specs.declared.limits.TheConstants.{MOST_PERIODS};
ghost use Rattle.unit_rows.specs.Limits.{AreLimits};
ghost use Rattle.unit_table.specs.Limits.{IsFilledWithin};
ghost use Rattle.unit_table.specs.Live.{live_at, left_at, AreTraces, AreRoomy, AreSmall, HaveRoom};
ghost use Rattle.unit_table.specs.Live.{IsFilledTo};
ghost use Rattle.unit_table.specs.Questions.{unit_of, prices_in, periods_in, charge_of};
ghost use Rattle.unit_table.specs.Questions.{limits_in, asked, asked_at, periods_of};
ghost use Rattle.unit_table.specs.Taken.{AreKept, IsSweptTo, AreLonger, AreAsLong};
ghost use Rattle.unit_rows.specs.Origins.{AreInOrder, AreOrigins, AreOriginsWithin};
ghost use Rattle.unit_table.specs.Rosters.{IsRoster};
ghost use Rattle.unit_rows.specs.Rows.{row_at, cost_at, first_at, IsWithinTimes};
ghost use Rattle.unit_table.specs.RunningSpells.{AreRunningSpells, CanBacktrack};
ghost use Rattle.unit_rows.specs.Ends.{IsLeastEntry};

use crate::question::{Period, Question};
use crate::roster::Roster;
use crate::running_spell::{
    RunningSpell, advance_all_running_spells, begin_spell_and_add_to_roster,
    is_any_running_spell_cheaper, is_lesser_cost, stop_all_running_spells,
    stop_all_spells_and_forget_their_log, stop_dominated_spells, stop_spells_above_cost_limit,
};
use crate::shared::Shared;
use spell_run::Log;
use spell_run::laws::{
    dispatches_are_runs, dispatches_meeting_at_power_continue_alike,
    runs_meeting_at_power_continue_alike,
};
use uc_model::laws::start_costs_are_within;
use uc_model::units::Unit;
use unit_rows::commitment::is_must_off;
use unit_rows::origins::Origins;
use unit_rows::table::{Entry, Table, reset_table_to_row_before_horizon};

// Begins the running spell of the period after the one at an index after its least entry, if that is within
// the limit and no running spell undercuts it.
fn begin_spell_unless_undercut(
    unit: &Unit,
    index: u32,
    entry: &Entry,
    limit: i64,
    roster: &mut Roster,
    spells: &mut [RunningSpell],
)
    requires small_place { index < MOST_PERIODS }
    requires spells { suc index < length spells.old }
    requires list { suc index < length roster.old.firsts.items }
    requires roster { IsRoster (live_at spells.old) (suc index) roster.old }
    requires bound { IsWithinTimes (2 * index + 3) entry.now.cost }
    requires small { AreSmall (live_at spells.old) }
    ensures stands { (π : PriceLists) (limits : ℕ → ℤ) (ends : ℕ → Option ℤ)
        → limits index ≡ limit →
        IsLeastEntry (thermal_of unit.now) ends (suc index) entry.now.last entry.now.cost →
        AreRunningSpells (thermal_of unit.now) π limits ends (live_at spells.old) index
        (suc index) →
        AreRunningSpells (thermal_of unit.now) π limits ends (live_at spells.new) index
        (suc (suc index)) }
    ensures others { (f : ℕ) → f ≢ suc index → live_at spells.new f ≡ live_at spells.old f }
    ensures kept { AreKept spells.old spells.new }
    ensures roster { IsRoster (live_at spells.new) (suc (suc index)) roster.new }
    ensures list { length roster.new.firsts.items ≡ length roster.old.firsts.items }
{
    if is_lesser_cost(limit, entry.cost) {
        return;
    }
    if is_any_running_spell_cheaper(spells, roster, unit.min_power, entry.cost) {
        return;
    }
    begin_spell_and_add_to_roster(unit, index + 1, entry, roster, spells);
}

// Begins the running spell of the period after the one at an index, if a spell may begin there within the
// limit and no running spell undercuts it.
fn begin_spell_of_next_period(
    unit: &Unit,
    index: u32,
    limit: i64,
    origins: &Origins,
    roster: &mut Roster,
    spells: &mut [RunningSpell],
)
    requires small_place { index < MOST_PERIODS }
    requires list { suc index < length roster.old.firsts.items }
    requires roster { IsRoster (live_at spells.old) (suc index) roster.old }
    requires within { AreOriginsWithin index origins.now }
    requires order { AreInOrder origins.now }
    requires spells { suc index < length spells.old }
    requires small { AreSmall (live_at spells.old) }
    ensures stands { (π : PriceLists) (limits : ℕ → ℤ) (ends : ℕ → Option ℤ)
        → limits index ≡ limit →
        AreOrigins (thermal_of unit.now) ends index origins.now →
        AreRunningSpells (thermal_of unit.now) π limits ends (live_at spells.old) index
        (suc index) →
        AreRunningSpells (thermal_of unit.now) π limits ends (live_at spells.new) index
        (suc (suc index)) }
    ensures others { (f : ℕ) → f ≢ suc index → live_at spells.new f ≡ live_at spells.old f }
    ensures kept { AreKept spells.old spells.new }
    ensures roster { IsRoster (live_at spells.new) (suc (suc index)) roster.new }
    ensures list { length roster.new.firsts.items ≡ length roster.old.firsts.items }
{
    start_costs_are_within();
    if !origins.has_spell_end_within_cost(limit) {
        return;
    }
    match origins.least(unit, index) {
        Some(entry) => begin_spell_unless_undercut(unit, index, &entry, limit, roster, spells),
        None => {}
    }
}

// Fills the row of the period at an index.
fn fill_table_row_of_period(
    period: &Period,
    origins: &Origins,
    roster: &mut Roster,
    spells: &mut [RunningSpell],
    table: &mut Table,
    shared: &mut Shared,
)
    requires long { AreLonger (periods_of (asked period.now)) table.old.items spells.old roster.old
        origins.now shared.old.log }
    requires have { HaveRoom (space_of shared.old.spare) spells.old }
    requires limits { (most : ℤ) × AreLimits (asked period.now).unit (asked period.now).prices most
        (asked period.now).limits }
    requires now { IsSweptTo (asked period.now) table.old.items spells.old roster.old
        shared.old.log.items }
    requires origins { AreOrigins (asked period.now).unit (cost_at table.old.items) period.now.index
        origins.now }
    ensures now { IsSweptTo (asked_at period.now.question.now (suc period.now.index))
        table.new.items spells.new roster.new shared.new.log.items }
    ensures others { (l : ℕ) → l ≢ suc period.now.index → row_at table.new.items l ≡ row_at table.old.items l }
    ensures spare { space_of shared.new.spare ≡ space_of shared.old.spare }
    ensures same { AreAsLong table.old.items table.new.items spells.old spells.new
        roster.old roster.new shared.old.log shared.new.log }
{
    let question = period.question;
    let index = period.index;
    if is_must_off(question.unit, index) {
        stop_all_running_spells(spells);
        roster.clear();
        return;
    }
    runs_meeting_at_power_continue_alike();
    dispatches_meeting_at_power_continue_alike();
    dispatches_are_runs();
    let limit = *question.limits.get(index as usize);
    begin_spell_of_next_period(question.unit, index, limit, origins, roster, spells);
    advance_all_running_spells(
        period,
        roster,
        spells,
        table,
        &mut shared.spare,
        &mut shared.log,
    );
    stop_spells_above_cost_limit(
        index + 1,
        *question.limits.get(index as usize + 1),
        roster,
        spells,
    );
    stop_dominated_spells(question.unit, index + 1, roster, spells);
    roster.keep(spells);
}

// Begins the running spell of the spells that go on from before the horizon, where the unit is on then.
fn continue_initial_spell(unit: &Unit, roster: &mut Roster, spells: &mut [RunningSpell])
    requires some { 1 ≤ length spells.old }
    requires list { 1 ≤ length roster.old.firsts.items }
    requires none { roster.old.count ≡ 0 }
    requires off { (first : ℕ) → live_at spells.old first ≡ None }
    ensures stands { (π : PriceLists) (limits : ℕ → ℤ) (ends : ℕ → Option ℤ)
        → AreRunningSpells (thermal_of unit.now) π limits ends (live_at spells.new) 0 1 }
    ensures kept { AreKept spells.old spells.new }
    ensures roster { IsRoster (live_at spells.new) 1 roster.new }
    ensures list { length roster.new.firsts.items ≡ length roster.old.firsts.items }
{
    if unit.on0 {
        let entry = Entry { cost: 0, last: 0 };
        begin_spell_and_add_to_roster(unit, 0, &entry, roster, spells);
    }
}

// The table and the running spells before the first period.
fn reset_table_and_running_spells(
    unit: &Unit,
    roster: &mut Roster,
    spells: &mut [RunningSpell],
    table: &mut Table,
    log: &mut Log,
)
    requires spells { 1 ≤ length spells.old }
    requires list { 1 ≤ length roster.old.firsts.items }
    requires rows { 1 ≤ length table.old.items }
    ensures filled { (π : PriceLists) (limits : ℕ → ℤ) → 1 ≤ length π.energy
        → IsFilledTo (thermal_of unit.now) π limits 0 table.new.items
        (live_at spells.new) }
    ensures room { (room periods charge : ℕ) → periods * charge ≤ room
        → HaveRoom room spells.old → AreRoomy periods 0 charge spells.new }
    ensures traces { AreTraces log.new.items spells.new }
    ensures log { log.new.items ≡ [] }
    ensures roster { IsRoster (live_at spells.new) 1 roster.new }
    ensures same { AreAsLong table.old.items table.new.items spells.old spells.new
        roster.old roster.new log.old log.new }
{
    reset_table_to_row_before_horizon(unit, table);
    stop_all_spells_and_forget_their_log(spells);
    log.clear();
    roster.clear();
    continue_initial_spell(unit, roster, spells);
}

/// Fills the table for a question over T periods, as far as its rows are within the limits of some
/// amount; the other rows are open. There are at least T + 1 running spells, each with room for as many
/// pieces as `shared`, T (B + 3) at least where the curve has B blocks; `origins`, `roster` and the
/// log of `shared` have room for T periods, and `table` has at least T + 1 rows. Leaves in the log
/// what backtracking from each row needs. Takes no memory.
pub fn fill_table(
    question: &Question,
    origins: &mut Origins,
    roster: &mut Roster,
    spells: &mut [RunningSpell],
    table: &mut Table,
    shared: &mut Shared,
)
    requires long { AreLonger (periods_in question.now) table.old.items spells.old roster.old
        origins.old shared.old.log }
    requires room { periods_in question.now * charge_of question.now ≤ space_of shared.old.spare }
    requires have { HaveRoom (space_of shared.old.spare) spells.old }
    requires limits { (most : ℤ)
        × AreLimits (unit_of question.now) (prices_in question.now) most
        (limits_in question.now) }
    ensures filled { (most : ℤ)
        → AreLimits (unit_of question.now) (prices_in question.now) most (limits_in question.now)
        → IsFilledWithin (unit_of question.now) (prices_in question.now) most table.new.items }
    ensures backtracks { CanBacktrack (unit_of question.now) (prices_in question.now)
        (periods_in question.now) (cost_at table.new.items) (first_at table.new.items)
        (left_at shared.new.log.items spells.new) }
    ensures traces { AreTraces shared.new.log.items spells.new }
    ensures spare { space_of shared.new.spare ≡ space_of shared.old.spare }
    ensures same { AreAsLong table.old.items table.new.items spells.old spells.new
        roster.old roster.new shared.old.log shared.new.log }
    ensures list { length origins.new.list.items ≡ length origins.old.list.items }
{
    start_costs_are_within();
    let unit = question.unit;
    reset_table_and_running_spells(unit, roster, spells, table, &mut shared.log);
    origins.begin(unit, table.as_slice());
    let periods = question.prices.energy.len() as u32;
    for index in 0..periods {
        let period = Period {
            question: &*question,
            index,
        };
        fill_table_row_of_period(&period, origins, roster, spells, table, shared);
        origins.advance_to_starts_after_period(unit, index, table.as_slice());
    }
}
