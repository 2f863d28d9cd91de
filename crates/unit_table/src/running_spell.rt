//! The spells with one first period, as far as they have gone.
ghost use Rattle.std.specs.Prelude.{◌≡◌, ◌≢◌, ℕ, suc, ◌+◌, ◌-◌, ◌*◌, ◌^◌, ◌<◌, ◌≤◌, ℤ, pos, ◌+ℤ◌};
ghost use Rattle.std.specs.Prelude.{◌-ℤ◌};
ghost use Rattle.std.specs.Prelude.{◌≤ℤ◌, ◌⊎◌, true, false, IsTrue, IfSome, length, Some};
ghost use Rattle.std.specs.Prelude.{None, Option, slice_get};
ghost use Rattle.std.specs.Bool.{OnTrue};
ghost use Rattle.slope_list.specs.Table.{Table, value_of, IsEmpty};
ghost use Rattle.slope_list.specs.Slopes.{shown, count_of, room_of, space_of, MayGrow, IsGrown};
ghost use Rattle.spell_run.specs.Frontier.{IsFrontier};
ghost use Rattle.spell_run.specs.Logs.{left_by, IsTrace};
ghost use Rattle.spell_run.specs.Notes.{IsOnNoted, IsEndNoted, end_cost};
ghost use Rattle.spell_run.specs.Spells.{IsSpellAnswer, IsSpellWithin};
ghost use Rattle.uc_model.specs.declared.units.Mark.TheVariants.{MustOff};
ghost use Rattle.uc_model.specs.Data.{ThermalUnit, PriceLists};
ghost use Rattle.uc_model.specs.PlainUnits.{thermal_of};
ghost use Rattle.uc_model.specs.Schedules.{mark_in};
ghost use Rattle.uc_model.specs.declared.limits.TheConstants.{MOST_PERIODS};
ghost use Rattle.unit_table.specs.Live.{state_of, going_of, live_at, IsRoomy, AreRoomy};
ghost use Rattle.unit_table.specs.Live.{AreSmall, IsUnder, IsBeyond, IsBelow, HaveRoom};
ghost use Rattle.unit_table.specs.Questions.{asked, periods_of};
ghost use Rattle.unit_table.specs.Rosters.{IsRoster};
ghost use Rattle.unit_rows.specs.Rows.{row_at, cost_at, first_at, IsWithinTimes};
ghost use Rattle.unit_rows.specs.Rows.{AreWithin};
ghost use Rattle.unit_table.specs.RunningSpells.{Going, AreRunningSpells, IsGoneOn};
ghost use Rattle.unit_table.specs.RunningSpells.{IsEndLeft, IsBegun, since};
ghost use Rattle.unit_rows.specs.Spells.{on_time};
ghost use Rattle.unit_table.specs.Taken.{AreFewer, AreKept, IsReady, IsRowMore, IsOneRun};
ghost use Rattle.unit_table.specs.Taken.{HaveSameRooms, IsEntryMore, IsLogFor};
ghost use Rattle.unit_table.specs.Taken.{IsRunOver};

use crate::question::Period;
use crate::roster::Roster;
use slope_list::{Lowest, Slopes, Spare};
use spell_run::notes::push_spell_log_entry;
use spell_run::{
    Log, Passage, Passed, Trace, advance_spell_and_find_end_cost, advance_spell_over_period,
    begin_spell_cost_function,
};
use uc_model::units::Unit;
use unit_rows::commitment::{is_min_up_met_by_spell, may_end_spell};
use unit_rows::table::{Entry, Table, sum_of_costs, write_spell_end_if_no_dearer};

/// The spells that begin with one period; its index in a list of running spells is that period, and 0
/// stands for spells that go on from before the horizon. Where it isn't on, the rest is open.
pub struct RunningSpell {
    pub is_on: bool,
    /// The cost of all before the spell and its start, in money.
    pub cost: i64,
    /// The on period before it.
    pub before: u32,
    /// The least net costs by the power at the end of a period.
    pub running: Slopes,
    /// What it left in the log of the periods that it was taken over, whether it is on or not.
    pub trace: Trace,
}

// By hand, so that dropping it is one call.
impl Drop for RunningSpell {
    fn drop(self) {
        let RunningSpell {
            is_on: _,
            cost: _,
            before: _,
            running: _,
            trace: _,
        } = self;
    }
}

// Begins a running spell after an entry.
fn begin_running_spell(unit: &Unit, first: u32, entry: &Entry, spell: &mut RunningSpell)
    ensures on { spell.new.is_on ≡ true }
    ensures cost { spell.new.cost ≡ entry.now.cost }
    ensures before { spell.new.before ≡ entry.now.last }
    ensures frontier { (π : PriceLists)
        → IsFrontier (thermal_of unit.now) π first (first - 1) (shown spell.new.running) }
    ensures count { count_of spell.new.running ≡ 0 }
    ensures room { room_of spell.new.running ≡ room_of spell.old.running }
    ensures trace { spell.new.trace ≡ spell.old.trace }
{
    spell.is_on = true;
    spell.cost = entry.cost;
    spell.before = entry.last;
    begin_spell_cost_function(unit, first, &mut spell.running);
}

/// Stops a running spell.
fn stop_running_spell(spell: &mut RunningSpell)
    ensures off { spell.new.is_on ≡ false }
    ensures running { spell.new.running ≡ spell.old.running }
    ensures trace { spell.new.trace ≡ spell.old.trace }
{
    spell.is_on = false;
}

/// The running spell that begins with a period.
pub(crate) fn running_spell_of_first_period(spells: &[RunningSpell], first: u32) -> &RunningSpell
    requires { first < length spells.now }
    ensures { slice_get spells.now first ≡ Some result.now }
{
    &spells[first as usize]
}

// Begins the running spell at an index after an entry.
fn begin_running_spell_at(unit: &Unit, first: u32, entry: &Entry, spells: &mut [RunningSpell])
    requires end { first < length spells.old }
    ensures begun { (r : Going) × (live_at spells.new first ≡ Some r)
        × IsBegun (thermal_of unit.now) first entry.now.last entry.now.cost r }
    ensures others { (f : ℕ) → f ≢ first → live_at spells.new f ≡ live_at spells.old f }
    ensures kept { AreKept spells.old spells.new }
{
    begin_running_spell(unit, first, entry, &mut spells[first as usize]);
}

/// Begins the running spell of a period after an entry, and puts the period into the roster, which has
/// earlier ones.
pub(crate) fn begin_spell_and_add_to_roster(
    unit: &Unit,
    first: u32,
    entry: &Entry,
    roster: &mut Roster,
    spells: &mut [RunningSpell],
)
    requires small { first ≤ MOST_PERIODS }
    requires end { first < length spells.old }
    requires list { first < length roster.old.firsts.items }
    requires roster { IsRoster (live_at spells.old) first roster.old }
    ensures begun { (r : Going) × (live_at spells.new first ≡ Some r)
        × IsBegun (thermal_of unit.now) first entry.now.last entry.now.cost r }
    ensures others { (f : ℕ) → f ≢ first → live_at spells.new f ≡ live_at spells.old f }
    ensures kept { AreKept spells.old spells.new }
    ensures roster { IsRoster (live_at spells.new) (suc first) roster.new }
    ensures list { length roster.new.firsts.items ≡ length roster.old.firsts.items }
{
    begin_running_spell_at(unit, first, entry, spells);
    roster.add(first);
}

// Stops the running spell at an index.
fn stop_running_spell_at(spells: &mut [RunningSpell], index: usize)
    requires { index < length spells.old }
    ensures off { live_at spells.new index ≡ None }
    ensures others { (f : ℕ) → f ≢ index → live_at spells.new f ≡ live_at spells.old f }
    ensures fewer { AreFewer (live_at spells.old) (live_at spells.new) }
    ensures kept { AreKept spells.old spells.new }
{
    stop_running_spell(&mut spells[index]);
}

// Stops a running spell, and forgets what it left.
fn stop_spell_and_forget_its_log(spell: &mut RunningSpell)
    ensures off { spell.new.is_on ≡ false }
    ensures running { spell.new.running ≡ spell.old.running }
    ensures trace { spell.new.trace.count ≡ 0 }
{
    stop_running_spell(spell);
    spell.trace = Trace::none();
}

// Stops the running spell at an index, and forgets what it left.
fn stop_spell_at_and_forget_its_log(spells: &mut [RunningSpell], index: usize)
    requires { index < length spells.old }
    ensures off { live_at spells.new index ≡ None }
    ensures none { (r : RunningSpell) → slice_get spells.new index ≡ Some r → r.trace.count ≡ 0 }
    ensures others { (f : ℕ) → f ≢ index → slice_get spells.new f ≡ slice_get spells.old f }
    ensures rooms { HaveSameRooms spells.old spells.new }
{
    stop_spell_and_forget_its_log(&mut spells[index]);
}

/// Stops all running spells, and forgets what they left.
pub(crate) fn stop_all_spells_and_forget_their_log(spells: &mut [RunningSpell])
    ensures off { (first : ℕ) → live_at spells.new first ≡ None }
    ensures none { (first : ℕ) (r : RunningSpell) → slice_get spells.new first ≡ Some r → r.trace.count ≡ 0 }
    ensures rooms { HaveSameRooms spells.old spells.new }
{
    for index in 0..spells.len() {
        stop_spell_at_and_forget_its_log(spells, index);
    }
}

/// Stops all running spells.
pub(crate) fn stop_all_running_spells(spells: &mut [RunningSpell])
    ensures off { (first : ℕ) → live_at spells.new first ≡ None }
    ensures kept { AreKept spells.old spells.new }
{
    for index in 0..spells.len() {
        stop_running_spell_at(spells, index);
    }
}

// The value at a power, where that is the first power.
fn value_if_first_power(running: &Slopes, power: i64) -> Option<i64>
    ensures { IfSome result (λ v. value_of (shown running.now) power ≡ Some v) }
{
    match running.first() {
        Some(spot) => {
            if spot.at == power {
                Some(spot.value)
            } else {
                None
            }
        }
        None => None,
    }
}

pub(crate) fn is_lesser_cost(a: i64, b: i64) -> bool
    ensures { IsTrue result → (a +ℤ pos 1) ≤ℤ b }
{
    a < b
}

// Whether a running spell that is on is at a power, its first, for less than a cost.
fn is_spell_cheaper_at_power(spell: &RunningSpell, power: i64, cost: i64) -> bool
    requires bound { IsWithinTimes 400 spell.now.cost }
    requires values { (x v : ℤ) → value_of (shown spell.now.running) x ≡ Some v
        → IsWithinTimes 400 v }
    ensures { OnTrue result
        (IsUnder power cost (state_of spell.now)) }
{
    match value_if_first_power(&spell.running, power) {
        Some(value) => is_lesser_cost(sum_of_costs(spell.cost, value), cost),
        None => false,
    }
}

// Whether the running spell that begins with a period is on, and undercuts a cost at a power.
fn is_running_spell_of_period_cheaper(
    spells: &[RunningSpell],
    first: u32,
    power: i64,
    cost: i64,
) -> bool
    requires room { first < length spells.now }
    requires small { AreSmall (live_at spells.now) }
    ensures { OnTrue result ((r : Going) × (live_at spells.now first ≡ Some r)
        × IsUnder power cost r) }
{
    let spell = running_spell_of_first_period(spells, first);
    if !spell.is_on {
        return false;
    }
    is_spell_cheaper_at_power(spell, power, cost)
}

/// Whether one of the running spells of a roster is at a power, its first, for less than a cost.
pub(crate) fn is_any_running_spell_cheaper(
    spells: &[RunningSpell],
    roster: &Roster,
    power: i64,
    cost: i64,
) -> bool
    requires roster { IsRoster (live_at spells.now) (length spells.now) roster.now }
    requires small { AreSmall (live_at spells.now) }
    ensures { OnTrue result ((first : ℕ) × (r : Going)
        × (live_at spells.now first ≡ Some r) × IsUnder power cost r) }
{
    for index in 0..roster.count {
        if is_running_spell_of_period_cheaper(
            spells,
            *roster.firsts.get(index as usize),
            power,
            cost,
        ) {
            return true;
        }
    }
    false
}

// Takes a running spell over the period at an index, and answers what is left for backtracking, with the
// least net cost of the spells that end with the period, where the unit may stop after it.
fn advance_spell_with_end_if_allowed(
    period: &Period,
    first: u32,
    running: &mut Slopes,
    spare: &mut Spare,
) -> Passed
    requires order { first ≤ suc period.now.index }
    requires frontier { IsFrontier (asked period.now).unit (asked period.now).prices first
        period.now.index (shown running.old) }
    requires room { MayGrow (asked period.now).charge running.old spare.old }
    ensures answer { (suc period.now.index < periods_of (asked period.now) →
        (asked period.now).unit.min_up ≤ on_time (asked period.now).unit first
        (suc period.now.index)) → IsSpellAnswer (asked period.now).unit (asked period.now).prices
        (periods_of (asked period.now)) first (suc period.now.index) (end_cost result.end) }
    ensures may { IfSome result.end (λ _. suc period.now.index < periods_of (asked period.now) →
        (asked period.now).unit.min_up ≤ on_time (asked period.now).unit first
        (suc period.now.index)) }
    ensures within { IfSome result.end (λ e. IsSpellWithin first (suc period.now.index) e.value) }
    ensures ended { IfSome result.end (IsEndNoted (asked period.now).unit (asked period.now).prices
        first period.now.index result.note) }
    ensures noted { (x v : ℤ) → value_of (shown running.old) x ≡ Some v
        → IsOnNoted (asked period.now).unit (asked period.now).prices first period.now.index
        result.note }
    ensures frontier { IsFrontier (asked period.now).unit (asked period.now).prices first
        (suc period.now.index) (shown running.new) }
    ensures grown { IsGrown (asked period.now).charge running.old running.new spare.old spare.new }
{
    let question = period.question;
    let index = period.index;
    let unit = question.unit;
    let curve = question.curve;
    let prices = question.prices;
    let passage = Passage {
        first,
        index: index as usize,
    };
    if may_end_spell(unit, prices.energy.len() as u32, first, index + 1) {
        advance_spell_and_find_end_cost(unit, curve, prices, passage, running, spare)
    } else {
        let note = advance_spell_over_period(unit, curve, prices, passage, running, spare);
        Passed { note, end: None }
    }
}

// The cost of an end.
fn cost_of_end(end: Option<Lowest>) -> Option<i64>
    ensures { result ≡ end_cost end }
{
    match end {
        Some(lowest) => Some(lowest.value),
        None => None,
    }
}

// Stops a running spell where no run is left.
fn stop_spell_if_no_power_left(spell: &mut RunningSpell)
    requires { spell.old.is_on ≡ true }
    ensures running { spell.new.running ≡ spell.old.running }
    ensures trace { spell.new.trace ≡ spell.old.trace }
    ensures next { (going_of (Some spell.new) ≡ going_of (Some spell.old))
        ⊎ ((going_of (Some spell.new) ≡ None)
        × IsEmpty (shown spell.old.running)) }
{
    if spell.running.is_empty() {
        stop_running_spell(spell);
    }
}

// Takes a running spell that is on over the period at an index, leaves in the log what its backtracking needs,
// and puts the spells that end with the period into the table.
fn advance_spell_and_write_table_row(
    period: &Period,
    first: u32,
    spell: &mut RunningSpell,
    table: &mut Table,
    spare: &mut Spare,
    log: &mut Log,
)
    requires on { spell.old.is_on ≡ true }
    requires ready { IsReady (asked period.now) first (state_of spell.old) }
    requires room { IsRoomy (periods_of (asked period.now)) period.now.index
        (asked period.now).charge first spell.old }
    requires alike { space_of spare.old ≡ room_of spell.old.running }
    requires rows { periods_of (asked period.now) < length table.old.items }
    requires within { AreWithin table.old.items }
    requires trace { IsTrace log.old.items spell.old.trace }
    requires entry { 1 ≤ log.old.spare }
    requires small_log { length log.old.items < 2 ^ 32 }
    ensures more { IsRowMore (asked period.now) first (going_of (Some spell.old)) table.old.items
        table.new.items }
    ensures goes { (r : Going) → going_of (Some spell.old) ≡ Some r
        → IsGoneOn (asked period.now).unit (asked period.now).prices period.now.index first r
        (going_of (Some spell.new)) }
    ensures ends { (row_at table.new.items (suc period.now.index)
        ≡ row_at table.old.items (suc period.now.index))
        ⊎ ((first_at table.new.items (suc period.now.index) ≡ first)
        × IsEndLeft (asked period.now).unit (asked period.now).prices first period.now.index (since
        first (left_by log.new.items spell.new.trace) period.now.index)) }
    ensures noted { (x v : ℤ) → value_of (shown spell.old.running) x ≡ Some v
        → IsOnNoted (asked period.now).unit (asked period.now).prices first period.now.index (since
        first (left_by log.new.items spell.new.trace) period.now.index).note }
    ensures entry { IsEntryMore log.old log.new spell.old.trace spell.new.trace }
    ensures room { IsRoomy (periods_of (asked period.now)) (suc period.now.index)
        (asked period.now).charge first spell.new }
    ensures same { room_of spell.new.running ≡ room_of spell.old.running }
    ensures spare { space_of spare.new ≡ space_of spare.old }
{
    let entry = Entry {
        cost: spell.cost,
        last: spell.before,
    };
    let passed = advance_spell_with_end_if_allowed(period, first, &mut spell.running, spare);
    let index = period.index;
    spell.trace = push_spell_log_entry(log, spell.trace, passed);
    write_spell_end_if_no_dearer(table, index + 1, first, &entry, cost_of_end(passed.end));
    stop_spell_if_no_power_left(spell);
}

// Takes the running spell that begins with a period over the period at an index, if it is on.
fn advance_spell_of_first_period(
    period: &Period,
    first: u32,
    spells: &mut [RunningSpell],
    table: &mut Table,
    spare: &mut Spare,
    log: &mut Log,
)
    requires spells { first < length spells.old }
    requires ready { (r : Going) → live_at spells.old first ≡ Some r
        → IsReady (asked period.now) first r }
    requires room { (r : RunningSpell) → slice_get spells.old first ≡ Some r
        → IsRoomy (periods_of (asked period.now)) period.now.index (asked period.now).charge first r }
    requires alike { (r : RunningSpell) → slice_get spells.old first ≡ Some r
        → space_of spare.old ≡ room_of r.running }
    requires rows { periods_of (asked period.now) < length table.old.items }
    requires within { AreWithin table.old.items }
    requires log { IsLogFor 1 log.old spells.old }
    ensures run { IsOneRun (asked period.now) first table.old.items table.new.items spells.old
        spells.new log.old log.new }
    ensures spare { space_of spare.new ≡ space_of spare.old }
{
    if running_spell_of_first_period(spells, first).is_on {
        advance_spell_and_write_table_row(
            period,
            first,
            &mut spells[first as usize],
            table,
            spare,
            log,
        );
    }
}

/// Takes all running spells that begin up to the period at an index over it, and fills its row. The roster
/// has all that are on.
pub(crate) fn advance_all_running_spells(
    period: &Period,
    roster: &Roster,
    spells: &mut [RunningSpell],
    table: &mut Table,
    spare: &mut Spare,
    log: &mut Log,
)
    requires open { mark_in (asked period.now).unit.window (suc period.now.index) ≡ MustOff → ⊥ }
    requires spells { periods_of (asked period.now) < length spells.old }
    requires now { (limits : ℕ → ℤ) × AreRunningSpells (asked period.now).unit (asked period.now).prices
        limits (cost_at table.old.items) (live_at spells.old) period.now.index (suc
        (suc period.now.index)) }
    requires roster { IsRoster (live_at spells.old) (suc (suc period.now.index)) roster.now }
    requires room { AreRoomy (periods_of (asked period.now)) period.now.index
        (asked period.now).charge spells.old }
    requires have { HaveRoom (space_of spare.old) spells.old }
    requires log { IsLogFor (suc (suc period.now.index)) log.old spells.old }
    requires rows { periods_of (asked period.now) < length table.old.items }
    requires within { AreWithin table.old.items }
    requires none { cost_at table.old.items (suc period.now.index) ≡ None }
    ensures run { IsRunOver (asked period.now) table.old.items table.new.items spells.old
        spells.new log.old log.new }
    ensures spare { space_of spare.new ≡ space_of spare.old }
{
    for index in 0..roster.count {
        let first = *roster.firsts.get(index as usize);
        advance_spell_of_first_period(period, first, spells, table, spare, log);
    }
}

// The difference of two costs within bounds.
fn cost_difference(a: i64, b: i64) -> i64
    requires a { IsWithinTimes 400 a }
    requires b { IsWithinTimes 400 b }
    ensures value { result ≡ a -ℤ b }
    ensures bound { IsWithinTimes 800 result }
{
    a - b
}

// Whether a later running spell may stop in each period after the next as an earlier one may, and is
// nowhere above it.
fn is_dominated_by_later_spell(
    unit: &Unit,
    period: u32,
    first: u32,
    late: &RunningSpell,
    early: &RunningSpell,
) -> bool
    requires small { period ≤ MOST_PERIODS }
    requires order { first ≤ period }
    requires late { IsWithinTimes 400 late.now.cost }
    requires early { IsWithinTimes 400 early.now.cost }
    ensures long { OnTrue result ((thermal_of unit.now).min_up
        ≤ on_time (thermal_of unit.now) first (suc period)) }
    ensures below { OnTrue result
        (IsBelow (shown late.now.running) late.now.cost (shown early.now.running)
        early.now.cost) }
{
    is_min_up_met_by_spell(unit, first, period + 1)
        && late
            .running
            .is_function_nowhere_above(&early.running, cost_difference(late.cost, early.cost))
}

// Stops a running spell where a later one stands for it, and answers the earliest one that is on then.
fn stop_spell_if_dominated(
    unit: &Unit,
    period: u32,
    early: u32,
    late: Option<u32>,
    spells: &mut [RunningSpell],
) -> Option<u32>
    requires periods { period ≤ MOST_PERIODS }
    requires early { early ≤ period }
    requires end { period < length spells.old }
    requires late { IfSome late (λ l. (early < l) × (l ≤ period)
        × ((r : Going) × (live_at spells.old l ≡ Some r))) }
    requires small { AreSmall (live_at spells.old) }
    ensures late { IfSome result (λ l. (early ≤ l) × (l ≤ period)
        × ((r : Going) × (live_at spells.new l ≡ Some r))) }
    ensures stands { (π : PriceLists) (limits : ℕ → ℤ) (ends : ℕ → Option ℤ) (n : ℕ) →
        AreRunningSpells (thermal_of unit.now) π limits ends (live_at spells.old) period n →
        AreRunningSpells (thermal_of unit.now) π limits ends (live_at spells.new) period n }
    ensures fewer { AreFewer (live_at spells.old) (live_at spells.new) }
    ensures kept { AreKept spells.old spells.new }
{
    let spell = running_spell_of_first_period(spells, early);
    if !spell.is_on {
        return late;
    }
    if let Some(first) = late {
        if is_dominated_by_later_spell(
            unit,
            period,
            first,
            running_spell_of_first_period(spells, first),
            spell,
        ) {
            stop_running_spell_at(spells, early as usize);
            return Some(first);
        }
    }
    Some(early)
}

/// Stops each running spell that a later one stands for at the end of a period. The roster has all that
/// are on.
pub(crate) fn stop_dominated_spells(
    unit: &Unit,
    period: u32,
    roster: &Roster,
    spells: &mut [RunningSpell],
)
    requires periods { period ≤ MOST_PERIODS }
    requires end { period < length spells.old }
    requires small { AreSmall (live_at spells.old) }
    requires roster { IsRoster (live_at spells.old) (suc period) roster.now }
    ensures stands { (π : PriceLists) (limits : ℕ → ℤ) (ends : ℕ → Option ℤ) (n : ℕ) →
        AreRunningSpells (thermal_of unit.now) π limits ends (live_at spells.old) period n →
        AreRunningSpells (thermal_of unit.now) π limits ends (live_at spells.new) period n }
    ensures fewer { AreFewer (live_at spells.old) (live_at spells.new) }
    ensures kept { AreKept spells.old spells.new }
{
    let mut late = None;
    for back in 0..roster.count {
        let first = *roster.firsts.get((roster.count - back) as usize - 1);
        late = stop_spell_if_dominated(unit, period, first, late, spells);
    }
}

// Whether a running spell is above a cost at each power.
fn is_spell_above_cost_limit(spell: &RunningSpell, limit: i64) -> bool
    requires bound { IsWithinTimes 400 spell.now.cost }
    requires values { (x v : ℤ) → value_of (shown spell.now.running) x ≡ Some v
        → IsWithinTimes 400 v }
    ensures { OnTrue result (IsBeyond limit spell.now.cost (shown spell.now.running)) }
{
    spell.running.is_function_above_limit(spell.cost, limit)
}

// Stops the running spell that begins with a period, if it is above the limit at each power.
fn stop_spell_if_above_cost_limit(limit: i64, first: u32, spells: &mut [RunningSpell])
    requires end { first < length spells.old }
    requires small { AreSmall (live_at spells.old) }
    ensures stands { (g : ThermalUnit) (π : PriceLists) (limits : ℕ → ℤ) (ends : ℕ
        → Option ℤ) (t n : ℕ) → limits t ≡ limit →
        AreRunningSpells g π limits ends (live_at spells.old) t n →
        AreRunningSpells g π limits ends (live_at spells.new) t n }
    ensures fewer { AreFewer (live_at spells.old) (live_at spells.new) }
    ensures kept { AreKept spells.old spells.new }
{
    let spell = running_spell_of_first_period(spells, first);
    if !spell.is_on {
        return;
    }
    if is_spell_above_cost_limit(spell, limit) {
        stop_running_spell_at(spells, first as usize);
    }
}

/// Stops each running spell that is above the limit of a period at each power. The roster has all that are
/// on.
pub(crate) fn stop_spells_above_cost_limit(
    period: u32,
    limit: i64,
    roster: &Roster,
    spells: &mut [RunningSpell],
)
    requires end { period < length spells.old }
    requires small { AreSmall (live_at spells.old) }
    requires roster { IsRoster (live_at spells.old) (suc period) roster.now }
    ensures stands { (g : ThermalUnit) (π : PriceLists) (limits : ℕ → ℤ) (ends : ℕ
        → Option ℤ) (t n : ℕ) → limits t ≡ limit →
        AreRunningSpells g π limits ends (live_at spells.old) t n →
        AreRunningSpells g π limits ends (live_at spells.new) t n }
    ensures fewer { AreFewer (live_at spells.old) (live_at spells.new) }
    ensures kept { AreKept spells.old spells.new }
{
    for index in 0..roster.count {
        stop_spell_if_above_cost_limit(limit, *roster.firsts.get(index as usize), spells);
    }
}
