//! The spells of one first period, put into the table: for the answer run by run.
ghost use Rattle.std.specs.Prelude.{◌≡◌, ℕ, ◌+◌, ◌-◌, ◌*◌, ◌<◌, ◌≤◌, ℤ, ◌+ℤ◌, IsTrue, IfSome};
ghost use Rattle.std.specs.Prelude.{IfNone, length, suc, Some};
ghost use Rattle.test_units.specs.Rows.{net_at, IsOpenUntil, IsUpdate};
ghost use Rattle.uc_model.specs.PlainUnits.{thermal_of};
ghost use Rattle.uc_model.specs.Schedules.{mark_in};
ghost use Rattle.uc_model.specs.declared.limits.TheConstants.{MOST_PERIODS};
ghost use Rattle.unit_rows.specs.Rows.{cost_at, first_at, before_at, IsWithinTimes, AreWithin};
ghost use Rattle.unit_rows.specs.Spells.{IsOffRun, IsGap, on_time, start_cost_after};
ghost use Rattle.unit_rows.specs.Ends.{IsEntry, IsLeastEntry};
ghost use Rattle.unit_rows.specs.declared.table.Entry.{Entry};

use uc_model::units::{Mark, Unit};
use unit_rows::commitment::{earliest_allowed_last_on_period, may_end_spell, periods_off};
use unit_rows::table::{
    Ended, Entry, Table, cost_of_start_after, lesser_spell_entry, sum_of_costs,
    write_row_if_no_dearer,
};

// How many of the marks from a place on come before the first `MustOff`, and the place where they
// end.
fn before_must_off(marks: &[Mark], from: u32) -> u32
    requires small { length marks.now ≤ MOST_PERIODS }
    requires start { from ≤ length marks.now }
    ensures from { from ≤ result }
    ensures end { result ≤ length marks.now }
    ensures marks { (k : ℕ) → from ≤ k → k < result → mark_in marks.now (suc k) ≡ Mark.MustOff → ⊥ }
    ensures next { result < length marks.now → mark_in marks.now (suc result) ≡ Mark.MustOff }
{
    let end = marks.len() as u32;
    for index in from..end {
        if marks[index as usize] == Mark::MustOff {
            return index;
        }
    }
    end
}

/// The period until which a spell from `first` on may last, as far as the window goes; `first` 0
/// stands for a spell that goes on from before the horizon. It is before `first` where that period
/// is marked `MustOff`.
pub fn open_until(unit: &Unit, first: u32) -> u32
    requires { first ≤ length (thermal_of unit.now).window }
    ensures { IsOpenUntil (thermal_of unit.now) first result }
{
    before_must_off(unit.window.as_slice(), first.saturating_sub(1))
}

// The cost of all before a start in the period after `before`, with the start, where the on period
// before it is `last`.
fn entry_after(unit: &Unit, rows: &[Option<Ended>], last: u32, before: u32) -> Option<i64>
    requires off { IsOffRun (thermal_of unit.now) last before }
    requires room { last < length rows.now }
    requires small { before < MOST_PERIODS }
    requires within { AreWithin rows.now }
    ensures some { IfSome result (λ e. (v : ℤ) × (cost_at rows.now last ≡ Some v)
        × IsGap (thermal_of unit.now) last before
        × (e ≡ v +ℤ start_cost_after (thermal_of unit.now) last before)) }
    ensures none { IfNone result ((v : ℤ) → cost_at rows.now last ≡ Some v
        → IsGap (thermal_of unit.now) last before → ⊥) }
    ensures bound { IfSome result (IsWithinTimes (2 * last + 3)) }
{
    match rows[last as usize] {
        Some(ended) => {
            if u64::from(unit.min_down) <= periods_off(unit, last, before) {
                Some(sum_of_costs(ended.cost, cost_of_start_after(unit, last, before)))
            } else {
                None
            }
        }
        None => None,
    }
}

/// The least cost of all before a start in the period after `before`, with the start; of equal ones
/// that with the earliest on period before it.
pub fn least_entry(unit: &Unit, rows: &[Option<Ended>], before: u32) -> Option<Entry>
    requires end { before < length (thermal_of unit.now).window }
    requires room { before < length rows.now }
    requires within { AreWithin rows.now }
    ensures some { IfSome result (λ e. IsLeastEntry (thermal_of unit.now) (cost_at rows.now)
        (suc before) e.last e.cost) }
    ensures none { IfNone result ((e : ℤ)
        → IsEntry (thermal_of unit.now) (cost_at rows.now) (suc before) e → ⊥) }
    ensures bound { IfSome result (λ e. IsWithinTimes (2 * before + 3) e.cost) }
{
    let mut least: Option<Entry> = None;
    for last in earliest_allowed_last_on_period(unit, before)..before + 1 {
        least = lesser_spell_entry(least, entry_after(unit, rows, last, before), last);
    }
    least
}

// The least net cost of a spell, where the unit may stop after it.
fn net_of(unit: &Unit, periods: u32, first: u32, last: u32, costs: &[Option<i64>]) -> Option<i64>
    requires one { 1 ≤ last }
    requires order { first ≤ last }
    requires room { last ≤ length costs.now }
    ensures some { (c : ℤ) → result ≡ Some c → (net_at costs.now last ≡ Some c)
        × (last < periods → (thermal_of unit.now).min_up
        ≤ on_time (thermal_of unit.now) first last) }
    ensures none { (c : ℤ) → net_at costs.now last ≡ Some c
        → (last < periods → (thermal_of unit.now).min_up ≤ on_time (thermal_of unit.now) first last)
        → result ≡ Some c }
{
    if may_end_spell(unit, periods, first, last) {
        costs[last as usize - 1]
    } else {
        None
    }
}

/// Puts the spells that begin with period `first` into the table, with the least net costs by last
/// period; `first` 0 stands for spells that go on from before the horizon. No spell that ends
/// before period 1 is put.
pub fn add_spells(
    unit: &Unit,
    periods: u32,
    first: u32,
    until: u32,
    entry: &Entry,
    costs: &[Option<i64>],
    table: &mut Table,
)
    requires periods { periods ≡ length (thermal_of unit.now).window }
    requires until { IsOpenUntil (thermal_of unit.now) first until }
    requires goes_on { first ≡ 0 → IsTrue unit.now.on0 }
    requires costs { periods ≤ length costs.now }
    requires room { periods < length table.old.items }
    requires within { AreWithin table.old.items }
    requires bound { IsWithinTimes (2 * first + 1) entry.now.cost }
    requires net_bound { (l : ℕ) (c : ℤ) → first ≤ l → l ≤ periods → net_at costs.now l ≡ Some c
        → IsWithinTimes (suc l - first) c }
    ensures update { IsUpdate (thermal_of unit.now) periods first entry.now.last entry.now.cost
        (net_at costs.now) (cost_at table.old.items) (cost_at table.new.items)
        (first_at table.old.items) (first_at table.new.items) (before_at table.old.items)
        (before_at table.new.items) }
    ensures within { AreWithin table.new.items }
    ensures length { length table.new.items ≡ length table.old.items }
{
    for last in first.max(1)..until + 1 {
        if let Some(net) = net_of(unit, periods, first, last, costs) {
            let ended = Ended {
                cost: sum_of_costs(entry.cost, net),
                first,
                before: entry.last,
            };
            write_row_if_no_dearer(table, last, ended);
        }
    }
}
