//! The table of least costs by the last on period.
ghost use Rattle.std.specs.Prelude.{◌≡◌, ◌≢◌, ℕ, ◌+◌, ◌-◌, ◌*◌, ◌<◌, ◌≤◌, ℤ, pos, ◌+ℤ◌, ◌≤ℤ◌, ◌⊎◌};
ghost use Rattle.std.specs.Prelude.{IsTrue, IsFalse, IfSome, IfNone, length, suc, Some, None};
ghost use Rattle.uc_model.specs.PlainUnits.{thermal_of};
ghost use Rattle.uc_model.specs.declared.limits.TheConstants.{MOST_PERIODS};
ghost use Rattle.unit_rows.specs.Rows.{row_at, cost_at, IsWithinTimes, AreWithin, IsPut};
ghost use Rattle.unit_rows.specs.Rows.{HasEntryAtMost, IsFirstRow};
ghost use Rattle.unit_rows.specs.Spells.{start_cost_after};
ghost use Rattle.unit_rows.specs.Ends.{HasAtMost};
ghost use Rattle.unit_rows.specs.declared.table.Ended.{Ended};
ghost use Rattle.unit_rows.specs.declared.table.Entry.{Entry};

use crate::commitment::{may_stop_at_once, periods_off};
use plain_lists::lists::ReservedList;
use uc_model::rules::start_cost;
use uc_model::units::Unit;

/// The least cost of all up to a last on period, in money: net costs of spells and costs of starts.
/// `first` is where the spell that ends there begins, and `before` the on period before that spell.
/// Both are 0 where it goes on from before the horizon, or the unit is off since then.
#[derive(Clone, Copy)]
pub struct Ended {
    pub cost: i64,
    pub first: u32,
    pub before: u32,
}

/// The rows of periods 0 to T; None where nothing ends with that period.
pub type Table = ReservedList<Option<Ended>>;

/// What a spell begins with: the cost of all before it and its start, and the on period before it.
#[derive(Clone, Copy)]
pub struct Entry {
    pub cost: i64,
    pub last: u32,
}

/// The cost of a start in the period after `before`, in money.
pub fn cost_of_start_after(unit: &Unit, last: u32, before: u32) -> i64
    requires { last ≤ before }
    ensures value { result ≡ start_cost_after (thermal_of unit.now) last before }
    ensures bound { IsWithinTimes 1 result }
{
    start_cost(unit, periods_off(unit, last, before))
}

/// The sum of two costs within bounds.
pub fn sum_of_costs(a: i64, b: i64) -> i64
    requires a { IsWithinTimes 400 a }
    requires b { IsWithinTimes 400 b }
    ensures { result ≡ a +ℤ b }
{
    a + b
}

/// The lesser of two, and the first where they are equal.
pub fn lesser_spell_entry(least: Option<Entry>, cost: Option<i64>, last: u32) -> Option<Entry>
    ensures from { IfSome result
        (λ r. (least ≡ Some r) ⊎ ((cost ≡ Some r.cost) × (r.last ≡ last))) }
    ensures old { (r : Entry) → least ≡ Some r → HasEntryAtMost result r.cost }
    ensures added { (v : ℤ) → cost ≡ Some v → HasEntryAtMost result v }
    ensures kept { (r u : Entry) → least ≡ Some r → result ≡ Some u
        → (u.last ≡ r.last) ⊎ ((u.cost +ℤ pos 1) ≤ℤ r.cost) }
{
    match cost {
        None => least,
        Some(cost) => match least {
            None => Some(Entry { cost, last }),
            Some(entry) => {
                if cost < entry.cost {
                    Some(Entry { cost, last })
                } else {
                    Some(entry)
                }
            }
        },
    }
}

// Whether the cost is at most that in the table, or none is there: of equal ones the later first
// period is taken.
fn is_no_dearer_than_row(row: Option<Ended>, cost: i64) -> bool
    ensures yes { IsTrue result → (r : Ended) → row ≡ Some r → cost ≤ℤ r.cost }
    ensures no { IsFalse result → (r : Ended) × (row ≡ Some r) × ((r.cost +ℤ pos 1) ≤ℤ cost) }
{
    match row {
        None => true,
        Some(ended) => cost <= ended.cost,
    }
}

/// Puts what ends with period `last` into the table, if its cost is at most the cost there.
pub fn write_row_if_no_dearer(table: &mut Table, last: u32, ended: Ended)
    requires room { last < length table.old.items }
    requires within { AreWithin table.old.items }
    requires bound { IsWithinTimes (2 * last + 2) ended.cost }
    ensures others { (l : ℕ) → l ≢ last → row_at table.new.items l ≡ row_at table.old.items l }
    ensures here { (row_at table.new.items last ≡ row_at table.old.items last)
        ⊎ (row_at table.new.items last ≡ Some ended) }
    ensures old { (v : ℤ) → cost_at table.old.items last ≡ Some v
        → HasAtMost (cost_at table.new.items last) v }
    ensures added { HasAtMost (cost_at table.new.items last) ended.cost }
    ensures latest { cost_at table.new.items last ≡ Some ended.cost
        → row_at table.new.items last ≡ Some ended }
    ensures within { AreWithin table.new.items }
    ensures length { length table.new.items ≡ length table.old.items }
{
    if is_no_dearer_than_row(table.as_slice()[last as usize], ended.cost) {
        table.set(last as usize, Some(ended));
    }
}

/// Puts a spell to period `last`, entered at a cost, into the table, if there is one: the lesser
/// cost stays, and of equal ones the later.
pub fn write_spell_end_if_no_dearer(
    table: &mut Table,
    last: u32,
    first: u32,
    entry: &Entry,
    net: Option<i64>,
)
    requires room { last < length table.old.items }
    requires order { first ≤ last }
    requires small { last ≤ MOST_PERIODS }
    requires within { AreWithin table.old.items }
    requires bound { IsWithinTimes (2 * first + 1) entry.now.cost }
    requires net_bound { IfSome net (IsWithinTimes (suc last - first)) }
    ensures none { IfNone net (table.new.items ≡ table.old.items) }
    ensures some { IfSome net (λ c. IsPut last
        (record { cost = entry.now.cost +ℤ c; first = first; before = entry.now.last })
        table.old.items table.new.items) }
    ensures others { (l : ℕ) → l ≢ last → row_at table.new.items l ≡ row_at table.old.items l }
    ensures within { AreWithin table.new.items }
    ensures length { length table.new.items ≡ length table.old.items }
{
    if let Some(net) = net {
        let ended = Ended {
            cost: sum_of_costs(entry.cost, net),
            first,
            before: entry.last,
        };
        write_row_if_no_dearer(table, last, ended);
    }
}

// No row.
fn clear_rows(table: &mut Table)
    ensures none { (l : ℕ) → row_at table.new.items l ≡ None }
    ensures length { length table.new.items ≡ length table.old.items }
{
    for index in 0..table.len() {
        table.set(index, None);
    }
}

// What ends before period 1: a unit that is off since before the horizon, or a spell that doesn't
// go on.
fn row_before_horizon(unit: &Unit) -> Option<Ended>
    ensures { IsFirstRow (thermal_of unit.now) result }
{
    if unit.on0 && !(unit.up0 >= unit.min_up && may_stop_at_once(unit)) {
        return None;
    }
    Some(Ended {
        cost: 0,
        first: 0,
        before: 0,
    })
}

/// Empties a table but for row 0, which is what ends before period 1.
pub fn reset_table_to_row_before_horizon(unit: &Unit, table: &mut Table)
    requires { 1 ≤ length table.old.items }
    ensures first { IsFirstRow (thermal_of unit.now) (row_at table.new.items 0) }
    ensures rest { (l : ℕ) → 1 ≤ l → row_at table.new.items l ≡ None }
    ensures within { AreWithin table.new.items }
    ensures length { length table.new.items ≡ length table.old.items }
{
    clear_rows(table);
    table.set(0, row_before_horizon(unit));
}
