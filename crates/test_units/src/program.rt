//! The table filled, from the first period on.
ghost use Rattle.std.specs.Prelude.{◌≡◌, ◌+◌, ◌*◌, ◌<◌, ◌≤◌, [], true, IsTrue, IsFalse, OnOk};
ghost use Rattle.std.specs.Prelude.{IsOk, length, suc};
ghost use Rattle.cost_curve.specs.CostCurve.{IsCostCurve};
ghost use Rattle.test_shapes.specs.Cell.{Frame};
ghost use Rattle.test_units.specs.Entries.{cells_for};
ghost use Rattle.test_units.specs.Rows.{IsAdded, IsFilled};
ghost use Rattle.uc_model.specs.PlainUnits.{thermal_of, prices_of};
ghost use Rattle.unit_rows.specs.Rows.{IsWithinTimes, AreWithin};

use crate::spells::{add_spells, least_entry, open_until};
use crate::{SpellCosts, spell_costs};
use std::alloc::AllocError;
use test_shapes::Shape;
use uc_model::units::{Curve, Prices, Unit};
use unit_rows::commitment::may_end_spell;
use unit_rows::table::{Entry, Table, reset_table_to_row_before_horizon};
use unit_table::laws::stops_at_once_cost_nothing;

// Adds the spells that begin with period `first` after an entry, with one pass over the prices if
// one may begin there.
fn add_spells_from<S: Shape>(
    home: &mut S::Home,
    unit: &Unit,
    curve: &Curve,
    prices: &Prices,
    first: u32,
    entry: &Entry,
    costs: &mut SpellCosts,
    table: &mut Table,
) -> Result<(), AllocError>
    requires horizon { length (thermal_of unit.now).window ≡ length (prices_of prices.now).energy }
    requires curve { IsCostCurve (thermal_of unit.now).points curve.now }
    requires first { first ≤ length (prices_of prices.now).energy }
    requires goes_on { first ≡ 0 → IsTrue unit.now.on0 }
    requires starts { first ≡ 1 → IsFalse unit.now.on0 }
    requires costs { length (prices_of prices.now).energy ≤ length costs.old.items }
    requires room { length (prices_of prices.now).energy < length table.old.items }
    requires within { AreWithin table.old.items }
    requires bound { IsWithinTimes (2 * first + 1) entry.now.cost }
    ensures added { OnOk result (IsAdded (thermal_of unit.now) (prices_of prices.now) first
        entry.now.last entry.now.cost table.old.items table.new.items) }
    ensures costs { length costs.new.items ≡ length costs.old.items }
    ensures length { length table.new.items ≡ length table.old.items }
    ensures frame { Frame S.Home.cell_list S.is_in S.numbers [] [] home.old home.new }
    ensures sure { S.Home.counts ≡ true → S.Home.sure home.new ≡ S.Home.sure home.old }
    ensures enough { S.Home.counts ≡ true
        → cells_for (length (prices_of prices.now).energy) (length (thermal_of unit.now).points)
        ≤ S.Home.sure home.old → IsOk result }
{
    let periods = prices.energy.len() as u32;
    let until = open_until(unit, first);
    if until < first.max(1) {
        return Ok(());
    }
    // Where the longest spell is too short to stop, each is.
    if !may_end_spell(unit, periods, first, until) {
        return Ok(());
    }
    spell_costs::<S>(home, unit, curve, prices, first.max(1), first > 0, costs)?;
    add_spells(unit, periods, first, until, entry, costs.as_slice(), table);
    Ok(())
}

// Adds the spells that start in period `first`.
fn add_first<S: Shape>(
    home: &mut S::Home,
    unit: &Unit,
    curve: &Curve,
    prices: &Prices,
    first: u32,
    costs: &mut SpellCosts,
    table: &mut Table,
) -> Result<(), AllocError>
    requires horizon { length (thermal_of unit.now).window ≡ length (prices_of prices.now).energy }
    requires curve { IsCostCurve (thermal_of unit.now).points curve.now }
    requires one { 1 ≤ first }
    requires first { first ≤ length (prices_of prices.now).energy }
    requires costs { length (prices_of prices.now).energy ≤ length costs.old.items }
    requires room { length (prices_of prices.now).energy < length table.old.items }
    requires filled { IsFilled (thermal_of unit.now) (prices_of prices.now) first table.old.items }
    ensures filled { OnOk result (IsFilled (thermal_of unit.now) (prices_of prices.now) (suc first)
        table.new.items) }
    ensures costs { length costs.new.items ≡ length costs.old.items }
    ensures length { length table.new.items ≡ length table.old.items }
    ensures frame { Frame S.Home.cell_list S.is_in S.numbers [] [] home.old home.new }
    ensures sure { S.Home.counts ≡ true → S.Home.sure home.new ≡ S.Home.sure home.old }
    ensures enough { S.Home.counts ≡ true
        → cells_for (length (prices_of prices.now).energy) (length (thermal_of unit.now).points)
        ≤ S.Home.sure home.old → IsOk result }
{
    match least_entry(unit, table.as_slice(), first - 1) {
        Some(entry) => add_spells_from::<S>(home, unit, curve, prices, first, &entry, costs, table),
        None => Ok(()),
    }
}

// The table with what is on, or off, since before the horizon.
fn begin<S: Shape>(
    home: &mut S::Home,
    unit: &Unit,
    curve: &Curve,
    prices: &Prices,
    costs: &mut SpellCosts,
    table: &mut Table,
) -> Result<(), AllocError>
    requires horizon { length (thermal_of unit.now).window ≡ length (prices_of prices.now).energy }
    requires curve { IsCostCurve (thermal_of unit.now).points curve.now }
    requires costs { length (prices_of prices.now).energy ≤ length costs.old.items }
    requires room { length (prices_of prices.now).energy < length table.old.items }
    ensures filled { OnOk result (IsFilled (thermal_of unit.now) (prices_of prices.now) 1
        table.new.items) }
    ensures costs { length costs.new.items ≡ length costs.old.items }
    ensures length { length table.new.items ≡ length table.old.items }
    ensures frame { Frame S.Home.cell_list S.is_in S.numbers [] [] home.old home.new }
    ensures sure { S.Home.counts ≡ true → S.Home.sure home.new ≡ S.Home.sure home.old }
    ensures enough { S.Home.counts ≡ true
        → cells_for (length (prices_of prices.now).energy) (length (thermal_of unit.now).points)
        ≤ S.Home.sure home.old → IsOk result }
{
    stops_at_once_cost_nothing();
    reset_table_to_row_before_horizon(unit, table);
    if !unit.on0 {
        return Ok(());
    }
    let entry = Entry { cost: 0, last: 0 };
    add_spells_from::<S>(home, unit, curve, prices, 0, &entry, costs, table)
}

/// Fills the table for a unit at prices over its horizon of T periods. `curve` is the curve of the
/// unit's points; `costs` has at least T entries, and `table` at least T + 1 rows. Takes no memory
/// but for the shapes, which are given back. In a home that counts it answers Ok where the home has
/// (T + 2) * (1 + T * (2L + 3)) cells to give, for L cost points. After an error the rows are open.
pub fn fill<S: Shape>(
    home: &mut S::Home,
    unit: &Unit,
    curve: &Curve,
    prices: &Prices,
    costs: &mut SpellCosts,
    table: &mut Table,
) -> Result<(), AllocError>
    requires horizon { length (thermal_of unit.now).window ≡ length (prices_of prices.now).energy }
    requires curve { IsCostCurve (thermal_of unit.now).points curve.now }
    requires costs { length (prices_of prices.now).energy ≤ length costs.old.items }
    requires room { length (prices_of prices.now).energy < length table.old.items }
    ensures filled { OnOk result (IsFilled (thermal_of unit.now) (prices_of prices.now)
        (suc (length (prices_of prices.now).energy)) table.new.items) }
    ensures costs { length costs.new.items ≡ length costs.old.items }
    ensures length { length table.new.items ≡ length table.old.items }
    ensures frame { Frame S.Home.cell_list S.is_in S.numbers [] [] home.old home.new }
    ensures sure { S.Home.counts ≡ true → S.Home.sure home.new ≡ S.Home.sure home.old }
    ensures enough { S.Home.counts ≡ true
        → cells_for (length (prices_of prices.now).energy) (length (thermal_of unit.now).points)
        ≤ S.Home.sure home.old → IsOk result }
{
    begin::<S>(home, unit, curve, prices, costs, table)?;
    let periods = prices.energy.len() as u32;
    for first in 1..periods + 1 {
        add_first::<S>(home, unit, curve, prices, first, costs, table)?;
    }
    Ok(())
}
