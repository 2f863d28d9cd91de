//! Backtracking over the table, spell by spell, and the least best response.
ghost use Rattle.std.specs.Prelude.{◌≡◌, ℕ, ◌<◌, ◌≤◌, ℤ, [], true, IsTrue, IsFalse, IfOk, IfSome};
ghost use Rattle.std.specs.Prelude.{IfNone};
ghost use Rattle.std.specs.Prelude.{IsOk, OnOk, Some, length, suc};
ghost use Rattle.cost_curve.specs.CostCurve.{IsCostCurve};
ghost use Rattle.spell_run.specs.Spells.{IsLeastSpell};
ghost use Rattle.test_shapes.specs.Cell.{Frame};
ghost use Rattle.test_units.specs.Entries.{cells_for};
ghost use Rattle.test_units.specs.Rows.{IsFilled};
ghost use Rattle.uc_model.specs.Data.{Schedule, Thermal};
ghost use Rattle.uc_model.specs.Earnings.{earnings, IsBest};
ghost use Rattle.uc_model.specs.PlainUnits.{thermal_of, prices_of, schedule_of};
ghost use Rattle.uc_model.specs.Schedules.{IsThermalFeasible};
ghost use Rattle.uc_model.specs.Ties.{IsLeast};
ghost use Rattle.unit_program.specs.Backs.{IsWritten, IsWrittenBack};
ghost use Rattle.unit_program.specs.Builds.{IsIdle};
ghost use Rattle.unit_rows.specs.Rows.{cost_at};
ghost use Rattle.unit_rows.specs.Spells.{IsOffRun};
ghost use Rattle.unit_rows.specs.Ends.{IsLeastEnd};

use crate::program::fill;
use crate::{Spell, SpellCosts, spell_best};
use std::alloc::{AllocError, Global};
use test_shapes::{Shape, curve_of};
use uc_model::units::{Answered, Curve, Prices, Unit};
use unit_program::least_end::{
    earnings_of_cost, is_all_off, least_cost_end_of_horizon, turn_all_off,
};
use unit_rows::table::{Ended, Entry, Table};

// Writes a dispatch of least net cost of the spell from `first` to `last`; nothing where it ends
// before period 1.
fn write_spell<S: Shape>(
    home: &mut S::Home,
    unit: &Unit,
    curve: &Curve,
    prices: &Prices,
    first: u32,
    last: u32,
    into: &mut Answered,
) -> Result<(), AllocError>
    requires curve { IsCostCurve (thermal_of unit.now).points curve.now }
    requires order { first ≤ last }
    requires end { last ≤ length (prices_of prices.now).energy }
    requires goes_on { first ≡ 0 → IsTrue unit.now.on0 }
    requires starts { first ≡ 1 → IsFalse unit.now.on0 }
    requires least { (net : ℤ)
        × IsLeastSpell (thermal_of unit.now) (prices_of prices.now)
        (length (prices_of prices.now).energy) first last net }
    requires into { length (schedule_of into.old.response).on
        ≡ length (prices_of prices.now).energy }
    ensures written { OnOk result
        (IsWritten (thermal_of unit.now) (prices_of prices.now)
        (length (prices_of prices.now).energy) first last (schedule_of into.old.response)
        (schedule_of into.new.response)) }
    ensures length { length (schedule_of into.new.response).on
        ≡ length (schedule_of into.old.response).on }
    ensures frame { Frame S.Home.cell_list S.is_in S.numbers [] [] home.old home.new }
    ensures sure { S.Home.counts ≡ true → S.Home.sure home.new ≡ S.Home.sure home.old }
    ensures enough { S.Home.counts ≡ true
        → cells_for (length (prices_of prices.now).energy) (length (thermal_of unit.now).points)
        ≤ S.Home.sure home.old → IsOk result }
{
    if last == 0 {
        return Ok(());
    }
    let spell = Spell {
        first: first.max(1),
        last,
        started: first > 0,
        stops: (last as usize) < prices.energy.len(),
    };
    let _cost = spell_best::<S>(home, unit, curve, prices, &spell, into)?;
    Ok(())
}

// Writes the spells that the table names, from the one that ends with period `last` back.
fn write_back<S: Shape>(
    home: &mut S::Home,
    unit: &Unit,
    curve: &Curve,
    prices: &Prices,
    rows: &[Option<Ended>],
    last: u32,
    into: &mut Answered,
) -> Result<(), AllocError>
    requires curve { IsCostCurve (thermal_of unit.now).points curve.now }
    requires filled { IsFilled (thermal_of unit.now) (prices_of prices.now)
        (suc (length (prices_of prices.now).energy)) rows.now }
    requires room { length (prices_of prices.now).energy < length rows.now }
    requires last { last ≤ length (prices_of prices.now).energy }
    requires ended { (v : ℤ) × (cost_at rows.now last ≡ Some v) }
    requires into { length (schedule_of into.old.response).on
        ≡ length (prices_of prices.now).energy }
    requires idle { IsIdle (thermal_of unit.now) (schedule_of into.old.response) 0 last }
    ensures written { OnOk result
        (IsWrittenBack (thermal_of unit.now) (prices_of prices.now) rows.now last
        (schedule_of into.old.response) (schedule_of into.new.response)) }
    ensures length { length (schedule_of into.new.response).on
        ≡ length (schedule_of into.old.response).on }
    ensures frame { Frame S.Home.cell_list S.is_in S.numbers [] [] home.old home.new }
    ensures sure { S.Home.counts ≡ true → S.Home.sure home.new ≡ S.Home.sure home.old }
    ensures enough { S.Home.counts ≡ true
        → cells_for (length (prices_of prices.now).energy) (length (thermal_of unit.now).points)
        ≤ S.Home.sure home.old → IsOk result }
{
    let Some(ended) = rows[last as usize] else {
        return Ok(());
    };
    if is_all_off(unit, last) {
        return Ok(());
    }
    write_spell::<S>(home, unit, curve, prices, ended.first, last, into)?;
    if ended.first == 0 {
        return Ok(());
    }
    write_back::<S>(home, unit, curve, prices, rows, ended.before, into)
}

/// Leaves in `into` the least best response, which the table names from the earliest of its least
/// ends, and what it earns. Unit, prices and `into` are over the same periods, `curve` is the curve
/// of the unit's points, and the rows are filled. Takes no memory but for the shapes, which are
/// given back. In a home that counts it answers Ok where the home has (T + 2) * (1 + T * (2L + 3))
/// cells to give, for L cost points. After an error `into` is open.
pub fn write_best<S: Shape>(
    home: &mut S::Home,
    unit: &Unit,
    curve: &Curve,
    prices: &Prices,
    rows: &[Option<Ended>],
    end: &Entry,
    into: &mut Answered,
) -> Result<(), AllocError>
    requires curve { IsCostCurve (thermal_of unit.now).points curve.now }
    requires filled { IsFilled (thermal_of unit.now) (prices_of prices.now)
        (suc (length (prices_of prices.now).energy)) rows.now }
    requires room { length (prices_of prices.now).energy < length rows.now }
    requires end { IsLeastEnd (thermal_of unit.now) (length (prices_of prices.now).energy)
        (cost_at rows.now) end.now.last end.now.cost }
    requires earliest { (k : ℕ) → cost_at rows.now k ≡ Some end.now.cost
        → IsOffRun (thermal_of unit.now) k (length (prices_of prices.now).energy)
        → end.now.last ≤ k }
    requires into { length (schedule_of into.old.response).on
        ≡ length (prices_of prices.now).energy }
    ensures best { OnOk result (IsBest (Thermal (thermal_of unit.now)) (prices_of prices.now)
        (schedule_of into.new.response)) }
    ensures least { OnOk result (IsLeast (Thermal (thermal_of unit.now)) (prices_of prices.now)
        (schedule_of into.new.response)) }
    ensures earned { OnOk result (into.new.earned
        ≡ earnings (Thermal (thermal_of unit.now)) (prices_of prices.now)
        (schedule_of into.new.response)) }
    ensures frame { Frame S.Home.cell_list S.is_in S.numbers [] [] home.old home.new }
    ensures sure { S.Home.counts ≡ true → S.Home.sure home.new ≡ S.Home.sure home.old }
    ensures enough { S.Home.counts ≡ true
        → cells_for (length (prices_of prices.now).energy) (length (thermal_of unit.now).points)
        ≤ S.Home.sure home.old → IsOk result }
{
    turn_all_off(into);
    write_back::<S>(home, unit, curve, prices, rows, end.last, into)?;
    into.earned = earnings_of_cost(end.cost);
    Ok(())
}

// The filled table of a unit at prices.
fn filled_table<S: Shape>(
    alloc: Global,
    home: &mut S::Home,
    unit: &Unit,
    curve: &Curve,
    prices: &Prices,
) -> Result<Table, AllocError>
    requires horizon { length (thermal_of unit.now).window ≡ length (prices_of prices.now).energy }
    requires curve { IsCostCurve (thermal_of unit.now).points curve.now }
    ensures filled { IfOk result (λ table. IsFilled (thermal_of unit.now) (prices_of prices.now)
        (suc (length (prices_of prices.now).energy)) table.items) }
    ensures room { IfOk result (λ table. length (prices_of prices.now).energy
        < length table.items) }
    ensures sure { S.Home.counts ≡ true → S.Home.sure home.new ≡ S.Home.sure home.old }
    ensures frame { Frame S.Home.cell_list S.is_in S.numbers [] [] home.old home.new }
{
    let periods = prices.energy.len() as u32;
    let mut costs = SpellCosts::make(alloc, periods)?;
    let mut table = Table::filled(alloc, periods + 1, None)?;
    fill::<S>(home, unit, curve, prices, &mut costs, &mut table)?;
    Ok(table)
}

// The least best response that filled rows name, with what it earns; None where they name none.
fn named_answer<S: Shape>(
    alloc: Global,
    home: &mut S::Home,
    unit: &Unit,
    curve: &Curve,
    prices: &Prices,
    rows: &[Option<Ended>],
) -> Result<Option<Answered>, AllocError>
    requires horizon { length (thermal_of unit.now).window ≡ length (prices_of prices.now).energy }
    requires curve { IsCostCurve (thermal_of unit.now).points curve.now }
    requires filled { IsFilled (thermal_of unit.now) (prices_of prices.now)
        (suc (length (prices_of prices.now).energy)) rows.now }
    requires room { length (prices_of prices.now).energy < length rows.now }
    ensures best { IfOk result
        (λ o. IfSome o (λ a. IsBest (Thermal (thermal_of unit.now)) (prices_of prices.now)
        (schedule_of a.response))) }
    ensures least { IfOk result
        (λ o. IfSome o (λ a. IsLeast (Thermal (thermal_of unit.now)) (prices_of prices.now)
        (schedule_of a.response))) }
    ensures earned { IfOk result
        (λ o. IfSome o (λ a. a.earned ≡ earnings (Thermal (thermal_of unit.now))
        (prices_of prices.now) (schedule_of a.response))) }
    ensures none { IfOk result (λ o. IfNone o ((s : Schedule)
        → IsThermalFeasible (thermal_of unit.now) (length (prices_of prices.now).energy) s → ⊥)) }
    ensures sure { S.Home.counts ≡ true → S.Home.sure home.new ≡ S.Home.sure home.old }
    ensures frame { Frame S.Home.cell_list S.is_in S.numbers [] [] home.old home.new }
{
    let periods = prices.energy.len() as u32;
    let Some(end) = least_cost_end_of_horizon(unit, periods, rows) else {
        return Ok(None);
    };
    let mut into = Answered::make(alloc, periods)?;
    write_best::<S>(home, unit, curve, prices, rows, &end, &mut into)?;
    Ok(Some(into))
}

/// The least best response of a thermal unit to prices over its horizon, with what it earns in
/// money; None exactly where no schedule of the unit is feasible. Its powers and reserves are in
/// kilowatts, its lists have an entry for each period.
///
/// Of several best responses the least is the first by on flags, off first, then by powers, and
/// then by reserves, less first, each compared from the last period back.
///
/// Shapes of the type `S` are taken from the home and given back, so a home that counts can give as
/// many cells afterwards as before, whatever the answer is. `AllocError` comes if memory runs out
/// alone, or from a home without enough cells.
pub fn best_response<S: Shape>(
    alloc: Global,
    home: &mut S::Home,
    unit: &Unit,
    prices: &Prices,
) -> Result<Option<Answered>, AllocError>
    requires { length (thermal_of unit.now).window ≡ length (prices_of prices.now).energy }
    ensures best { IfOk result
        (λ o. IfSome o (λ a. IsBest (Thermal (thermal_of unit.now)) (prices_of prices.now)
        (schedule_of a.response))) }
    ensures least { IfOk result
        (λ o. IfSome o (λ a. IsLeast (Thermal (thermal_of unit.now)) (prices_of prices.now)
        (schedule_of a.response))) }
    ensures earned { IfOk result
        (λ o. IfSome o (λ a. a.earned ≡ earnings (Thermal (thermal_of unit.now))
        (prices_of prices.now) (schedule_of a.response))) }
    ensures none { IfOk result (λ o. IfNone o ((s : Schedule)
        → IsThermalFeasible (thermal_of unit.now) (length (prices_of prices.now).energy) s → ⊥)) }
    ensures sure { S.Home.counts ≡ true → S.Home.sure home.new ≡ S.Home.sure home.old }
    ensures frame { Frame S.Home.cell_list S.is_in S.numbers [] [] home.old home.new }
{
    let curve = curve_of(alloc, unit.points.as_slice())?;
    let table = filled_table::<S>(alloc, home, unit, &curve, prices)?;
    named_answer::<S>(alloc, home, unit, &curve, prices, table.as_slice())
}
