//! The least net costs of the spells with one first period.
ghost use Rattle.std.specs.Prelude.{◌≡◌, ℕ, suc, ◌+◌, ◌-◌, ◌*◌, ◌<◌, ◌≤◌, ◌⊎◌, [], true};
ghost use Rattle.std.specs.Prelude.{length, slice_index_or, None, OnOk, IfOk, IsOk};
ghost use Rattle.std.specs.Option.{IfSome};
ghost use Rattle.cost_curve.specs.CostCurve.{IsCostCurve};
ghost use Rattle.test_shapes.specs.Cell.{Frame, Balance};
ghost use Rattle.slope_list.specs.Table.{Table};
ghost use Rattle.test_units.specs.Entries.{entry_of, cells_for, spell_first, IsSpellStart};
ghost use Rattle.test_units.specs.Entries.{IsSpellCost};
ghost use Rattle.spell_run.specs.Frontier.{IsFrontier};
ghost use Rattle.spell_run.specs.Spells.{IsSpellAnswer, IsSpellWithin};
ghost use Rattle.spell_run.specs.Steps.{IsFairStep, IsCostOf, IsStepped, IsLeastCost};
ghost use Rattle.spell_run.specs.Steps.{IsLeastCostIn, IsSmall};
ghost use Rattle.uc_model.specs.PlainUnits.{thermal_of, prices_of};

use crate::spell::SpellCosts;
use crate::step::{beginning, starts_at, stepped, take_step};
use cost_curve::laws::envelope_is_within_cost_limit;
use slope_list::step_terms::Step;
use spell_run::step::{are_steps_same_but_for_power_range, step_terms_of_period};
use std::alloc::AllocError;
use test_shapes::Shape;
use test_shapes::laws::{frames_join, others_stay};
use uc_model::units::{Curve, Prices, Unit};

/// The least value of a shape.
fn least_cost<S: Shape>(home: &S::Home, shape: &S) -> Option<i64>
    requires { S.is_in home.now shape.now }
    ensures { IsLeastCost (S.function home.now shape.now) result }
{
    match shape.least(home) {
        Some((cost, _)) => Some(cost),
        None => None,
    }
}

/// The least value of a shape at the powers from `least` to `most`.
fn least_cost_in<S: Shape>(home: &S::Home, shape: &S, least: i64, most: i64) -> Option<i64>
    requires { S.is_in home.now shape.now }
    ensures { IsLeastCostIn least most (S.function home.now shape.now) result }
{
    match shape.least_in(home, least, most) {
        Some((cost, _)) => Some(cost),
        None => None,
    }
}

/// The least cost after a step that the function itself doesn't take.
fn cost_after<S: Shape>(
    home: &mut S::Home,
    before: &S,
    step: Step,
    curve: &Curve,
) -> Result<Option<i64>, AllocError>
    requires here { S.is_in home.old before.now }
    requires step { IsFairStep step }
    requires curve { IsCostOf step curve.now }
    requires small { IsSmall (S.function home.old before.now) }
    ensures ok { IfOk result (λ cost. (after : Table)
        × IsStepped step curve.now (S.function home.old before.now) after
        × IsLeastCost after cost) }
    ensures frame { Frame S.Home.cell_list S.is_in S.numbers [] [] home.old home.new }
    ensures sure { S.Home.counts ≡ true
        → S.cells before.now + (length curve.now.blocks.items + 5) ≤ S.Home.sure home.old
        → IsOk result }
    ensures balance { S.Home.counts ≡ true → S.Home.sure home.new ≡ S.Home.sure home.old }
{
    frames_join::<S>();
    let after: S = stepped(home, before, step, curve)?;
    let cost = least_cost(home, &after);
    after.give_back(home);
    Ok(cost)
}

/// Takes the step over the period at an index, as far as no stop follows.
fn run_on<S: Shape>(
    home: &mut S::Home,
    unit: &Unit,
    curve: &Curve,
    prices: &Prices,
    first: u32,
    started: bool,
    index: usize,
    running: &mut S,
) -> Result<(), AllocError>
    requires here { S.is_in home.old running.old }
    requires curve { IsCostCurve (thermal_of unit.now).points curve.now }
    requires index { index < length (prices_of prices.now).energy }
    requires order { spell_first started first ≤ suc index }
    requires frontier { IsFrontier (thermal_of unit.now) (prices_of prices.now)
        (spell_first started first) index (S.function home.old running.old) }
    ensures ok { OnOk result (IsFrontier (thermal_of unit.now) (prices_of prices.now)
        (spell_first started first) (suc index) (S.function home.new running.new)) }
    ensures here { S.is_in home.new running.new }
    ensures frame { Frame S.Home.cell_list S.is_in S.numbers (S.numbers home.old running.old)
        (S.numbers home.new running.new) home.old home.new }
    ensures sure { S.Home.counts ≡ true → length curve.now.blocks.items + 5 ≤ S.Home.sure home.old
        → IsOk result }
    ensures balance { Balance S.Home.counts (length curve.now.blocks.items + 5)
        (S.Home.sure home.old) (S.cells running.old) (S.Home.sure home.new) (S.cells running.new) }
{
    envelope_is_within_cost_limit();
    let starts = starts_at(first, started, index);
    take_step(
        home,
        running,
        step_terms_of_period(unit, prices, index, starts, false),
        curve,
    )
}

/// The least cost of the spells that end with the period at an index, found by a step that knows of
/// the stop after it.
fn cost_to_stop<S: Shape>(
    home: &mut S::Home,
    unit: &Unit,
    curve: &Curve,
    prices: &Prices,
    first: u32,
    started: bool,
    index: usize,
    running: &S,
) -> Result<Option<i64>, AllocError>
    requires here { S.is_in home.old running.now }
    requires curve { IsCostCurve (thermal_of unit.now).points curve.now }
    requires index { suc index < length (prices_of prices.now).energy }
    requires order { spell_first started first ≤ suc index }
    requires frontier { IsFrontier (thermal_of unit.now) (prices_of prices.now)
        (spell_first started first) index (S.function home.old running.now) }
    ensures answer { IfOk result (IsSpellCost (thermal_of unit.now) (prices_of prices.now)
        (spell_first started first) (suc index)) }
    ensures frame { Frame S.Home.cell_list S.is_in S.numbers [] [] home.old home.new }
    ensures sure { S.Home.counts ≡ true
        → S.cells running.now + (length curve.now.blocks.items + 5) ≤ S.Home.sure home.old
        → IsOk result }
    ensures balance { S.Home.counts ≡ true → S.Home.sure home.new ≡ S.Home.sure home.old }
{
    envelope_is_within_cost_limit();
    let starts = starts_at(first, started, index);
    cost_after(
        home,
        running,
        step_terms_of_period(unit, prices, index, starts, true),
        curve,
    )
}

/// Takes the step over the period at an index, and answers the least cost of the spells that end
/// with it.
///
/// A stop after the period lowers its cap. Where it doesn't, or where reserve isn't paid for, the
/// costs up to a stop are those of the function itself at the powers that a stop allows; otherwise
/// they are found on another shape.
fn pass<S: Shape>(
    home: &mut S::Home,
    unit: &Unit,
    curve: &Curve,
    prices: &Prices,
    first: u32,
    started: bool,
    index: usize,
    running: &mut S,
) -> Result<Option<i64>, AllocError>
    requires here { S.is_in home.old running.old }
    requires curve { IsCostCurve (thermal_of unit.now).points curve.now }
    requires index { index < length (prices_of prices.now).energy }
    requires order { spell_first started first ≤ suc index }
    requires frontier { IsFrontier (thermal_of unit.now) (prices_of prices.now)
        (spell_first started first) index (S.function home.old running.old) }
    ensures ok { OnOk result (IsFrontier (thermal_of unit.now) (prices_of prices.now)
        (spell_first started first) (suc index) (S.function home.new running.new)) }
    ensures answer { IfOk result (IsSpellCost (thermal_of unit.now) (prices_of prices.now)
        (spell_first started first) (suc index)) }
    ensures here { S.is_in home.new running.new }
    ensures frame { Frame S.Home.cell_list S.is_in S.numbers (S.numbers home.old running.old)
        (S.numbers home.new running.new) home.old home.new }
    ensures sure { S.Home.counts ≡ true
        → S.cells running.old + (length curve.now.blocks.items + 5) ≤ S.Home.sure home.old
        → IsOk result }
    ensures balance { Balance S.Home.counts (length curve.now.blocks.items + 5)
        (S.Home.sure home.old) (S.cells running.old) (S.Home.sure home.new) (S.cells running.new) }
{
    envelope_is_within_cost_limit();
    if index + 1 == prices.energy.len() {
        run_on(home, unit, curve, prices, first, started, index, running)?;
        return Ok(least_cost(home, running));
    }
    let starts = starts_at(first, started, index);
    let on = step_terms_of_period(unit, prices, index, starts, false);
    let last = step_terms_of_period(unit, prices, index, starts, true);
    if are_steps_same_but_for_power_range(on, last) {
        run_on(home, unit, curve, prices, first, started, index, running)?;
        return Ok(least_cost_in(home, running, last.least, last.most));
    }
    frames_join::<S>();
    others_stay::<S>();
    let cost = cost_to_stop(home, unit, curve, prices, first, started, index, running)?;
    run_on(home, unit, curve, prices, first, started, index, running)?;
    Ok(cost)
}

/// Leaves the costs of the spells by last period, from the first on.
fn fill<S: Shape>(
    home: &mut S::Home,
    unit: &Unit,
    curve: &Curve,
    prices: &Prices,
    first: u32,
    started: bool,
    running: &mut S,
    into: &mut SpellCosts,
) -> Result<(), AllocError>
    requires here { S.is_in home.old running.old }
    requires curve { IsCostCurve (thermal_of unit.now).points curve.now }
    requires start { IsSpellStart (thermal_of unit.now) (length (prices_of prices.now).energy) first
        started }
    requires room { length (prices_of prices.now).energy ≤ length into.old.items }
    requires frontier { IsFrontier (thermal_of unit.now) (prices_of prices.now)
        (spell_first started first) (first - 1) (S.function home.old running.old) }
    ensures answers { OnOk result ((index : ℕ) → first ≤ suc index
        → index < length (prices_of prices.now).energy →
        IsSpellCost (thermal_of unit.now) (prices_of prices.now) (spell_first started first)
        (suc index) (slice_index_or into.new.items index None)) }
    ensures length { length into.new.items ≡ length into.old.items }
    ensures others { (index : ℕ) → (suc index < first)
        ⊎ (length (prices_of prices.now).energy ≤ index) →
        slice_index_or into.new.items index None
        ≡ slice_index_or into.old.items index None }
    ensures here { S.is_in home.new running.new }
    ensures frame { Frame S.Home.cell_list S.is_in S.numbers (S.numbers home.old running.old)
        (S.numbers home.new running.new) home.old home.new }
    ensures sure { S.Home.counts ≡ true → S.cells running.old ≤ 1 →
        2 + 2 * length (prices_of prices.now).energy * (length curve.now.blocks.items + 5)
        ≤ S.Home.sure home.old → IsOk result }
    ensures balance { S.Home.counts ≡ true
        → S.Home.sure home.new + S.cells running.new ≡ S.Home.sure home.old + S.cells running.old }
{
    frames_join::<S>();
    for index in first as usize - 1..prices.energy.len() {
        let cost = pass(home, unit, curve, prices, first, started, index, running)?;
        into.set(index, cost);
    }
    Ok(())
}

/// No spell ends before the first period.
fn clear_before(first: u32, into: &mut SpellCosts)
    requires some { 1 ≤ first }
    requires room { first ≤ length into.old.items + 1 }
    ensures before { (index : ℕ) → suc index < first
        → slice_index_or into.new.items index None ≡ None }
    ensures others { (index : ℕ) → first ≤ suc index →
        slice_index_or into.new.items index None
        ≡ slice_index_or into.old.items index None }
    ensures length { length into.new.items ≡ length into.old.items }
{
    for index in 0..first as usize - 1 {
        into.set(index, None);
    }
}

/// For each last period from `first` to the prices' T, leaves in `into` the least net cost of a
/// dispatch, with a stop after it where the last period is below T, and None exactly where there is
/// no dispatch. Entries before `first` become None, and entries past T stay. After an error the
/// entries up to T are open.
///
/// `curve` is the curve of the unit's points. `into` has at least T entries. A spell that isn't
/// `started` goes on from before period 1. Takes no memory but for the shapes, which are given
/// back. In a home that counts it answers Ok where the home has (T + 2) * (1 + T * (2L + 3)) cells
/// to give, for L cost points.
pub fn spell_costs<S: Shape>(
    home: &mut S::Home,
    unit: &Unit,
    curve: &Curve,
    prices: &Prices,
    first: u32,
    started: bool,
    into: &mut SpellCosts,
) -> Result<(), AllocError>
    requires curve { IsCostCurve (thermal_of unit.now).points curve.now }
    requires start { IsSpellStart (thermal_of unit.now) (length (prices_of prices.now).energy) first
        started }
    requires room { length (prices_of prices.now).energy ≤ length into.old.items }
    ensures least { OnOk result ((last : ℕ) → first ≤ last
        → last ≤ length (prices_of prices.now).energy →
        IsSpellAnswer (thermal_of unit.now) (prices_of prices.now)
        (length (prices_of prices.now).energy) (spell_first started first) last
        (entry_of into.new.items last)) }
    ensures within { OnOk result ((last : ℕ) → first ≤ last
        → last ≤ length (prices_of prices.now).energy →
        IfSome (entry_of into.new.items last)
        (IsSpellWithin (spell_first started first) last)) }
    ensures before { OnOk result ((last : ℕ) → 1 ≤ last → last < first
        → entry_of into.new.items last ≡ None) }
    ensures length { length into.new.items ≡ length into.old.items }
    ensures past { (last : ℕ) → length (prices_of prices.now).energy < last →
        entry_of into.new.items last ≡ entry_of into.old.items last }
    ensures frame { Frame S.Home.cell_list S.is_in S.numbers [] [] home.old home.new }
    ensures sure { S.Home.counts ≡ true → S.Home.sure home.new ≡ S.Home.sure home.old }
    ensures enough { S.Home.counts ≡ true →
        cells_for (length (prices_of prices.now).energy) (length (thermal_of unit.now).points)
        ≤ S.Home.sure home.old → IsOk result }
{
    frames_join::<S>();
    clear_before(first, into);
    let mut running: S = beginning(home, unit, started)?;
    let filled = fill(
        home,
        unit,
        curve,
        prices,
        first,
        started,
        &mut running,
        into,
    );
    running.give_back(home);
    filled
}
