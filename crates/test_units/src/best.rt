//! A dispatch of least net cost.
ghost use Rattle.std.specs.Prelude.{◌≡◌, ℕ, suc, ◌+◌, ◌-◌, ◌*◌, ◌<◌, ◌≤◌, ◌==◌, nat_lt};
ghost use Rattle.std.specs.Prelude.{[], true, length, IfOk, IsOk, MatchOption, None};
ghost use Rattle.std.specs.Option.{IfSome};
ghost use Rattle.cost_curve.specs.CostCurve.{IsCostCurve};
ghost use Rattle.test_shapes.specs.Cell.{Frame};
ghost use Rattle.slope_list.specs.Effect.{IsLeast};
ghost use Rattle.slope_list.specs.Table.{IsEmpty};
ghost use Rattle.spell_run.specs.Entries.{IsOnFromTo, IsSameOutside};
ghost use Rattle.test_units.specs.Entries.{cells_for, spell_first, IsSpellOf, IsUnreached};
ghost use Rattle.test_units.specs.Entries.{HasWay};
ghost use Rattle.spell_run.specs.Frontier.{IsFrontier};
ghost use Rattle.spell_run.specs.Backtracking.{IsChosen, stops_at};
ghost use Rattle.spell_run.specs.Spells.{IsBestDispatch, IsFirstDispatch, HasNoDispatch};
ghost use Rattle.spell_run.specs.Spells.{IsSpellWithin};
ghost use Rattle.spell_run.specs.Steps.{step_at, IsFairStep, IsSmall};
ghost use Rattle.plain_lists.specs.Ranges.{IsFrom};
ghost use Rattle.uc_model.specs.PlainUnits.{thermal_of, prices_of, schedule_of};

use crate::spell::Spell;
use crate::step::{add_kink, beginning, starts_at, stepped};
use cost_curve::laws::envelope_is_within_cost_limit;
use slope_list::step_terms::Step;
use spell_run::step::step_terms_of_period;
use spell_run::write::write_period_with_best_reserve;
use std::alloc::AllocError;
use test_shapes::Shape;
use test_shapes::laws::{frames_join, others_stay};
use uc_model::units::{Answered, Curve, Prices, Unit};

/// The least cost of a spell, and a power from which the periods that are written make it, with
/// what comes before.
#[derive(Clone, Copy)]
struct Found {
    cost: i64,
    power: i64,
}

/// The least cost and its power.
fn end_of<S: Shape>(home: &S::Home, shape: &S) -> Option<Found>
    requires { S.is_in home.now shape.now }
    ensures { MatchOption result (IsEmpty (S.function home.now shape.now))
        (λ found. IsLeast (S.function home.now shape.now) found.cost found.power) }
{
    match shape.least(home) {
        Some((cost, power)) => Some(Found { cost, power }),
        None => None,
    }
}

/// Chooses the cheapest power before a period whose own power is found, and writes the period.
/// After an error nothing is written.
fn choose<S: Shape>(
    home: &mut S::Home,
    before: &mut S,
    step: Step,
    index: usize,
    found: Found,
    into: &mut Answered,
) -> Result<Option<Found>, AllocError>
    requires here { S.is_in home.old before.old }
    requires step { IsFairStep step }
    requires small { IsSmall (S.function home.old before.old) }
    requires index { index < length (schedule_of into.old.response).on }
    requires found { IsFrom step.least step.cap found.power }
    ensures chosen { IfOk result (λ best. MatchOption best
        (IsUnreached step (S.function home.old before.old) found.power)
        (λ chosen. IsChosen step (S.function home.old before.old) index found.power chosen.power
        (schedule_of into.old.response) (schedule_of into.new.response))) }
    ensures cost { IfOk result (λ best. IfSome best (λ chosen. chosen.cost ≡ found.cost)) }
    ensures outside { IsSameOutside (suc index) (suc index) (schedule_of into.old.response)
        (schedule_of into.new.response) }
    ensures earned { into.new.earned ≡ into.old.earned }
    ensures here { S.is_in home.new before.new }
    ensures frame { Frame S.Home.cell_list S.is_in S.numbers (S.numbers home.old before.old)
        (S.numbers home.new before.new) home.old home.new }
    ensures sure { S.Home.counts ≡ true → 1 ≤ S.Home.sure home.old → IsOk result }
    ensures balance { S.Home.counts ≡ true
        → S.Home.sure home.new + S.cells before.new ≡ S.Home.sure home.old + S.cells before.old }
{
    add_kink(home, before, step)?;
    let least = found.power - step.ramp_up;
    let most = found.power + step.ramp_down;
    match before.least_in(home, least, most) {
        Some((_, power)) => {
            write_period_with_best_reserve(into, index, step, power, found.power);
            Ok(Some(Found {
                cost: found.cost,
                power,
            }))
        }
        None => Ok(None),
    }
}

/// The step of a spell over the period at an index.
fn step_in(unit: &Unit, prices: &Prices, spell: &Spell, index: usize) -> Step
    requires index { index < length (prices_of prices.now).energy }
    requires stops { spell.now.stops ≡ nat_lt spell.now.last
        (length (prices_of prices.now).energy) }
    ensures step { result ≡ step_at (thermal_of unit.now) (prices_of prices.now) index
        (spell_first spell.now.started spell.now.first == suc index)
        (stops_at spell.now.last (length (prices_of prices.now).energy) index) }
    ensures fair { IsFairStep result }
{
    let starts = starts_at(spell.first, spell.started, index);
    let stops = spell.stops && spell.last as usize == index + 1;
    step_terms_of_period(unit, prices, index, starts, stops)
}

/// Writes the last period of a spell, at an index, cheapest with what comes before it.
fn last_period<S: Shape>(
    home: &mut S::Home,
    unit: &Unit,
    curve: &Curve,
    prices: &Prices,
    spell: &Spell,
    index: usize,
    before: &mut S,
    into: &mut Answered,
) -> Result<Option<Found>, AllocError>
    requires here { S.is_in home.old before.old }
    requires curve { IsCostCurve (thermal_of unit.now).points curve.now }
    requires spell { IsSpellOf (thermal_of unit.now) (length (prices_of prices.now).energy)
        spell.now }
    requires from { spell.now.first ≤ suc index }
    requires until { suc index ≡ spell.now.last }
    requires into { length (schedule_of into.old.response).on
        ≡ length (prices_of prices.now).energy }
    requires frontier { IsFrontier (thermal_of unit.now) (prices_of prices.now)
        (spell_first spell.now.started spell.now.first) index (S.function home.old before.old) }
    ensures way { IfOk result (HasWay (thermal_of unit.now) (prices_of prices.now) spell.now index
        (S.function home.old before.old) (schedule_of into.old.response)
        (schedule_of into.new.response)) }
    ensures outside { IsSameOutside (suc index) spell.now.last (schedule_of into.old.response)
        (schedule_of into.new.response) }
    ensures earned { into.new.earned ≡ into.old.earned }
    ensures here { S.is_in home.new before.new }
    ensures frame { Frame S.Home.cell_list S.is_in S.numbers (S.numbers home.old before.old)
        (S.numbers home.new before.new) home.old home.new }
    ensures sure { S.Home.counts ≡ true
        → S.cells before.old + (length curve.now.blocks.items + 5) ≤ S.Home.sure home.old
        → IsOk result }
    ensures balance { S.Home.counts ≡ true
        → S.Home.sure home.new + S.cells before.new ≡ S.Home.sure home.old + S.cells before.old }
{
    envelope_is_within_cost_limit();
    frames_join::<S>();
    others_stay::<S>();
    let step = step_in(unit, prices, spell, index);
    let after: S = stepped(home, before, step, curve)?;
    let found = end_of(home, &after);
    after.give_back(home);
    match found {
        Some(found) => choose(home, before, step, index, found, into),
        None => Ok(None),
    }
}

/// Writes the periods from a place to the spell's last one, cheapest with what comes before them.
fn way_from<S: Shape>(
    home: &mut S::Home,
    unit: &Unit,
    curve: &Curve,
    prices: &Prices,
    spell: &Spell,
    index: usize,
    before: &mut S,
    into: &mut Answered,
) -> Result<Option<Found>, AllocError>
    requires here { S.is_in home.old before.old }
    requires curve { IsCostCurve (thermal_of unit.now).points curve.now }
    requires spell { IsSpellOf (thermal_of unit.now) (length (prices_of prices.now).energy)
        spell.now }
    requires from { spell.now.first ≤ suc index }
    requires until { suc index ≤ spell.now.last }
    requires into { length (schedule_of into.old.response).on
        ≡ length (prices_of prices.now).energy }
    requires frontier { IsFrontier (thermal_of unit.now) (prices_of prices.now)
        (spell_first spell.now.started spell.now.first) index (S.function home.old before.old) }
    ensures way { IfOk result (HasWay (thermal_of unit.now) (prices_of prices.now) spell.now index
        (S.function home.old before.old) (schedule_of into.old.response)
        (schedule_of into.new.response)) }
    ensures outside { IsSameOutside (suc index) spell.now.last (schedule_of into.old.response)
        (schedule_of into.new.response) }
    ensures earned { into.new.earned ≡ into.old.earned }
    ensures here { S.is_in home.new before.new }
    ensures frame { Frame S.Home.cell_list S.is_in S.numbers (S.numbers home.old before.old)
        (S.numbers home.new before.new) home.old home.new }
    ensures sure { (most : ℕ) → S.Home.counts ≡ true
        → S.cells before.old + (spell.now.last - index) * (length curve.now.blocks.items + 5)
        ≤ most →
        (spell.now.last - index) * most ≤ S.Home.sure home.old → IsOk result }
    ensures balance { S.Home.counts ≡ true
        → S.Home.sure home.new + S.cells before.new ≡ S.Home.sure home.old + S.cells before.old }
{
    if index + 1 == spell.last as usize {
        return last_period(home, unit, curve, prices, spell, index, before, into);
    }
    envelope_is_within_cost_limit();
    frames_join::<S>();
    others_stay::<S>();
    let step = step_in(unit, prices, spell, index);
    let mut after: S = stepped(home, before, step, curve)?;
    let found = way_from(
        home,
        unit,
        curve,
        prices,
        spell,
        index + 1,
        &mut after,
        into,
    );
    after.give_back(home);
    match found? {
        Some(found) => choose(home, before, step, index, found, into),
        None => Ok(None),
    }
}

/// Answers the least net cost of a dispatch of the spell, and leaves the first dispatch of that
/// cost in the spell's periods of `into`, on in each: first by powers from the last period back,
/// less power first, and then by reserves. None exactly where there is no dispatch; then `into` is
/// unchanged. All other periods, and what is earned, stay, whatever it answers; after an error the
/// spell's periods are open.
///
/// `curve` is the curve of the unit's points. Prices and `into` are over the same T periods. Takes
/// no memory but for the shapes, which are given back. In a home that counts it answers Ok where
/// the home has (T + 2) * (1 + T * (2L + 3)) cells to give, for L cost points.
pub fn spell_best<S: Shape>(
    home: &mut S::Home,
    unit: &Unit,
    curve: &Curve,
    prices: &Prices,
    spell: &Spell,
    into: &mut Answered,
) -> Result<Option<i64>, AllocError>
    requires curve { IsCostCurve (thermal_of unit.now).points curve.now }
    requires spell { IsSpellOf (thermal_of unit.now) (length (prices_of prices.now).energy)
        spell.now }
    requires into { length (schedule_of into.old.response).on
        ≡ length (prices_of prices.now).energy }
    ensures least { IfOk result (λ best. MatchOption best
        (HasNoDispatch (thermal_of unit.now) (length (prices_of prices.now).energy)
        (spell_first spell.now.started spell.now.first) spell.now.last)
        (λ cost. IsBestDispatch (thermal_of unit.now) (prices_of prices.now)
        (length (prices_of prices.now).energy)
        (spell_first spell.now.started spell.now.first) spell.now.last
        (schedule_of into.new.response) cost)) }
    ensures first { IfOk result
        (λ best. IfSome best (IsFirstDispatch (thermal_of unit.now) (prices_of prices.now)
        (length (prices_of prices.now).energy)
        (spell_first spell.now.started spell.now.first) spell.now.last
        (schedule_of into.new.response))) }
    ensures within { IfOk result
        (λ best. IfSome best (IsSpellWithin (spell_first spell.now.started spell.now.first)
        spell.now.last)) }
    ensures on { IfOk result
        (λ best. IfSome best (λ _. IsOnFromTo spell.now.first spell.now.last
        (schedule_of into.new.response))) }
    ensures none { IfOk result (λ best. best ≡ None
        → schedule_of into.new.response ≡ schedule_of into.old.response) }
    ensures outside { IsSameOutside spell.now.first spell.now.last (schedule_of into.old.response)
        (schedule_of into.new.response) }
    ensures earned { into.new.earned ≡ into.old.earned }
    ensures frame { Frame S.Home.cell_list S.is_in S.numbers [] [] home.old home.new }
    ensures sure { S.Home.counts ≡ true → S.Home.sure home.new ≡ S.Home.sure home.old }
    ensures enough { S.Home.counts ≡ true →
        cells_for (length (prices_of prices.now).energy) (length (thermal_of unit.now).points)
        ≤ S.Home.sure home.old → IsOk result }
{
    frames_join::<S>();
    let mut start: S = beginning(home, unit, spell.started)?;
    let index = spell.first as usize - 1;
    let found = way_from(home, unit, curve, prices, spell, index, &mut start, into);
    start.give_back(home);
    match found? {
        Some(found) => Ok(Some(found.cost)),
        None => Ok(None),
    }
}
