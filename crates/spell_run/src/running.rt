//! Spells that go forward in place, a period at a time, on functions that take no memory.
ghost use Rattle.std.specs.Prelude.{◌≡◌, ℤ, suc, ◌==◌, ◌+◌, ◌-◌, ◌<◌, ◌≤◌, false, length, Some};
ghost use Rattle.std.specs.Prelude.{IfSome, IfNone, None};
ghost use Rattle.cost_curve.specs.CostCurve.{IsCostCurve};
ghost use Rattle.slope_list.specs.Table.{value_of};
ghost use Rattle.slope_list.specs.Slopes.{shown, count_of, room_of, MayGrow, IsGrown};
ghost use Rattle.slope_list.specs.Turn.{IsFirst, IsLast};
ghost use Rattle.spell_run.specs.Frontier.{IsFrontier};
ghost use Rattle.spell_run.specs.Notes.{IsNoted, IsEndNoted, end_cost};
ghost use Rattle.spell_run.specs.Spells.{IsSpellAnswer, IsSpellWithin};
ghost use Rattle.uc_model.specs.Data.{PriceLists};
ghost use Rattle.uc_model.specs.PlainUnits.{thermal_of, prices_of};

use crate::notes::{Note, Passage, Passed};
use crate::step::{are_steps_same_but_for_power_range, starts_in_period, step_terms_of_period};
use cost_curve::laws::envelope_is_within_cost_limit;
use slope_list::{Lowest, Slopes, Spare, Spot};
use uc_model::units::{Curve, Prices, Unit};

/// The first and the last power of a function.
#[derive(Clone, Copy)]
struct Interval {
    first: i64,
    last: i64,
}

/// The power that the first ramp of a spell is measured from.
fn power_before_spell(unit: &Unit, first: u32) -> i64
    ensures start { 1 ≤ first → result ≡ unit.now.min_power }
    ensures goes_on { first ≡ 0 → result ≡ unit.now.power0 }
{
    if first > 0 {
        unit.min_power
    } else {
        unit.power0
    }
}

/// Begins a spell: at the power that its first ramp is measured from, at no cost. `first` 0 stands
/// for a spell that goes on from before period 1.
pub fn begin_spell_cost_function(unit: &Unit, first: u32, running: &mut Slopes)
    ensures frontier { (π : PriceLists)
        → IsFrontier (thermal_of unit.now) π first (first - 1) (shown running.new) }
    ensures count { count_of running.new ≡ 0 }
    ensures room { room_of running.new ≡ room_of running.old }
{
    running.reset_to_single_power(power_before_spell(unit, first), 0);
}

/// The first and the last power of a function; both are 0 on an empty interval.
fn power_interval(running: &Slopes) -> Interval
    ensures first { (x v : ℤ) → value_of (shown running.now) x ≡ Some v → (w : ℤ)
        × IsFirst (shown running.now) result.first w }
    ensures last { (x v : ℤ) → value_of (shown running.now) x ≡ Some v
        → IsLast (shown running.now) result.last }
{
    let first = match running.first() {
        Some(spot) => spot.at,
        None => 0,
    };
    let last = match running.last() {
        Some(last) => last,
        None => 0,
    };
    Interval { first, last }
}

/// Takes a spell over the period at an index, as far as no stop follows, and answers what the step
/// leaves for backtracking, which is open where no power is left. `curve` is the curve of the unit's
/// points.
#[inline(always)]
pub fn advance_spell_over_period(
    unit: &Unit,
    curve: &Curve,
    prices: &Prices,
    passage: Passage,
    running: &mut Slopes,
    spare: &mut Spare,
) -> Note
    requires curve { IsCostCurve (thermal_of unit.now).points curve.now }
    requires index { passage.index < length (prices_of prices.now).energy }
    requires order { passage.first ≤ suc passage.index }
    requires frontier { IsFrontier (thermal_of unit.now) (prices_of prices.now) passage.first passage.index
        (shown running.old) }
    requires room { MayGrow (length curve.now.blocks.items + 3) running.old spare.old }
    ensures frontier { IsFrontier (thermal_of unit.now) (prices_of prices.now) passage.first (suc passage.index)
        (shown running.new) }
    ensures noted { (x v : ℤ) → value_of (shown running.old) x ≡ Some v →
        IsNoted (thermal_of unit.now) (prices_of prices.now) passage.first passage.index false result
        (shown running.new) }
    ensures grown { IsGrown (length curve.now.blocks.items + 3) running.old running.new spare.old
        spare.new }
{
    envelope_is_within_cost_limit();
    let Passage { first, index } = passage;
    let starts = starts_in_period(first, index);
    let before = power_interval(running);
    running.step(
        step_terms_of_period(unit, prices, index, starts, false),
        curve,
        spare,
    );
    Note {
        turn: running.turn(),
        first: before.first,
        last: before.last,
    }
}

/// A least value of a function after a step with this turn.
fn least_value_with_turning_power(spot: Option<Spot>, turn: i64) -> Option<Lowest>
    ensures none { IfNone result (spot ≡ None) }
    ensures some { IfSome result (λ r. (spot ≡ Some (record { at = r.at; value = r.value }))
        × (r.turn ≡ turn)) }
{
    match spot {
        Some(spot) => Some(Lowest {
            value: spot.value,
            at: spot.at,
            turn,
        }),
        None => None,
    }
}

/// Takes a spell over the period at an index, as `advance_spell_over_period` does, and answers what it leaves for the
/// way back, with the least net cost of the spells that end with the period, with a stop after it
/// where the prices go on; None exactly where no dispatch is there.
///
/// A stop after the period lowers its cap. Where it doesn't, or where reserve isn't paid for, the
/// costs up to a stop are those of the function itself at the powers that a stop allows; otherwise
/// they are found beside it.
pub fn advance_spell_and_find_end_cost(
    unit: &Unit,
    curve: &Curve,
    prices: &Prices,
    passage: Passage,
    running: &mut Slopes,
    spare: &mut Spare,
) -> Passed
    requires curve { IsCostCurve (thermal_of unit.now).points curve.now }
    requires index { passage.index < length (prices_of prices.now).energy }
    requires order { passage.first ≤ suc passage.index }
    requires frontier { IsFrontier (thermal_of unit.now) (prices_of prices.now) passage.first passage.index
        (shown running.old) }
    requires room { MayGrow (length curve.now.blocks.items + 3) running.old spare.old }
    ensures answer { IsSpellAnswer (thermal_of unit.now) (prices_of prices.now)
        (length (prices_of prices.now).energy) passage.first (suc passage.index) (end_cost result.end) }
    ensures within { IfSome result.end (λ e. IsSpellWithin passage.first (suc passage.index) e.value) }
    ensures ended { IfSome result.end
        (IsEndNoted (thermal_of unit.now) (prices_of prices.now) passage.first passage.index result.note) }
    ensures frontier { IsFrontier (thermal_of unit.now) (prices_of prices.now) passage.first (suc passage.index)
        (shown running.new) }
    ensures noted { (x v : ℤ) → value_of (shown running.old) x ≡ Some v →
        IsNoted (thermal_of unit.now) (prices_of prices.now) passage.first passage.index false result.note
        (shown running.new) }
    ensures grown { IsGrown (length curve.now.blocks.items + 3) running.old running.new spare.old
        spare.new }
{
    envelope_is_within_cost_limit();
    let Passage { first, index } = passage;
    if index + 1 == prices.energy.len() {
        let note = advance_spell_over_period(unit, curve, prices, passage, running, spare);
        let end = least_value_with_turning_power(running.least(), note.turn);
        return Passed { note, end };
    }
    let starts = starts_in_period(first, index);
    let on = step_terms_of_period(unit, prices, index, starts, false);
    let last = step_terms_of_period(unit, prices, index, starts, true);
    if are_steps_same_but_for_power_range(on, last) {
        let note = advance_spell_over_period(unit, curve, prices, passage, running, spare);
        let end = least_value_with_turning_power(
            running.least_in(last.least, last.most),
            note.turn,
        );
        return Passed { note, end };
    }
    let end = running.least_value_if_stepped(last, curve, spare);
    let note = advance_spell_over_period(unit, curve, prices, passage, running, spare);
    Passed { note, end }
}
