//! Worked spells, over both representations of convex functions.
ghost use Rattle.std.specs.Prelude.{IsTrue, replicate};
ghost use Rattle.test_units.specs.Entries.{IsSpellOf, IsSpellStart};
ghost use Rattle.test_tiny.specs.Small.{small_unit_of};
ghost use Rattle.uc_model.specs.declared.units.Mark.TheVariants.{Free};

use crate::same::same;
use crate::units::{KINKED, OFF, TOO_HIGH};
use level_table::Levels;
use point_list::breaks::Breaks;
use std::alloc::Global;
use std::process::Abort;
use std::test::Fail;
use test_shapes::{Heap, Shape, curve_of};
use test_tiny::parts::{small_prices, unit};
use test_tiny::small::SmallUnit;
use test_units::{Spell, SpellCosts, spell_best, spell_costs};
use uc_model::units::{Answered, Mark, Marks};

// A spell of a small unit at prices over some periods.
#[derive(Clone, Copy)]
struct Row<'a> {
    unit: &'a SmallUnit,
    spell: Spell,
    energy: &'a [i16],
    reserve: &'a [u16],
}

// A dispatch of least cost.
#[derive(Clone, Copy)]
struct Figures<'a> {
    cost: i64,
    power: &'a [u32],
    reserve: &'a [u32],
}

fn is_start(numbers: &SmallUnit, periods: usize, spell: Spell) -> bool
    ensures { IsTrue result
        → IsSpellStart (small_unit_of numbers.now (replicate periods Free)) periods
        spell.first spell.started }
{
    if spell.first == 0 || spell.first as usize > periods {
        return false;
    }
    if spell.started {
        return spell.first > 1 || !numbers.on0;
    }
    spell.first == 1 && numbers.on0
}

fn is_spell(numbers: &SmallUnit, periods: usize, spell: Spell) -> bool
    ensures { IsTrue result
        → IsSpellOf (small_unit_of numbers.now (replicate periods Free)) periods spell }
{
    if !is_start(numbers, periods, spell) {
        return false;
    }
    if spell.first > spell.last || spell.last as usize > periods {
        return false;
    }
    spell.stops == ((spell.last as usize) < periods)
}

fn assert_answer(rt: &impl Abort, best: Option<i64>, answer: &Answered, want: Option<Figures>) {
    same(rt, best.is_some(), want.is_some());
    if let Some(want) = want {
        same(rt, best, Some(want.cost));
        same(rt, answer.response.power.as_slice(), want.power);
        same(rt, answer.response.reserve.as_slice(), want.reserve);
    }
}

// The entry of the spell, and its first dispatch of least cost, are these.
fn expect_on<S: Shape>(
    rt: &impl Abort,
    alloc: Global,
    home: &mut S::Home,
    row: Row,
    want: Option<Figures>,
) -> Result<(), Fail> {
    let periods = row.energy.len();
    if periods == 0 || periods > 168 || row.reserve.len() != periods {
        return Err(Fail::new("a row of several lengths"));
    }
    if !is_spell(row.unit, periods, row.spell) {
        return Err(Fail::new("no spell of the unit"));
    }
    let window = Marks::filled(alloc, periods as u32, Mark::Free)?;
    let unit = unit(alloc, row.unit, window.as_slice())?;
    let curve = curve_of(alloc, unit.points.as_slice())?;
    let prices = small_prices(alloc, row.energy, row.reserve)?;
    let mut costs = SpellCosts::make(alloc, periods as u32)?;
    let spell = row.spell;
    spell_costs::<S>(
        home,
        &unit,
        &curve,
        &prices,
        spell.first,
        spell.started,
        &mut costs,
    )?;
    let entry = *costs.get(spell.last as usize - 1);
    let mut answer = Answered::make(alloc, periods as u32)?;
    let best = spell_best::<S>(home, &unit, &curve, &prices, &spell, &mut answer)?;
    same(rt, entry, best);
    assert_answer(rt, best, &answer, want);
    Ok(())
}

fn expect(rt: &impl Abort, alloc: Global, row: Row, want: Option<Figures>) -> Result<(), Fail> {
    let mut heap = Heap { alloc };
    expect_on::<Levels>(rt, alloc, &mut heap, row, want)?;
    expect_on::<Breaks>(rt, alloc, &mut heap, row, want)
}

// A start and a stop in one period.
const MIDDLE: Spell = Spell {
    first: 2,
    last: 2,
    started: true,
    stops: true,
};

#[test]
fn one_period(rt: HostRuntime) -> Result<(), Fail> {
    let row = Row {
        unit: &OFF,
        spell: MIDDLE,
        energy: &[-1000, 100, -1000],
        reserve: &[0, 1, 0],
    };
    let want = Figures {
        cost: -4010,
        power: &[0, 40, 0],
        reserve: &[0, 10, 0],
    };
    expect(&rt, rt.alloc(), row, Some(want))
}

// Its least power is above the stop limit.
#[test]
fn no_dispatch(rt: HostRuntime) -> Result<(), Fail> {
    let row = Row {
        unit: &TOO_HIGH,
        spell: MIDDLE,
        energy: &[-1000, 100, -1000],
        reserve: &[0, 1, 0],
    };
    expect(&rt, rt.alloc(), row, None)
}

#[test]
fn power_makes_room_for_reserve(rt: HostRuntime) -> Result<(), Fail> {
    let spell = Spell {
        first: 1,
        last: 2,
        started: false,
        stops: false,
    };
    let row = Row {
        unit: &KINKED,
        spell,
        energy: &[1, 0],
        reserve: &[10, 10],
    };
    let want = Figures {
        cost: -1240,
        power: &[40, 0],
        reserve: &[20, 100],
    };
    expect(&rt, rt.alloc(), row, Some(want))
}

#[test]
fn costs_are_a_list(rt: HostRuntime) -> Result<(), Fail> {
    let mut costs = SpellCosts::make(rt.alloc(), 2)?;
    same(&rt, costs.as_slice(), [None, None].as_slice());
    costs.set(1, Some(-7));
    same(&rt, costs.as_slice(), [None, Some(-7)].as_slice());
    costs.clear();
    same(&rt, costs.len(), 0);
    costs.push(Some(40));
    same(&rt, costs.len(), 1);
    same(&rt, *costs.get(0), Some(40));
    Ok(())
}
