//! Worked units, and random tiny ones beside the least best of all their schedules, over the
//! representations of convex functions and on both benches.
ghost use Rattle.std.specs.Prelude.{◌≡◌, ◌<◌, ◌≤◌, IfOk, length};
ghost use Rattle.uc_model.specs.PlainUnits.{thermal_of, prices_of};

use crate::pool_bench::{PoolBench, best_on_bench};
use crate::random_units::{SEED, TIMES};
use crate::same::same;
use crate::units::{BARRED, FALLING, KINKED, OFF};
use level_table::Levels;
use point_list::breaks::Breaks;
use rand_core::utils::NextWord;
use rand_pcg::Pcg32;
use std::alloc::Global;
use std::process::Abort;
use std::test::Fail;
use test_shapes::{Heap, Shape};
use test_tiny::earnings::earnings_of;
use test_tiny::feasible::is_feasible;
use test_tiny::parts::{small_prices, unit};
use test_tiny::small::SmallUnit;
use test_tiny::trying::least_by_trying;
use test_units::best_response;
use uc_model::units::{Answered, Mark, Prices, Unit};
use unit_program::{Bench, LastAnswers, least_on_bench};

// What a response does in each period, and what it earns.
#[derive(Clone, Copy)]
struct Figures<'a> {
    on: &'a [bool],
    power: &'a [u32],
    reserve: &'a [u32],
    earned: i64,
}

fn figures_of(answer: &Answered) -> Figures<'_> {
    Figures {
        on: answer.response.on.as_slice(),
        power: answer.response.power.as_slice(),
        reserve: answer.response.reserve.as_slice(),
        earned: answer.earned,
    }
}

// The answer is this one, or there is none.
fn assert_answer(rt: &impl Abort, answer: &Option<Answered>, want: Option<Figures>) {
    same(rt, answer.is_some(), want.is_some());
    if let Some(answered) = answer {
        if let Some(want) = want {
            let figures = figures_of(answered);
            same(rt, figures.on, want.on);
            same(rt, figures.power, want.power);
            same(rt, figures.reserve, want.reserve);
            same(rt, figures.earned, want.earned);
        }
    }
}

// A small unit at prices over some periods.
#[derive(Clone, Copy)]
struct Row<'a> {
    unit: &'a SmallUnit,
    window: &'a [Mark],
    energy: &'a [i16],
    reserve: &'a [u16],
}

// The unit and its prices.
fn parts_of(alloc: Global, row: Row) -> Result<(Unit, Prices), Fail>
    ensures { IfOk result (λ r.
        length (thermal_of r.0).window ≡ length (prices_of r.1).energy) }
{
    let periods = row.energy.len();
    if periods == 0 || periods > 168 {
        return Err(Fail::new("a row over no periods"));
    }
    if row.window.len() != periods || row.reserve.len() != periods {
        return Err(Fail::new("a row of several lengths"));
    }
    let unit = unit(alloc, row.unit, row.window)?;
    let prices = small_prices(alloc, row.energy, row.reserve)?;
    Ok((unit, prices))
}

// Its least best response.
fn answer_of<S: Shape>(
    alloc: Global,
    home: &mut S::Home,
    row: Row,
) -> Result<Option<Answered>, Fail> {
    let (unit, prices) = parts_of(alloc, row)?;
    Ok(best_response::<S>(alloc, home, &unit, &prices)?)
}

// The least best response on a bench, begun with the last answer that another bench left.
fn on_bench(alloc: Global, row: Row) -> Result<Option<Answered>, Fail> {
    let (unit, prices) = parts_of(alloc, row)?;
    let periods = prices.energy.len() as u32;
    let points = unit.points.len() as u32;
    let mut earlier = Bench::make(alloc, periods, points)?;
    let mut bench = Bench::make(alloc, periods, points)?;
    let last = LastAnswers::make(alloc, 1, periods)?;
    let mut first = Answered::make(alloc, periods)?;
    let mut into = Answered::make(alloc, periods)?;
    let _ = least_on_bench(&mut earlier, &last, 0, &unit, &prices, &mut first);
    if least_on_bench(&mut bench, &last, 0, &unit, &prices, &mut into) {
        return Ok(Some(into));
    }
    Ok(None)
}

// The least best response on a bench with a pool, whose cells are all there again afterwards.
fn in_pool(rt: &impl Abort, alloc: Global, row: Row) -> Result<Option<Answered>, Fail> {
    let (unit, prices) = parts_of(alloc, row)?;
    let periods = prices.energy.len() as u32;
    let mut bench = PoolBench::make(alloc, periods, unit.points.len() as u32)?;
    let mut into = Answered::make(alloc, periods)?;
    let spare = bench.pool.spare();
    let is_there = best_on_bench(&mut bench, &unit, &prices, &mut into);
    same(rt, bench.pool.spare(), spare);
    if is_there {
        return Ok(Some(into));
    }
    Ok(None)
}

// The least best response over both shapes and on both benches is this one.
fn expect(rt: &impl Abort, alloc: Global, row: Row, want: Option<Figures>) -> Result<(), Fail> {
    let mut heap = Heap { alloc };
    assert_answer(rt, &answer_of::<Levels>(alloc, &mut heap, row)?, want);
    assert_answer(rt, &answer_of::<Breaks>(alloc, &mut heap, row)?, want);
    assert_answer(rt, &on_bench(alloc, row)?, want);
    assert_answer(rt, &in_pool(rt, alloc, row)?, want);
    Ok(())
}

// And by trying all schedules; it is feasible and earns as much by itself too.
fn expect_tried(rt: &impl Abort, alloc: Global, row: Row, want: Figures) -> Result<(), Fail> {
    let (unit, prices) = parts_of(alloc, row)?;
    let least = least_by_trying(alloc, &unit, &prices)?;
    assert_answer(rt, &least, Some(want));
    if let Some(answer) = least {
        assert!(rt; is_feasible(&unit, &answer.response));
        same(
            rt,
            earnings_of(&unit, &prices, &answer.response),
            i128::from(want.earned),
        );
    }
    expect(rt, alloc, row, Some(want))
}

#[test]
fn falls_before_a_stop(rt: HostRuntime) -> Result<(), Fail> {
    let row = Row {
        unit: &FALLING,
        window: &[Mark::Free, Mark::Free],
        energy: &[100, -100],
        reserve: &[0, 0],
    };
    let want = Figures {
        on: &[true, true],
        power: &[30, 10],
        reserve: &[0, 0],
        earned: 2000,
    };
    expect(&rt, rt.alloc(), row, Some(want))
}

#[test]
fn one_period_on(rt: HostRuntime) -> Result<(), Fail> {
    let row = Row {
        unit: &OFF,
        window: &[Mark::Free, Mark::Free, Mark::Free],
        energy: &[-1000, 100, -1000],
        reserve: &[0, 1, 0],
    };
    let want = Figures {
        on: &[false, true, false],
        power: &[0, 40, 0],
        reserve: &[0, 10, 0],
        earned: 4010,
    };
    expect(&rt, rt.alloc(), row, Some(want))
}

#[test]
fn power_makes_room_for_reserve(rt: HostRuntime) -> Result<(), Fail> {
    let row = Row {
        unit: &KINKED,
        window: &[Mark::Free, Mark::Free],
        energy: &[1, 0],
        reserve: &[10, 10],
    };
    let want = Figures {
        on: &[true, true],
        power: &[40, 0],
        reserve: &[20, 100],
        earned: 1240,
    };
    expect(&rt, rt.alloc(), row, Some(want))
}

#[test]
fn no_schedule(rt: HostRuntime) -> Result<(), Fail> {
    for (unit, mark) in [(&BARRED, Mark::Free), (&KINKED, Mark::MustOff)] {
        let row = Row {
            unit,
            window: &[mark],
            energy: &[30],
            reserve: &[0],
        };
        expect(&rt, rt.alloc(), row, None)?;
    }
    Ok(())
}

// ---- smaller units, also by trying

// Off for a period, from 0 to 10 kilowatts at no cost, with no limit in its way.
const FREE: SmallUnit = SmallUnit {
    must_run: false,
    min_power: 0,
    range: 10,
    ramp_up: 10,
    ramp_down: 10,
    start_limit: 10,
    stop_limit: 10,
    down0: 1,
    ..OFF
};

// A stop in period 1 is barred by the output before it, and one in period 2 by the power of at
// least 3 before it. Of the powers that earn as much the least ones are the answer.
#[test]
fn least_powers_of_a_tie(rt: HostRuntime) -> Result<(), Fail> {
    let numbers = SmallUnit {
        min_power: 1,
        range: 9,
        ramp_up: 2,
        ramp_down: 2,
        stop_limit: 1,
        power0: 5,
        on0: true,
        up0: 1,
        down0: 0,
        ..FREE
    };
    let row = Row {
        unit: &numbers,
        window: &[Mark::Free, Mark::Free],
        energy: &[100, -100],
        reserve: &[0, 0],
    };
    let want = Figures {
        on: &[true, true],
        power: &[3, 1],
        reserve: &[0, 0],
        earned: 200,
    };
    expect_tried(&rt, rt.alloc(), row, want)
}

// In a period that is both first and last the stop limit bounds power with reserve, and the ramp
// down the power.
#[test]
fn one_small_period_on(rt: HostRuntime) -> Result<(), Fail> {
    let numbers = SmallUnit {
        min_power: 1,
        range: 5,
        ramp_up: 4,
        ramp_down: 3,
        start_limit: 6,
        stop_limit: 5,
        down0: 5,
        ..FREE
    };
    let row = Row {
        unit: &numbers,
        window: &[Mark::Free, Mark::Free, Mark::Free],
        energy: &[-1000, 100, -1000],
        reserve: &[0, 1, 0],
    };
    let want = Figures {
        on: &[false, true, false],
        power: &[0, 4, 0],
        reserve: &[0, 1, 0],
        earned: 401,
    };
    expect_tried(&rt, rt.alloc(), row, want)
}

// At 30 for a kilowatt a unit of 10 for a kilowatt gives all it can, and one of exactly 10
// kilowatts for 300 earns nothing, and is off.
#[test]
fn units_at_a_price(rt: HostRuntime) -> Result<(), Fail> {
    let cheap = SmallUnit {
        greatest_cost: 100,
        ..FREE
    };
    let block = SmallUnit {
        min_power: 10,
        range: 0,
        least_cost: 300,
        greatest_cost: 300,
        ..FREE
    };
    for (unit, power, earned) in [(&cheap, 10, 200), (&block, 0, 0)] {
        let row = Row {
            unit,
            window: &[Mark::Free],
            energy: &[30],
            reserve: &[0],
        };
        let want = Figures {
            on: &[power > 0],
            power: &[power],
            reserve: &[0],
            earned,
        };
        expect_tried(&rt, rt.alloc(), row, want)?;
    }
    Ok(())
}

// ---- random units

// A random number below another one.
fn below(words: &mut Pcg32, limit: u8) -> u8
    requires { 1 ≤ limit }
    ensures { result < limit }
{
    (words.next_word() % u32::from(limit)) as u8
}

// True once in so many times.
fn once_in(words: &mut Pcg32, times: u8) -> bool
    requires { 1 ≤ times }
{
    below(words, times) == 0
}

fn random_unit(words: &mut Pcg32, most: u8) -> SmallUnit
    requires { most ≤ 3 }
{
    let min_power = below(words, most + 1);
    SmallUnit {
        must_run: once_in(words, 8),
        min_power,
        range: below(words, most + 1 - min_power),
        ramp_up: below(words, 4),
        ramp_down: below(words, 4),
        start_limit: below(words, 5),
        stop_limit: below(words, 5),
        more_up: below(words, 3),
        more_down: below(words, 3),
        power0: below(words, 5),
        on0: once_in(words, 2),
        up0: below(words, 4),
        down0: below(words, 4),
        first_lag: below(words, 3),
        lag_gap: below(words, 3),
        first_cost: u16::from(below(words, 6)),
        second_cost: u16::from(below(words, 9)),
        least_cost: u16::from(below(words, 5)),
        greatest_cost: u16::from(below(words, 9)),
    }
}

fn random_mark(words: &mut Pcg32) -> Mark {
    match below(words, 12) {
        0 => Mark::MustOff,
        1 => Mark::MustOn,
        _ => Mark::Free,
    }
}

// A random unit of at most so many kilowatts over so many periods, at random prices: its least best
// response.
fn compare(
    rt: &impl Abort,
    alloc: Global,
    words: &mut Pcg32,
    periods: usize,
    most: u8,
) -> Result<bool, Fail>
    requires some { 1 ≤ periods }
    requires limit { periods ≤ 4 }
    requires most { most ≤ 3 }
{
    let mut window = [Mark::Free; 4];
    let mut energy = [0i16; 4];
    let mut reserve = [0u16; 4];
    for place in 0..4 {
        window[place] = random_mark(words);
        energy[place] = i16::from(below(words, 14)) - 4;
        reserve[place] = u16::from(below(words, 3));
    }
    let numbers = random_unit(words, most);
    let row = Row {
        unit: &numbers,
        window: &window[..periods],
        energy: &energy[..periods],
        reserve: &reserve[..periods],
    };
    let (unit, prices) = parts_of(alloc, row)?;
    let tried = least_by_trying(alloc, &unit, &prices)?;
    let want = match &tried {
        Some(answered) => Some(figures_of(answered)),
        None => None,
    };
    expect(rt, alloc, row, want)?;
    Ok(tried.is_some())
}

// How many of 460 random units can run at all; the least best response of each is the tried one.
fn feasible_units(rt: &impl Abort, alloc: Global, words: &mut Pcg32) -> Result<u32, Fail> {
    let mut feasible = 0u32;
    for (periods, most, units) in [(1, 3, 200), (2, 3, 100), (3, 2, 60), (4, 1, 100)] {
        for _ in 0..units {
            if compare(rt, alloc, words, periods, most)? {
                feasible = feasible.saturating_add(1);
            }
        }
    }
    Ok(feasible)
}

#[test]
fn random_units_as_by_trying(rt: HostRuntime) -> Result<(), Fail> {
    let mut words = Pcg32::new(2026, SEED);
    for _ in 0..TIMES {
        let feasible = feasible_units(&rt, rt.alloc(), &mut words)?;
        assert!(rt; feasible > 100);
        assert!(rt; feasible < 460);
    }
    Ok(())
}
