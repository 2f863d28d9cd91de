//! Lists, values as they are made, small rules of a unit, and the flat list of a task. Worked by
//! hand.
ghost use Rattle.std.specs.Prelude.{◌≤◌, length};

use crate::same::{same, same_of};
use plain_lists::lists::Name;
use std::alloc::{AllocError, Global};
use std::process::Abort;
use std::test::Fail;
use test_tiny::parts::{small_bid, small_prices, small_renewable, task, unit};
use test_tiny::small::SmallUnit;
use uc_model::cases::Task;
use uc_model::rules::{cap, start_cost};
use uc_model::task_numbers::flat_number;
use uc_model::units::{Answered, Mark, Powers, Prices, UnitKind};

// Each number is another one.
const VARIED: SmallUnit = SmallUnit {
    must_run: true,
    min_power: 1,
    range: 9,
    ramp_up: 2,
    ramp_down: 3,
    start_limit: 4,
    stop_limit: 5,
    more_up: 5,
    more_down: 6,
    power0: 8,
    on0: true,
    up0: 9,
    down0: 0,
    first_lag: 2,
    lag_gap: 3,
    first_cost: 100,
    second_cost: 300,
    least_cost: 11,
    greatest_cost: 12,
};

#[test]
fn lists_take_and_give(rt: HostRuntime) -> Result<(), Fail> {
    let mut list = Powers::make(rt.alloc(), 3)?;
    assert!(rt; list.is_empty());
    list.push(4);
    list.push(5);
    same(&rt, list.len(), 2);
    same(&rt, *list.get(1), 5);
    list.set(0, 7);
    *list.get_mut(1) = 9;
    same(&rt, list.as_slice(), [7, 9].as_slice());
    list.clear();
    assert!(rt; list.is_empty());
    let filled = Powers::filled(rt.alloc(), 2, 6)?;
    same(&rt, filled.as_slice(), [6, 6].as_slice());
    Ok(())
}

#[test]
fn names_take_and_give(rt: HostRuntime) -> Result<(), Fail> {
    let mut name = Name::make(rt.alloc(), 8)?;
    name.push('G');
    name.push('1');
    same(&rt, name.len(), 2);
    same(&rt, name.as_str(), "G1");
    name.clear();
    same(&rt, name.len(), 0);
    Ok(())
}

#[test]
fn answers_begin_off(rt: HostRuntime) -> Result<(), Fail> {
    let answer = Answered::make(rt.alloc(), 2)?;
    same(
        &rt,
        answer.response.on.as_slice(),
        [false, false].as_slice(),
    );
    same(&rt, answer.response.power.as_slice(), [0, 0].as_slice());
    same(&rt, answer.response.reserve.as_slice(), [0, 0].as_slice());
    same(&rt, answer.earned, 0);
    Ok(())
}

#[test]
fn prices_begin_at_zero(rt: HostRuntime) -> Result<(), Fail> {
    let prices = Prices::make(rt.alloc(), 2)?;
    same(&rt, prices.energy.as_slice(), [0, 0].as_slice());
    same(&rt, prices.reserve.as_slice(), [0, 0].as_slice());
    Ok(())
}

// The unit of a task as it is made has no lag, so a start costs nothing.
#[test]
fn tasks_begin_idle(rt: HostRuntime) -> Result<(), Fail> {
    let task = Task::make(rt.alloc(), 2)?;
    same(&rt, task.flat.most.as_slice(), [0, 0].as_slice());
    same(&rt, start_cost(&task.thermal, 4), 0);
    Ok(())
}

#[test]
fn starts_cost_by_the_lag_reached(rt: HostRuntime) -> Result<(), Fail> {
    let unit = unit(rt.alloc(), &VARIED, &[Mark::Free])?;
    for (down, cost) in [(5, 300), (4, 100), (1, 100)] {
        same_of(&rt, &down, start_cost(&unit, down), cost);
    }
    Ok(())
}

#[test]
fn caps_take_the_least_limit(rt: HostRuntime) -> Result<(), Fail> {
    let unit = unit(rt.alloc(), &VARIED, &[Mark::Free])?;
    for (first, last, most) in [
        (false, false, 9),
        (true, false, 3),
        (false, true, 4),
        (true, true, 3),
    ] {
        same(&rt, cap(&unit, first, last), most);
    }
    Ok(())
}

// A task for a unit of one of the kinds.
fn any_task(alloc: Global, kind: UnitKind) -> Result<Task, AllocError> {
    let prices = small_prices(alloc, &[-7], &[3])?;
    let thermal = unit(alloc, &VARIED, &[Mark::MustOn])?;
    let flat = small_renewable(alloc, 3, 4)?;
    let bid = small_bid(alloc, 5, 40)?;
    Ok(task(prices, kind, thermal, flat, bid))
}

fn assert_flat(rt: &impl Abort, task: &Task, numbers: &[i64])
    requires { length numbers.now ≤ 100 }
{
    for place in 0..numbers.len() {
        same_of(
            &rt,
            &place,
            flat_number(task, place as u32),
            Some(numbers[place]),
        );
    }
    same(rt, flat_number(task, numbers.len() as u32), None);
}

#[test]
fn flat_lists_of_each_kind(rt: HostRuntime) -> Result<(), Fail> {
    let thermal = any_task(rt.alloc(), UnitKind::Thermal)?;
    let numbers = [
        1, -7, 3, 0, 1, 1, 10, 2, 3, 4, 5, 6, 7, 8, 1, 9, 0, 2, 2, 100, 5, 300, 2, 1, 11, 10, 12, 2,
    ];
    assert_flat(&rt, &thermal, &numbers);
    let flat = any_task(rt.alloc(), UnitKind::Flat)?;
    assert_flat(&rt, &flat, &[1, -7, 3, 1, 3, 7]);
    let bid = any_task(rt.alloc(), UnitKind::Bid)?;
    assert_flat(&rt, &bid, &[1, -7, 3, 2, 1, 5, 40]);
    Ok(())
}
