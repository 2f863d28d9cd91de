ghost use Rattle.std.specs.Prelude.{◌≡◌, ◌<◌, ◌≤◌, length, IfOk};
ghost use Rattle.uc_model.specs.PlainUnits.{schedule_of};

use crate::same::same_of;
use board_store::Store;
use plain_lists::lists::Flags;
use std::alloc::{AllocError, Global};
use std::process::Abort;
use std::test::Fail;
use uc_model::units::{Answered, Powers, Response};

// On at a power in its one period, with what that earns.
fn answer_of(alloc: Global, power: u32, earned: i64) -> Result<Answered, AllocError>
    ensures { IfOk result (λ a. length (schedule_of a.response).on ≡ 1) }
{
    let on = Flags::filled(alloc, 1, true)?;
    let power = Powers::filled(alloc, 1, power)?;
    let reserve = Powers::filled(alloc, 1, 0)?;
    let response = Response { on, power, reserve };
    Ok(Answered { response, earned })
}

fn kept_is(rt: &impl Abort, store: &Store, place: usize, into: &mut Answered, due: (bool, u32, i64))
    requires place { place < length store.now.answers }
    requires horizon { length (schedule_of into.old.response).on ≡ store.now.periods }
    ensures { length (schedule_of into.new.response).on ≡ store.now.periods }
{
    store.take(place, into);
    let response = &into.response;
    let (on, power) = (response.on.as_slice(), response.power.as_slice());
    let (on_due, power_due) = ([due.0], [due.1]);
    let due = (on_due.as_slice(), power_due.as_slice(), due.2);
    same_of(rt, &place, (on, power, store.earned(place)), due);
}

#[test]
fn shared_row_stays_where_another_is_put(rt: HostRuntime) -> Result<(), Fail> {
    let alloc = rt.alloc();
    let mut store = Store::make(alloc, 3, 1)?;
    store.put(0, &answer_of(alloc, 7, 70)?, 2);
    store.put(1, &answer_of(alloc, 7, 71)?, 0);
    store.put(0, &answer_of(alloc, 8, 80)?, 1);
    let mut into = Answered::make(alloc, 1)?;
    kept_is(&rt, &store, 0, &mut into, (true, 8, 80));
    kept_is(&rt, &store, 1, &mut into, (true, 7, 71));
    kept_is(&rt, &store, 2, &mut into, (false, 0, 0));
    Ok(())
}

// On over a row of powers, in at most a thousand periods.
fn answer_over(alloc: Global, powers: &[u32]) -> Result<Answered, AllocError>
    requires { length powers.now ≤ 1000 }
    ensures { IfOk result (λ a. length (schedule_of a.response).on ≡ length powers.now) }
{
    let periods = powers.len() as u32;
    let on = Flags::filled(alloc, periods, true)?;
    let mut power = Powers::make(alloc, periods)?;
    power.copy_from(powers);
    let reserve = Powers::filled(alloc, periods, 0)?;
    let response = Response { on, power, reserve };
    Ok(Answered {
        response,
        earned: 0,
    })
}

fn powers_are(rt: &impl Abort, store: &Store, place: usize, into: &mut Answered, due: &[u32])
    requires place { place < length store.now.answers }
    requires horizon { length (schedule_of into.old.response).on ≡ store.now.periods }
    ensures { length (schedule_of into.new.response).on ≡ store.now.periods }
{
    store.take(place, into);
    same_of(rt, &place, into.response.power.as_slice(), due);
}

#[test]
fn rows_that_differ_in_a_period_are_kept_apart(rt: HostRuntime) -> Result<(), Fail> {
    let alloc = rt.alloc();
    let mut store = Store::make(alloc, 4, 3)?;
    store.put(0, &answer_over(alloc, &[7, 7, 7])?, 3);
    store.put(1, &answer_over(alloc, &[7, 7, 8])?, 0);
    store.put(2, &answer_over(alloc, &[1, 2, 3])?, 1);
    let mut into = Answered::make(alloc, 3)?;
    powers_are(&rt, &store, 0, &mut into, &[7, 7, 7]);
    powers_are(&rt, &store, 1, &mut into, &[7, 7, 8]);
    powers_are(&rt, &store, 2, &mut into, &[1, 2, 3]);
    powers_are(&rt, &store, 3, &mut into, &[0, 0, 0]);
    Ok(())
}

// A run goes over 255 periods at most.
#[test]
fn row_of_one_power_may_be_long(rt: HostRuntime) -> Result<(), Fail> {
    let alloc = rt.alloc();
    let mut store = Store::make(alloc, 3, 600)?;
    let all = [9; 600];
    let mut but_one = [9; 600];
    but_one[599] = 8;
    store.put(0, &answer_over(alloc, &all)?, 2);
    store.put(1, &answer_over(alloc, &but_one)?, 0);
    let mut into = Answered::make(alloc, 600)?;
    powers_are(&rt, &store, 0, &mut into, &all);
    powers_are(&rt, &store, 1, &mut into, &but_one);
    powers_are(&rt, &store, 2, &mut into, &[0; 600]);
    Ok(())
}
