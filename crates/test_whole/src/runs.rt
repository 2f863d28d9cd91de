//! A run that is opened by the call that `hull price` makes, and finished by `finish_run`, over sinks
//! that fail and one that can't. The report is that of the two units, worked by hand.
ghost use Rattle.std.specs.Prelude.{◌≤◌};

use crate::audits::RIGHT;
use crate::boards::{CASE, PLAN, Sizes, terms_of};
use crate::same::same;
use answer_workers::NoGate;
use board_run::{Run, open_run};
use hull_engine::finish_run;
use std::alloc::Global;
use std::sync::Wait;
use std::test::Fail;
use std::thread::Threads;
use test_memory::{MemorySink, SureSink};

// A run of the two units of these sizes. Want of memory ends the test.
fn opened(alloc: Global, sizes: Sizes) -> Result<Run, Fail>
    requires some_budget { 1 ≤ sizes.budget }
    requires budget { sizes.budget ≤ 10 }
    requires some_ahead { 1 ≤ sizes.ahead }
    requires ahead { sizes.ahead ≤ 16 }
    requires some_callers { 1 ≤ sizes.callers }
    requires callers { sizes.callers ≤ 33 }
{
    let terms = terms_of(alloc, CASE, PLAN, sizes)?;
    Ok(open_run(alloc, terms)?)
}

// One proposal and two workers.
const SMALL: Sizes = Sizes {
    budget: 1,
    ahead: 1,
    callers: 2,
};

// The status of the run over a sink of which the writes of these numbers fail, and whether the sink
// then holds the report.
fn finished<R: Threads + Wait + Sync>(
    rt: &R,
    alloc: Global,
    failing: &[u64],
) -> Result<(u8, bool), Fail> {
    let run = opened(alloc, SMALL)?;
    let mut out = MemorySink::make(alloc, 4096, 4096, failing, &[])?;
    let (status, _closed) = finish_run(rt, run, &mut out, &NoGate);
    Ok((status, out.bytes() == RIGHT.as_bytes()))
}

#[test]
fn an_opened_run_writes_its_report(rt: HostRuntime) -> Result<(), Fail> {
    let ended = finished(&rt, rt.alloc(), &[])?;
    same(&rt, ended, (0, true));
    Ok(())
}

#[test]
fn a_failed_write_ends_a_run_with_6(rt: HostRuntime) -> Result<(), Fail> {
    let first = finished(&rt, rt.alloc(), &[1])?;
    same(&rt, first, (6, false));
    let later = finished(&rt, rt.alloc(), &[3])?;
    same(&rt, later, (6, false));
    Ok(())
}

#[test]
fn a_sink_that_is_sure_ends_a_run_with_0(rt: HostRuntime) -> Result<(), Fail> {
    let run = opened(rt.alloc(), SMALL)?;
    let mut out = SureSink::make();
    let (status, _closed) = finish_run(&rt, run, &mut out, &NoGate);
    same(&rt, status, 0);
    Ok(())
}

// What a run of ten proposals with four ahead prints with so many workers, however many processors
// there are. Eight tasks are open at a time.
fn printed<R: Threads + Wait + Sync>(rt: &R, alloc: Global, callers: u32) -> Result<Vec<u8>, Fail>
    requires some_callers { 1 ≤ callers }
    requires callers { callers ≤ 33 }
{
    let sizes = Sizes {
        budget: 10,
        ahead: 4,
        callers,
    };
    let run = opened(alloc, sizes)?;
    let mut out = MemorySink::make(alloc, 4096, 4096, &[], &[])?;
    let (status, _closed) = finish_run(rt, run, &mut out, &NoGate);
    if status != 0 {
        return Err(Fail::new("the report wasn't written"));
    }
    Ok(Vec::from_slice(alloc, out.bytes())?)
}

#[test]
fn five_eight_and_32_workers_print_what_one_prints(rt: HostRuntime) -> Result<(), Fail> {
    let alone = printed(&rt, rt.alloc(), 1)?;
    assert!(rt;
        alone
            .as_slice()
            .starts_with(b"hull-report 1\nperiods 1\nunits 2\nbudget 10\n")
    );
    for _ in 0..20 {
        let five = printed(&rt, rt.alloc(), 5)?;
        same(&rt, five.as_slice(), alone.as_slice());
        let eight = printed(&rt, rt.alloc(), 8)?;
        same(&rt, eight.as_slice(), alone.as_slice());
        let most = printed(&rt, rt.alloc(), 32)?;
        same(&rt, most.as_slice(), alone.as_slice());
    }
    Ok(())
}
