//! The audit of reports of the two units, by 1, 4 and 32 jobs. The right report and the lines at
//! which the others go wrong are worked by hand.
ghost use Rattle.std.specs.Prelude.{◌≡◌, ◌≤◌, length, IfOk};
ghost use Rattle.std.specs.List.{All};
ghost use Rattle.uc_model.specs.PlainCases.{market_of};
ghost use Rattle.unit_program.specs.Tops.{IsBenchOver};

use crate::boards::{CASE, PLAN, planned};
use crate::same::same_of;
use crate::texts::{Change, changed};
use audit_check::check_report;
use report_compare::Audit;
use report_read::read_report;
use std::alloc::Global;
use std::process::Abort;
use std::string::String;
use std::sync::Wait;
use std::test::Fail;
use std::thread::Threads;
use uc_model::cases::Case;
use uc_model::limits::MOST_POINTS;
use unit_program::Bench;
use unit_program::case_laws::case_bench_suffices_for_each_unit;

pub(crate) const RIGHT: &str = "hull-report 1\n\
    periods 1\nunits 2\nbudget 1\nahead 1\ncost 3500\nproposals 1\n\
    proposal 1 value 2500\nenergy 30\nreserve 0\nsupplied 100\nreserved 0\n\
    chosen 1 value 2500\n\
    unit thermal \"A\" earned 2000 scheduled 1000 payment 1000\n\
    on 1\npower 100\nreserve 0\n\
    unit thermal \"B\" earned 0 scheduled 0 payment 0\n\
    on 0\npower 0\nreserve 0\n\
    surplus 0\npayments 1000\ngap 1000\nend\n";

// A bench for any unit.
fn bench_for(alloc: Global, case: &Case) -> Result<Bench, Fail>
    ensures { IfOk result (IsBenchOver (market_of case.now)) }
{
    case_bench_suffices_for_each_unit();
    let bench = Bench::make(alloc, case.periods, MOST_POINTS)?;
    Ok(bench)
}

fn benches_for(alloc: Global, case: &Case, count: u32) -> Result<Vec<Bench>, Fail>
    ensures count { IfOk result (λ benches. length benches.items ≡ count) }
    ensures benches { IfOk result (λ benches.
        All (IsBenchOver (market_of case.now)) benches.items) }
{
    let mut benches = Vec::new(alloc);
    for _ in 0..count {
        let bench = bench_for(alloc, case)?;
        benches.push(bench)?;
    }
    Ok(benches)
}

// The line at which a report goes wrong, by so many jobs.
fn wrong_line<R: Threads + Wait + Sync>(
    rt: &R,
    alloc: Global,
    count: u32,
    text: &[u8],
) -> Result<Option<u32>, Fail>
    requires some { 1 ≤ count }
    requires most { count ≤ 32 }
    requires few { length text.now ≤ 67108864 }
{
    let (case, plan, cost) = planned(alloc, CASE, PLAN)?;
    let report = read_report(alloc, text)?;
    let benches = benches_for(alloc, &case, count)?;
    match check_report(rt, alloc, &case, &plan, cost, &report, benches)? {
        Audit::Right => Ok(None),
        Audit::Wrong { line } => Ok(Some(line)),
    }
}

// Each number of jobs finds that the report goes wrong at this line.
fn goes_wrong_at<R: Threads + Wait + Sync>(
    rt: &R,
    alloc: Global,
    text: &String,
    line: Option<u32>,
) -> Result<bool, Fail> {
    if text.len() > 10_000 {
        return Ok(false);
    }
    for count in [1, 4, 32] {
        if wrong_line(rt, alloc, count, text.as_bytes())? != line {
            return Ok(false);
        }
    }
    Ok(true)
}

// Changes of the right report, and the line at which it then goes wrong.
const REPORTS: [(&[Change], Option<u32>); 4] = [
    (&[], None),
    // Payments to the wrong unit.
    (
        &[
            ("payment 1000", "payment 0"),
            ("scheduled 0 payment 0", "scheduled 0 payment 1000"),
        ],
        Some(14),
    ),
    // B is on, which is as good and isn't least.
    (
        &[
            ("supplied 100", "supplied 200"),
            ("on 0\npower 0", "on 1\npower 100"),
        ],
        Some(11),
    ),
    // Two proposals are called for.
    (&[("budget 1", "budget 2")], Some(7)),
];

// With its changes each report goes wrong there.
fn go_wrong<R: Threads + Wait + Sync + Abort>(
    rt: &R,
    alloc: Global,
    rows: &[(&[Change], Option<u32>)],
) -> Result<(), Fail> {
    for (changes, line) in rows {
        let text = changed(alloc, RIGHT, changes)?;
        let right = goes_wrong_at(rt, alloc, &text, *line)?;
        same_of(rt, line, right, true);
    }
    Ok(())
}

#[test]
fn reports_of_two_units(rt: HostRuntime) -> Result<(), Fail> {
    go_wrong(&rt, rt.alloc(), &REPORTS)
}
