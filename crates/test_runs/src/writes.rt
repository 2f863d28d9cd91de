//! Writes that fail.

use crate::runs::{Edges, WHOLE, run};
use crate::same::same_of;
use crate::texts::{
    AUDIT, BOUND, CERTIFY, CHECK, CONVEX_ONCE, FIXED, PRICE, RIGHT, SETTLE, SMALLEST,
    SMALLEST_FOUND, SMALLEST_SCHEDULE, TRY_FIRST, TRY_ONE, TWO_PROPOSALS_BOUND,
    TWO_PROPOSALS_FIXED, TWO_UNITS, TWO_UNITS_CHECK, TWO_UNITS_REPORT, TWO_UNITS_REPORTED,
    TWO_UNITS_SCHEDULE, Texts, USUAL, USUAL_CERTIFIED, USUAL_MIXTURE, USUAL_PRICES, USUAL_REPORT,
    USUAL_SCHEDULE, USUAL_SETTLED,
};
use answer_workers::NoGate;
use std::alloc::{AllocError, Global};
use std::process::Abort;
use std::sync::Wait;
use std::test::Fail;
use std::thread::Threads;

// The status of a run, and how many bytes it leaves, where they are a front of the text.
fn front_left<R: Threads + Wait + Sync>(
    rt: &R,
    alloc: Global,
    words: &[&str],
    texts: Texts,
    edges: Edges,
    text: &[u8],
) -> Result<Option<(u8, usize)>, AllocError> {
    let (status, bytes) = run(rt, &NoGate, alloc, words, texts, edges)?;
    let is_front = text.starts_with(bytes.as_slice());
    Ok(if is_front {
        Some((status, bytes.len()))
    } else {
        None
    })
}

// Whether the write behind so many is tried: of the many writes of one byte that a long text takes,
// every ninth.
fn is_tried(takes: u64, long: usize, before: usize) -> bool {
    takes != 1 || long <= 100 || before % 9 == 2 || before == long
}

// The first write of a run that fails in another way than it should, where there is one, as the
// number of writes before it. It should leave the sink with what they wrote, a front of the text,
// and end a run that isn't refused with 6.
fn wrong_write<R: Threads + Wait + Sync>(
    rt: &R,
    alloc: Global,
    words: &[&str],
    texts: Texts,
    way: (u64, bool),
    want: (u8, &[u8]),
) -> Result<Option<usize>, AllocError> {
    let (takes, fails) = way;
    let (status_due, text) = want;
    let cut = if status_due == 0 { 6 } else { status_due };
    let mut held = 0usize;
    for before in 0..=text.len() {
        if !is_tried(takes, text.len(), before) {
            continue;
        }
        let number = [(before as u64).saturating_add(1)];
        let edges = Edges {
            gives: WHOLE,
            takes,
            reads: &[],
            writes: if fails { &number } else { &[] },
            empty: if fails { &[] } else { &number },
        };
        let Some((status, count)) = front_left(rt, alloc, words, texts, edges, text)? else {
            return Ok(Some(before));
        };
        let goes_on = if before == 0 {
            count == 0
        } else {
            count > held
        };
        let due = if count == text.len() { status_due } else { cut };
        if !goes_on || takes == 1 && count != before || status != due {
            return Ok(Some(before));
        }
        held = count;
        if held == text.len() {
            return Ok(None);
        }
    }
    Ok(Some(held))
}

// The most bytes of a write, and whether the write fails or takes nothing.
type Ways = &'static [(u64, bool)];

const ALL_WAYS: Ways = &[(1, true), (1, false), (WHOLE, true), (WHOLE, false)];

const LONG_WAYS: Ways = &[(1, true), (WHOLE, false)];

const SLOW_WAYS: Ways = &[(WHOLE, true)];

// The words of a run, its files, and the status and the text that are due, by the ways that are
// tried.
type Written = (
    &'static [&'static str],
    Ways,
    Texts<'static>,
    (u8, &'static [u8]),
);

fn writes_end<R: Threads + Wait + Sync + Abort>(
    rt: &R,
    alloc: Global,
    due: &Written,
) -> Result<(), AllocError> {
    let (words, ways, texts, want) = *due;
    for way in ways {
        let wrong = wrong_write(rt, alloc, words, texts, *way, want)?;
        same_of(rt, &words, wrong, None);
    }
    Ok(())
}

// In each of its ways, each write of a run that is to be tried fails, or takes nothing.
fn all_writes_end<R: Threads + Wait + Sync + Abort>(
    rt: &R,
    alloc: Global,
    runs: &[Written],
) -> Result<(), AllocError> {
    for due in runs {
        writes_end(rt, alloc, due)?;
    }
    Ok(())
}

const USUAL_PRICED: Texts<'static> = (USUAL, USUAL_SCHEDULE, USUAL_PRICES);

const USUAL_MIXED: Texts<'static> = (USUAL, USUAL_SCHEDULE, USUAL_MIXTURE);

const ALL_WRITES: &[Written] = &[
    (&CHECK, ALL_WAYS, TWO_UNITS_REPORTED, (0, TWO_UNITS_CHECK)),
    (&PRICE, LONG_WAYS, TWO_UNITS_REPORTED, (0, TWO_UNITS_REPORT)),
    (
        &BOUND,
        LONG_WAYS,
        TWO_UNITS_REPORTED,
        (0, TWO_PROPOSALS_BOUND),
    ),
    (
        &FIXED,
        LONG_WAYS,
        TWO_UNITS_REPORTED,
        (0, TWO_PROPOSALS_FIXED),
    ),
    (&TRY_ONE, SLOW_WAYS, TWO_UNITS_REPORTED, (0, TRY_FIRST)),
    (&AUDIT, ALL_WAYS, TWO_UNITS_REPORTED, (0, RIGHT)),
    (&SETTLE, ALL_WAYS, USUAL_PRICED, (0, USUAL_SETTLED)),
    (&CERTIFY, ALL_WAYS, USUAL_MIXED, (0, USUAL_CERTIFIED)),
    (
        &CONVEX_ONCE,
        LONG_WAYS,
        (SMALLEST, SMALLEST_SCHEDULE, b""),
        (0, SMALLEST_FOUND),
    ),
];

#[test]
fn a_failing_write_ends_a_run(rt: HostRuntime) -> Result<(), Fail> {
    Ok(all_writes_end(&rt, rt.alloc(), ALL_WRITES)?)
}

const CUT: Texts<'static> = ("{\"time_periods\":1", "{}", b"");

const CUT_LINE: (u8, &[u8]) = (3, b"fault 3 case 10 at 17\n");

// A mixture of which G1 gives 1 kW less than its minimum.
const TOO_LITTLE: &[u8] = b"{\"weight\":1,\"thermal\":{\"G1\":\
[{\"weight\":1,\"on\":[1],\"power\":[7999],\"reserve\":[2000]}]}}";

const ALL_REFUSALS: &[Written] = &[
    (
        &[],
        ALL_WAYS,
        TWO_UNITS_REPORTED,
        (1, b"fault 1 words 1 0\n"),
    ),
    (
        &["check", "--case", "c", "--schedule", "t"],
        ALL_WAYS,
        TWO_UNITS_REPORTED,
        (2, b"fault 2 read schedule\n"),
    ),
    (&CHECK, ALL_WAYS, CUT, CUT_LINE),
    (&PRICE, ALL_WAYS, CUT, CUT_LINE),
    (&BOUND, ALL_WAYS, CUT, CUT_LINE),
    (&FIXED, ALL_WAYS, CUT, CUT_LINE),
    (&AUDIT, ALL_WAYS, CUT, CUT_LINE),
    (&SETTLE, ALL_WAYS, CUT, CUT_LINE),
    (&CERTIFY, ALL_WAYS, CUT, CUT_LINE),
    (&CONVEX_ONCE, ALL_WAYS, CUT, CUT_LINE),
    (
        &SETTLE,
        ALL_WAYS,
        (USUAL, USUAL_SCHEDULE, b"[1,]"),
        (9, b"fault 9 prices 10 at 3\n"),
    ),
    (
        &SETTLE,
        ALL_WAYS,
        (USUAL, USUAL_SCHEDULE, b"{\"energy\":[98,98]}"),
        (9, b"fault 9 prices 25 field energy item 0\n"),
    ),
    (
        &CERTIFY,
        ALL_WAYS,
        (USUAL, USUAL_SCHEDULE, b"{\"weight\":1,}"),
        (10, b"fault 10 mixture 10 at 12\n"),
    ),
    (
        &CERTIFY,
        ALL_WAYS,
        (USUAL, USUAL_SCHEDULE, TOO_LITTLE),
        (
            10,
            b"fault 10 mixture 48 kind thermal unit 1 entry 1 period 1 left 8000 right 7999\n",
        ),
    ),
    (
        &CHECK,
        ALL_WAYS,
        (SMALLEST, "[1,]", b""),
        (4, b"fault 4 schedule 10 at 3\n"),
    ),
    (
        &["try", "7", "--proposals", "6765"],
        ALL_WAYS,
        TWO_UNITS_REPORTED,
        (5, b"fault 5 work 6765 154 48\n"),
    ),
    (
        &AUDIT,
        ALL_WAYS,
        (TWO_UNITS, TWO_UNITS_SCHEDULE, USUAL_REPORT),
        (8, b"fault 8 report 61 at 6\n"),
    ),
];

// Each write of the line of a refusal fails in turn, or takes nothing, and the status stays.
#[test]
fn a_failing_write_leaves_a_refusal(rt: HostRuntime) -> Result<(), Fail> {
    Ok(all_writes_end(&rt, rt.alloc(), ALL_REFUSALS)?)
}
