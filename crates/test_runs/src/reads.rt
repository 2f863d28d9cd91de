//! Reads that fail.

use crate::runs::{Edges, SHORT, WHOLE, run};
use crate::same::same_of;
use crate::texts::{
    AUDIT, BOUND, CERTIFY, CHECK, CONVEX_ONCE, FIXED, PRICE, RIGHT, SETTLE, SMALLEST,
    SMALLEST_FOUND, SMALLEST_SCHEDULE, TRY_FIRST, TRY_ONE, TWO_PROPOSALS_BOUND,
    TWO_PROPOSALS_FIXED, TWO_UNITS, TWO_UNITS_CHECK, TWO_UNITS_REPORT, TWO_UNITS_REPORTED,
    TWO_UNITS_SCHEDULE, Texts, USUAL, USUAL_CERTIFIED, USUAL_MIXTURE, USUAL_PRICES, USUAL_SCHEDULE,
    USUAL_SETTLED,
};
use answer_workers::NoGate;
use std::alloc::{AllocError, Global};
use std::process::Abort;
use std::sync::Wait;
use std::test::Fail;
use std::thread::Threads;

// The files that a command reads, each by its bytes and the line of its fault.
type Parts = &'static [(u64, &'static [u8])];

// A run, its files, those that it reads in their order, and the text that is due.
struct Reading {
    words: &'static [&'static str],
    texts: Texts<'static>,
    parts: Parts,
    text: &'static [u8],
}

// Whether a run whose read of that number fails has that status, and leaves that text.
fn ends_by_read<R: Threads + Wait + Sync>(
    rt: &R,
    alloc: Global,
    due: &Reading,
    number: u64,
    edges: Edges,
    want: (u8, &[u8]),
) -> Result<bool, AllocError> {
    let reads = [number];
    let failing = Edges {
        reads: &reads,
        ..edges
    };
    let (status, bytes) = run(rt, &NoGate, alloc, due.words, due.texts, failing)?;
    Ok(status == want.0 && bytes.as_slice() == want.1)
}

// The first read of a run that fails in another way than it should, where there is one. It should
// end the run with the line of its own file, or with none where that can't be written, and a run
// of which no read fails with its text.
fn wrong_read<R: Threads + Wait + Sync>(
    rt: &R,
    alloc: Global,
    due: &Reading,
    edges: Edges,
) -> Result<Option<u64>, AllocError> {
    let told = edges.writes.is_empty();
    let mut number = 1u64;
    for (bytes, line) in due.parts {
        let line = if told { *line } else { b"".as_slice() };
        // The last read of a file gives none.
        let count = bytes.div_ceil(edges.gives.max(1)).saturating_add(1);
        for _ in 0..count {
            if !ends_by_read(rt, alloc, due, number, edges, (2, line))? {
                return Ok(Some(number));
            }
            number = number.saturating_add(1);
        }
    }
    let edges = Edges {
        writes: &[],
        ..edges
    };
    let right = ends_by_read(rt, alloc, due, number, edges, (0, due.text))?;
    Ok(if right { None } else { Some(number) })
}

const NO_PARTS: Parts = &[];

const TWO_PARTS: Parts = &[
    (TWO_UNITS.len() as u64, b"fault 2 read case\n"),
    (TWO_UNITS_SCHEDULE.len() as u64, b"fault 2 read schedule\n"),
];

const THREE_PARTS: Parts = &[
    (TWO_UNITS.len() as u64, b"fault 2 read case\n"),
    (TWO_UNITS_SCHEDULE.len() as u64, b"fault 2 read schedule\n"),
    (TWO_UNITS_REPORT.len() as u64, b"fault 2 read report\n"),
];

const PRICED_PARTS: Parts = &[
    (USUAL.len() as u64, b"fault 2 read case\n"),
    (USUAL_SCHEDULE.len() as u64, b"fault 2 read schedule\n"),
    (USUAL_PRICES.len() as u64, b"fault 2 read prices\n"),
];

const MIXED_PARTS: Parts = &[
    (USUAL.len() as u64, b"fault 2 read case\n"),
    (USUAL_SCHEDULE.len() as u64, b"fault 2 read schedule\n"),
    (USUAL_PRICES.len() as u64, b"fault 2 read prices\n"),
    (USUAL_MIXTURE.len() as u64, b"fault 2 read mixture\n"),
];

const SMALLEST_PARTS: Parts = &[
    (SMALLEST.len() as u64, b"fault 2 read case\n"),
    (SMALLEST_SCHEDULE.len() as u64, b"fault 2 read schedule\n"),
];

const ALL_READS: &[Reading] = &[
    Reading {
        words: &CHECK,
        texts: TWO_UNITS_REPORTED,
        parts: TWO_PARTS,
        text: TWO_UNITS_CHECK,
    },
    Reading {
        words: &PRICE,
        texts: TWO_UNITS_REPORTED,
        parts: TWO_PARTS,
        text: TWO_UNITS_REPORT,
    },
    Reading {
        words: &BOUND,
        texts: TWO_UNITS_REPORTED,
        parts: TWO_PARTS,
        text: TWO_PROPOSALS_BOUND,
    },
    Reading {
        words: &FIXED,
        texts: TWO_UNITS_REPORTED,
        parts: TWO_PARTS,
        text: TWO_PROPOSALS_FIXED,
    },
    Reading {
        words: &TRY_ONE,
        texts: TWO_UNITS_REPORTED,
        parts: NO_PARTS,
        text: TRY_FIRST,
    },
    Reading {
        words: &AUDIT,
        texts: TWO_UNITS_REPORTED,
        parts: THREE_PARTS,
        text: RIGHT,
    },
    Reading {
        words: &SETTLE,
        texts: (USUAL, USUAL_SCHEDULE, USUAL_PRICES),
        parts: PRICED_PARTS,
        text: USUAL_SETTLED,
    },
    Reading {
        words: &CERTIFY,
        texts: (USUAL, USUAL_SCHEDULE, USUAL_MIXTURE),
        parts: MIXED_PARTS,
        text: USUAL_CERTIFIED,
    },
    Reading {
        words: &CONVEX_ONCE,
        texts: (SMALLEST, SMALLEST_SCHEDULE, b""),
        parts: SMALLEST_PARTS,
        text: SMALLEST_FOUND,
    },
];

// The most bytes that a read gives, and the writes that fail beside it.
const READ_WAYS: &[(u64, &[u64])] = &[(WHOLE, &[]), (WHOLE, &[1]), (64, &[])];

fn reads_end<R: Threads + Wait + Sync + Abort>(
    rt: &R,
    alloc: Global,
    due: &Reading,
) -> Result<(), AllocError> {
    for (gives, writes) in READ_WAYS {
        let edges = Edges {
            gives: *gives,
            takes: WHOLE,
            writes,
            ..SHORT
        };
        let wrong = wrong_read(rt, alloc, due, edges)?;
        same_of(rt, &due.words, wrong, None);
    }
    Ok(())
}

// Each read of each command fails in turn, with whole reads and with short ones.
#[test]
fn a_failing_read_ends_a_run(rt: HostRuntime) -> Result<(), Fail> {
    for due in ALL_READS {
        reads_end(&rt, rt.alloc(), due)?;
    }
    Ok(())
}
