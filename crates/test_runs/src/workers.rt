//! Workers that answer at once.

use crate::runs::{SHORT, run};
use crate::same::same;
use crate::texts::{TWO_UNITS, TWO_UNITS_REPORT, TWO_UNITS_SCHEDULE};
use answer_workers::Gate;
use std::alloc::{AllocError, Global};
use std::process::Abort;
use std::sync::Wait;
use std::sync::atomic::{AtomicU64, Ordering};
use std::test::Fail;
use std::thread;
use std::thread::Threads;

const FOUR_IDLE: &str = "\
{\"time_periods\":1,\"demand\":[0],\"reserves\":[0],\"thermal_generators\":{},\
\"renewable_generators\":{\
\"A\":{\"power_output_minimum\":[0],\"power_output_maximum\":[0]},\
\"B\":{\"power_output_minimum\":[0],\"power_output_maximum\":[0]},\
\"C\":{\"power_output_minimum\":[0],\"power_output_maximum\":[0]},\
\"D\":{\"power_output_minimum\":[0],\"power_output_maximum\":[0]}}}";

const FOUR_IDLE_SCHEDULE: &str =
    "{\"thermal\":{},\"renewable\":{\"A\":[0],\"B\":[0],\"C\":[0],\"D\":[0]}}";

const MOST_LOOKS: u32 = 100_000_000;

// Holds the first proposal's units before the last one until that one's answer was posted, and
// counts those that were held to the limit of looks: none where as many workers as units answer at
// once, and no lock is held from a claim to its post.
#[derive(Drop)]
struct Held {
    last: u32,
    freed: AtomicU64,
    late: AtomicU64,
}

impl Gate for Held {
    fn between(&self, _caller: u32, proposal: u32, unit: u32) {
        if proposal != 1 || unit >= self.last {
            return;
        }
        for _ in 0..MOST_LOOKS {
            if self.freed.load(Ordering::SeqCst) > 0 {
                return;
            }
            thread::yield_now();
        }
        self.late.fetch_add(1, Ordering::SeqCst);
    }

    fn after(&self, _caller: u32, proposal: u32, unit: u32) {
        if proposal == 1 && unit == self.last {
            self.freed.store(1, Ordering::SeqCst);
        }
    }
}

fn held_up_to(last: u32) -> Held {
    Held {
        last,
        freed: AtomicU64::new(0),
        late: AtomicU64::new(0),
    }
}

// What so many workers print of one proposal on a case and its schedule, held up to the last of its units. None was
// held to the limit of looks.
fn run_held<R: Threads + Wait + Sync + Abort>(
    rt: &R,
    alloc: Global,
    last: u32,
    workers: &str,
    files: (&str, &str),
) -> Result<Vec<u8>, AllocError> {
    let gate = held_up_to(last);
    let words = [
        "price",
        "--case=c",
        "--schedule=s",
        "--proposals=1",
        "--ahead=1",
        workers,
    ];
    let (case, schedule) = files;
    let texts = (case, schedule, b"".as_slice());
    let (status, bytes) = run(rt, &gate, alloc, &words, texts, SHORT)?;
    same(rt, gate.late.load(Ordering::SeqCst), 0);
    same(rt, status, 0);
    Ok(bytes)
}

#[test]
fn two_workers_answer_at_once(rt: HostRuntime) -> Result<(), Fail> {
    let files = (TWO_UNITS, TWO_UNITS_SCHEDULE);
    let bytes = run_held(&rt, rt.alloc(), 1, "--workers=2", files)?;
    same(&rt, bytes.as_slice(), TWO_UNITS_REPORT);
    Ok(())
}

#[test]
fn four_workers_answer_at_once(rt: HostRuntime) -> Result<(), Fail> {
    let files = (FOUR_IDLE, FOUR_IDLE_SCHEDULE);
    let bytes = run_held(&rt, rt.alloc(), 3, "--workers=4", files)?;
    let mut lines = bytes.as_slice().split(|byte| *byte == b'\n');
    assert!(rt; lines.any(|line| line == b"chosen 1 value 0".as_slice()));
    Ok(())
}
