//! Searches for convex hull prices over the cases of `examples/convex`, one text behind another. The
//! gate has two compilers build this program and holds what each prints against one text. So both
//! have to add, multiply and compare floating-point numbers alike.
#![tactic(auto)]

use answer_workers::NoGate;
use hull_engine::hull_run;
use hull_io::{FileShelf, StdSink};
use std::alloc::{AllocError, Global};
use std::io;
use std::process::ExitCode;

/// The words of each search.
const SEARCHES: [&[&str]; 7] = [
    &[
        "convex",
        "--case=dear_schedule.case.json",
        "--schedule=dear_schedule.schedule.json",
    ],
    &[
        "convex",
        "--case=evening.case.json",
        "--schedule=evening.schedule.json",
        "--within=1000",
    ],
    &[
        "convex",
        "--case=first.case.json",
        "--schedule=first.schedule.json",
        "--within=0",
    ],
    &[
        "convex",
        "--case=scarf.case.json",
        "--schedule=scarf.schedule.json",
        "--within=30000",
    ],
    &[
        "convex",
        "--case=two_units.case.json",
        "--schedule=two_units.schedule.json",
        "--within=100",
    ],
    &[
        "convex",
        "--case=usual.case.json",
        "--schedule=usual.schedule.json",
        "--within=0",
    ],
    &[
        "convex",
        "--case=windows.case.json",
        "--schedule=windows.schedule.json",
        "--within=600000",
    ],
];

fn words_in(alloc: Global, words: &[&str]) -> Result<Vec<String>, AllocError> {
    let mut list = Vec::new(alloc);
    for word in words {
        list.push(String::from_str(alloc, word)?)?;
    }
    Ok(list)
}

/// Ends with the status of the first search that gives no text, and with 7 where there is no memory
/// for its words.
fn main(rt: HostRuntime) -> ExitCode {
    let mut shelf = FileShelf::new(&rt);
    let mut out = StdSink::new(io::writer(&rt));
    for search in &SEARCHES {
        let Ok(words) = words_in(rt.alloc(), search) else {
            return ExitCode::from(7);
        };
        let status = hull_run(
            &rt,
            rt.alloc(),
            words.as_slice(),
            &mut shelf,
            &mut out,
            &NoGate,
        );
        if status != 0 {
            return ExitCode::from(status);
        }
    }
    ExitCode::from(0)
}
