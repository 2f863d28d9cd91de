//! `hull`: runs the command of its words over real files, and writes to standard output.
#![tactic(auto)]

use answer_workers::NoGate;
use hull_engine::hull_run;
use hull_io::{FileShelf, StdSink, argument_words};
use std::io;
use std::process::ExitCode;

/// Ends with the status of the run, and with 7 where there is no memory for the words.
fn main(rt: HostRuntime) -> ExitCode {
    let Ok(words) = argument_words(&rt) else {
        return ExitCode::from(7);
    };
    let mut shelf = FileShelf::new(&rt);
    let mut out = StdSink::new(io::writer(&rt));
    ExitCode::from(hull_run(
        &rt,
        rt.alloc(),
        words.as_slice(),
        &mut shelf,
        &mut out,
        &NoGate,
    ))
}
