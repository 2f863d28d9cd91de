//! The top call: a command's text for the files that its words name, or the line of the first
//! fault.
#![tactic(auto)]

ghost use Rattle.std.specs.Prelude.{◌≡◌, ◌≤◌, None};
ghost use Rattle.hull_io.specs.Edge.{Rose, Gains, FallsShort};
ghost use Rattle.hull_words.specs.Words.{texts, words_of};
ghost use Rattle.hull_fault.specs.declared.fault.FileKind.{FileKind};
ghost use Rattle.hull_command.specs.Outcome.{command_for, IsOutcome};
ghost use Rattle.hull_input.specs.Answers.{IsLaterShelf};

mod answers;
mod audit;
mod end;
mod workers;

use answer_workers::Gate;
pub use end::finish_run;
use end::run_prepared_command;
use hull_command::{Before, hull_before_run};
use hull_io::{Shelf, Sink};
use std::alloc::Global;
use std::sync::Wait;
use std::thread::Threads;
pub use workers::useful_workers;

/// Runs the command that the words give, and answers its status: 0 where its text was written
/// whole, and otherwise the status of the one fault line that was written, or 6 where the sink
/// failed within the text.
///
/// What that says of a run is one relation, `IsOutcome` in hull_command's specs/Outcome.antt, to be read from top
/// to bottom. The crate law_outcome has what follows from it: the cause of each status; that at most
/// one thing is due; that what was read decides, unless a count of faults rose or memory ran out;
/// and what a printed report promises. It names no workers: of the same words but for their number,
/// over files that are told alike, at most one text may be printed, whatever the gate. Of `convex`
/// it isn't said which prices are found.
pub fn hull_run<R: Threads + Wait + Sync, F: Shelf, S: Sink, G: Gate>(
    rt: &R,
    alloc: Global,
    words: &[String],
    shelf: &mut F,
    out: &mut S,
    gate: &G,
) -> u8
    ensures outcome { IsOutcome (texts words.now) (F.told shelf.old)
        (λ name. Rose F.last (F.faults shelf.old name) (F.faults shelf.new name))
        (Gains S.held S.faults out.old out.new)
        (FallsShort S.held S.faults S.last out.old out.new) result }

    // What is told of the files stays so and no count falls. Where no file is to be read, the shelf
    // is left as it was.
    ensures shelf { IsLaterShelf F.told F.faults shelf.old shelf.new }
    ensures sink { S.faults out.old ≤ S.faults out.new }
    ensures unread { ((file : FileKind)
        → (command_for (words_of (texts words.now))).name_of file ≡ None)
        → shelf.new ≡ shelf.old }
{
    match hull_before_run(alloc, words, shelf, out) {
        Before::Ended(end) => end.status(),
        Before::Ready(ready) => {
            let workers = useful_workers(rt, ready.terms.callers);
            run_prepared_command(rt, alloc, ready, workers, out, gate).status()
        }
    }
}
