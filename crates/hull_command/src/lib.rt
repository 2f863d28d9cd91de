//! A command but for its runs: its words, its files and each refusal up to the opening of a run, and
//! what is written of its answer. Of `hull check`, `hull settle`, `hull certify` and `hull convex`
//! that is all.
//!
//! No thread is started here, and nothing is waited for.
#![tactic(auto)]

ghost use Rattle.std.specs.Prelude.{◌≡◌, ◌≤◌, None};
ghost use Rattle.hull_io.specs.Edge.{Rose, Gains, FallsShort};
ghost use Rattle.hull_words.specs.Words.{texts, words_of};
ghost use Rattle.hull_fault.specs.declared.fault.FileKind.{FileKind};
ghost use Rattle.hull_input.specs.Answers.{IsLaterShelf};
ghost use Rattle.hull_command.specs.Outcome.{command_for};
ghost use Rattle.hull_command.specs.Rest.{IsBefore, IsUntouched};

mod answer;
mod certify;
mod convex;
mod end;
pub mod laws;
mod prepare;
mod ready;
mod settle;

pub use answer::Answer;
pub use end::{End, finish, write_price_report};
use hull_input::laws::some_reads_of_files_exist;
use hull_io::{Shelf, Sink};
use prepare::{answer_or_prepare_command, command_of_words};
pub use ready::{Before, Purpose, Ready};
use std::alloc::Global;

/// Does all of a command that comes before a run: its words, its files and each refusal up to the
/// opening of the run; of `hull check`, `hull settle`, `hull certify` and `hull convex` that is all.
/// It answers how the command has ended, or else what is left to be run, with nothing written yet.
/// It starts no thread and waits for none, so it is proved to return where each read of the shelf
/// and each write of the sink does.
pub fn hull_before_run<F: Shelf, S: Sink>(
    alloc: Global,
    words: &[String],
    shelf: &mut F,
    out: &mut S,
) -> Before
    ensures before { IsBefore (words_of (texts words.now)) (F.told shelf.old)
        (λ name. Rose F.last (F.faults shelf.old name) (F.faults shelf.new name))
        (Gains S.held S.faults out.old out.new)
        (FallsShort S.held S.faults S.last out.old out.new) result }
    ensures shelf { IsLaterShelf F.told F.faults shelf.old shelf.new }
    ensures sink { S.faults out.old ≤ S.faults out.new }
    ensures unread { ((file : FileKind)
        → (command_for (words_of (texts words.now))).name_of file ≡ None)
        → shelf.new ≡ shelf.old }
    ensures unwritten { IsUntouched result (out.new ≡ out.old) }
{
    some_reads_of_files_exist::<F>();
    match command_of_words(alloc, words) {
        Ok(command) => answer_or_prepare_command(alloc, shelf, &command, out),
        Err(fault) => Before::Ended(finish(Err(fault), out)),
    }
}
