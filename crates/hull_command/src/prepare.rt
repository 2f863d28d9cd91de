//! What a command comes to before a run: its words, its input and its answer, up to the first refusal.
//! Nothing here starts a thread or waits.
ghost use Rattle.std.specs.Prelude.{◌≡◌, ◌≤◌, Ok, None, IfOk, IfErr};
ghost use Rattle.gap_proof.specs.PlaneSums.{IsRadius};
ghost use Rattle.hull_io.specs.Edge.{Rose, Gains, FallsShort};
ghost use Rattle.hull_words.specs.Asked.{asked, check, try, audit, settle, certify, convex};
ghost use Rattle.hull_words.specs.Asked.{check_asked, settle_asked, convex_asked};
ghost use Rattle.hull_words.specs.Words.{texts, words_of};
ghost use Rattle.hull_fault.specs.declared.fault.FileKind.{FileKind};
ghost use Rattle.hull_input.specs.Answers.{IsFaultOf, IsLaterShelf, HasReads};
ghost use Rattle.hull_input.specs.Files.{Reads};
ghost use Rattle.hull_input.specs.Planned.{planned_of, IsPlanned};
ghost use Rattle.hull_input.specs.Sizes.{IsWorkers, IsRunSize, IsSearchSize};
ghost use Rattle.hull_command.specs.FurtherSteps.{made_case};
ghost use Rattle.hull_command.specs.Inputs.{try_asked, audit_asked, certify_asked};
ghost use Rattle.hull_command.specs.Outcome.{command_for};
ghost use Rattle.hull_command.specs.Answers.{IsAnswered};
ghost use Rattle.hull_command.specs.Rest.{HasAnswer, IsReadied, HasReadied, IsReady, IsFitPurpose};
ghost use Rattle.hull_command.specs.Rest.{IsOfInputAlone, run_with, IsBefore, IsUntouched};
ghost use Rattle.hull_command.specs.Sizes.{HasSizes};

use crate::answer::Answer;
use crate::certify::certify_by_mixture;
use crate::convex::find_convex_prices;
use crate::end::{finish, pass_on_run_or_write_fault};
use crate::ready::{Before, Purpose, Ready};
use crate::settle::settle_schedule_at_prices;
use case_make::make_case;
use hull_fault::TopFault;
use hull_input::laws::report_bytes_are_its_text;
use hull_input::{
    Input, MixedInput, ReportedRun, read_audit_input, read_case_and_schedule, read_certify_input,
    read_convex_input, read_pricing_run_input, read_settle_input, run_terms_within_work_limit,
};
use hull_io::{Shelf, Sink};
use hull_words::{
    AuditWords, CertifyWords, CheckWords, Command, ConvexWords, PriceWords, SettleWords, TryWords,
    WordError, read_words,
};
use plan_check::costs::cost_of_plan;
use std::alloc::{AllocError, Global};
use uc_model::laws::feasible_plans_have_shape;

/// The command that the words give.
pub fn command_of_words(alloc: Global, words: &[String]) -> Result<Command, TopFault>
    ensures given { IfOk result (λ c. words_of (texts words.now) ≡ Ok (asked c)) }
    ensures sizes { IfOk result (λ c. HasSizes (asked c)) }
    ensures refused { IfErr result (λ f. (reads : Reads)
        → IsFaultOf ((command_for (words_of (texts words.now))).IsDue reads) f) }
{
    match read_words(alloc, words) {
        Ok(command) => Ok(command),
        Err(WordError::Fault(fault)) => Err(TopFault::Words(fault)),
        Err(WordError::Memory) => Err(TopFault::Memory),
    }
}

/// What `hull check` answers.
fn answer_check<F: Shelf>(
    alloc: Global,
    shelf: &mut F,
    words: &CheckWords,
) -> Result<Answer, TopFault>
    ensures answers { HasAnswer F.told F.faults F.last shelf.old shelf.new
        (Ok (check (check_asked words.now))) result }
    ensures answered { IfOk result (λ answer. IsAnswered answer) }
    ensures shelf { IsLaterShelf F.told F.faults shelf.old shelf.new }
{
    let case_name = words.case_name.as_str();
    let schedule_name = words.schedule_name.as_str();
    let input = read_case_and_schedule(alloc, shelf, case_name, schedule_name)?;
    Ok(Answer::Check(input))
}

/// What a command runs on a case and its schedule, for such a purpose.
fn prepare_pricing_run<F: Shelf>(
    alloc: Global,
    shelf: &mut F,
    words: &PriceWords,
    purpose: Purpose,
) -> Result<Ready, TopFault>
    requires size { IsRunSize words.now.proposals words.now.ahead words.now.workers }
    requires purpose { IsFitPurpose purpose }
    requires input { IsOfInputAlone purpose }
    ensures prepared { HasReads (F.told shelf.old)
        (λ name. Rose F.last (F.faults shelf.old name) (F.faults shelf.new name))
        (run_with words.now purpose).name_of
        (λ reads. IsReadied (run_with words.now purpose) reads result) }
    ensures ready { IfOk result IsReady }
    ensures shelf { IsLaterShelf F.told F.faults shelf.old shelf.new }
{
    // (by a match, which is cheaper to prove here than `?`)
    match read_pricing_run_input(alloc, shelf, words) {
        Ok(terms) => Ok(Ready { purpose, terms }),
        Err(fault) => Err(fault),
    }
}

/// The case and the feasible schedule that a number stands for.
fn generated_case_and_schedule(alloc: Global, number: u64) -> Result<Input, AllocError>
    ensures made { IfOk result (λ input. planned_of input ≡ made_case number) }
    ensures planned { IfOk result (λ input. IsPlanned input) }
{
    feasible_plans_have_shape();
    let (case, plan) = make_case(alloc, number)?;
    let cost = cost_of_plan(&case, &plan);
    Ok(Input { case, plan, cost })
}

/// What `hull try` runs.
fn prepare_try(alloc: Global, words: &TryWords) -> Result<Ready, TopFault>
    requires { IsRunSize words.now.proposals words.now.ahead words.now.workers }
    ensures prepared { (reads : Reads)
        → IsReadied (command_for (Ok (try (try_asked words.now)))) reads result }
    ensures ready { IfOk result IsReady }
{
    let Ok(input) = generated_case_and_schedule(alloc, words.number) else {
        return Err(TopFault::Memory);
    };
    let terms = run_terms_within_work_limit(input, words.proposals, words.ahead, words.workers)?;
    let purpose = Purpose::Try(words.number);
    Ok(Ready { purpose, terms })
}

/// What `hull audit` runs. The limit of work is that of a run with the report's own budget.
fn prepare_audit<F: Shelf>(
    alloc: Global,
    shelf: &mut F,
    words: &AuditWords,
) -> Result<Ready, TopFault>
    requires { IsWorkers words.now.workers }
    ensures prepared { HasReadied F.told F.faults F.last shelf.old shelf.new
        (Ok (audit (audit_asked words.now))) result }
    ensures ready { IfOk result IsReady }
    ensures shelf { IsLaterShelf F.told F.faults shelf.old shelf.new }
{
    report_bytes_are_its_text();
    let reported = read_audit_input(alloc, shelf, words)?;
    let ReportedRun { terms, report } = reported;
    let purpose = Purpose::Audit(report);
    Ok(Ready { purpose, terms })
}

/// What `hull settle` answers.
fn answer_settle<F: Shelf>(
    alloc: Global,
    shelf: &mut F,
    words: &SettleWords,
) -> Result<Answer, TopFault>
    ensures answers { HasAnswer F.told F.faults F.last shelf.old shelf.new
        (Ok (settle (settle_asked words.now))) result }
    ensures answered { IfOk result (λ answer. IsAnswered answer) }
    ensures shelf { IsLaterShelf F.told F.faults shelf.old shelf.new }
{
    let priced = read_settle_input(alloc, shelf, words)?;
    let settled = settle_schedule_at_prices(alloc, priced)?;
    Ok(Answer::Settle(settled))
}

/// What `hull certify` answers.
fn answer_certify<F: Shelf>(
    alloc: Global,
    shelf: &mut F,
    words: &CertifyWords,
) -> Result<Answer, TopFault>
    requires { IsRadius words.now.radius }
    ensures answers { HasAnswer F.told F.faults F.last shelf.old shelf.new
        (Ok (certify (certify_asked words.now))) result }
    ensures answered { IfOk result (λ answer. IsAnswered answer) }
    ensures shelf { IsLaterShelf F.told F.faults shelf.old shelf.new }
{
    let mixed = read_certify_input(alloc, shelf, words)?;
    let MixedInput { priced, mixture } = mixed;
    let certified = certify_by_mixture(alloc, priced, &mixture, words.radius)?;
    Ok(Answer::Certify(certified))
}

/// What `hull convex` answers.
fn answer_convex<F: Shelf>(
    alloc: Global,
    shelf: &mut F,
    words: &ConvexWords,
) -> Result<Answer, TopFault>
    requires { IsSearchSize words.now.within words.now.rounds }
    ensures answers { HasAnswer F.told F.faults F.last shelf.old shelf.new
        (Ok (convex (convex_asked words.now))) result }
    ensures answered { IfOk result (λ answer. IsAnswered answer) }
    ensures shelf { IsLaterShelf F.told F.faults shelf.old shelf.new }
{
    let search = read_convex_input(alloc, shelf, words)?;
    let found = find_convex_prices(alloc, search, words.within)?;
    Ok(Answer::Convex(found))
}

/// Does all of a command that comes before a run. It answers how the command has ended, or else what
/// is left to be run, with nothing written yet.
pub fn answer_or_prepare_command<F: Shelf, S: Sink>(
    alloc: Global,
    shelf: &mut F,
    command: &Command,
    out: &mut S,
) -> Before
    requires { HasSizes (asked command.now) }
    ensures before { IsBefore (Ok (asked command.now)) (F.told shelf.old)
        (λ name. Rose F.last (F.faults shelf.old name) (F.faults shelf.new name))
        (Gains S.held S.faults out.old out.new)
        (FallsShort S.held S.faults S.last out.old out.new) result }
    ensures shelf { IsLaterShelf F.told F.faults shelf.old shelf.new }
    ensures sink { S.faults out.old ≤ S.faults out.new }
    ensures unread { ((file : FileKind)
        → (command_for (Ok (asked command.now))).name_of file ≡ None)
        → shelf.new ≡ shelf.old }
    ensures unwritten { IsUntouched result (out.new ≡ out.old) }
{
    match command {
        Command::Check(words) => Before::Ended(finish(answer_check(alloc, shelf, words), out)),
        Command::Price(words) => pass_on_run_or_write_fault(
            prepare_pricing_run(alloc, shelf, words, Purpose::Price),
            out,
        ),
        Command::Try(words) => pass_on_run_or_write_fault(prepare_try(alloc, words), out),
        Command::Bound(words) => {
            let purpose = Purpose::Bound(words.radius);
            pass_on_run_or_write_fault(prepare_pricing_run(alloc, shelf, &words.run, purpose), out)
        }
        Command::Fixed(words) => pass_on_run_or_write_fault(
            prepare_pricing_run(alloc, shelf, words, Purpose::Fixed),
            out,
        ),
        Command::Audit(words) => pass_on_run_or_write_fault(
            prepare_audit(alloc, shelf, words),
            out,
        ),
        Command::Settle(words) => Before::Ended(finish(answer_settle(alloc, shelf, words), out)),
        Command::Certify(words) => Before::Ended(finish(answer_certify(alloc, shelf, words), out)),
        Command::Convex(words) => Before::Ended(finish(answer_convex(alloc, shelf, words), out)),
    }
}
