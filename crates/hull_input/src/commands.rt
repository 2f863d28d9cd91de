//! What the words of a command name, read one file after another.
ghost use Rattle.std.specs.Prelude.{◌≡◌, IfOk, IfSome};
ghost use Rattle.uc_model.specs.PlainCases.{market_of};
ghost use Rattle.hull_io.specs.Edge.{Rose};
ghost use Rattle.hull_words.specs.Asked.{settle_asked};
ghost use Rattle.board_core.specs.Setups.{IsSetup, setup_of};
ghost use Rattle.hull_input.specs.Answers.{IsAnswer, IsLaterShelf, HasReads};
ghost use Rattle.hull_input.specs.Answers.{IsFitPriced, IsPricedAnswer, IsFitMixed, IsMixedAnswer};
ghost use Rattle.hull_input.specs.Answers.{IsFitReported, IsReportedAnswer, IsFitSearch};
ghost use Rattle.hull_input.specs.Files.{case_and_schedule, with_report, with_prices, with_mixture};
ghost use Rattle.hull_input.specs.Planned.{planned_run, planned_search};
ghost use Rattle.hull_input.specs.Sizes.{IsRunSize, IsWorkers, HasNumbers, IsRounds};
ghost use Rattle.hull_input.specs.Steps.{Then, IsInput, IsWithinWork, IsWithinRounds};
ghost use Rattle.hull_input.specs.Steps.{rounds_for};

use crate::files::{read_case_and_schedule, read_mixture_file, read_prices_file, read_report_file};
use crate::input::{
    MixedInput, PricedInput, ReportedRun, SearchInput, run_terms_within_work_limit,
    search_input_within_work_limit,
};
use board_core::Terms;
use hull_fault::TopFault;
use hull_io::Shelf;
use hull_words::{AuditWords, CertifyWords, ConvexWords, PriceWords, SettleWords};
use std::alloc::Global;

/// The terms of the run that words ask for, over the case and the schedule of their files; or the
/// first fault of a file, or `Work` where the run is above the limit.
pub fn read_pricing_run_input<F: Shelf>(
    alloc: Global,
    shelf: &mut F,
    words: &PriceWords,
) -> Result<Terms, TopFault>
    requires { IsRunSize words.now.proposals words.now.ahead words.now.workers }
    ensures answers { HasReads (F.told shelf.old)
        (λ name. Rose F.last (F.faults shelf.old name) (F.faults shelf.new name))
        (case_and_schedule words.now.case_name.items words.now.schedule_name.items)
        (λ reads. IsAnswer (Then (IsInput reads) (IsWithinWork words.now.proposals))
        planned_run result) }
    ensures setup { IfOk result (λ terms. IsSetup (setup_of terms)) }
    ensures numbers { IfOk result (HasNumbers words.now) }
    ensures shelf { IsLaterShelf F.told F.faults shelf.old shelf.new }
{
    let case_name = words.case_name.as_str();
    let schedule_name = words.schedule_name.as_str();
    let input = read_case_and_schedule(alloc, shelf, case_name, schedule_name)?;
    run_terms_within_work_limit(input, words.proposals, words.ahead, words.workers)
}

/// The report of its file, and the run that it is to be the report of: with the report's own budget
/// and proposals ahead, over the case and the schedule of their files. Or the first fault of a file,
/// or `Work` where the run is above the limit.
pub fn read_audit_input<F: Shelf>(
    alloc: Global,
    shelf: &mut F,
    words: &AuditWords,
) -> Result<ReportedRun, TopFault>
    requires { IsWorkers words.now.workers }
    ensures answers { HasReads (F.told shelf.old)
        (λ name. Rose F.last (F.faults shelf.old name) (F.faults shelf.new name))
        (with_report words.now.case_name.items words.now.schedule_name.items
        words.now.report_name.items)
        (λ reads. IsReportedAnswer reads result) }
    ensures fit { IfOk result IsFitReported }
    ensures workers { IfOk result (λ x. x.terms.callers ≡ words.now.workers) }
    ensures shelf { IsLaterShelf F.told F.faults shelf.old shelf.new }
{
    let case_name = words.case_name.as_str();
    let schedule_name = words.schedule_name.as_str();
    let report_name = words.report_name.as_str();
    let input = read_case_and_schedule(alloc, shelf, case_name, schedule_name)?;
    let report = read_report_file(alloc, shelf, report_name)?;
    let terms = run_terms_within_work_limit(input, report.budget, report.ahead, words.workers)?;
    Ok(ReportedRun { terms, report })
}

/// The case, the schedule and the prices of the files of these names, or their first fault.
pub fn read_settle_input<F: Shelf>(
    alloc: Global,
    shelf: &mut F,
    words: &SettleWords,
) -> Result<PricedInput, TopFault>
    ensures answers { HasReads (F.told shelf.old)
        (λ name. Rose F.last (F.faults shelf.old name) (F.faults shelf.new name))
        (with_prices words.now.case_name.items words.now.schedule_name.items
        words.now.prices_name.items)
        (λ reads. IsPricedAnswer reads result) }
    ensures fit { IfOk result IsFitPriced }
    ensures shelf { IsLaterShelf F.told F.faults shelf.old shelf.new }
{
    let case_name = words.case_name.as_str();
    let schedule_name = words.schedule_name.as_str();
    let prices_name = words.prices_name.as_str();
    let input = read_case_and_schedule(alloc, shelf, case_name, schedule_name)?;
    let prices = read_prices_file(alloc, shelf, prices_name, &input.case)?;
    Ok(PricedInput { input, prices })
}

/// The case, the schedule, the prices and the mixture of the files of these names, or their first
/// fault.
pub fn read_certify_input<F: Shelf>(
    alloc: Global,
    shelf: &mut F,
    words: &CertifyWords,
) -> Result<MixedInput, TopFault>
    ensures answers { HasReads (F.told shelf.old)
        (λ name. Rose F.last (F.faults shelf.old name) (F.faults shelf.new name))
        (with_mixture (settle_asked words.now.names) words.now.mixture_name.items)
        (λ reads. IsMixedAnswer reads result) }
    ensures fit { IfOk result IsFitMixed }
    ensures shelf { IsLaterShelf F.told F.faults shelf.old shelf.new }
{
    let priced = read_settle_input(alloc, shelf, &words.names)?;
    let mixture_name = words.mixture_name.as_str();
    let mixture = read_mixture_file(alloc, shelf, mixture_name, &priced.input.case)?;
    Ok(MixedInput { priced, mixture })
}

/// The case and the schedule of the files of these names, with the most rounds of the search that
/// words ask for; or the first fault of a file, or `Work` where the search is above the limit.
pub fn read_convex_input<F: Shelf>(
    alloc: Global,
    shelf: &mut F,
    words: &ConvexWords,
) -> Result<SearchInput, TopFault>
    requires { IfSome words.now.rounds IsRounds }
    ensures answers { HasReads (F.told shelf.old)
        (λ name. Rose F.last (F.faults shelf.old name) (F.faults shelf.new name))
        (case_and_schedule words.now.case_name.items words.now.schedule_name.items)
        (λ reads. IsAnswer (Then (IsInput reads) (IsWithinRounds words.now.rounds))
        planned_search result) }
    ensures fit { IfOk result IsFitSearch }
    ensures rounds { IfOk result (λ search. search.rounds
        ≡ rounds_for words.now.rounds (market_of search.input.case)) }
    ensures shelf { IsLaterShelf F.told F.faults shelf.old shelf.new }
{
    let case_name = words.case_name.as_str();
    let schedule_name = words.schedule_name.as_str();
    let input = read_case_and_schedule(alloc, shelf, case_name, schedule_name)?;
    search_input_within_work_limit(input, words.rounds)
}
