//! The files of a command: the case and its schedule, read and judged in the order of their
//! refusals, a report, prices, and a mixture.
ghost use Rattle.std.specs.Prelude.{◌≡◌, ◌≤◌, ℕ, Vec, length, vec_len, map, IfOk};
ghost use Rattle.std.specs.Global.{Global};
ghost use Rattle.uc_model.specs.Laws.{HasPlanShape};
ghost use Rattle.uc_model.specs.PlainCases.{market_of, schedules_of};
ghost use Rattle.uc_model.specs.PlainUnits.{prices_of};
ghost use Rattle.plain_lists.specs.declared.limits.TheConstants.{MOST_BYTES};
ghost use Rattle.gap_proof.specs.Mixtures.{mixture_of, IsMixture, HasMixtureShape};
ghost use Rattle.hull_io.specs.Edge.{Rose};
ghost use Rattle.report_read.specs.Bounds.{IsReport, AreInOrder};
ghost use Rattle.report_read.specs.Plain.{report_of, told_of};
ghost use Rattle.hull_input.specs.Answers.{IsAnswer, IsLaterShelf, HasRead, HasReads};
ghost use Rattle.hull_input.specs.Files.{case_and_schedule};
ghost use Rattle.hull_input.specs.Planned.{planned_of, IsPlanned};
ghost use Rattle.hull_input.specs.Steps.{Then, IsBytes, IsCaseFile, IsPlanFile, IsChecked};
ghost use Rattle.hull_input.specs.Steps.{IsInput, IsReportFile, IsPricesFile, IsMixtureFile};

use crate::input::Input;
use gap_proof::{Mixture, check_mixture};
use hull_fault::{FileKind, TopFault};
use hull_io::{ReadFault, Shelf, read_whole};
use plan_check::check_plan;
use plan_check::laws::feasible_exactly_without_broken_rule;
use report_read::{Report, read_report};
use std::alloc::Global;
use uc_case::read_case;
use uc_mixture::read_mixture;
use uc_model::cases::{Case, Plan};
use uc_model::units::Prices;
use uc_plan::read_plan;
use uc_prices::read_prices;

/// The bytes of a file.
fn read_bytes_of_file<F: Shelf>(
    alloc: Global,
    shelf: &mut F,
    name: &str,
    file: FileKind,
) -> Result<Vec<u8>, TopFault>
    ensures answers { HasRead (F.told shelf.old name.now)
        (Rose F.last (F.faults shelf.old name.now) (F.faults shelf.new name.now))
        (λ read. IsAnswer (IsBytes file read) (λ (v : Vec ℕ Global). v.items) result) }
    ensures fits { IfOk result (λ v. vec_len v ≤ MOST_BYTES) }
    ensures shelf { IsLaterShelf F.told F.faults shelf.old shelf.new }
{
    match read_whole(alloc, shelf, name) {
        Ok(bytes) => Ok(bytes),
        Err(ReadFault::Failed) => Err(TopFault::Read(file)),
        Err(ReadFault::TooBig) => Err(TopFault::TooBig(file)),
        Err(ReadFault::Memory) => Err(TopFault::Memory),
    }
}

/// The case of a file.
fn read_case_file<F: Shelf>(alloc: Global, shelf: &mut F, name: &str) -> Result<Case, TopFault>
    ensures answers { HasRead (F.told shelf.old name.now)
        (Rose F.last (F.faults shelf.old name.now) (F.faults shelf.new name.now))
        (λ read. IsAnswer (IsCaseFile read) market_of result) }
    ensures shelf { IsLaterShelf F.told F.faults shelf.old shelf.new }
{
    let bytes = read_bytes_of_file(alloc, shelf, name, FileKind::CaseFile)?;
    Ok(read_case(alloc, bytes.as_slice())?)
}

/// The schedules of a file, for this case.
fn read_plan_file<F: Shelf>(
    alloc: Global,
    shelf: &mut F,
    name: &str,
    case: &Case,
) -> Result<Plan, TopFault>
    ensures answers { HasRead (F.told shelf.old name.now)
        (Rose F.last (F.faults shelf.old name.now) (F.faults shelf.new name.now))
        (λ read. IsAnswer (IsPlanFile (market_of case.now) read) schedules_of result) }
    ensures shape { IfOk result (λ plan. HasPlanShape (market_of case.now) (schedules_of plan)) }
    ensures shelf { IsLaterShelf F.told F.faults shelf.old shelf.new }
{
    let bytes = read_bytes_of_file(alloc, shelf, name, FileKind::ScheduleFile)?;
    Ok(read_plan(alloc, case, bytes.as_slice())?)
}

/// The case and the schedule with its cost, where the schedule keeps every rule.
fn checked_case_and_schedule(case: Case, plan: Plan) -> Result<Input, TopFault>
    requires { HasPlanShape (market_of case) (schedules_of plan) }
    ensures answers { IsAnswer (IsChecked (market_of case) (schedules_of plan)) planned_of result }
    ensures planned { IfOk result (λ input. IsPlanned input) }
{
    feasible_exactly_without_broken_rule();
    let cost = check_plan(&case, &plan)?;
    Ok(Input { case, plan, cost })
}

/// The schedule's file, and its rules.
fn read_checked_plan<F: Shelf>(
    alloc: Global,
    shelf: &mut F,
    name: &str,
    case: Case,
) -> Result<Input, TopFault>
    ensures answers { HasRead (F.told shelf.old name.now)
        (Rose F.last (F.faults shelf.old name.now) (F.faults shelf.new name.now))
        (λ read. IsAnswer (Then (IsPlanFile (market_of case) read) (IsChecked (market_of case)))
        planned_of result) }
    ensures planned { IfOk result (λ input. IsPlanned input) }
    ensures shelf { IsLaterShelf F.told F.faults shelf.old shelf.new }
{
    let plan = read_plan_file(alloc, shelf, name, &case)?;
    checked_case_and_schedule(case, plan)
}

/// The case and the feasible schedule of the files of these names, or their first fault.
pub fn read_case_and_schedule<F: Shelf>(
    alloc: Global,
    shelf: &mut F,
    case_name: &str,
    schedule_name: &str,
) -> Result<Input, TopFault>
    ensures answers { HasReads (F.told shelf.old)
        (λ name. Rose F.last (F.faults shelf.old name) (F.faults shelf.new name))
        (case_and_schedule case_name.now schedule_name.now)
        (λ reads. IsAnswer (IsInput reads) planned_of result) }
    ensures planned { IfOk result (λ input. IsPlanned input) }
    ensures shelf { IsLaterShelf F.told F.faults shelf.old shelf.new }
{
    let case = read_case_file(alloc, shelf, case_name)?;
    read_checked_plan(alloc, shelf, schedule_name, case)
}

/// The prices of a file, for this case.
pub fn read_prices_file<F: Shelf>(
    alloc: Global,
    shelf: &mut F,
    name: &str,
    case: &Case,
) -> Result<Prices, TopFault>
    ensures answers { HasRead (F.told shelf.old name.now)
        (Rose F.last (F.faults shelf.old name.now) (F.faults shelf.new name.now))
        (λ read. IsAnswer (IsPricesFile (market_of case.now).periods read) prices_of result) }
    ensures horizon { IfOk result (λ prices. length (prices_of prices).energy
        ≡ (market_of case.now).periods) }
    ensures shelf { IsLaterShelf F.told F.faults shelf.old shelf.new }
{
    let bytes = read_bytes_of_file(alloc, shelf, name, FileKind::PricesFile)?;
    Ok(read_prices(alloc, bytes.as_slice(), case.periods)?)
}

/// The report of a file.
pub fn read_report_file<F: Shelf>(
    alloc: Global,
    shelf: &mut F,
    name: &str,
) -> Result<Report, TopFault>
    ensures answers { HasRead (F.told shelf.old name.now)
        (Rose F.last (F.faults shelf.old name.now) (F.faults shelf.new name.now))
        (λ read. IsAnswer (IsReportFile read) report_of result) }
    ensures bounds { IfOk result (λ r. IsReport (report_of r)) }
    ensures order { IfOk result (λ r. AreInOrder 0 (map told_of r.lines.items)) }
    ensures shelf { IsLaterShelf F.told F.faults shelf.old shelf.new }
{
    let bytes = read_bytes_of_file(alloc, shelf, name, FileKind::ReportFile)?;
    Ok(read_report(alloc, bytes.as_slice())?)
}

/// The mixture of a file, of feasible schedules of the thermal units of this case, or its first
/// fault.
pub fn read_mixture_file<F: Shelf>(
    alloc: Global,
    shelf: &mut F,
    name: &str,
    case: &Case,
) -> Result<Mixture, TopFault>
    ensures answers { HasRead (F.told shelf.old name.now)
        (Rose F.last (F.faults shelf.old name.now) (F.faults shelf.new name.now))
        (λ read. IsAnswer (IsMixtureFile (market_of case.now) read) mixture_of result) }
    ensures shape { IfOk result (λ x. HasMixtureShape (market_of case.now) (mixture_of x)) }
    ensures feasible { IfOk result (λ x. IsMixture (market_of case.now) (mixture_of x)) }
    ensures shelf { IsLaterShelf F.told F.faults shelf.old shelf.new }
{
    let bytes = read_bytes_of_file(alloc, shelf, name, FileKind::MixtureFile)?;
    let mixture = read_mixture(alloc, case, bytes.as_slice())?;
    check_mixture(case, &mixture)?;
    Ok(mixture)
}
