//! What a command works on, and the run of it within the limit of work.
ghost use Rattle.std.specs.Prelude.{◌≡◌, ◌<◌, ◌≤◌, ◌*◌, IfOk, IfSome, MatchResult};
ghost use Rattle.plain_lists.specs.declared.limits.TheConstants.{MOST_UNITS, MOST_WORK};
ghost use Rattle.uc_model.specs.declared.limits.TheConstants.{MOST_PERIODS};
ghost use Rattle.uc_model.specs.PlainCases.{market_of};
ghost use Rattle.board_core.specs.Setups.{IsSetup, setup_of};
ghost use Rattle.hull_input.specs.Planned.{planned_of, planned_run, planned_search, IsPlanned};
ghost use Rattle.hull_input.specs.Sizes.{IsRunSize, IsRounds};
ghost use Rattle.hull_input.specs.Steps.{IsWithinWork, IsWithinRounds, rounds_for};
ghost use Rattle.hull_input.specs.Steps.{work_for, above_work};
ghost use Rattle.hull_input.specs.Answers.{IsAnswer, IsFitSearch};

use board_core::Terms;
use gap_proof::Mixture;
use hull_fault::TopFault;
use hull_words::defaults::DEFAULT_ROUNDS;
use plain_lists::limits::MOST_WORK;
use report_read::Report;
use uc_model::cases::{Case, Plan};
use uc_model::units::Prices;

/// What the files of a command give.
#[derive(Drop)]
pub struct Input {
    /// The case.
    pub case: Case,
    /// A feasible schedule of it.
    pub plan: Plan,
    /// What the schedule costs, in money.
    pub cost: i128,
}

/// A case with its schedule, and prices over its periods.
#[derive(Drop)]
pub struct PricedInput {
    /// The case with its schedule.
    pub input: Input,
    /// The prices, in money for a kilowatt and period.
    pub prices: Prices,
}

/// A case with its schedule, prices over its periods, and a mixture of schedules of its units.
#[derive(Drop)]
pub struct MixedInput {
    /// The case with its schedule and the prices.
    pub priced: PricedInput,
    /// Feasible schedules of each thermal unit, with their shares.
    pub mixture: Mixture,
}

/// A report, and the run that it is to be the report of.
#[derive(Drop)]
pub struct ReportedRun {
    /// What the run is for, with the report's own budget and proposals ahead.
    pub terms: Terms,
    /// The report.
    pub report: Report,
}

/// A case with its schedule, and the most rounds of a search for prices of it.
#[derive(Drop)]
pub struct SearchInput {
    /// The case with its schedule.
    pub input: Input,
    /// The most rounds.
    pub rounds: u32,
}

/// So many proposals, units and periods multiplied.
fn work_amount_of_run(proposals: u32, units: u32, periods: u32) -> u64
    requires units { units ≤ MOST_UNITS }
    requires periods { periods ≤ MOST_PERIODS }
    ensures { result ≡ proposals * units * periods }
{
    u64::from(proposals) * u64::from(units) * u64::from(periods)
}

/// `TopFault::Work` where so many proposals of the case are above the limit of work.
fn check_work_limit(proposals: u32, case: &Case) -> Result<(), TopFault>
    ensures { MatchResult result (λ _. work_for proposals (market_of case.now) ≤ MOST_WORK)
        (λ fault. MOST_WORK < work_for proposals (market_of case.now)
        × (fault ≡ above_work proposals (market_of case.now))) }
{
    let units = case.unit_count();
    let periods = case.periods;
    if work_amount_of_run(proposals, units, periods) > MOST_WORK {
        return Err(TopFault::Work {
            proposals,
            units,
            periods,
        });
    }
    Ok(())
}

/// The terms of an input's run with so many proposals, so many of them ahead, and so many callers;
/// or `TopFault::Work` where proposals, units and periods multiplied are above `MOST_WORK`, a bid
/// counted as a unit.
pub fn run_terms_within_work_limit(
    input: Input,
    budget: u32,
    ahead: u32,
    callers: u32,
) -> Result<Terms, TopFault>
    requires planned { IsPlanned input }
    requires size { IsRunSize budget ahead callers }
    ensures answers { IsAnswer (IsWithinWork budget (planned_of input)) planned_run result }
    ensures setup { IfOk result (λ terms. IsSetup (setup_of terms)) }
    ensures budget { IfOk result (λ terms. terms.budget ≡ budget) }
    ensures ahead { IfOk result (λ terms. terms.ahead ≡ ahead) }
    ensures callers { IfOk result (λ terms. terms.callers ≡ callers) }
{
    check_work_limit(budget, &input.case)?;
    let Input { case, plan, cost } = input;
    Ok(Terms {
        case,
        plan,
        cost,
        budget,
        ahead,
        callers,
    })
}

/// The most rounds of a search over a case: as many as words say, or else as many as the limit of
/// work allows, at most `DEFAULT_ROUNDS` and at least 1.
fn allowed_search_rounds(rounds: Option<u32>, case: &Case) -> u32
    ensures { result ≡ rounds_for rounds (market_of case.now) }
{
    match rounds {
        Some(rounds) => rounds,
        None => {
            let one_round = work_amount_of_run(1, case.unit_count(), case.periods);
            let allowed = MOST_WORK / one_round.max(1);
            allowed.min(u64::from(DEFAULT_ROUNDS)).max(1) as u32
        }
    }
}

/// An input with the most rounds of a search over it, which words ask for; or `TopFault::Work` where
/// rounds, units and periods multiplied are above `MOST_WORK`, a bid counted as a unit.
pub fn search_input_within_work_limit(
    input: Input,
    rounds: Option<u32>,
) -> Result<SearchInput, TopFault>
    requires planned { IsPlanned input }
    requires rounds { IfSome rounds IsRounds }
    ensures answers { IsAnswer (IsWithinRounds rounds (planned_of input)) planned_search result }
    ensures fit { IfOk result IsFitSearch }
    ensures rounds { IfOk result (λ search. search.rounds
        ≡ rounds_for rounds (market_of search.input.case)) }
{
    let rounds = allowed_search_rounds(rounds, &input.case);
    check_work_limit(rounds, &input.case)?;
    Ok(SearchInput { input, rounds })
}
