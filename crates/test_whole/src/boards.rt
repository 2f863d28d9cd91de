//! Two units over one period with a demand of 150 kW: A gives up to 100 kW at 10 for each, and B
//! gives exactly 100 kW for 3,000. The numbers expected are worked by hand.
ghost use Rattle.std.specs.Prelude.{◌≡◌, ◌≤◌, ◌<◌, IfOk, IfSome, [], length};
ghost use Rattle.board_core.specs.Setups.{IsSetup, setup_of};
ghost use Rattle.uc_model.specs.Earnings.{earnings};
ghost use Rattle.uc_model.specs.PlainCases.{market_of, schedules_of, task_unit};
ghost use Rattle.uc_model.specs.PlainUnits.{prices_of, schedule_of};
ghost use Rattle.uc_model.specs.Runs.{Fits};
ghost use Rattle.uc_model.specs.Systems.{plan_cost, IsFeasiblePlan};
ghost use Rattle.uc_model.specs.TaskRoom.{IsTaskFor};

use crate::same::same;
use crate::texts::changed_once;
use board_core::{Board, Claim, Differs, Posted, Terms};
use flat_answer::best_flat;
use plan_check::check_plan;
use std::alloc::{AllocError, Global};
use std::process::Abort;
use std::test::Fail;
use test_tiny::trying::least_by_trying;
use uc_case::read_case;
use uc_model::cases::{Case, Plan, Row, Task};
use uc_model::units::{Answered, UnitKind};
use uc_plan::read_plan;

pub(crate) const CASE: &str =
    "{\"time_periods\":1,\"demand\":[0.15],\"reserves\":[0],\"thermal_generators\":{\
    \"A\":{\"must_run\":0,\"power_output_minimum\":0,\"power_output_maximum\":0.1,\
    \"ramp_up_limit\":1,\"ramp_down_limit\":1,\"ramp_startup_limit\":1,\"ramp_shutdown_limit\":1,\
    \"time_up_minimum\":1,\"time_down_minimum\":1,\"power_output_t0\":0,\"unit_on_t0\":0,\
    \"time_up_t0\":0,\"time_down_t0\":1,\"startup\":[],\
    \"piecewise_production\":[{\"mw\":0,\"cost\":0},{\"mw\":0.1,\"cost\":0.001}]},\
    \"B\":{\"must_run\":0,\"power_output_minimum\":0.1,\"power_output_maximum\":0.1,\
    \"ramp_up_limit\":1,\"ramp_down_limit\":1,\"ramp_startup_limit\":1,\"ramp_shutdown_limit\":1,\
    \"time_up_minimum\":1,\"time_down_minimum\":1,\"power_output_t0\":0,\"unit_on_t0\":0,\
    \"time_up_t0\":0,\"time_down_t0\":1,\"startup\":[],\
    \"piecewise_production\":[{\"mw\":0.1,\"cost\":0.003}]}},\
    \"renewable_generators\":{}}";

pub(crate) const PLAN: &str = "{\"thermal\":{\"A\":{\"on\":[1],\"power\":[50],\"reserve\":[0]},\
    \"B\":{\"on\":[1],\"power\":[100],\"reserve\":[0]}},\"renewable\":{}}";

// What a board is made for beside its case and plan.
#[derive(Clone, Copy)]
pub(crate) struct Sizes {
    /// The most proposals.
    pub budget: u32,
    /// How many proposals may be open ahead of the last answered one.
    pub ahead: u32,
    /// How many callers there are.
    pub callers: u32,
}

// The case and the plan of texts, and what the plan costs.
pub(crate) fn planned(alloc: Global, case: &str, plan: &str) -> Result<(Case, Plan, i128), Fail>
    requires case { length case.now ≤ 10000 }
    requires plan { length plan.now ≤ 10000 }
    ensures feasible { IfOk result (λ r. IsFeasiblePlan (market_of r.0) (schedules_of r.1)) }
    ensures cost { IfOk result (λ r. r.2 ≡ plan_cost (market_of r.0) (schedules_of r.1)) }
{
    let case = read_case(alloc, case.as_bytes())?;
    let plan = read_plan(alloc, &case, plan.as_bytes())?;
    let Ok(cost) = check_plan(&case, &plan) else {
        return Err(Fail::new("the plan isn't feasible"));
    };
    Ok((case, plan, cost))
}

// What a board for a case of one period and a plan, given as texts, is made for.
pub(crate) fn terms_of(alloc: Global, case: &str, plan: &str, sizes: Sizes) -> Result<Terms, Fail>
    requires case { length case.now ≤ 10000 }
    requires plan { length plan.now ≤ 10000 }
    requires some_budget { 1 ≤ sizes.budget }
    requires budget { sizes.budget ≤ 10 }
    requires some_ahead { 1 ≤ sizes.ahead }
    requires ahead { sizes.ahead ≤ 16 }
    requires some_callers { 1 ≤ sizes.callers }
    requires callers { sizes.callers ≤ 33 }
    ensures setup { IfOk result (λ terms. IsSetup (setup_of terms)) }
    ensures periods { IfOk result (λ terms. (setup_of terms).market.periods ≡ 1) }
    ensures callers { IfOk result (λ terms. terms.callers ≡ sizes.callers) }
{
    let (case, plan, cost) = planned(alloc, case, plan)?;
    if case.periods != 1 {
        return Err(Fail::new("there is another period"));
    }
    let Sizes {
        budget,
        ahead,
        callers,
    } = sizes;
    Ok(Terms {
        case,
        plan,
        cost,
        budget,
        ahead,
        callers,
    })
}

// A board for a case of one period and a plan, given as texts.
pub(crate) fn board_of(alloc: Global, case: &str, plan: &str, sizes: Sizes) -> Result<Board, Fail>
    requires case { length case.now ≤ 10000 }
    requires plan { length plan.now ≤ 10000 }
    requires some_budget { 1 ≤ sizes.budget }
    requires budget { sizes.budget ≤ 10 }
    requires some_ahead { 1 ≤ sizes.ahead }
    requires ahead { sizes.ahead ≤ 16 }
    requires some_callers { 1 ≤ sizes.callers }
    requires callers { sizes.callers ≤ 33 }
    ensures periods { IfOk result (λ board. board.setup.market.periods ≡ 1) }
    ensures callers { IfOk result (λ board. board.setup.callers ≡ sizes.callers) }
    ensures empty { IfOk result (λ board. board.events ≡ []) }
{
    let terms = terms_of(alloc, case, plan, sizes)?;
    Ok(Board::make(alloc, terms)?)
}

// A board for three callers with one proposal ahead.
fn two_units(alloc: Global, budget: u32) -> Result<Board, Fail>
    requires some { 1 ≤ budget }
    requires few { budget ≤ 10 }
    ensures { IfOk result (λ board. board.setup.market.periods ≡ 1) }
{
    let sizes = Sizes {
        budget,
        ahead: 1,
        callers: 3,
    };
    board_of(alloc, CASE, PLAN, sizes)
}

// The least best response of the task's unit and what it earns, if there is one; none for a bid.
pub(crate) fn least_answer(alloc: Global, task: &Task) -> Result<Option<Answered>, AllocError>
    ensures fit { IfOk result (λ o. IfSome o (λ a.
        Fits (task_unit task.now) (prices_of task.now.prices) (schedule_of a.response))) }
    ensures earned { IfOk result (λ o. IfSome o (λ a.
        earnings (task_unit task.now) (prices_of task.now.prices) (schedule_of a.response)
        ≡ a.earned)) }
{
    match task.kind {
        UnitKind::Thermal => least_by_trying(alloc, &task.thermal, &task.prices),
        UnitKind::Flat => {
            let mut answer = Answered::make(alloc, task.flat.least.len() as u32)?;
            best_flat(&task.flat, &task.prices, &mut answer);
            Ok(Some(answer))
        }
        UnitKind::Bid => Ok(None),
    }
}

// Posts the least best response of the task's unit.
fn post_least(alloc: Global, board: &mut Board, caller: u32, task: &Task) -> Result<Posted, Fail>
    requires { caller < board.old.setup.callers }
    ensures { board.new.setup ≡ board.old.setup }
{
    match least_answer(alloc, task)? {
        Some(answer) => Ok(board.post(caller, task, &answer)),
        None => Err(Fail::new("no schedule")),
    }
}

// The task of the second unit of a board where B gives its power for 3,100, so that the first price
// is 31.
pub(crate) fn dearer_task(alloc: Global) -> Result<Task, Fail> {
    let case = changed_once(alloc, CASE, &("0.003}", "0.0031}"))?;
    if case.len() > 10_000 {
        return Err(Fail::new("a long case"));
    }
    let sizes = Sizes {
        budget: 1,
        ahead: 1,
        callers: 1,
    };
    let mut board = board_of(alloc, case.as_str(), PLAN, sizes)?;
    let mut task = Task::make(alloc, 1)?;
    if board.claim(0, &mut task) != Claim::Given || board.claim(0, &mut task) != Claim::Given {
        return Err(Fail::new("no second task"));
    }
    Ok(task)
}

// What a caller does, and what is answered.
#[derive(Clone, Copy)]
pub(crate) enum Does {
    Claims(Claim),
    Posts(Posted),
    // with another proposal and unit number
    PostsAs(u32, u32, Posted),
    // a task of another board
    PostsDearer(Posted),
    Halts,
}

// A caller, and what it does.
pub(crate) type Step = (u32, Does);

// How a post of another task than the caller holds is refused, by the first thing that differs.
pub(crate) const OTHER_HOLDER: Posted = Posted::Stranger(Differs::Holder {
    caller: 0,
    holder: Some(1),
});

pub(crate) const OTHER_PROPOSAL: Posted = Posted::Stranger(Differs::Proposal {
    task: 0,
    opened: 1,
});

pub(crate) const OTHER_UNIT: Posted = Posted::Stranger(Differs::Unit { task: 2, units: 2 });

pub(crate) const OTHER_CONTENT: Posted = Posted::Stranger(Differs::Content {
    place: 1,
    board: 30,
    task: 31,
});

// Posts as post_least does, with other numbers of the task, which then has its own again.
fn post_as(
    alloc: Global,
    board: &mut Board,
    caller: u32,
    task: &mut Task,
    proposal: u32,
    unit: u32,
) -> Result<Posted, Fail>
    requires caller { caller < board.old.setup.callers }
    requires task { IsTaskFor board.old.setup.market.periods task.old }
    ensures setup { board.new.setup ≡ board.old.setup }
    ensures task { IsTaskFor board.old.setup.market.periods task.new }
{
    let (own_proposal, own_unit) = (task.proposal, task.unit);
    task.proposal = proposal;
    task.unit = unit;
    let posted = post_least(alloc, board, caller, task);
    task.proposal = own_proposal;
    task.unit = own_unit;
    posted
}

// Whether a step is answered as it says.
fn holds(alloc: Global, board: &mut Board, task: &mut Task, step: Step) -> Result<bool, Fail>
    requires { IsTaskFor board.old.setup.market.periods task.old }
    ensures setup { board.new.setup ≡ board.old.setup }
    ensures task { IsTaskFor board.old.setup.market.periods task.new }
{
    let (caller, does) = step;
    if board.callers() <= caller {
        return Err(Fail::new("no such caller"));
    }
    match does {
        Does::Claims(want) => Ok(board.claim(caller, task) == want),
        Does::Posts(want) => Ok(post_least(alloc, board, caller, task)? == want),
        Does::PostsAs(proposal, unit, want) => {
            Ok(post_as(alloc, board, caller, task, proposal, unit)? == want)
        }
        Does::PostsDearer(want) => {
            Ok(post_least(alloc, board, caller, &dearer_task(alloc)?)? == want)
        }
        Does::Halts => {
            board.halt(caller);
            Ok(true)
        }
    }
}

// How many of the steps are answered as they say, up to the first that isn't.
fn play(alloc: Global, board: &mut Board, task: &mut Task, steps: &[Step]) -> Result<usize, Fail>
    requires { IsTaskFor board.old.setup.market.periods task.old }
    ensures { board.new.setup ≡ board.old.setup }
{
    let mut held = 0;
    for step in steps {
        if !holds(alloc, board, task, *step)? {
            return Ok(held);
        }
        held += 1;
    }
    Ok(held)
}

// A board on which the steps were taken, each of them answered as it says.
fn played(rt: &impl Abort, alloc: Global, budget: u32, steps: &[Step]) -> Result<Board, Fail>
    requires some { 1 ≤ budget }
    requires few { budget ≤ 10 }
{
    let mut board = two_units(alloc, budget)?;
    let mut task = Task::make(alloc, 1)?;
    let held = play(alloc, &mut board, &mut task, steps)?;
    same(rt, held, steps.len());
    Ok(board)
}

// The row has one period with these numbers.
pub(crate) fn same_row(rt: &impl Abort, row: &Row, price: i64, value: i128, supply: i128) {
    same(rt, row.prices.energy.as_slice(), [price].as_slice());
    same(rt, row.value, value);
    same(rt, row.supply.as_slice(), [supply].as_slice());
}

const OF_TWO: [Step; 11] = [
    (0, Does::Claims(Claim::Given)),
    (0, Does::Posts(Posted::Taken { closed: None })),
    (1, Does::Posts(Posted::Doubled { by: 0 })),
    (1, Does::Claims(Claim::Given)),
    (2, Does::Claims(Claim::NotYet)),
    (0, Does::Posts(OTHER_HOLDER)),
    (1, Does::PostsDearer(OTHER_CONTENT)),
    (1, Does::PostsAs(0, 0, OTHER_PROPOSAL)),
    (1, Does::PostsAs(1, 2, OTHER_UNIT)),
    (1, Does::Posts(Posted::Taken { closed: Some(1) })),
    (0, Does::Claims(Claim::Finished)),
];

#[test]
fn claims_and_posts_of_two(rt: HostRuntime) -> Result<(), Fail> {
    let board = played(&rt, rt.alloc(), 1, &OF_TWO)?;
    same(&rt, board.history().len(), 4);
    let closed = board.close();
    assert!(rt; closed.finished());
    let rows = closed.rows();
    same(&rt, rows.len(), 1);
    let Some(row) = rows.first() else {
        return Err(Fail::new("there is no row"));
    };
    same_row(&rt, row, 30, 2_500, 100);
    Ok(())
}

const HALTS: [Step; 8] = [
    (0, Does::Claims(Claim::Given)),
    (1, Does::Halts),
    (2, Does::Halts),
    (1, Does::Halts),
    (0, Does::Posts(Posted::Taken { closed: None })),
    (0, Does::Posts(Posted::Doubled { by: 0 })),
    (1, Does::Posts(Posted::Doubled { by: 0 })),
    (0, Does::Claims(Claim::Halted)),
];

#[test]
fn halts_of_two_callers(rt: HostRuntime) -> Result<(), Fail> {
    let board = played(&rt, rt.alloc(), 2, &HALTS)?;
    same(&rt, board.history().len(), 4);
    Ok(())
}
