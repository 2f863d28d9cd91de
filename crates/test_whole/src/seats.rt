//! Callers on seats of one shared board, one after another. The numbers expected are worked by
//! hand.
ghost use Rattle.std.specs.Prelude.{◌≡◌, ◌<◌, IfOk, []};
ghost use Rattle.board_share.specs.Seats.{view_of, IsSeatOf, IsSameBoard};
ghost use Rattle.board_share.specs.Tells.{KeepsRest};
ghost use Rattle.uc_model.specs.TaskRoom.{IsTaskFor};

use crate::boards::{
    CASE, Does, OTHER_CONTENT, OTHER_HOLDER, OTHER_PROPOSAL, OTHER_UNIT, PLAN, Sizes, Step,
    board_of, dearer_task, least_answer,
};
use crate::case_files::SMALLEST;
use crate::same::same;
use board_core::{Board, Claim, Closed, Posted};
use board_share::{Seat, SharedBoard};
use board_store::entries::{Call, Entry, Reply};
use std::alloc::Global;
use std::process::Abort;
use std::sync::Wait;
use std::test::Fail;
use uc_model::cases::Task;

const SMALLEST_PLAN: &str = "{\"thermal\":{},\"renewable\":{\"W\":[100000]}}";

const TWO: Sizes = Sizes {
    budget: 1,
    ahead: 1,
    callers: 2,
};

// Posts the least best response of the task's unit.
fn post_by<R: Wait>(
    rt: &R,
    alloc: Global,
    board: &SharedBoard,
    seat: &mut Seat,
    task: &Task,
) -> Result<Posted, Fail>
    requires { IsSeatOf board.now seat.old }
    ensures board { IsSameBoard seat.old seat.new }
    ensures same { KeepsRest (view_of seat.old) (view_of seat.new) }
{
    match least_answer(alloc, task)? {
        Some(answer) => Ok(board.post(rt, seat, task, &answer)),
        None => Err(Fail::new("no schedule")),
    }
}

// Posts with other numbers of the task, which then has its own again.
fn post_as<R: Wait>(
    rt: &R,
    alloc: Global,
    board: &SharedBoard,
    seat: &mut Seat,
    task: &mut Task,
    proposal: u32,
    unit: u32,
) -> Result<Posted, Fail>
    requires own { IsSeatOf board.now seat.old }
    requires task { IsTaskFor (view_of seat.old).setup.market.periods task.old }
    ensures board { IsSameBoard seat.old seat.new }
    ensures same { KeepsRest (view_of seat.old) (view_of seat.new) }
    ensures task { IsTaskFor (view_of seat.old).setup.market.periods task.new }
{
    let (own_proposal, own_unit) = (task.proposal, task.unit);
    task.proposal = proposal;
    task.unit = unit;
    let posted = post_by(rt, alloc, board, seat, task);
    task.proposal = own_proposal;
    task.unit = own_unit;
    posted
}

// Whether what a seat does is answered as it says.
fn holds<R: Wait>(
    rt: &R,
    alloc: Global,
    board: &SharedBoard,
    seat: &mut Seat,
    task: &mut Task,
    does: Does,
) -> Result<bool, Fail>
    requires own { IsSeatOf board.now seat.old }
    requires task { IsTaskFor (view_of seat.old).setup.market.periods task.old }
    ensures board { IsSameBoard seat.old seat.new }
    ensures same { KeepsRest (view_of seat.old) (view_of seat.new) }
    ensures task { IsTaskFor (view_of seat.old).setup.market.periods task.new }
{
    match does {
        Does::Claims(want) => Ok(board.claim(rt, seat, task) == want),
        Does::Posts(want) => Ok(post_by(rt, alloc, board, seat, task)? == want),
        Does::PostsAs(proposal, unit, want) => {
            Ok(post_as(rt, alloc, board, seat, task, proposal, unit)? == want)
        }
        Does::PostsDearer(want) => {
            let dearer = dearer_task(alloc)?;
            Ok(post_by(rt, alloc, board, seat, &dearer)? == want)
        }
        Does::Halts => {
            board.halt(rt, seat);
            Ok(true)
        }
    }
}

// How many of the steps are answered as they say, up to the first that isn't. Caller 0 has the
// owner's seat.
fn play<R: Wait>(
    rt: &R,
    alloc: Global,
    board: &SharedBoard,
    owner: &mut Seat,
    other: &mut Seat,
    task: &mut Task,
    steps: &[Step],
) -> Result<usize, Fail>
    requires owner { IsSeatOf board.now owner.old }
    requires other { IsSeatOf board.now other.old }
    requires periods { ((view_of owner.old).setup.market.periods ≡ 1)
        × ((view_of other.old).setup.market.periods ≡ 1) }
    requires task { IsTaskFor 1 task.old }
    ensures owner { IsSameBoard owner.old owner.new
        × KeepsRest (view_of owner.old) (view_of owner.new) }
    ensures other { IsSameBoard other.old other.new
        × KeepsRest (view_of other.old) (view_of other.new) }
    ensures task { IsTaskFor 1 task.new }
{
    let mut held = 0;
    for step in steps {
        let (caller, does) = *step;
        let right = match caller {
            0 => holds(rt, alloc, board, owner, task, does)?,
            _ => holds(rt, alloc, board, other, task, does)?,
        };
        if !right {
            return Ok(held);
        }
        held += 1;
    }
    Ok(held)
}

// The record of a board on which two seats took the steps, each of them answered as it says.
fn played<R: Wait + Abort>(
    rt: &R,
    alloc: Global,
    board: Board,
    steps: &[Step],
) -> Result<Closed, Fail>
    requires periods { board.setup.market.periods ≡ 1 }
    requires empty { board.events ≡ [] }
{
    let (board, mut owner) = SharedBoard::make(alloc, board)?;
    let Some(mut other) = board.split(&mut owner) else {
        return Err(Fail::new("no second seat"));
    };
    let mut task = Task::make(alloc, 1)?;
    let held = play(rt, alloc, &board, &mut owner, &mut other, &mut task, steps)?;
    board.join(&mut owner, other);
    same(rt, held, steps.len());
    Ok(board.close(owner))
}

const OF_TWO: [Step; 10] = [
    (0, Does::Claims(Claim::Given)),
    (0, Does::Posts(Posted::Taken { closed: None })),
    (1, Does::Posts(Posted::Doubled { by: 0 })),
    (1, Does::Claims(Claim::Given)),
    (0, Does::Posts(OTHER_HOLDER)),
    (1, Does::PostsDearer(OTHER_CONTENT)),
    (1, Does::PostsAs(0, 0, OTHER_PROPOSAL)),
    (1, Does::Posts(Posted::Taken { closed: Some(1) })),
    (0, Does::Claims(Claim::Finished)),
    (1, Does::Claims(Claim::Finished)),
];

const ENTRIES: [Entry; 4] = [
    Entry {
        caller: 0,
        call: Call::Claim,
        proposal: 1,
        unit: 0,
        reply: Reply::Given,
    },
    Entry {
        caller: 0,
        call: Call::Post,
        proposal: 1,
        unit: 0,
        reply: Reply::Taken,
    },
    Entry {
        caller: 1,
        call: Call::Claim,
        proposal: 1,
        unit: 1,
        reply: Reply::Given,
    },
    Entry {
        caller: 1,
        call: Call::Post,
        proposal: 1,
        unit: 1,
        reply: Reply::Closing,
    },
];

#[test]
fn claims_and_posts_of_two_seats(rt: HostRuntime) -> Result<(), Fail> {
    let alloc = rt.alloc();
    let board = board_of(alloc, CASE, PLAN, TWO)?;
    let closed = played(&rt, alloc, board, &OF_TWO)?;
    assert!(rt; closed.history() == ENTRIES.as_slice());
    Ok(())
}

const NOT_YET: [Step; 5] = [
    (0, Does::Claims(Claim::Given)),
    (1, Does::Claims(Claim::NotYet)),
    (1, Does::Claims(Claim::NotYet)),
    (0, Does::Posts(Posted::Taken { closed: Some(1) })),
    (1, Does::Claims(Claim::Finished)),
];

#[test]
fn not_yet_and_finished(rt: HostRuntime) -> Result<(), Fail> {
    let alloc = rt.alloc();
    let board = board_of(alloc, SMALLEST, SMALLEST_PLAN, TWO)?;
    let closed = played(&rt, alloc, board, &NOT_YET)?;
    assert!(rt; closed.finished());
    Ok(())
}

const LATE_HALT: [Step; 7] = [
    (0, Does::Claims(Claim::Given)),
    (1, Does::Claims(Claim::NotYet)),
    (1, Does::Halts),
    (1, Does::Claims(Claim::Halted)),
    (0, Does::Posts(Posted::Taken { closed: Some(1) })),
    (0, Does::Claims(Claim::Finished)),
    (1, Does::Claims(Claim::Finished)),
];

#[test]
fn a_halt_before_the_last_post(rt: HostRuntime) -> Result<(), Fail> {
    let alloc = rt.alloc();
    let board = board_of(alloc, SMALLEST, SMALLEST_PLAN, TWO)?;
    let closed = played(&rt, alloc, board, &LATE_HALT)?;
    same(&rt, closed.history().len(), 3);
    Ok(())
}

// A board for the two units with two proposals.
fn two_proposals(alloc: Global) -> Result<Board, Fail>
    ensures periods { IfOk result (λ board. board.setup.market.periods ≡ 1) }
    ensures empty { IfOk result (λ board. board.events ≡ []) }
{
    let sizes = Sizes {
        budget: 2,
        ahead: 1,
        callers: 2,
    };
    board_of(alloc, CASE, PLAN, sizes)
}

const HALTED: [Step; 4] = [
    (0, Does::Claims(Claim::Given)),
    (1, Does::Halts),
    (0, Does::Claims(Claim::Halted)),
    (1, Does::Claims(Claim::Halted)),
];

#[test]
fn no_claim_after_a_halt(rt: HostRuntime) -> Result<(), Fail> {
    let alloc = rt.alloc();
    let closed = played(&rt, alloc, two_proposals(alloc)?, &HALTED)?;
    same(&rt, closed.history().len(), 2);
    Ok(())
}

#[test]
fn as_many_seats_as_callers(rt: HostRuntime) -> Result<(), Fail> {
    let alloc = rt.alloc();
    let board = board_of(alloc, SMALLEST, SMALLEST_PLAN, TWO)?;
    let (board, mut owner) = SharedBoard::make(alloc, board)?;
    assert!(rt; board.split(&mut owner).is_some());
    assert!(rt; board.split(&mut owner).is_none());
    Ok(())
}

const AGAIN: [Step; 4] = [
    (0, Does::Claims(Claim::Given)),
    (0, Does::Posts(Posted::Taken { closed: None })),
    (0, Does::Posts(Posted::Doubled { by: 0 })),
    (1, Does::Posts(Posted::Doubled { by: 0 })),
];

#[test]
fn a_task_posted_again(rt: HostRuntime) -> Result<(), Fail> {
    let alloc = rt.alloc();
    let _closed = played(&rt, alloc, two_proposals(alloc)?, &AGAIN)?;
    Ok(())
}

const NO_UNIT: [Step; 2] = [
    (0, Does::Claims(Claim::Given)),
    (1, Does::PostsAs(1, 2, OTHER_UNIT)),
];

#[test]
fn a_unit_that_is_not_there(rt: HostRuntime) -> Result<(), Fail> {
    let alloc = rt.alloc();
    let _closed = played(&rt, alloc, two_proposals(alloc)?, &NO_UNIT)?;
    Ok(())
}
