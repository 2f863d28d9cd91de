//! Four threads on one board, many times over. The rows expected are worked by hand.
ghost use Rattle.std.specs.Thread.{IsSync};
ghost use Rattle.std.specs.Prelude.{◌≡◌, ◌+◌, ◌<◌, IfOk, [], length};
ghost use Rattle.board_share.specs.Seats.{view_of, IsSeatOf, IsSameBoard, IsOwner};
ghost use Rattle.board_share.specs.Tells.{KeepsRest};
ghost use Rattle.uc_model.specs.TaskRoom.{IsTaskFor};

use crate::boards::{Sizes, board_of, least_answer};
use crate::same::same;
use board_core::{Board, Claim, Closed};
use board_share::{Seat, SharedBoard};
use board_store::entries::{Call, Entry};
use std::alloc::{AllocError, Global};
use std::sync::Wait;
use std::test::Fail;
use std::thread;
use std::thread::Threads;
use uc_model::cases::{Row, Task};

// The two units, A with up to 4 kW for 10 each, B with just 4 kW for 120, and a demand of 6 kW.
const CASE: &str =
    "{\"time_periods\":1,\"demand\":[0.006],\"reserves\":[0],\"thermal_generators\":{\
    \"A\":{\"must_run\":0,\"power_output_minimum\":0,\"power_output_maximum\":0.004,\
    \"ramp_up_limit\":1,\"ramp_down_limit\":1,\"ramp_startup_limit\":1,\"ramp_shutdown_limit\":1,\
    \"time_up_minimum\":1,\"time_down_minimum\":1,\"power_output_t0\":0,\"unit_on_t0\":0,\
    \"time_up_t0\":0,\"time_down_t0\":1,\"startup\":[],\
    \"piecewise_production\":[{\"mw\":0,\"cost\":0},{\"mw\":0.004,\"cost\":0.00004}]},\
    \"B\":{\"must_run\":0,\"power_output_minimum\":0.004,\"power_output_maximum\":0.004,\
    \"ramp_up_limit\":1,\"ramp_down_limit\":1,\"ramp_startup_limit\":1,\"ramp_shutdown_limit\":1,\
    \"time_up_minimum\":1,\"time_down_minimum\":1,\"power_output_t0\":0,\"unit_on_t0\":0,\
    \"time_up_t0\":0,\"time_down_t0\":1,\"startup\":[],\
    \"piecewise_production\":[{\"mw\":0.004,\"cost\":0.00012}]}},\
    \"renewable_generators\":{}}";

const PLAN: &str = "{\"thermal\":{\"A\":{\"on\":[1],\"power\":[2],\"reserve\":[0]},\
    \"B\":{\"on\":[1],\"power\":[4],\"reserve\":[0]}},\"renewable\":{}}";

const SIZES: Sizes = Sizes {
    budget: 4,
    ahead: 2,
    callers: 4,
};

// The price, the value and the supply of each row. The plan costs 140. At 30 A earns 80 and B
// nothing; at 33 they earn 92 and 12. From 30 the gap is 40 and the direction 2, so the price moves
// by 40 * 2 / 4; from 33 they are 46 and -2. At 50 the two earn 160 and 80, at 10 nothing.
const ROWS: [(i64, i128, i128); 4] = [(30, 100, 4), (33, 94, 8), (50, 60, 8), (10, 60, 0)];

// Lets other threads go first, one time in four.
fn rest(word: &mut u64) {
    *word = word
        .wrapping_mul(6_364_136_223_846_793_005)
        .wrapping_add(1_442_695_040_888_963_407);
    if *word >> 62 == 0 {
        thread::yield_now();
    }
}

// Answers the task that was claimed last; where that can't be done, nobody goes on.
fn answer<R: Wait>(rt: &R, alloc: Global, board: &SharedBoard, seat: &mut Seat, task: &Task)
    requires { IsSeatOf board.now seat.old }
    ensures board { IsSameBoard seat.old seat.new }
    ensures same { KeepsRest (view_of seat.old) (view_of seat.new) }
{
    match least_answer(alloc, task) {
        Ok(Some(answer)) => {
            let _posted = board.post(rt, seat, task, &answer);
        }
        Ok(None) | Err(_) => board.halt(rt, seat),
    }
}

// Claims and answers until the board has finished.
fn play_on<R: Wait>(
    rt: &R,
    alloc: Global,
    board: &SharedBoard,
    seat: &mut Seat,
    task: &mut Task,
    word: u64,
)
    requires own { IsSeatOf board.now seat.old }
    requires periods { (view_of seat.old).setup.market.periods ≡ 1 }
    requires task { IsTaskFor 1 task.old }
    ensures board { IsSameBoard seat.old seat.new }
    ensures same { KeepsRest (view_of seat.old) (view_of seat.new) }
{
    let mut word = word;
    for _ in rt.forever() {
        rest(&mut word);
        match board.claim(rt, seat, task) {
            Claim::Finished | Claim::Halted => return,
            Claim::NotYet => thread::yield_now(),
            Claim::Given => answer(rt, alloc, board, seat, task),
        }
    }
    unreachable!()
}

// Works at the board with a task of its own; if memory runs out, nobody goes on.
fn work<R: Wait>(rt: &R, alloc: Global, board: &SharedBoard, seat: &mut Seat, word: u64)
    requires own { IsSeatOf board.now seat.old }
    requires periods { (view_of seat.old).setup.market.periods ≡ 1 }
    ensures board { IsSameBoard seat.old seat.new }
    ensures same { KeepsRest (view_of seat.old) (view_of seat.new) }
{
    match Task::make(alloc, 1) {
        Ok(mut task) => play_on(rt, alloc, board, seat, &mut task, word),
        Err(AllocError) => board.halt(rt, seat),
    }
}

// Two seats work at once, each in a thread of its own.
fn work_both<R: Threads + Wait + Sync>(
    rt: &R,
    alloc: Global,
    board: &SharedBoard,
    one: &mut Seat,
    two: &mut Seat,
    word: u64,
)
    requires one { IsSeatOf board.now one.old × ((view_of one.old).setup.market.periods ≡ 1) }
    requires two { IsSeatOf board.now two.old × ((view_of two.old).setup.market.periods ≡ 1) }
    ensures one { IsSameBoard one.old one.new × KeepsRest (view_of one.old) (view_of one.new) }
    ensures two { IsSameBoard two.old two.new × KeepsRest (view_of two.old) (view_of two.new) }
{
    thread::join_mut(
        rt,
        &mut || work(rt, alloc, board, one, word),
        &mut || work(rt, alloc, board, two, !word),
    );
}

// Four seats work at once.
fn work_all<R: Threads + Wait + Sync>(
    rt: &R,
    alloc: Global,
    board: &SharedBoard,
    one: &mut Seat,
    two: &mut Seat,
    three: &mut Seat,
    four: &mut Seat,
    word: u64,
)
    requires one { IsSeatOf board.now one.old × ((view_of one.old).setup.market.periods ≡ 1) }
    requires two { IsSeatOf board.now two.old × ((view_of two.old).setup.market.periods ≡ 1) }
    requires three { IsSeatOf board.now three.old × ((view_of three.old).setup.market.periods ≡ 1) }
    requires four { IsSeatOf board.now four.old × ((view_of four.old).setup.market.periods ≡ 1) }
    ensures one { IsSameBoard one.old one.new × KeepsRest (view_of one.old) (view_of one.new) }
    ensures two { IsSameBoard two.old two.new × KeepsRest (view_of two.old) (view_of two.new) }
    ensures three { IsSameBoard three.old three.new
        × KeepsRest (view_of three.old) (view_of three.new) }
    ensures four { IsSameBoard four.old four.new × KeepsRest (view_of four.old) (view_of four.new) }
{
    let later = word.wrapping_add(1_000);
    thread::join_mut(
        rt,
        &mut ||
            requires rt { IsSync R.row }
            requires one { IsSeatOf board.now one.now
                × ((view_of one.now).setup.market.periods ≡ 1) }
            requires two { IsSeatOf board.now two.now
                × ((view_of two.now).setup.market.periods ≡ 1) }
        { work_both(rt, alloc, board, one, two, word) },
        &mut ||
            requires rt { IsSync R.row }
            requires three { IsSeatOf board.now three.now
                × ((view_of three.now).setup.market.periods ≡ 1) }
            requires four { IsSeatOf board.now four.now
                × ((view_of four.now).setup.market.periods ≡ 1) }
        { work_both(rt, alloc, board, three, four, later) },
    );
}

// The owner's next seat.
fn next_seat(board: &SharedBoard, owner: &mut Seat) -> Result<Seat, Fail>
    requires { IsSeatOf board.now owner.old × IsOwner owner.old }
    ensures owner { IsSameBoard owner.old owner.new × IsOwner owner.new }
    ensures seat { IfOk result (λ s. IsSameBoard owner.old s) }
    ensures out { IfOk result (λ s.
        length (view_of owner.new).out ≡ length (view_of owner.old).out + 1) }
{
    match board.split(owner) {
        Some(seat) => Ok(seat),
        None => Err(Fail::new("too few seats")),
    }
}

// Splits three seats from the owner's, works with all four, and joins the three in another order.
fn split_and_join<R: Threads + Wait + Sync>(
    rt: &R,
    alloc: Global,
    board: &SharedBoard,
    owner: &mut Seat,
    word: u64,
) -> Result<(), Fail>
    requires own { IsSeatOf board.now owner.old × IsOwner owner.old }
    requires periods { (view_of owner.old).setup.market.periods ≡ 1 }
    ensures owner { IsSameBoard owner.old owner.new × IsOwner owner.new }
    ensures out { IfOk result (λ s.
        length (view_of owner.new).out ≡ length (view_of owner.old).out) }
{
    let mut one = next_seat(board, owner)?;
    let mut two = next_seat(board, owner)?;
    let mut three = next_seat(board, owner)?;
    work_all(
        rt, alloc, board, owner, &mut one, &mut two, &mut three, word,
    );
    board.join(owner, three);
    board.join(owner, one);
    board.join(owner, two);
    Ok(())
}

// The record of a board on which four threads have worked.
fn worked<R: Threads + Wait + Sync>(rt: &R, alloc: Global, round: u64) -> Result<Closed, Fail> {
    let board = board_of(alloc, CASE, PLAN, SIZES)?;
    let (board, mut owner) = SharedBoard::make(alloc, board)?;
    split_and_join(rt, alloc, &board, &mut owner, round)?;
    Ok(board.close(owner))
}

// Makes the call of an entry once more, and says whether it makes that entry. A claim leaves its
// task in `task`, and a post is of that task.
fn repeats(alloc: Global, board: &mut Board, task: &mut Task, entry: Entry) -> Result<bool, Fail>
    requires { board.old.setup.market.periods ≡ 1 }
    ensures { board.new.setup ≡ board.old.setup }
{
    let caller = u32::from(entry.caller);
    if board.callers() <= caller {
        return Ok(false);
    }
    match entry.call {
        Call::Claim => {
            *task = Task::make(alloc, 1)?;
            let _claim = board.claim(caller, task);
        }
        Call::Post => {
            let Some(answer) = least_answer(alloc, task)? else {
                return Ok(false);
            };
            let _posted = board.post(caller, task, &answer);
        }
        Call::Halt => board.halt(caller),
    }
    Ok(board.history().last() == Some(&entry))
}

// Whether a new board that one thread uses comes to the same entries.
fn replays(alloc: Global, entries: &[Entry]) -> Result<bool, Fail> {
    let mut board = board_of(alloc, CASE, PLAN, SIZES)?;
    let mut tasks = [
        Task::make(alloc, 1)?,
        Task::make(alloc, 1)?,
        Task::make(alloc, 1)?,
        Task::make(alloc, 1)?,
    ];
    for entry in entries {
        let caller = usize::from(entry.caller);
        if tasks.len() <= caller || !repeats(alloc, &mut board, &mut tasks[caller], *entry)? {
            return Ok(false);
        }
    }
    Ok(board.history() == entries)
}

fn is_row(row: &Row, want: (i64, i128, i128)) -> bool {
    let (price, value, supply) = want;
    row.prices.energy.as_slice() == [price].as_slice()
        && row.value == value
        && row.supply.as_slice() == [supply].as_slice()
}

// Whichever thread answers which task, the rows are the same, and the history is one that one
// thread could have made.
#[test]
fn four_threads_on_one_board(rt: HostRuntime) -> Result<(), Fail> {
    for round in 0..200 {
        let closed = worked(&rt, rt.alloc(), round)?;
        assert!(rt; closed.finished());
        let rows = closed.rows();
        same(&rt, rows.len(), ROWS.len());
        assert!(rt; rows.iter().zip(ROWS).all(|(row, want)| is_row(row, want)));
        assert!(rt; replays(rt.alloc(), closed.history())?);
    }
    Ok(())
}
