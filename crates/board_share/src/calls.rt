//! The calls of a seat.
ghost use Rattle.std.specs.Prelude.{◌≡◌, ◌+◌, ◌<◌, ◌≤◌, length, IfOk, IfSome, IfNone, All};
ghost use Rattle.board_store.specs.Board.{IsLegalHistory};
ghost use Rattle.board_store.specs.Calls.{claim_answer, after_claim, post_answer, after_post};
ghost use Rattle.board_store.specs.Calls.{after_halt};
ghost use Rattle.uc_model.specs.Earnings.{earnings};
ghost use Rattle.uc_model.specs.PlainCases.{task_unit};
ghost use Rattle.uc_model.specs.PlainUnits.{prices_of, schedule_of};
ghost use Rattle.uc_model.specs.Runs.{Fits};
ghost use Rattle.uc_model.specs.TaskRoom.{IsTaskFor};
ghost use Rattle.board_core.specs.Replies.{claim_of, posted_of};
ghost use Rattle.board_store.specs.Answers.{answer_of};
ghost use Rattle.board_core.specs.Tasks.{LeavesTask};
ghost use Rattle.board_share.specs.Seats.{view_of, IsSeatOf, IsSameBoard, IsOwner};
ghost use Rattle.board_share.specs.Tells.{Called, HasJoined, KeepsRest};
ghost use Rattle.board_share.specs.Unchanged.{UnlessGiven, UnlessTaken};
ghost use Rattle.board_share.specs.Views.{caller_of, content, first_view, cut_left, cut_right};
ghost use Rattle.board_share.specs.Views.{longer, without};

use crate::plays::Cut;
use crate::seat::Seat;
use crate::shared::SharedBoard;
use atomic_table::Table;
use board_core::{Board, Claim, Closed, Posted};
use std::alloc::{AllocError, Global};
use std::snapshot::Snapshot;
use std::sync::Wait;
use uc_model::cases::Task;
use uc_model::units::Answered;

impl Seat {
    /// The number of its caller, which is below the number of callers. At any time a seat has seen
    /// a legal history.
    pub fn caller(&self) -> u32
        ensures number { result ≡ (view_of self.now).caller }
        ensures caller { (view_of self.now).caller < (view_of self.now).setup.callers }
        ensures legal { IsLegalHistory (view_of self.now).setup (view_of self.now).seen }
    {
        self.caller
    }
}

impl SharedBoard {
    /// Shares a board whose entries, if it has some, are all caller 0's. The seat is the owner's,
    /// caller 0, which has seen the board's history: one seat is made and is out. The board is
    /// dropped where there is no memory.
    pub fn make(alloc: Global, board: Board) -> Result<(SharedBoard, Seat), AllocError>
        requires { All (λ e. caller_of e ≡ 0) board.events }
        ensures seat { IfOk result (λ t. IsSeatOf t.0 t.1) }
        ensures owner { IfOk result (λ t. IsOwner t.1) }
        ensures view { IfOk result (λ t. view_of t.1 ≡ first_view board) }
    {
        let about = Snapshot::of(&board);
        let callers = board.callers();
        let words = [board.history().len() as u64, 0, 0];
        let mut slots = Vec::with_capacity(alloc, 1)?;
        slots.push_reserved(board);
        match Table::new(alloc, &words, slots, &about) {
            Ok((table, at_table)) => {
                let shared = SharedBoard { table, callers };
                let seat = Seat {
                    caller: 0,
                    made: 1,
                    at_table,
                };
                Ok((shared, seat))
            }
            Err(_refused) => Err(AllocError),
        }
    }

    /// The board's record, once every other seat was joined to the owner's: its history is what the
    /// owner has seen, which is legal.
    pub fn close(self, seat: Seat) -> Closed
        requires own { IsSeatOf self seat × IsOwner seat }
        requires alone { length (view_of seat).out ≡ 1 }
        ensures content { result ≡ content (view_of seat).setup (view_of seat).seen }
        ensures legal { IsLegalHistory result.setup result.events }
    {
        let SharedBoard { table, callers: _ } = self;
        let Seat {
            caller: _,
            made: _,
            at_table,
        } = seat;
        let mut closed = table.close_with(at_table);
        let board = closed.take(0);
        closed.free();
        board.close()
    }

    /// Claims a task as the seat's caller, with the answers of `Board::claim`. The call waits for
    /// its turn, and the seat has then seen all of the history: beside its own event, what is new
    /// to it is of other callers, and what is new to the owner of callers whose seats are out.
    /// Takes no memory.
    pub fn claim<R: Wait>(&self, rt: &R, seat: &mut Seat, into: &mut Task) -> Claim
        requires own { IsSeatOf self.now seat.old }
        requires room { IsTaskFor (view_of seat.old).setup.market.periods into.old }
        ensures board { IsSameBoard seat.old seat.new }
        ensures same { KeepsRest (view_of seat.old) (view_of seat.new) }
        ensures call { Called
            (λ b. (result ≡ claim_of (claim_answer b))
            × LeavesTask b (claim_answer b) into.old into.new)
            (λ b. after_claim b (view_of seat.old).caller) (view_of seat.old) (view_of seat.new) }
        ensures unchanged { UnlessGiven result
            (result ≡ claim_of
            (claim_answer (content (view_of seat.new).setup (view_of seat.new).seen))) }
        ensures legal { IsLegalHistory (view_of seat.new).setup (view_of seat.new).seen }
        ensures room { IsTaskFor (view_of seat.new).setup.market.periods into.new }
    {
        self.claim_task_in_turn(rt, &mut seat.at_table, seat.caller, into)
    }

    /// Posts an answer for a task as the seat's caller, with the answers of `Board::post`: the
    /// answer is one that `Fits` the task's unit at the task's prices, with what it earns. The call
    /// waits for its turn, and the seat has then seen all of the history. Takes no memory.
    pub fn post<R: Wait>(&self, rt: &R, seat: &mut Seat, task: &Task, answer: &Answered) -> Posted
        requires own { IsSeatOf self.now seat.old }
        requires fit { Fits (task_unit task.now) (prices_of task.now.prices)
            (schedule_of answer.now.response) }
        requires earned { earnings (task_unit task.now) (prices_of task.now.prices)
            (schedule_of answer.now.response) ≡ answer.now.earned }
        ensures board { IsSameBoard seat.old seat.new }
        ensures same { KeepsRest (view_of seat.old) (view_of seat.new) }
        ensures call { Called
            (λ b. result ≡ posted_of (post_answer b (view_of seat.old).caller task.now.proposal
            task.now.unit (prices_of task.now.prices) (task_unit task.now) (answer_of answer.now)))
            (λ b. after_post b (view_of seat.old).caller task.now.proposal task.now.unit
            (prices_of task.now.prices) (task_unit task.now) (answer_of answer.now))
            (view_of seat.old) (view_of seat.new) }
        ensures unchanged { UnlessTaken result
            (result ≡ posted_of
            (post_answer (content (view_of seat.new).setup (view_of seat.new).seen)
            (view_of seat.old).caller task.now.proposal task.now.unit (prices_of task.now.prices)
            (task_unit task.now) (answer_of answer.now))) }
        ensures legal { IsLegalHistory (view_of seat.new).setup (view_of seat.new).seen }
    {
        self.post_answer_in_turn(rt, &mut seat.at_table, seat.caller, task, answer)
    }

    /// Halts the seat's caller, as `Board::halt` does. The call waits for its turn, and the seat
    /// has then seen all of the history. Takes no memory.
    pub fn halt<R: Wait>(&self, rt: &R, seat: &mut Seat)
        requires { IsSeatOf self.now seat.old }
        ensures board { IsSameBoard seat.old seat.new }
        ensures same { KeepsRest (view_of seat.old) (view_of seat.new) }
        ensures call { Called (λ b. Unit {0}) (λ b. after_halt b (view_of seat.old).caller)
            (view_of seat.old) (view_of seat.new) }
        ensures legal { IsLegalHistory (view_of seat.new).setup (view_of seat.new).seen }
    {
        self.halt_caller_in_turn(rt, &mut seat.at_table, seat.caller);
    }

    /// The next caller's seat, which has seen what the owner's has; none where as many seats were
    /// made as the board has callers. The seat is the owner's. Takes no memory.
    pub fn split(&self, seat: &mut Seat) -> Option<Seat>
        requires own { IsSeatOf self.now seat.old × IsOwner seat.old }
        ensures board { IsSameBoard seat.old seat.new × IsOwner seat.new }
        ensures more { IfSome result (λ s. (view_of seat.old).made
            < (view_of seat.old).setup.callers) }
        ensures given { IfSome result (λ s. IsSameBoard seat.old s
            × (view_of s ≡ cut_right (view_of seat.old))) }
        ensures owner { IfSome result (λ s. view_of seat.new ≡ cut_left (view_of seat.old)) }
        ensures none { IfNone result (((view_of seat.old).setup.callers ≤ (view_of seat.old).made)
            × (view_of seat.new ≡ view_of seat.old)) }
    {
        if seat.made >= self.callers {
            return None;
        }
        let caller = seat.made;
        let at_table = self.table.shared.split_seat::<Cut>(&mut seat.at_table);
        seat.made = caller + 1;
        Some(Seat {
            caller,
            made: 0,
            at_table,
        })
    }

    /// The owner's seat takes in one that was split from it: it has then seen the longer of what
    /// the two had seen, which the other begins. What it comes to see is of callers whose seats
    /// were out, and the joined caller's events in it are those that its seat had seen. Takes no
    /// memory.
    pub fn join(&self, seat: &mut Seat, other: Seat)
        requires own { IsSeatOf self.now seat.old × IsOwner seat.old × IsSameBoard seat.old other }
        ensures board { IsSameBoard seat.old seat.new × IsOwner seat.new }
        ensures view { view_of seat.new ≡ record (view_of seat.old) {
          seen =
              longer (view_of seat.old).seen (view_of other).seen;
          out =
              without (view_of other).caller (view_of seat.old).out;
        } }
        ensures joined { HasJoined (view_of seat.old) (view_of other) (view_of seat.new) }
    {
        let Seat {
            caller: _,
            made: _,
            at_table,
        } = other;
        self.join_table_seats(&mut seat.at_table, at_table);
    }
}
