//! One call of a seat, in its steps.
ghost use Rattle.std.specs.Prelude.{◌≡◌, ◌%◌, ◌^◌, ◌<◌, [], ◌∷◌, ℕ, length};
ghost use Rattle.board_store.specs.Board.{Content, IsLegalHistory};
ghost use Rattle.board_store.specs.Calls.{claim_answer, after_claim, post_answer, after_post};
ghost use Rattle.board_store.specs.Calls.{after_halt};
ghost use Rattle.uc_model.specs.Earnings.{earnings};
ghost use Rattle.uc_model.specs.PlainCases.{task_unit};
ghost use Rattle.uc_model.specs.PlainUnits.{prices_of, schedule_of};
ghost use Rattle.uc_model.specs.Runs.{Fits};
ghost use Rattle.uc_model.specs.TaskRoom.{IsTaskFor};
ghost use Rattle.board_core.specs.Replies.{claim_of, posted_of};
ghost use Rattle.board_store.specs.Answers.{answer_of};
ghost use Rattle.board_core.specs.Tasks.{LeavesTask};
ghost use Rattle.board_share.specs.Rule.{Joined};
ghost use Rattle.board_share.specs.Tells.{HasTaken, Follows, hand_history, Called, OnlyMade};
ghost use Rattle.board_share.specs.Views.{waits, turn, idle, at_stage, glued};

use crate::plays::{Draw, Glue, Grow, Look, Pass, Told};
use crate::table::{TableSeat, Top};
use board_core::{Claim, Posted};
use std::sync::Wait;
use std::thread;
use uc_model::cases::Task;
use uc_model::units::Answered;

const LENGTH: usize = 0;

const NEXT: usize = 1;

const SERVING: usize = 2;

/// A board for as many callers as it was made for, each with a seat of its own.
#[derive(Drop)]
pub struct SharedBoard {
    pub(crate) table: Top,
    pub(crate) callers: u32,
    ghost sized: { (table.shared.table_id.words ≡ 3) × (table.shared.table_id.slots ≡ 1) },
}

impl SharedBoard {
    fn draw_turn_ticket(&self, seat: &mut TableSeat) -> u64
        requires own { seat.old.table_id ≡ self.now.table.shared.table_id }
        requires ready { seat.old.me.0.stage ≡ idle }
        ensures same { (seat.new.table_id ≡ seat.old.table_id) × (seat.new.id ≡ seat.old.id)
            × (seat.new.me.1 ≡ seat.old.me.1) }
        ensures drawn { (t : ℕ) × (result ≡ t % 2 ^ 64)
            × (seat.new.me.0 ≡ at_stage seat.old.me.0 (waits t)) }
    {
        self.table.shared.fetch_add::<Draw>(seat, NEXT, 1)
    }

    fn wait_for_turn_of_ticket<R: Wait>(&self, rt: &R, seat: &mut TableSeat, ticket: u64)
        requires own { seat.old.table_id ≡ self.now.table.shared.table_id }
        requires ready { (seat.old.me.1 ≡ [])
            × ((t : ℕ) × (seat.old.me.0.stage ≡ waits t) × (ticket ≡ t % 2 ^ 64)) }
        ensures same { (seat.new.table_id ≡ seat.old.table_id) × (seat.new.id ≡ seat.old.id) }
        ensures taken { (b : Content) × HasTaken seat.old.me seat.new.me b }
    {
        for _ in rt.forever() {
            if self.table.shared.load::<Look>(seat, SERVING) == ticket {
                return;
            }
            thread::yield_now();
        }
        unreachable!()
    }

    // Gives the board back, where `before` was the length of its history and `after` is what it is
    // now.
    fn finish(&self, seat: &mut TableSeat, before: usize, after: usize)
        requires own { seat.old.table_id ≡ self.now.table.shared.table_id }
        requires turn { (t : ℕ) × (seat.old.me.0.stage ≡ turn t) }
        requires hand { (b : Content) × (seat.old.me.1 ≡ (0, b) ∷ [])
            × Follows seat.old.me.0.caller seat.old.me.0.seen b.events × (after ≡ length b.events)
            × (b.setup ≡ seat.old.me.0.setup) }
        requires before { before ≡ length seat.old.me.0.seen }
        ensures same { (seat.new.table_id ≡ seat.old.table_id) × (seat.new.id ≡ seat.old.id) }
        ensures given { seat.new.me
            ≡ (record seat.old.me.0 { seen = hand_history seat.old.me.1; stage = idle }, []) }
    {
        self.note(seat, before, after);
        self.table.shared.fetch_add::<Pass>(seat, SERVING, 1);
    }

    // Sets the length where an event was made.
    fn note(&self, seat: &mut TableSeat, before: usize, after: usize)
        requires own { seat.old.table_id ≡ self.now.table.shared.table_id }
        requires turn { (t : ℕ) × (seat.old.me.0.stage ≡ turn t) }
        requires hand { (b : Content) × (seat.old.me.1 ≡ (0, b) ∷ [])
            × Follows seat.old.me.0.caller seat.old.me.0.seen b.events
            × (after ≡ length b.events) }
        requires before { before ≡ length seat.old.me.0.seen }
        ensures same { (seat.new.table_id ≡ seat.old.table_id) × (seat.new.id ≡ seat.old.id) }
        ensures noted { seat.new.me
            ≡ (record seat.old.me.0 { seen = hand_history seat.old.me.1 }, seat.old.me.1) }
    {
        if after != before {
            self.table.shared.store::<Grow>(seat, LENGTH, after as u64);
        }
    }

    pub(crate) fn claim_task_in_turn<R: Wait>(
        &self,
        rt: &R,
        seat: &mut TableSeat,
        caller: u32,
        into: &mut Task,
    ) -> Claim
        requires own { seat.old.table_id ≡ self.now.table.shared.table_id }
        requires ready { (seat.old.me.0.stage ≡ idle) × (seat.old.me.1 ≡ [])
            × (seat.old.me.0.caller ≡ caller) }
        requires caller { caller < seat.old.me.0.setup.callers }
        requires room { IsTaskFor seat.old.me.0.setup.market.periods into.old }
        ensures same { (seat.new.table_id ≡ seat.old.table_id) × (seat.new.id ≡ seat.old.id)
            × (seat.new.me.1 ≡ []) }
        ensures called { Called (λ b. (result ≡ claim_of (claim_answer b))
            × LeavesTask b (claim_answer b) into.old into.new) (λ b. after_claim b caller)
            seat.old.me.0 seat.new.me.0 }
        ensures room { IsTaskFor seat.old.me.0.setup.market.periods into.new }
        ensures legal { IsLegalHistory seat.new.me.0.setup seat.new.me.0.seen }
    {
        let ticket = self.draw_turn_ticket(seat);
        self.wait_for_turn_of_ticket(rt, seat, ticket);
        let board = seat.slot_mut(&self.table.shared, 0);
        let before = board.history().len();
        let answer = board.claim(caller, into);
        let after = board.history().len();
        self.finish(seat, before, after);
        answer
    }

    pub(crate) fn post_answer_in_turn<R: Wait>(
        &self,
        rt: &R,
        seat: &mut TableSeat,
        caller: u32,
        task: &Task,
        answer: &Answered,
    ) -> Posted
        requires own { seat.old.table_id ≡ self.now.table.shared.table_id }
        requires ready { (seat.old.me.0.stage ≡ idle) × (seat.old.me.1 ≡ [])
            × (seat.old.me.0.caller ≡ caller) }
        requires caller { caller < seat.old.me.0.setup.callers }
        requires fit { Fits (task_unit task.now) (prices_of task.now.prices)
            (schedule_of answer.now.response) }
        requires earned { earnings (task_unit task.now) (prices_of task.now.prices)
            (schedule_of answer.now.response) ≡ answer.now.earned }
        ensures same { (seat.new.table_id ≡ seat.old.table_id) × (seat.new.id ≡ seat.old.id)
            × (seat.new.me.1 ≡ []) }
        ensures called { Called (λ b. result ≡ posted_of
            (post_answer b caller task.now.proposal task.now.unit (prices_of task.now.prices)
            (task_unit task.now) (answer_of answer.now)))
            (λ b. after_post b caller task.now.proposal task.now.unit (prices_of task.now.prices)
            (task_unit task.now) (answer_of answer.now)) seat.old.me.0 seat.new.me.0 }
        ensures legal { IsLegalHistory seat.new.me.0.setup seat.new.me.0.seen }
    {
        let ticket = self.draw_turn_ticket(seat);
        self.wait_for_turn_of_ticket(rt, seat, ticket);
        let board = seat.slot_mut(&self.table.shared, 0);
        let before = board.history().len();
        let posted = board.post(caller, task, answer);
        let after = board.history().len();
        self.finish(seat, before, after);
        posted
    }

    pub(crate) fn halt_caller_in_turn<R: Wait>(&self, rt: &R, seat: &mut TableSeat, caller: u32)
        requires own { seat.old.table_id ≡ self.now.table.shared.table_id }
        requires ready { (seat.old.me.0.stage ≡ idle) × (seat.old.me.1 ≡ [])
            × (seat.old.me.0.caller ≡ caller) }
        requires caller { caller < seat.old.me.0.setup.callers }
        ensures same { (seat.new.table_id ≡ seat.old.table_id) × (seat.new.id ≡ seat.old.id)
            × (seat.new.me.1 ≡ []) }
        ensures called { Called (λ b. Unit {0}) (λ b. after_halt b caller) seat.old.me.0
            seat.new.me.0 }
        ensures legal { IsLegalHistory seat.new.me.0.setup seat.new.me.0.seen }
    {
        let ticket = self.draw_turn_ticket(seat);
        self.wait_for_turn_of_ticket(rt, seat, ticket);
        let board = seat.slot_mut(&self.table.shared, 0);
        let before = board.history().len();
        board.halt(caller);
        let after = board.history().len();
        self.finish(seat, before, after);
    }

    // The two read word 0 twice: a join tells nothing, and the second read tells what it came to.
    pub(crate) fn join_table_seats(&self, seat: &mut TableSeat, other: TableSeat)
        requires own { (seat.old.table_id ≡ self.now.table.shared.table_id)
            × (other.table_id ≡ self.now.table.shared.table_id) × (seat.old.id ≡ 0) }
        requires ready { (seat.old.me.0.stage ≡ idle) × (other.me.0.stage ≡ idle)
            × (other.me.1 ≡ []) }
        ensures same { (seat.new.table_id ≡ seat.old.table_id) × (seat.new.id ≡ seat.old.id)
            × (seat.new.me.1 ≡ seat.old.me.1) }
        ensures glued { seat.new.me.0 ≡ at_stage (glued seat.old.me.0 other.me.0) idle }
        ensures joined { Joined (glued seat.old.me.0 other.me.0)
            (glued seat.old.me.0 other.me.0).stage }
        ensures made { OnlyMade (glued seat.old.me.0 other.me.0)
            (glued seat.old.me.0 other.me.0).seen }
    {
        self.table.shared.join_seat::<Glue>(seat, other);
        self.table.shared.load::<Told>(seat, LENGTH);
    }
}
