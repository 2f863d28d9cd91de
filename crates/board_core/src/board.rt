//! The board.
ghost use Rattle.std.specs.Prelude.{◌≡◌, ◌+◌, ◌*◌, ◌<◌, ◌≤◌, true, false, IfOk, Some};
ghost use Rattle.std.specs.Prelude.{length, map, take};
ghost use Rattle.board_store.specs.Board.{IsLegalHistory};
ghost use Rattle.board_store.specs.Calls.{own_rows, has_finished, claim_answer, after_claim};
ghost use Rattle.board_store.specs.Calls.{post_answer, after_post, after_halt};
ghost use Rattle.board_store.specs.Entries.{entries_of};
ghost use Rattle.uc_model.specs.Data.{unit_count};
ghost use Rattle.uc_model.specs.Earnings.{earnings};
ghost use Rattle.uc_model.specs.PlainCases.{proposal_of, task_unit};
ghost use Rattle.uc_model.specs.PlainUnits.{prices_of, schedule_of};
ghost use Rattle.uc_model.specs.Runs.{Fits};
ghost use Rattle.uc_model.specs.TaskRoom.{IsTaskFor};
ghost use Rattle.plain_lists.specs.declared.limits.TheConstants.{MOST_PROPOSALS};
ghost use Rattle.board_core.specs.Boards.{empty_board, kept_answer};
ghost use Rattle.board_core.specs.Replies.{claim_of, posted_of};
ghost use Rattle.board_core.specs.Setups.{IsSetup, setup_of};
ghost use Rattle.board_store.specs.Answers.{answer_of};
ghost use Rattle.board_core.specs.Tasks.{LeavesTask};

use crate::advance::advance_proposals;
use crate::history::{history_entry_of_call, history_entry_of_taken_post};
use crate::ledger::Ledger;
use crate::opening::{EventLists, Room, make_empty_event_lists, make_ledger_with_open_proposals};
use crate::posts::{count_answer, number_of_proposal_if_closed, refusal_of_post};
use crate::replies::{Claim, Posted};
use crate::terms::{Terms, task_number, task_number_one_proposal_before};
use board_store::Store;
use board_store::entries::{Call, Entry, Reply};
use board_store::laws::board_laws;
use board_store::tasks::fill_task;
use std::alloc::{AllocError, Global};
use std::marker::Model;
use uc_model::cases::{Row, Task};
use uc_model::units::Answered;

mod closed;

pub use closed::Closed;

/// A board that one thread uses: callers claim tasks and post answers. Contracts see it as what it
/// was made for and the list of its events. Its history is legal (`Board::history`), and its plan
/// feasible (`Board::callers`).
pub struct Board {
    terms: Terms,
    lists: EventLists,
    // the answers, one for each task
    store: Store,
    ledger: Ledger,
    room: Room,
    any_halt: bool,
}

impl Model for Board {
    ghost use Rattle.std.specs.Prelude.{length, vec_capacity};
    ghost use Rattle.uc_model.specs.Data.{unit_count};
    ghost use Rattle.uc_model.specs.PlainUnits.{prices_of};
    ghost use Rattle.uc_model.specs.TaskRoom.{IsTaskFor};
    ghost use Rattle.board_store.specs.Board.{Content};
    ghost use Rattle.board_core.specs.Events.{events_of};
    ghost use Rattle.board_core.specs.Parts.{IsBoard, IsKept};
    ghost use Rattle.board_core.specs.Setups.{setup_of};

    ghost Value = { Content };

    ghost view = { λ b. record {
      setup = setup_of b.terms;
      events =
          events_of (unit_count (setup_of b.terms).market) b.store.answers
          b.lists.history.items;
    } };

    ghost invariant = { λ b.
        IsBoard (setup_of b.terms)
        (events_of (unit_count (setup_of b.terms).market) b.store.answers
        b.lists.history.items)
        (record {
          takers = b.lists.takers.items;
          marks = b.lists.marks.items;
          kept = b.store.answers;
          counts = b.lists.counts.items;
          halted = b.lists.halted.items;
          any_halt = b.any_halt;
        }) b.ledger
        × IsKept (setup_of b.terms)
        (events_of (unit_count (setup_of b.terms).market) b.store.answers
        b.lists.history.items)
        b.lists.history.items
        (record {
          takers = b.lists.takers.items;
          marks = b.lists.marks.items;
          kept = b.store.answers;
          counts = b.lists.counts.items;
          halted = b.lists.halted.items;
          any_halt = b.any_halt;
        })
        (vec_capacity b.lists.history) (vec_capacity b.lists.takers) b.store
        (length (prices_of b.room.next).energy)
        × IsTaskFor (setup_of b.terms).market.periods b.room.own };
}

// By hand, so that dropping a board is one call.
impl Drop for Board {
    fn drop(self) {
        let Board {
            terms: _,
            lists: _,
            store: _,
            ledger: _,
            room: _,
            any_halt: _,
        } = self;
    }
}

impl Board {
    /// A board without events on these terms, with the proposals 1 to `ahead` open. All memory that
    /// it ever needs is taken here; `AllocError` is want of it, and the terms are then dropped.
    /// Conditions: the plan is feasible and `cost` is its cost; 1 to 10,000 proposals, 1 to 16
    /// ahead, 1 to 33 callers, and at most 50,000,000 for proposals times units times periods, bids
    /// counted as units.
    pub fn make(alloc: Global, terms: Terms) -> Result<Board, AllocError>
        requires { IsSetup (setup_of terms) }
        ensures { IfOk result (λ b. b ≡ empty_board (setup_of terms)) }
    {
        board_laws();
        let periods = terms.case.periods;
        let budget = terms.budget;
        let tasks = budget as usize * terms.case.unit_count() as usize;
        let lists = make_empty_event_lists(alloc, tasks, budget as usize, terms.callers as usize)?;
        let mut room = Room::make(alloc, periods)?;
        let ledger = make_ledger_with_open_proposals(
            alloc,
            &terms.case,
            budget,
            terms.ahead,
            &mut room.next,
        )?;
        let store = Store::make(alloc, tasks, periods)?;
        Ok(Board {
            terms,
            lists,
            store,
            ledger,
            room,
            any_halt: false,
        })
    }

    /// Claims a task for a caller. Answers the first that applies: `Finished` where every proposal
    /// that exists is closed; `Halted` where some caller has halted; `Given` where an open proposal
    /// has an unclaimed unit; and `NotYet`. The task given is the lowest unclaimed unit of the
    /// lowest such proposal, and is left in `into`, which is for the periods of the case and stays
    /// so; it stays as it is at the other answers. Some schedule of the unit is feasible. Takes no
    /// memory.
    pub fn claim(&mut self, caller: u32, into: &mut Task) -> Claim
        requires caller { caller < self.old.setup.callers }
        requires room { IsTaskFor self.old.setup.market.periods into.old }
        ensures answer { result ≡ claim_of (claim_answer self.old) }
        ensures after { self.new ≡ after_claim self.old caller }
        ensures task { LeavesTask self.old (claim_answer self.old) into.old into.new }
        ensures room { IsTaskFor self.old.setup.market.periods into.new }
    {
        board_laws();
        let open = self.ledger.opened();
        if open <= self.ledger.closed() {
            return Claim::Finished;
        }
        if self.any_halt {
            return Claim::Halted;
        }
        let number = self.lists.takers.len();
        let units = self.terms.case.unit_count() as usize;
        let before = number / units;
        if open <= before {
            return Claim::NotYet;
        }
        let proposal = before as u32 + 1;
        let unit = (number % units) as u32;
        let prices = self.ledger.prices(before);
        fill_task(&self.terms.case, prices, proposal, unit, into);
        self.lists.takers.push_reserved(caller);
        let entry = history_entry_of_call(caller, Call::Claim, proposal, unit, Reply::Given);
        self.lists.history.push_reserved(entry);
        Claim::Given
    }

    /// Posts an answer for a task, which is one that `Fits` the task's unit at the task's prices,
    /// with what it earns. Answers the first that applies: `Stranger` where the task's proposal is
    /// 0 or isn't open yet, where there is no unit of its number, or where its flat list differs
    /// from that of the board's own task; `Doubled` where an answer stands; `Stranger` where the
    /// caller doesn't hold the task; and `Taken`, also after a halt. Then the answer is kept, and
    /// the proposal is named that it closed, if it closed one. At the other answers the board stays
    /// as it is. Takes no memory.
    pub fn post(&mut self, caller: u32, task: &Task, answer: &Answered) -> Posted
        requires caller { caller < self.old.setup.callers }
        requires fit { Fits (task_unit task.now) (prices_of task.now.prices)
            (schedule_of answer.now.response) }
        requires earned { earnings (task_unit task.now) (prices_of task.now.prices)
            (schedule_of answer.now.response) ≡ answer.now.earned }
        ensures answer { result ≡ posted_of
            (post_answer self.old caller task.now.proposal task.now.unit (prices_of task.now.prices)
            (task_unit task.now) (answer_of answer.now)) }
        ensures after { self.new ≡ after_post self.old caller task.now.proposal task.now.unit
            (prices_of task.now.prices) (task_unit task.now) (answer_of answer.now) }
    {
        board_laws();
        let refused = refusal_of_post(
            &self.terms,
            &self.ledger,
            &self.lists.marks,
            &self.lists.takers,
            &mut self.room.own,
            caller,
            task,
        );
        if let Some(refused) = refused {
            return refused;
        }
        let units = self.terms.case.unit_count();
        let before = task.proposal as usize - 1;
        let at = task_number(units, task.proposal, task.unit);
        self.lists.marks[at] = true;
        self.store
            .put(at, answer, task_number_one_proposal_before(units, at));
        self.ledger.add(before, task, answer);
        let closes = count_answer(&mut self.lists.counts, before) == units;
        self.lists
            .history
            .push_reserved(history_entry_of_taken_post(caller, task, closes));
        advance_proposals(
            &self.terms,
            &self.lists.counts,
            &mut self.ledger,
            &mut self.room.next,
        );
        Posted::Taken {
            closed: number_of_proposal_if_closed(closes, task.proposal),
        }
    }

    /// Halts a caller: no further task is given to anyone, and posts are still taken. A later halt
    /// of the same caller changes nothing. Takes no memory.
    pub fn halt(&mut self, caller: u32)
        requires { caller < self.old.setup.callers }
        ensures { self.new ≡ after_halt self.old caller }
    {
        board_laws();
        let at = caller as usize;
        if self.lists.halted[at] {
            return;
        }
        self.lists.halted[at] = true;
        self.any_halt = true;
        let entry = history_entry_of_call(caller, Call::Halt, 0, 0, Reply::Stopped);
        self.lists.history.push_reserved(entry);
    }

    /// The entries of its history, which is legal: each of its events may follow those before it,
    /// and each answer that was taken fits its task. Takes no memory.
    pub fn history(&self) -> &[Entry]
        ensures entries { result.now ≡ entries_of self.now.events }
        ensures legal { IsLegalHistory self.now.setup self.now.events }
    {
        self.lists.history.as_slice()
    }

    /// How many callers it was made for. Like all that a board is made for, they are within the
    /// limits, and its plan is feasible at its cost.
    pub fn callers(&self) -> u32
        ensures callers { result ≡ self.now.setup.callers }
        ensures setup { IsSetup self.now.setup }
    {
        self.terms.callers
    }

    fn into_terms(self) -> Terms
        ensures terms { setup_of result ≡ self.setup }
        ensures setup { IsSetup self.setup }
    {
        let Board {
            terms,
            lists: _,
            store: _,
            ledger: _,
            room: _,
            any_halt: _,
        } = self;
        terms
    }

    // The closed proposals from 1 up to the first that isn't. The history is legal, and what the
    // board was made for is within the limits.
    fn rows(&self) -> &[Row]
        ensures rows { map proposal_of result.now ≡ own_rows self.now }
        ensures count { length result.now ≤ MOST_PROPOSALS }
        ensures legal { IsLegalHistory self.now.setup self.now.events }
        ensures setup { IsSetup self.now.setup }
    {
        self.ledger.rows()
    }

    fn is_finished(&self) -> bool
        ensures { result ≡ has_finished self.now }
    {
        board_laws();
        self.ledger.opened() <= self.ledger.closed()
    }

    fn earned(&self, proposal: u32, unit: u32) -> i64
        requires first { 1 ≤ proposal }
        requires last { proposal ≤ length (own_rows self.now) }
        requires unit { unit < unit_count self.now.setup.market }
        ensures { result ≡ (kept_answer self.now proposal unit).earned }
    {
        board_laws();
        self.store
            .earned(task_number(self.terms.case.unit_count(), proposal, unit))
    }

    fn copy_answer_out(&self, proposal: u32, unit: u32, into: &mut Answered)
        requires first { 1 ≤ proposal }
        requires last { proposal ≤ length (own_rows self.now) }
        requires unit { unit < unit_count self.now.setup.market }
        requires horizon { length (schedule_of into.old.response).on
            ≡ self.now.setup.market.periods }
        ensures answer { answer_of into.new ≡ kept_answer self.now proposal unit }
        ensures horizon { length (schedule_of into.new.response).on
            ≡ self.now.setup.market.periods }
    {
        board_laws();
        self.store.take(
            task_number(self.terms.case.unit_count(), proposal, unit),
            into,
        );
    }
}
