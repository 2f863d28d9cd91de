//! Why a post is refused, and the parts of one that is taken.
ghost use Rattle.std.specs.Prelude.{◌≡◌, ℕ, ◌+◌, ◌-◌, ◌<◌, ◌≤◌, true, ◌==◌, length, slice_get};
ghost use Rattle.std.specs.Prelude.{slice_index, slice_index_or, slice_set, false};
ghost use Rattle.board_store.specs.Rounds.{is_holder as is_holder_of};
ghost use Rattle.board_store.specs.TaskDifference.{difference as difference_of};
ghost use Rattle.board_store.specs.Calls.{differs_from};
ghost use Rattle.uc_model.specs.Data.{unit_count};
ghost use Rattle.uc_model.specs.PlainCases.{task_unit};
ghost use Rattle.uc_model.specs.PlainUnits.{prices_of};
ghost use Rattle.uc_model.specs.PriceRule.{Proposal};
ghost use Rattle.uc_model.specs.TaskLists.{task_numbers};
ghost use Rattle.uc_model.specs.TaskRoom.{IsTaskFor};
ghost use Rattle.plain_lists.specs.declared.limits.TheConstants.{MOST_PROPOSALS, MOST_UNITS};
ghost use Rattle.board_core.specs.Events.{task_number as number_of};
ghost use Rattle.board_core.specs.Refusals.{held_refusal, differs_of, own_prices_in, refusal_of};
ghost use Rattle.board_core.specs.Replies.{closed_of as closed_if};
ghost use Rattle.board_core.specs.Setups.{IsSetup, setup_of};

use crate::ledger::Ledger;
use crate::replies::{Differs, Posted};
use crate::terms::{Terms, task_number};
use board_store::laws::lists_differ_at_first_unequal_number;
use board_store::same::{
    count_equal_leading_task_numbers, is_task_unit_same_as_case_unit, same_prices,
};
use board_store::tasks::fill_task;
use uc_model::cases::Task;
use uc_model::task_numbers::flat_number;

// A flat list has at most 336 prices, and a unit at most 168 marks or 17 numbers for each period.
const MOST_NUMBERS: u32 = 4_000;

// The first place at which the flat lists of two tasks differ, with the two numbers there. A number
// of a bid is found by going over its periods, so the walk begins at the first period that differs.
fn first_difference_between_tasks(own: &Task, task: &Task) -> Option<Differs>
    ensures { result ≡ differs_of
        (difference_of (task_numbers (prices_of own.now.prices) (task_unit own.now))
        (task_numbers (prices_of task.now.prices) (task_unit task.now))) }
{
    lists_differ_at_first_unequal_number();
    for place in count_equal_leading_task_numbers(own, task)..MOST_NUMBERS {
        let board = flat_number(own, place)?;
        let task = flat_number(task, place)?;
        if board != task {
            return Some(Differs::Content { place, board, task });
        }
    }
    None
}

// Where a task differs from the board's own of its proposal and unit. That one is built in `own`
// only where the two aren't seen to be the same at once.
fn difference_from_task_of_board(
    terms: &Terms,
    ledger: &Ledger,
    own: &mut Task,
    task: &Task,
) -> Option<Differs>
    requires first { 1 ≤ task.now.proposal }
    requires last { task.now.proposal ≤ length ledger.now.proposals }
    requires unit { task.now.unit < unit_count (setup_of terms.now).market }
    requires room { IsTaskFor (setup_of terms.now).market.periods own.old }
    requires horizon { (d : Proposal)
        → length (slice_index_or ledger.now.proposals (task.now.proposal - 1) d).prices.energy
        ≡ (setup_of terms.now).market.periods }
    ensures differs { result ≡ differs_of
        (differs_from (setup_of terms.now) task.now.unit (prices_of task.now.prices)
        (task_unit task.now) (own_prices_in ledger.now task.now.proposal)) }
    ensures room { IsTaskFor (setup_of terms.now).market.periods own.new }
{
    lists_differ_at_first_unequal_number();
    let prices = ledger.prices(task.proposal as usize - 1);
    if same_prices(prices, &task.prices)
        && is_task_unit_same_as_case_unit(&terms.case, task.unit, task)
    {
        return None;
    }
    fill_task(&terms.case, prices, task.proposal, task.unit, own);
    first_difference_between_tasks(own, task)
}

fn caller_who_claimed_task(takers: &[u32], at: usize) -> Option<u32>
    ensures { result ≡ slice_get takers.now at }
{
    takers.get(at).copied()
}

fn has_caller_claimed_task(holder: Option<u32>, caller: u32) -> bool
    ensures { result ≡ is_holder_of holder caller }
{
    match holder {
        Some(other) => other == caller,
        None => false,
    }
}

// Why a post for the task of a number is refused, where it is the board's own.
fn refusal_if_answered_or_unclaimed(
    marks: &[bool],
    takers: &[u32],
    at: usize,
    caller: u32,
) -> Option<Posted>
    requires marks { at < length marks.now }
    requires claimed { slice_index_or marks.now at false ≡ true → at < length takers.now }
    ensures { result ≡ held_refusal marks.now takers.now at caller }
{
    if marks[at] {
        return Some(Posted::Doubled { by: takers[at] });
    }
    let holder = caller_who_claimed_task(takers, at);
    if has_caller_claimed_task(holder, caller) {
        return None;
    }
    Some(Posted::Stranger(Differs::Holder { caller, holder }))
}

/// Why a post is refused, if it is. Where the task differs from the board's own, that one is left
/// in `own`.
pub fn refusal_of_post(
    terms: &Terms,
    ledger: &Ledger,
    marks: &[bool],
    takers: &[u32],
    own: &mut Task,
    caller: u32,
    task: &Task,
) -> Option<Posted>
    requires setup { IsSetup (setup_of terms.now) }
    requires opened { ledger.now.opened ≤ length ledger.now.proposals }
    requires few { ledger.now.opened ≤ MOST_PROPOSALS }
    requires horizon { (k : ℕ) (d : Proposal) → k < ledger.now.opened
        → length (slice_index_or ledger.now.proposals k d).prices.energy
        ≡ (setup_of terms.now).market.periods }
    requires room { IsTaskFor (setup_of terms.now).market.periods own.old }
    requires marks { (n u : ℕ) → 0 < n → n ≤ ledger.now.opened
        → u < unit_count (setup_of terms.now).market
        → number_of (unit_count (setup_of terms.now).market) n u < length marks.now }
    requires takers { (i : ℕ) → slice_index_or marks.now i false ≡ true → i < length takers.now }
    ensures refused { result ≡ refusal_of (setup_of terms.now) ledger.now marks.now takers.now
        caller task.now.proposal task.now.unit (prices_of task.now.prices) (task_unit task.now) }
    ensures room { IsTaskFor (setup_of terms.now).market.periods own.new }
{
    let opened = ledger.opened();
    if task.proposal == 0 || opened < task.proposal as usize {
        return Some(Posted::Stranger(Differs::Proposal {
            task: task.proposal,
            opened: opened as u32,
        }));
    }
    let units = terms.case.unit_count();
    if units <= task.unit {
        return Some(Posted::Stranger(Differs::Unit {
            task: task.unit,
            units,
        }));
    }
    if let Some(differs) = difference_from_task_of_board(terms, ledger, own, task) {
        return Some(Posted::Stranger(differs));
    }
    let at = task_number(units, task.proposal, task.unit);
    refusal_if_answered_or_unclaimed(marks, takers, at, caller)
}

/// Counts one more answer at a place, and says how many there are then.
pub fn count_answer(counts: &mut Vec<u32>, place: usize) -> u32
    requires place { place < length counts.old.items }
    requires count { slice_index counts.old.items place ≤ MOST_UNITS }
    ensures counts { counts.new.items ≡ slice_set counts.old.items place
        (slice_index counts.old.items place + 1) }
    ensures count { result ≡ slice_index counts.old.items place + 1 }
{
    let count = counts[place] + 1;
    counts[place] = count;
    count
}

/// The proposal, where it closes.
pub fn number_of_proposal_if_closed(closes: bool, proposal: u32) -> Option<u32>
    ensures { result ≡ closed_if closes proposal }
{
    if closes { Some(proposal) } else { None }
}
