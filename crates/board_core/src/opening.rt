//! What a board without events begins with.
ghost use Rattle.std.specs.Prelude.{◌≡◌, ◌+◌, ◌≤◌, false, IfOk, length, min, replicate};
ghost use Rattle.uc_model.specs.PlainCases.{market_of};
ghost use Rattle.plain_lists.specs.declared.limits.TheConstants.{MOST_AHEAD, MOST_CALLERS};
ghost use Rattle.plain_lists.specs.declared.limits.TheConstants.{MOST_TASKS};
ghost use Rattle.uc_model.specs.declared.limits.TheConstants.{MOST_PERIODS};
ghost use Rattle.uc_model.specs.TaskRoom.{IsTaskFor};
ghost use Rattle.uc_model.specs.PlainUnits.{prices_of};
ghost use Rattle.uc_model.specs.PriceRule.{start_prices as start_prices_of};
ghost use Rattle.board_core.specs.Blanks.{AreBlank};
ghost use Rattle.board_core.specs.Openings.{blank_ledger, with_openings};

use crate::ledger::Ledger;
use board_store::entries::Entry;
use plain_lists::lists::Numbers;
use price_space::{opening_prices, start_prices};
use std::alloc::{AllocError, Global};
use uc_model::cases::{Case, Task};
use uc_model::units::Prices;

/// The lists of a board that events are kept in.
pub struct EventLists {
    pub history: Vec<Entry>,
    // the callers to whom the tasks were given, in the order of the tasks
    pub takers: Vec<u32>,
    // for each task whether it has an answer
    pub marks: Vec<bool>,
    // for each proposal how many answers it has
    pub counts: Vec<u32>,
    // for each caller whether it has halted
    pub halted: Vec<bool>,
}

// By hand, so that dropping them is one call.
impl Drop for EventLists {
    fn drop(self) {
        let EventLists {
            history: _,
            takers: _,
            marks: _,
            counts: _,
            halted: _,
        } = self;
    }
}

/// Room for the prices that follow the rows, and for the board's own task.
pub struct Room {
    pub next: Prices,
    pub own: Task,
}

// By hand, so that dropping it is one call.
impl Drop for Room {
    fn drop(self) {
        let Room { next: _, own: _ } = self;
    }
}

impl Room {
    /// Room for prices and a task over so many periods.
    pub fn make(alloc: Global, periods: u32) -> Result<Room, AllocError>
        requires some { 1 ≤ periods }
        requires limit { periods ≤ MOST_PERIODS }
        ensures next { IfOk result (λ r. length (prices_of r.next).energy ≡ periods) }
        ensures own { IfOk result (λ r. IsTaskFor periods r.own) }
    {
        let next = Prices::make(alloc, periods)?;
        let own = Task::make(alloc, periods)?;
        Ok(Room { next, own })
    }
}

// So many flags that are off.
fn make_false_flags(alloc: Global, count: usize) -> Result<Vec<bool>, AllocError>
    ensures { IfOk result (λ v. v.items ≡ replicate count false) }
{
    vec![in alloc; false; count]
}

// So many counts of 0.
fn make_zero_counts(alloc: Global, count: usize) -> Result<Vec<u32>, AllocError>
    ensures { IfOk result (λ v. v.items ≡ replicate count 0) }
{
    vec![in alloc; 0; count]
}

/// The lists without an event, with room for each that may come.
pub fn make_empty_event_lists(
    alloc: Global,
    tasks: usize,
    budget: usize,
    callers: usize,
) -> Result<EventLists, AllocError>
    requires tasks { tasks ≤ MOST_TASKS }
    requires callers { callers ≤ MOST_CALLERS }
    ensures { IfOk result (AreBlank tasks budget callers) }
{
    let history = Vec::with_capacity(alloc, 2 * tasks + callers)?;
    let takers = Vec::with_capacity(alloc, tasks)?;
    let marks = make_false_flags(alloc, tasks)?;
    let counts = make_zero_counts(alloc, budget)?;
    let halted = make_false_flags(alloc, callers)?;
    Ok(EventLists {
        history,
        takers,
        marks,
        counts,
        halted,
    })
}

// Opens so many proposals at the opening prices.
fn open_first_proposals(start: &Numbers, count: u32, ledger: &mut Ledger, next: &mut Prices)
    requires count { count ≤ MOST_AHEAD }
    requires start { length start.now.items ≡ length (prices_of next.old).energy }
    requires blank { ledger.old ≡ blank_ledger (length start.now.items)
        (length ledger.old.proposals) }
    requires within { count ≤ length ledger.old.proposals }
    ensures ledger { ledger.new ≡ with_openings start.now.items ledger.old count }
    ensures horizon { length (prices_of next.new).energy ≡ length (prices_of next.old).energy }
{
    for k in 0..count {
        opening_prices(start, k + 1, next);
        ledger.open(next);
    }
}

/// The ledger of a board without events. `next` is used for the prices of the proposals that are
/// open.
pub fn make_ledger_with_open_proposals(
    alloc: Global,
    case: &Case,
    budget: u32,
    ahead: u32,
    next: &mut Prices,
) -> Result<Ledger, AllocError>
    requires ahead { ahead ≤ MOST_AHEAD }
    requires horizon { length (prices_of next.old).energy ≡ (market_of case.now).periods }
    ensures ledger { IfOk result (λ l. l ≡ with_openings (start_prices_of (market_of case.now))
        (blank_ledger (market_of case.now).periods budget) (min budget ahead)) }
    ensures horizon { length (prices_of next.new).energy ≡ (market_of case.now).periods }
{
    let start = start_prices(alloc, case)?;
    let mut ledger = Ledger::make(alloc, case.periods, budget)?;
    open_first_proposals(&start, budget.min(ahead), &mut ledger, next);
    Ok(ledger)
}
