//! What a board is made for.
ghost use Rattle.std.specs.Prelude.{◌≡◌, ◌+◌, ◌-◌, ◌*◌, ◌<◌, ◌≤◌};
ghost use Rattle.uc_model.specs.PlainCases.{market_of, schedules_of};
ghost use Rattle.plain_lists.specs.declared.limits.TheConstants.{MOST_PROPOSALS, MOST_UNITS};
ghost use Rattle.board_core.specs.Events.{task_number};
ghost use Rattle.board_core.specs.Setups.{setup_of};

use uc_model::cases::{Case, Plan};

/// What a run is for, and its board is made for.
pub struct Terms {
    /// The case.
    pub case: Case,
    /// A feasible plan of it.
    pub plan: Plan,
    /// What the plan costs, in money.
    pub cost: i128,
    /// How many proposals there may be, from 1.
    pub budget: u32,
    /// How many proposals are open ahead of the closed ones, from 1.
    pub ahead: u32,
    /// How many callers there are, from 1: one for each worker.
    pub callers: u32,
}

// By hand, so that dropping them is one call.
impl Drop for Terms {
    fn drop(self) {
        let Terms {
            case: _,
            plan: _,
            cost: _,
            budget: _,
            ahead: _,
            callers: _,
        } = self;
    }
}

impl Terms {
    /// The case and the plan.
    pub fn into_parts(self) -> (Case, Plan)
        ensures case { market_of result.0 ≡ (setup_of self).market }
        ensures plan { schedules_of result.1 ≡ (setup_of self).plan }
    {
        let Terms {
            case,
            plan,
            cost: _,
            budget: _,
            ahead: _,
            callers: _,
        } = self;
        (case, plan)
    }
}

/// The number of a task among all: by proposal, which counts from 1, and then by unit.
pub fn task_number(units: u32, proposal: u32, unit: u32) -> usize
    requires first { 1 ≤ proposal }
    requires proposals { proposal ≤ MOST_PROPOSALS }
    requires units { units ≤ MOST_UNITS }
    requires inside { unit < units }
    ensures { result ≡ task_number units proposal unit }
{
    (proposal as usize - 1) * units as usize + unit as usize
}

/// The number of the same unit's task in the proposal before, or 0 where there is none. What a unit
/// does at prices it often does at the next ones too.
pub fn task_number_one_proposal_before(units: u32, number: usize) -> usize
    ensures { result ≤ number }
{
    number.saturating_sub(units as usize)
}
