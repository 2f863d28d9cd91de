//! A search for convex hull prices of an input.
ghost use Rattle.std.specs.Prelude.{◌≡◌, ◌≤◌, pos, IfOk};
ghost use Rattle.hull_words.specs.declared.limits.TheConstants.{MOST_WITHIN};
ghost use Rattle.hull_input.specs.Answers.{IsFitSearch};
ghost use Rattle.hull_command.specs.Answers.{HasFound, IsFoundIn};

use crate::answer::FoundInput;
use crate::settle::settle_schedule_at_prices;
use convex_search::{Found, Goal, find_convex};
use hull_input::{PricedInput, SearchInput};
use std::alloc::{AllocError, Global};

/// What a search over an input finds, which ends where the distance is at most `within`, and what the
/// schedule is settled at there.
pub fn find_convex_prices(
    alloc: Global,
    search: SearchInput,
    within: u64,
) -> Result<FoundInput, AllocError>
    requires search { IsFitSearch search }
    requires within { within ≤ MOST_WITHIN }
    ensures input { IfOk result (λ x. x.settled.input ≡ search.input) }
    ensures within { IfOk result (λ x. x.goal.within ≡ pos within) }
    ensures rounds { IfOk result (λ x. x.goal.rounds ≡ search.rounds) }
    ensures found { IfOk result IsFoundIn }
    ensures told { IfOk result HasFound }
{
    let SearchInput { input, rounds } = search;
    let goal = Goal {
        within: within as i64,
        rounds,
    };
    let found = find_convex(alloc, &input.case, &input.plan, goal)?;
    let Found {
        prices,
        mixture,
        bound,
        made,
    } = found;
    let settled = settle_schedule_at_prices(alloc, PricedInput { input, prices })?;
    Ok(FoundInput {
        settled,
        goal,
        mixture,
        bound,
        made,
    })
}
