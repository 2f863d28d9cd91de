//! The search.
ghost use Rattle.std.specs.Prelude.{◌<◌, ◌≤◌, IfOk};
ghost use Rattle.uc_model.specs.PlainCases.{market_of, schedules_of};
ghost use Rattle.uc_model.specs.Systems.{IsFeasiblePlan};
ghost use Rattle.convex_search.specs.FoundPrices.{IsFound, IsNear, found_of};
ghost use Rattle.bundle_columns.specs.Pools.{places_in};
ghost use Rattle.convex_search.specs.Searching.{IsSearch};

use crate::best::Best;
use crate::found::Found;
use crate::goals::Goal;
use crate::rounds::make_rounds;
use crate::search::Search;
use crate::short::shorten_mixture;
use crate::start::open_search;
use bundle_columns::written::mixture_without_zero_weights;
use std::alloc::{AllocError, Global};
use uc_model::cases::{Case, Plan};

// What was found.
fn finish_search(
    alloc: Global,
    case: &Case,
    search: Search,
    goal: Goal,
    made: u32,
) -> Result<Found, AllocError>
    requires search { IsSearch (market_of case.now) (places_in search.pool) search }
    requires made { made ≤ goal.rounds }
    requires near { made < goal.rounds → IsNear goal.within search.best.bound search.best.value }
    ensures { IfOk result (λ found. IsFound (market_of case.now) goal (found_of found)) }
{
    let places = search.pool.wanted.len();
    let Search {
        oracle: _,
        pool: _,
        best,
        asked: _,
        centre: _,
        point: _,
        trial: _,
    } = search;
    let Best {
        prices,
        value: _,
        mixture,
        bound,
    } = best;
    let mixture = mixture_without_zero_weights(alloc, case, places, &mixture)?;
    Ok(Found {
        prices,
        mixture,
        bound,
        made,
    })
}

/// Finds prices for a feasible plan, and a mixture that tells how near they are to the best. It
/// ends as soon as the distance is what the goal asks for, and after as many rounds as that allows;
/// it may end sooner where the distance is at most a millionth of the dual value.
///
/// # Errors
///
/// `AllocError` if memory runs out.
pub fn find_convex(alloc: Global, case: &Case, plan: &Plan, goal: Goal) -> Result<Found, AllocError>
    requires { IsFeasiblePlan (market_of case.now) (schedules_of plan.now) }
    ensures { IfOk result (λ found. IsFound (market_of case.now) goal (found_of found)) }
{
    let mut search = open_search(alloc, case, plan)?;
    let made = make_rounds(&mut search, case, goal);
    shorten_mixture(&mut search, case, goal, made);
    finish_search(alloc, case, search, goal, made)
}
