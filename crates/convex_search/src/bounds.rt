//! The bound that the columns give, and how they become the mixture with the least bound.
ghost use Rattle.std.specs.Prelude.{◌≡◌};
ghost use Rattle.uc_model.specs.PlainCases.{market_of};
ghost use Rattle.uc_model.specs.PlainUnits.{prices_of};
ghost use Rattle.gap_proof.specs.Mixtures.{mixture_of};
ghost use Rattle.gap_proof.specs.MixtureBound.{mixture_bound};
ghost use Rattle.gap_proof.specs.MixtureSizes.{IsBound};
ghost use Rattle.convex_search.specs.FoundPrices.{everywhere};
ghost use Rattle.bundle_columns.specs.Pools.{places_in};
ghost use Rattle.convex_search.specs.Searching.{IsSearch};

use crate::search::Search;
use bundle_columns::copies::copy_mixture;
use gap_proof::bound_of_mixture;
use uc_model::cases::Case;

/// A radius round any prices that has all prices in it.
pub const EVERYWHERE: i64 = 20_000_000;

/// The bound that the columns give by their weights.
pub fn bound_of_columns(search: &Search, case: &Case) -> i128
    requires { IsSearch (market_of case.now) (places_in search.now.pool) search.now }
    ensures bound { result ≡ mixture_bound (market_of case.now) (mixture_of search.now.pool.columns)
        (prices_of search.now.best.prices) everywhere }
    ensures size { IsBound result }
{
    bound_of_mixture(case, &search.pool.columns, &search.best.prices, EVERYWHERE)
}

/// Takes the columns by their weights as the best mixture, with the bound that they give.
pub fn take_columns_as_best(search: &mut Search, case: &Case, bound: i128)
    requires search { IsSearch (market_of case.now) (places_in search.old.pool) search.old }
    requires bound { bound ≡ mixture_bound (market_of case.now) (mixture_of search.old.pool.columns)
        (prices_of search.old.best.prices) everywhere }
    requires size { IsBound bound }
    ensures search { IsSearch (market_of case.now) (places_in search.old.pool) search.new }
    ensures bound { search.new.best.bound ≡ bound }
    ensures value { search.new.best.value ≡ search.old.best.value }
{
    let places = search.pool.wanted.len();
    copy_mixture(case, places, &search.pool.columns, &mut search.best.mixture);
    search.best.bound = bound;
}
