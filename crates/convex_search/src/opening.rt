//! The prices that a search begins with.
ghost use Rattle.std.specs.Prelude.{IfOk};
ghost use Rattle.uc_model.specs.PlainCases.{market_of};
ghost use Rattle.uc_model.specs.PlainUnits.{prices_of};
ghost use Rattle.convex_search.specs.FoundPrices.{ArePricesOver};

use price_space::{opening_prices, start_prices};
use std::alloc::{AllocError, Global};
use uc_model::cases::Case;
use uc_model::units::Prices;

/// The start prices, and 0 for reserve.
pub fn first_prices(alloc: Global, case: &Case) -> Result<Prices, AllocError>
    ensures { IfOk result (λ prices. ArePricesOver (market_of case.now) (prices_of prices)) }
{
    let start = start_prices(alloc, case)?;
    let mut prices = Prices::make(alloc, case.periods)?;
    opening_prices(&start, 1, &mut prices);
    Ok(prices)
}
