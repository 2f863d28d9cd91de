//! Laws over the definitions: each is the contract of a function that does nothing.
ghost use Rattle.uc_prices.specs.Laws.{PricesFileHasOneValueOrOneFault, PricesArePerPeriodAndWithinLimits};

use uc_text::file_laws::file_is_one_json_value_or_one_fault;

/// A list of bytes has at most one list of prices over so many periods or at most one first fault.
pub fn prices_file_has_one_value_or_one_fault()
    ensures { PricesFileHasOneValueOrOneFault }
{
    file_is_one_json_value_or_one_fault();
}

/// The prices of a file are one of each kind for each period and within their limits, so that no
/// reserve price is below 0, and where the file leaves the reserve prices out they are all 0.
pub fn prices_are_per_period_and_within_limits()
    ensures { PricesArePerPeriodAndWithinLimits }
{
    file_is_one_json_value_or_one_fault();
}
