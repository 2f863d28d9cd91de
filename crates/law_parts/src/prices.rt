//! Laws over the definitions: each is the contract of a function that does nothing.
ghost use Rattle.law_parts.specs.PriceLaws.{SomePrices, ValuesAreReadAs};

use text_tokens::decimal_laws::decimal_rounds_to_nearest_integer;
use uc_text::file_laws::file_is_one_json_value_or_one_fault;

/// Each list of bytes has prices over so many periods or a first fault.
pub fn prices_or_fault()
    ensures { SomePrices }
{
    file_is_one_json_value_or_one_fault();
}

/// What is read of a value, by the value alone: its prices, or which fault it has, and where.
pub fn values_are_read_as()
    ensures { ValuesAreReadAs }
{
    decimal_rounds_to_nearest_integer();
}
