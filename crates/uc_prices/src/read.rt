//! The prices of a file.
ghost use Rattle.std.specs.Prelude.{◌≡◌, ◌≤◌, Result, IfOk, length};
ghost use Rattle.uc_model.specs.Data.{PriceLists};
ghost use Rattle.uc_model.specs.PlainUnits.{prices_of};
ghost use Rattle.plain_lists.specs.declared.limits.TheConstants.{MOST_BYTES};
ghost use Rattle.uc_model.specs.declared.limits.TheConstants.{MOST_PERIODS};
ghost use Rattle.uc_text.specs.Files.{FileFault};
ghost use Rattle.uc_prices.specs.PricesFiles.{IsPricesOf, IfRead};
ghost use Rattle.uc_prices.specs.declared.fault.PriceFault.{PriceFault as PlainFault};

use crate::fault::PricesFault;
use crate::laws::prices_file_has_one_value_or_one_fault;
use crate::lists::prices_of_json_tree;
use std::alloc::Global;
use uc_model::units::Prices;
use uc_text::stop::Stop;
use uc_text::{TextError, read_tree};

/// The prices of a file over so many periods, in money for a kilowatt and period: each is read in
/// the currency for a megawatt and period, and rounded to the nearest whole number. Where the file
/// has no reserve prices, they are 0.
///
/// Refuses a file that isn't a JSON text with the first fault of the text. Else refuses with the
/// first test that fails: the outermost value, the energy prices, the reserve prices.
pub fn read_prices(alloc: Global, bytes: &[u8], periods: u32) -> Result<Prices, PricesFault>
    requires bytes { length bytes.now ≤ MOST_BYTES }
    requires some { 1 ≤ periods }
    requires horizon { periods ≤ MOST_PERIODS }
    ensures count { IfOk result (λ p. length (prices_of p).energy ≡ periods) }
    // The answer is what the file is.
    ensures answer { IfRead prices_of result (λ r. IsPricesOf periods bytes.now r) }
    // What the file is, is answered.
    ensures only { (r : Result PriceLists (FileFault PlainFault))
        → IsPricesOf periods bytes.now r → IfRead prices_of result (λ s. s ≡ r) }
{
    prices_file_has_one_value_or_one_fault();
    prices_of_bytes(alloc, bytes, periods)
}

fn prices_of_bytes(alloc: Global, bytes: &[u8], periods: u32) -> Result<Prices, PricesFault>
    requires bytes { length bytes.now ≤ MOST_BYTES }
    requires some { 1 ≤ periods }
    requires horizon { periods ≤ MOST_PERIODS }
    ensures count { IfOk result (λ p. length (prices_of p).energy ≡ periods) }
    ensures answer { IfRead prices_of result (λ r. IsPricesOf periods bytes.now r) }
{
    let tree = match read_tree(alloc, bytes) {
        Ok(tree) => tree,
        Err(TextError::Fault(fault)) => return Err(PricesFault::Text(fault)),
        Err(TextError::Memory) => return Err(PricesFault::Memory),
    };
    match prices_of_json_tree(alloc, tree.root(), periods) {
        Ok(prices) => Ok(prices),
        Err(Stop::Fault(fault)) => Err(PricesFault::Price(fault)),
        Err(Stop::Memory) => Err(PricesFault::Memory),
    }
}
