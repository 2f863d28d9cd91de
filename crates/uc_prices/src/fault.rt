//! Why a file has no prices, and where.
ghost use Rattle.std.specs.Prelude.{◌≡◌};
ghost use Rattle.uc_text.specs.declared.stop.Stop.TheVariants as stops;
ghost use Rattle.uc_prices.specs.Faults.{code_number, fault, item_at, key_of};

use std::fmt;
use thiserror::Error;
use uc_text::TextFault;
use uc_text::stop::Stop;

/// What is wrong with a value.
#[derive(Clone, Copy, Debug, PartialEq, Eq)]
pub enum PriceCode {
    /// The energy prices aren't there.
    Missing,
    /// A value isn't the object, the list or the number that is due.
    WrongKind,
    /// A reserve price is below 0.
    Negative,
    /// A price is above `PRICE_LIMIT` in magnitude.
    TooLarge,
    /// A list hasn't a price for each period.
    WrongLength,
}

impl PriceCode {
    /// The number under which the fault is printed.
    pub fn number(self) -> u32
        ensures { result ≡ code_number self }
    {
        match self {
            PriceCode::Missing => 20,
            PriceCode::WrongKind => 21,
            PriceCode::Negative => 23,
            PriceCode::TooLarge => 24,
            PriceCode::WrongLength => 25,
        }
    }
}

/// A list of a prices file, or the file's outermost value.
#[derive(Clone, Copy, Debug, PartialEq, Eq)]
pub enum PriceField {
    Whole,
    Energy,
    Reserve,
}

impl PriceField {
    /// The key as the file has it; `whole` for the outermost value.
    pub fn key(self) -> &'static str
        ensures { result.now ≡ key_of self }
    {
        match self {
            PriceField::Whole => "whole",
            PriceField::Energy => "energy",
            PriceField::Reserve => "reserve",
        }
    }
}

/// Where a test looks: the outermost value or a list, with item 0, or the item of a period.
#[derive(Clone, Copy)]
pub struct PriceSite {
    /// The outermost value, or which list.
    pub field: PriceField,
    /// The period, or 0.
    pub item: u32,
}

/// A test that failed, and where: the parts of a `PriceSite`.
#[derive(Clone, Copy, PartialEq, Eq)]
pub struct PriceFault {
    /// The test that failed.
    pub code: PriceCode,
    /// The outermost value, or which list.
    pub field: PriceField,
    /// The period, or 0.
    pub item: u32,
}

impl fmt::Debug for PriceFault {
    fn fmt<W: fmt::Write>(&self, f: &mut fmt::Formatter<W>) -> fmt::Result {
        write!(f, "{:?} at {:?}, item {}", self.code, self.field, self.item)
    }
}

/// Why a file isn't read as prices.
#[derive(Clone, Copy, Debug, PartialEq, Eq, Drop, Error)]
pub enum PricesFault {
    /// It isn't a JSON text of this profile.
    #[error("not a JSON text: {0:?}")]
    Text(TextFault),
    /// Its value fails a test.
    #[error("not prices of the case: {0:?}")]
    Price(PriceFault),
    /// Memory ran out.
    #[error("out of memory")]
    Memory,
}

/// Why the reading of prices stops.
pub type PriceStop = Stop<PriceFault>;

impl PriceSite {
    /// The site of an item of the same list.
    pub fn item(self, item: u32) -> PriceSite
        ensures { result ≡ item_at self item }
    {
        PriceSite { item, ..self }
    }

    /// The stop at a test that failed here.
    pub fn stop(self, code: PriceCode) -> PriceStop
        ensures { result ≡ stops.Fault (fault self code) }
    {
        Stop::Fault(PriceFault {
            code,
            field: self.field,
            item: self.item,
        })
    }
}
