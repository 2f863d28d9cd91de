//! Numbers of few digits, which fit the node of a tree.
ghost use Rattle.std.specs.Prelude.{◌≡◌, IfSome};
ghost use Rattle.text_tokens.specs.Small.{decimal_of};

use crate::decimal::Decimal;

/// A number of few digits, as most are, in 8 bytes: a `Decimal` takes 32.
#[derive(Clone, Copy)]
pub struct SmallNumber {
    /// The digits as a whole number.
    pub digits: u32,
    /// The power of ten that they are multiplied by.
    pub exponent: i16,
    /// Whether it is negated.
    pub negative: bool,
}

impl SmallNumber {
    /// The same number, where it is small enough.
    pub fn of(number: Decimal) -> Option<SmallNumber>
        ensures { IfSome result (λ small. decimal_of small ≡ number) }
    {
        let digits = u32::try_from(number.digits).ok()?;
        let exponent = i16::try_from(number.exponent).ok()?;
        Some(SmallNumber {
            digits,
            exponent,
            negative: number.negative,
        })
    }

    /// The number that it is.
    pub fn decimal(self) -> Decimal
        ensures { result ≡ decimal_of self }
    {
        Decimal {
            digits: u128::from(self.digits),
            exponent: i32::from(self.exponent),
            negative: self.negative,
        }
    }
}
