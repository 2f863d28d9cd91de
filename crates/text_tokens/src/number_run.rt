//! Numbers of many digits, which are read when their value is wanted.
ghost use Rattle.std.specs.Prelude.{◌≡◌, ◌<◌, ◌^◌, length, true};
ghost use Rattle.text_tokens.specs.Decimals.{decimal_in, is_number};
ghost use Rattle.text_tokens.specs.Numbers.{number_of};
ghost use Rattle.text_tokens.specs.Tokens.{number_at};

use crate::bytes::number_len;
use crate::decimal::Decimal;
use crate::number::{Numeral, parse_number_bytes};

/// The bytes of a number.
#[derive(Clone, Copy)]
pub struct NumberRun<'a> {
    /// All bytes of it, and no others.
    pub bytes: &'a [u8],
    ghost few: { length bytes.now < 2 ^ 30 },
    ghost number: { is_number (number_of bytes.now) ≡ true },
}

impl<'a> NumberRun<'a> {
    /// The number that they are.
    pub fn decimal(self) -> Decimal
        ensures { result ≡ decimal_in (number_of self.entry.bytes.now) }
    {
        match parse_number_bytes(self.bytes) {
            Numeral::Number(number) => number,
            _ => unreachable!(),
        }
    }
}

/// The number in front, and 0 where none stands there.
pub fn decimal_at(bytes: &[u8]) -> Decimal
    requires { length bytes.now < 2 ^ 30 }
    ensures { result ≡ decimal_in (number_at bytes.now).0 }
{
    let len = number_len(bytes);
    match parse_number_bytes(&bytes[..len]) {
        Numeral::Number(number) => number,
        _ => Decimal {
            negative: false,
            digits: 0,
            exponent: 0,
        },
    }
}
