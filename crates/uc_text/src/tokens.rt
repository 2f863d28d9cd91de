//! The tokens that a node names by their offsets.
ghost use Rattle.std.specs.Prelude.{◌≡◌, ◌+◌, ◌<◌, ◌^◌, length, drop};
ghost use Rattle.text_tokens.specs.Decimals.{decimal_in};
ghost use Rattle.text_tokens.specs.Tokens.{number_at};
ghost use Rattle.text_tokens.specs.Strings.{said};

use text_tokens::{Decimal, Quoted, decimal_at, quoted_or_empty};

/// The bytes from an offset on, and none past the end.
fn bytes_from_or_none(bytes: &[u8], offset: usize) -> &[u8]
    ensures { result.now ≡ drop offset bytes.now }
{
    if offset < bytes.len() {
        &bytes[offset..]
    } else {
        &bytes[bytes.len()..]
    }
}

/// The number that begins at a byte, and 0 where none does.
// A call of its own, so that the way of small numbers stays short.
#[inline(never)]
pub fn number_at_offset(bytes: &[u8], offset: u32) -> Decimal
    requires { length bytes.now < 2 ^ 30 }
    ensures { result ≡ decimal_in (number_at (drop offset bytes.now)).0 }
{
    decimal_at(bytes_from_or_none(bytes, offset as usize))
}

/// The string whose opening quote is this byte, and the empty string where none is closed there.
pub fn string_at_offset(bytes: &[u8], offset: u32) -> Quoted<'_>
    requires { length bytes.now < 2 ^ 30 }
    ensures { said result.bytes.now ≡ said (drop (offset + 1) bytes.now) }
{
    quoted_or_empty(bytes_from_or_none(bytes, offset as usize + 1))
}
