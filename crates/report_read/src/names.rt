//! Names between double quotes.
ghost use Rattle.std.specs.Prelude.{◌≡◌, length};
ghost use Rattle.report_read.specs.Words.{Finds, hex_value as hex_spec, two_digits as two_spec};
ghost use Rattle.report_read.specs.Words.{control_at as control_spec};
ghost use Rattle.report_read.specs.Words.{backslashed_at as backslashed_spec};
ghost use Rattle.report_read.specs.Words.{escaped_at as escaped_spec, closed_within};
ghost use Rattle.report_read.specs.Words.{name_at as name_spec, FindsIfOk};

use crate::words::rest_after_word;
use plain_lists::lists::Name;
use report_form::parts::is_unescaped_byte;
use std::alloc::{AllocError, Global};

/// The value of a hexadecimal digit in lower case.
fn hex_value(byte: u8) -> Option<u8>
    ensures { result ≡ hex_spec byte }
{
    match byte {
        b'0'..=b'9' => Some(byte - b'0'),
        b'a'..=b'f' => Some(byte - b'a' + 10),
        _ => None,
    }
}

fn parse_two_hex_digits(bytes: &[u8]) -> Option<(u8, &[u8])>
    ensures { Finds (λ x. (x.0, x.1.now)) result (two_spec bytes.now) }
{
    match bytes {
        [high, low, rest @ ..] => {
            let high = hex_value(*high)?;
            let low = hex_value(*low)?;
            if high < 2 {
                Some((16 * high + low, rest))
            } else {
                None
            }
        }
        _ => None,
    }
}

#[tactic(auto, unfolding(crate::specs::Words::control_at))]
fn parse_control_escape(bytes: &[u8]) -> Option<(u8, &[u8])>
    ensures { Finds (λ x. (x.0, x.1.now)) result (control_spec bytes.now) }
{
    let rest = rest_after_word(b"00", bytes)?;
    parse_two_hex_digits(rest)
}

#[tactic(auto, unfolding(crate::specs::Words::backslashed_at))]
fn parse_backslash_escape(bytes: &[u8]) -> Option<(u8, &[u8])>
    ensures { Finds (λ x. (x.0, x.1.now)) result (backslashed_spec bytes.now) }
{
    match bytes {
        [byte, rest @ ..] if *byte == b'"' || *byte == b'\\' => Some((*byte, rest)),
        [b'u', rest @ ..] => parse_control_escape(rest),
        _ => None,
    }
}

/// A byte of a name, in the one form in which it is printed.
#[tactic(auto, unfolding(crate::specs::Words::escaped_at))]
fn parse_name_byte(bytes: &[u8]) -> Option<(u8, &[u8])>
    ensures { Finds (λ x. (x.0, x.1.now)) result (escaped_spec bytes.now) }
{
    match bytes {
        [byte, rest @ ..] if is_unescaped_byte(*byte) => Some((*byte, rest)),
        [b'\\', rest @ ..] => parse_backslash_escape(rest),
        _ => None,
    }
}

/// The bytes of a name up to its closing quote.
fn parse_name_to_closing_quote(
    alloc: Global,
    bytes: &[u8],
) -> Result<Option<(Vec<u8>, &[u8])>, AllocError>
    ensures { FindsIfOk (λ x. (x.0.items, x.1.now)) result
        (closed_within (length bytes.now) bytes.now) }
{
    let mut name = Vec::new(alloc);
    let mut rest = bytes;
    for _ in 0..bytes.len() {
        if let Some(after) = rest_after_word(b"\"", rest) {
            return Ok(Some((name, after)));
        }
        let Some((byte, after)) = parse_name_byte(rest) else {
            return Ok(None);
        };
        name.push(byte)?;
        rest = after;
    }
    Ok(None)
}

/// The name behind its opening quote.
#[tactic(auto, unfolding(crate::specs::Words::name_at))]
pub fn parse_quoted_name(alloc: Global, bytes: &[u8]) -> Result<Option<(Name, &[u8])>, AllocError>
    ensures { FindsIfOk (λ x. (x.0.items, x.1.now)) result (name_spec bytes.now) }
{
    let Some((name, rest)) = parse_name_to_closing_quote(alloc, bytes)? else {
        return Ok(None);
    };
    match std::str::from_utf8(name.as_slice()) {
        Ok(text) => Ok(Some((Name::copied(alloc, text)?, rest))),
        Err(_) => Ok(None),
    }
}
