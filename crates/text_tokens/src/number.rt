//! The number that a run of bytes is.
ghost use Rattle.std.specs.Prelude.{◌≡◌, ◌<◌, ◌≤◌, ◌^◌, length, drop, IfSome, IfNone};
ghost use Rattle.std.specs.Prelude.{slice_index};
ghost use Rattle.std.specs.Prelude.{true, false, if◌then◌else◌, pos, neg_ℤ, ◌-ℤ◌};
ghost use Rattle.std.specs.List.{prefix_len};
ghost use Rattle.std.specs.Char.{is_ascii_digit as digit};
ghost use Rattle.text_tokens.specs.Numbers.{is_number_byte as number_byte};
ghost use Rattle.text_tokens.specs.Numbers.{AreDigits, value, value_from, front, behind};
ghost use Rattle.text_tokens.specs.Numbers.{is_whole_part as whole_part, are_digits as digits_only};
ghost use Rattle.text_tokens.specs.Numbers.{number_token as number_spec};
ghost use Rattle.text_tokens.specs.Numbers.{power_digits as power_digits_spec, power as power_spec};
ghost use Rattle.text_tokens.specs.Numbers.{behind_fraction as behind_fraction_spec};
ghost use Rattle.text_tokens.specs.Numbers.{behind_whole as behind_whole_spec};
ghost use Rattle.text_tokens.specs.Numbers.{unsigned as unsigned_spec, number_of};
ghost use Rattle.text_tokens.specs.Grammar.{word};
ghost use Rattle.text_tokens.specs.Numerals.{numeral_of};
ghost use Rattle.text_tokens.specs.Small.{decimal_of};
ghost use Rattle.text_tokens.specs.Tokens.{number_at};
ghost use Rattle.text_tokens.specs.Scalars.{number};

use crate::bytes::{begins_with, bytes_from, digits_len, is_number_byte};
use crate::decimal::Decimal;
use crate::small::SmallNumber;

/// What a run of bytes is: a number, one of too many digits or too large an exponent, or none.
#[derive(Clone, Copy)]
pub enum Numeral {
    Number(Decimal),
    TooLong,
    Bad,
}

/// The value of the digits behind others, unless it has more than 30 digits.
fn value_with_digits_appended(before: u128, digits: &[u8]) -> Option<u128>
    requires digits { AreDigits digits.now }
    requires before { before < 10 ^ 30 }
    ensures some { IfSome result (λ n. (n ≡ value_from before digits.now) × (n < 10 ^ 30)) }
    ensures none { IfNone result (10 ^ 30 ≤ value_from before digits.now) }
{
    let mut n: u128 = before;
    for b in digits {
        if 100_000_000_000_000_000_000_000_000_000 <= n {
            return None;
        }
        n = 10 * n + (*b - b'0') as u128;
    }
    Some(n)
}

/// The value of digits, unless it is above the limit.
fn value_of_digits_within_limit(digits: &[u8], limit: u32) -> Option<u32>
    requires digits { AreDigits digits.now }
    requires small { limit < 1000000 }
    ensures some { IfSome result (λ n. (n ≡ value digits.now) × (n ≤ limit)) }
    ensures none { IfNone result (limit < value digits.now) }
{
    let mut n: u32 = 0;
    for b in digits {
        n = 10 * n + (*b - b'0') as u32;
        if limit < n {
            return None;
        }
    }
    Some(n)
}

/// The digits in front, and the bytes behind them.
fn split_leading_digits(bytes: &[u8]) -> (&[u8], &[u8])
    ensures front { result.0.now ≡ front bytes.now }
    ensures behind { result.1.now ≡ behind bytes.now }
    ensures digits { AreDigits result.0.now }
    ensures few { length result.0.now ≤ length bytes.now }
    ensures fewer { length result.1.now ≤ length bytes.now }
{
    let len = digits_len(bytes);
    (&bytes[..len], bytes_from(bytes, len))
}

fn is_whole_part(digits: &[u8]) -> bool
    ensures { result ≡ whole_part digits.now }
{
    !digits.is_empty() && (digits.len() == 1 || !begins_with(b'0', digits))
}

fn are_digits(bytes: &[u8]) -> bool
    ensures is { result ≡ digits_only bytes.now }
    ensures digits { result ≡ true → AreDigits bytes.now }
{
    !bytes.is_empty() && digits_len(bytes) == bytes.len()
}

/// The power of ten of a number with a written exponent, and digits behind the point.
fn exponent_less_fraction_digits(lowers: bool, power: u32, fraction_len: usize) -> i32
    requires power { power ≤ 400 }
    requires fraction_len { fraction_len < 2 ^ 30 }
    ensures { result ≡ (if lowers then neg_ℤ (pos power) else pos power) -ℤ pos fraction_len }
{
    let written = power as i32;
    let written = if lowers { -written } else { written };
    written - fraction_len as i32
}

fn number_from_parsed_parts(
    negative: bool,
    whole: &[u8],
    fraction: &[u8],
    lowers: bool,
    power: &[u8],
) -> Numeral
    requires whole { AreDigits whole.now }
    requires fraction { AreDigits fraction.now }
    requires power { AreDigits power.now }
    requires few { length fraction.now < 2 ^ 30 }
    ensures { numeral_of result ≡ number_spec negative whole.now fraction.now lowers power.now }
{
    let Some(before) = value_with_digits_appended(0, whole) else {
        return Numeral::TooLong;
    };
    let Some(digits) = value_with_digits_appended(before, fraction) else {
        return Numeral::TooLong;
    };
    let Some(written) = value_of_digits_within_limit(power, 400) else {
        return Numeral::TooLong;
    };
    let exponent = exponent_less_fraction_digits(lowers, written, fraction.len());
    Numeral::Number(Decimal {
        negative,
        digits,
        exponent,
    })
}

/// Behind the letter and the sign of an exponent.
#[tactic(auto, unfolding(crate::specs::Numbers::power_digits))]
fn parse_exponent_digits(
    negative: bool,
    whole: &[u8],
    fraction: &[u8],
    lowers: bool,
    bytes: &[u8],
) -> Numeral
    requires whole { AreDigits whole.now }
    requires fraction { AreDigits fraction.now }
    requires few { length fraction.now < 2 ^ 30 }
    ensures { numeral_of result ≡ power_digits_spec negative whole.now fraction.now lowers
        bytes.now }
{
    if are_digits(bytes) {
        number_from_parsed_parts(negative, whole, fraction, lowers, bytes)
    } else {
        Numeral::Bad
    }
}

/// Behind the letter of an exponent.
#[tactic(auto, unfolding(crate::specs::Numbers::power))]
fn parse_exponent_after_letter(
    negative: bool,
    whole: &[u8],
    fraction: &[u8],
    bytes: &[u8],
) -> Numeral
    requires whole { AreDigits whole.now }
    requires fraction { AreDigits fraction.now }
    requires few { length fraction.now < 2 ^ 30 }
    ensures { numeral_of result ≡ power_spec negative whole.now fraction.now bytes.now }
{
    if begins_with(b'-', bytes) {
        parse_exponent_digits(negative, whole, fraction, true, bytes_from(bytes, 1))
    } else if begins_with(b'+', bytes) {
        parse_exponent_digits(negative, whole, fraction, false, bytes_from(bytes, 1))
    } else {
        parse_exponent_digits(negative, whole, fraction, false, bytes)
    }
}

/// Behind the fraction.
#[tactic(auto, unfolding(crate::specs::Numbers::behind_fraction))]
fn parse_number_after_fraction(
    negative: bool,
    whole: &[u8],
    fraction: &[u8],
    bytes: &[u8],
) -> Numeral
    requires whole { AreDigits whole.now }
    requires fraction { AreDigits fraction.now }
    requires few { length fraction.now < 2 ^ 30 }
    ensures { numeral_of result ≡ behind_fraction_spec negative whole.now fraction.now bytes.now }
{
    if bytes.is_empty() {
        number_from_parsed_parts(negative, whole, fraction, false, bytes)
    } else if begins_with(b'e', bytes) || begins_with(b'E', bytes) {
        parse_exponent_after_letter(negative, whole, fraction, bytes_from(bytes, 1))
    } else {
        Numeral::Bad
    }
}

/// Behind the whole part.
#[tactic(auto, unfolding(crate::specs::Numbers::behind_whole))]
fn parse_number_after_integer_part(negative: bool, whole: &[u8], bytes: &[u8]) -> Numeral
    requires whole { AreDigits whole.now }
    requires few { length bytes.now < 2 ^ 30 }
    ensures { numeral_of result ≡ behind_whole_spec negative whole.now bytes.now }
{
    if !begins_with(b'.', bytes) {
        return parse_number_after_fraction(negative, whole, &bytes[..0], bytes);
    }
    let (fraction, others) = split_leading_digits(bytes_from(bytes, 1));
    if fraction.is_empty() {
        return Numeral::Bad;
    }
    parse_number_after_fraction(negative, whole, fraction, others)
}

/// Behind the sign.
#[tactic(auto, unfolding(crate::specs::Numbers::unsigned))]
fn parse_unsigned_number(negative: bool, bytes: &[u8]) -> Numeral
    requires few { length bytes.now < 2 ^ 30 }
    ensures { numeral_of result ≡ unsigned_spec negative bytes.now }
{
    let (whole, others) = split_leading_digits(bytes);
    if is_whole_part(whole) {
        parse_number_after_integer_part(negative, whole, others)
    } else {
        Numeral::Bad
    }
}

/// What a run of bytes of a number is.
#[tactic(auto, unfolding(crate::specs::Numbers::number_of))]
pub fn parse_number_bytes(run: &[u8]) -> Numeral
    requires { length run.now < 2 ^ 30 }
    ensures { numeral_of result ≡ number_of run.now }
{
    if begins_with(b'-', run) {
        parse_unsigned_number(true, bytes_from(run, 1))
    } else {
        parse_unsigned_number(false, run)
    }
}

/// The value of the digits in front, behind those of a value, and how many they are. None where it
/// has ten digits.
fn value_of_leading_digits(before: u32, bytes: &[u8]) -> Option<(u32, usize)>
    requires { before < 10 ^ 9 }
    ensures value { IfSome result (λ r. r.0 ≡ value_from before (front bytes.now)) }
    ensures small { IfSome result (λ r. r.0 < 10 ^ 9) }
    ensures len { IfSome result (λ r. r.1 ≡ prefix_len digit bytes.now) }
    ensures within { IfSome result (λ r. r.1 ≤ length bytes.now) }
{
    let mut n = before;
    for (i, b) in bytes.iter().enumerate() {
        if !b.is_ascii_digit() {
            return Some((n, i));
        }
        if 100_000_000 <= n {
            return None;
        }
        n = 10 * n + (*b - b'0') as u32;
    }
    Some((n, bytes.len()))
}

fn is_end_of_number(bytes: &[u8]) -> bool
    ensures { result ≡ true → prefix_len number_byte bytes.now ≡ 0 }
{
    // A comma is asked for first, since it stands behind most numbers.
    bytes.is_empty() || bytes[0] == b',' || !is_number_byte(bytes[0])
}

/// The power of ten of a number without a written exponent.
fn exponent_of_fraction_digits(fraction_len: usize) -> i16
    requires { fraction_len ≤ 9999 }
    ensures { result ≡ pos 0 -ℤ pos fraction_len }
{
    0 - fraction_len as i16
}

/// A whole number of few digits and then a fraction, behind the point: the number, and how many
/// digits the fraction has.
fn parse_short_fraction(whole: u32, bytes: &[u8]) -> Option<(SmallNumber, usize)>
    requires { whole < 10 ^ 9 }
    ensures some { IfSome result (λ r. (0 < r.1) × (r.1 ≡ prefix_len digit bytes.now)) }
    ensures ends { IfSome result (λ r. prefix_len number_byte (drop r.1 bytes.now) ≡ 0) }
    ensures digits { IfSome result
        (λ r. (r.0.digits ≡ value_from whole (front bytes.now)) × (r.0.digits < 10 ^ 9)) }
    ensures others { IfSome result
        (λ r. (r.0.exponent ≡ pos 0 -ℤ pos r.1) × (r.0.negative ≡ false)) }
    ensures within { IfSome result (λ r. r.1 ≤ length bytes.now) }
{
    let (digits, fraction_len) = value_of_leading_digits(whole, bytes)?;
    if fraction_len == 0 || 9999 < fraction_len {
        return None;
    }
    if !is_end_of_number(bytes_from(bytes, fraction_len)) {
        return None;
    }
    let small = SmallNumber {
        digits,
        exponent: exponent_of_fraction_digits(fraction_len),
        negative: false,
    };
    Some((small, fraction_len))
}

/// A number of few digits and without a sign or an exponent, as most are, in one pass; and how many
/// bytes it has.
// Written out where it is called: once for each of a case's tens of thousands of numbers.
#[inline(always)]
pub fn parse_short_number(bytes: &[u8]) -> Option<(SmallNumber, usize)>
    ensures is { IfSome result
        (λ r. (word (number (decimal_of r.0)), r.1) ≡ number_at bytes.now) }
    ensures first { IfSome result
        (λ r. (digit (slice_index bytes.now 0) ≡ true) × (0 < r.1)) }
    ensures within { IfSome result (λ r. r.1 ≤ length bytes.now) }
{
    let (digits, len) = value_of_leading_digits(0, bytes)?;
    if !is_whole_part(&bytes[..len]) {
        return None;
    }
    let others = bytes_from(bytes, len);
    if begins_with(b'.', others) {
        let (small, fraction_len) = parse_short_fraction(digits, bytes_from(others, 1))?;
        return Some((small, len + 1 + fraction_len));
    }
    if !is_end_of_number(others) {
        return None;
    }
    let small = SmallNumber {
        digits,
        exponent: 0,
        negative: false,
    };
    Some((small, len))
}
