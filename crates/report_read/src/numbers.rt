//! Numbers in decimal digits, as they are printed: with no leading zero, and no `-` before a 0.
ghost use Rattle.std.specs.Prelude.{◌≡◌, ◌≢◌, ◌≤◌, ◌∷◌, slice_index, pos, neg_ℤ};
ghost use Rattle.report_read.specs.Words.{Finds, digits_from as digits_spec, count_between};
ghost use Rattle.report_read.specs.Words.{count_at as count_spec, integer_at};
ghost use Rattle.report_read.specs.LineForms.{amount_at as amount_spec};
ghost use Rattle.report_read.specs.declared.numbers.TheConstants.{MOST};

use text_tokens::bytes_from;

/// The greatest magnitude of a number of 128 bits.
pub const MOST: u128 = 170_141_183_460_469_231_731_687_303_715_884_105_728;

/// A number above it has no room for another digit.
const MOST_BEFORE_LAST: u128 = 17_014_118_346_046_923_173_168_730_371_588_410_572;

fn number_within_limit_and_rest(number: u128, rest: &[u8]) -> Option<(u128, &[u8])>
    ensures { Finds (λ x. (x.0, x.1.now)) result (count_between 0 MOST (number, rest.now)) }
{
    if MOST < number {
        return None;
    }
    Some((number, rest))
}

/// The number that goes on with the digits in front.
fn digits_from(first: u128, bytes: &[u8]) -> Option<(u128, &[u8])>
    requires { first ≤ 9 }
    ensures { Finds (λ x. (x.0, x.1.now)) result
        (count_between 0 MOST (digits_spec first bytes.now)) }
{
    let mut number = first;
    for (offset, byte) in bytes.iter().enumerate() {
        if !byte.is_ascii_digit() {
            return number_within_limit_and_rest(number, bytes_from(bytes, offset));
        }
        if number > MOST_BEFORE_LAST {
            return None;
        }
        number = 10 * number + (*byte - b'0') as u128;
    }
    number_within_limit_and_rest(number, bytes_from(bytes, bytes.len()))
}

/// A number of at most `MOST`.
#[tactic(auto, unfolding(crate::specs::Words::count_at, crate::specs::Words::numeral_at))]
fn numeral_at(bytes: &[u8]) -> Option<(u128, &[u8])>
    ensures { Finds (λ x. (x.0, x.1.now)) result (count_spec 0 MOST bytes.now) }
{
    match bytes {
        [b'0', rest @ ..] => Some((0, rest)),
        [first, rest @ ..] if first.is_ascii_digit() => digits_from((*first - b'0') as u128, rest),
        _ => None,
    }
}

/// A number from `least` to `most`.
pub fn parse_count_between(bytes: &[u8], least: u32, most: u32) -> Option<(u32, &[u8])>
    ensures { Finds (λ x. (x.0, x.1.now)) result (count_spec least most bytes.now) }
{
    let (number, rest) = numeral_at(bytes)?;
    if number < (least as u128) || (most as u128) < number {
        return None;
    }
    Some((number as u32, rest))
}

/// The number of that magnitude below 0.
fn negated_magnitude(magnitude: u128) -> i128
    requires least { 1 ≤ magnitude }
    requires most { magnitude ≤ MOST }
    ensures { result ≡ neg_ℤ (pos magnitude) }
{
    -((magnitude - 1) as i128) - 1
}

fn parse_negative_number(bytes: &[u8]) -> Option<(i128, &[u8])>
    ensures { Finds (λ x. (x.0, x.1.now)) result (amount_spec (45 ∷ bytes.now)) }
{
    let (magnitude, rest) = numeral_at(bytes)?;
    if magnitude == 0 {
        return None;
    }
    Some((negated_magnitude(magnitude), rest))
}

fn parse_nonnegative_number(bytes: &[u8]) -> Option<(i128, &[u8])>
    requires { slice_index bytes.now 0 ≢ 45 }
    ensures { Finds (λ x. (x.0, x.1.now)) result (amount_spec bytes.now) }
{
    let (magnitude, rest) = numeral_at(bytes)?;
    if magnitude == MOST {
        return None;
    }
    Some((magnitude as i128, rest))
}

/// A number of 128 bits.
pub fn parse_signed_number(bytes: &[u8]) -> Option<(i128, &[u8])>
    ensures { Finds (λ x. (x.0, x.1.now)) result (amount_spec bytes.now) }
{
    match bytes {
        [b'-', rest @ ..] => parse_negative_number(rest),
        _ => parse_nonnegative_number(bytes),
    }
}

/// A number from `least` to `most`.
pub fn parse_signed_number_between(bytes: &[u8], least: i64, most: i64) -> Option<(i64, &[u8])>
    ensures { Finds (λ x. (x.0, x.1.now)) result (integer_at least most bytes.now) }
{
    let (number, rest) = parse_signed_number(bytes)?;
    if number < (least as i128) || (most as i128) < number {
        return None;
    }
    Some((number as i64, rest))
}
