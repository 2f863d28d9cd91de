//! The tokens of a text.
ghost use Rattle.std.specs.Prelude.{◌≡◌, ◌<◌, ◌≤◌, ◌^◌, ◌+◌, ◌||◌, ◌==◌, true, length, slice_index};
ghost use Rattle.std.specs.Prelude.{ℕ, List, drop, IfSome, IfNone, false};
ghost use Rattle.text_tokens.specs.Numbers.{is_number_byte as number_byte};
ghost use Rattle.text_tokens.specs.Numbers.{number_of};
ghost use Rattle.text_tokens.specs.Strings.{string_at as string_spec};
ghost use Rattle.text_tokens.specs.Tokens.{is_blank as blank, is_letter as letter, is_mark};
ghost use Rattle.text_tokens.specs.Tokens.{number_at as number_spec, word_at as word_spec};
ghost use Rattle.text_tokens.specs.Tokens.{token_at as token_spec};
ghost use Rattle.text_tokens.specs.Seen.{token_of};
ghost use Rattle.text_tokens.specs.Goes.{goes};
ghost use Rattle.text_tokens.specs.Stands.{RefersTo, number_run};

use crate::bytes::{bytes_from, letters_len, number_len};
use crate::number::{Numeral, parse_number_bytes, parse_short_number};
use crate::number_run::NumberRun;
use crate::quoted::Quoted;
use crate::small::SmallNumber;
use crate::strings::quoted_string_at;

/// A value that is one token, apart from strings.
#[derive(Clone, Copy)]
pub enum Word<'a> {
    Null,
    Flag(bool),
    Number(SmallNumber),
    LargeNumber(NumberRun<'a>),
    /// Too many digits, or too large an exponent.
    LongNumber,
}

/// A token of a text; what is none is `Bad`, and behind the last one comes `End`.
#[derive(Clone, Copy)]
pub enum Token<'a> {
    OpenList,
    CloseList,
    OpenObject,
    CloseObject,
    Comma,
    Colon,
    Word(Word<'a>),
    Text(Quoted<'a>),
    Bad,
    End,
}

/// A token, and the offset of its first byte.
#[derive(Clone, Copy)]
pub struct Lexeme<'a> {
    /// The token.
    pub token: Token<'a>,
    /// How many bytes stand before it.
    pub offset: u32,
}

/// Whether a byte is white space between tokens.
pub fn is_blank(b: u8) -> bool
    ensures { result ≡ blank b }
{
    b == b' ' || b == b'\t' || b == b'\n' || b == b'\r'
}

/// The token of a run of bytes of a number.
fn token_of_number_bytes(run: &[u8]) -> Token<'_>
    requires { length run.now < 2 ^ 30 }
    ensures is { token_of result ≡ number_of run.now }
    ensures goes { goes (token_of result) ≡ true }
    ensures refers { (behind : List ℕ) → RefersTo result behind run.now }
{
    match parse_number_bytes(run) {
        Numeral::Number(number) => match SmallNumber::of(number) {
            Some(small) => Token::Word(Word::Number(small)),
            None => Token::Word(Word::LargeNumber(NumberRun { bytes: run })),
        },
        Numeral::TooLong => Token::Word(Word::LongNumber),
        Numeral::Bad => Token::Bad,
    }
}

fn number_at(bytes: &[u8]) -> (Token<'_>, usize)
    requires some { 0 < length bytes.now }
    requires first { number_byte (slice_index bytes.now 0) ≡ true }
    requires few { length bytes.now < 2 ^ 30 }
    ensures is { (token_of result.0, result.1) ≡ number_spec bytes.now }
    ensures goes { goes (token_of result.0) ≡ true }
    ensures some { 0 < result.1 }
    ensures within { result.1 ≤ length bytes.now }
    ensures refers { (behind : List ℕ) → RefersTo result.0 behind (number_run bytes.now) }
{
    if let Some((small, len)) = parse_short_number(bytes) {
        return (Token::Word(Word::Number(small)), len);
    }
    let len = number_len(bytes);
    (token_of_number_bytes(&bytes[..len]), len)
}

fn word_at(bytes: &[u8]) -> (Token<'_>, usize)
    requires some { 0 < length bytes.now }
    requires first { letter (slice_index bytes.now 0) ≡ true }
    ensures is { (token_of result.0, result.1) ≡ word_spec bytes.now }
    ensures some { 0 < result.1 }
    ensures within { result.1 ≤ length bytes.now }
    ensures refers { (behind run : List ℕ) → RefersTo result.0 behind run }
{
    let len = letters_len(bytes);
    let run = &bytes[..len];
    if run == b"null".as_slice() {
        (Token::Word(Word::Null), len)
    } else if run == b"true".as_slice() {
        (Token::Word(Word::Flag(true)), len)
    } else if run == b"false".as_slice() {
        (Token::Word(Word::Flag(false)), len)
    } else {
        (Token::Bad, len)
    }
}

fn string_at(bytes: &[u8]) -> (Token<'_>, usize)
    requires { length bytes.now < 2 ^ 30 }
    ensures is { (token_of result.0, result.1) ≡ string_spec bytes.now }
    ensures goes { goes (token_of result.0) ≡ true }
    ensures some { 0 < result.1 }
    ensures within { result.1 ≤ 1 + length bytes.now }
    ensures refers { (run : List ℕ) → RefersTo result.0 bytes.now run }
{
    match quoted_string_at(bytes) {
        Some((quoted, len)) => (Token::Text(quoted), len + 2),
        None => (Token::Bad, 1),
    }
}

/// The token of a byte that is one by itself.
#[tactic(auto, unfolding(crate::specs::Tokens::token_at))]
pub fn punctuation_token(byte: u8) -> Option<Token<'static>>
    ensures is { IfSome result
        (λ t. (bytes : List ℕ) → (token_of t, 1) ≡ token_spec byte bytes) }
    ensures shown { IfSome result (λ t. blank byte ≡ false) }
    ensures goes { IfSome result (λ t. goes (token_of t) ≡ true) }
    ensures refers { IfSome result (λ t. (behind run : List ℕ) → RefersTo t behind run) }
    ensures none { IfNone result (is_mark byte ≡ false) }
{
    match byte {
        b',' => Some(Token::Comma),
        b'[' => Some(Token::OpenList),
        b']' => Some(Token::CloseList),
        b'{' => Some(Token::OpenObject),
        b'}' => Some(Token::CloseObject),
        b':' => Some(Token::Colon),
        _ => None,
    }
}

/// The token in front, and how many bytes it takes.
#[tactic(auto, unfolding(crate::specs::Tokens::token_at))]
pub fn token_at(bytes: &[u8]) -> (Token<'_>, usize)
    requires some { 0 < length bytes.now }
    requires few { length bytes.now < 2 ^ 30 }
    ensures is { (token_of result.0, result.1) ≡ token_spec (slice_index bytes.now 0) bytes.now }
    ensures some { 0 < result.1 }
    ensures within { result.1 ≤ length bytes.now }
    ensures goes { goes (token_of result.0) ≡ true }
    ensures refers { RefersTo result.0 (drop 1 bytes.now) (number_run bytes.now) }
{
    if let Some(token) = punctuation_token(bytes[0]) {
        return (token, 1);
    }
    match bytes[0] {
        b'"' => string_at(bytes_from(bytes, 1)),
        b'-' | b'0'..=b'9' => number_at(bytes),
        b'a'..=b'z' => word_at(bytes),
        _ => (Token::Bad, 1),
    }
}
