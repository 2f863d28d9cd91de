//! The strings of a text.
ghost use Rattle.std.specs.Prelude.{◌≡◌, ◌<◌, ◌≤◌, ◌^◌, ◌++◌, ◌∷◌, [], ◌-◌, ◌≢◌, IsUtf8};
ghost use Rattle.std.specs.Prelude.{string_bytes, length, take, slice_index, Option};
ghost use Rattle.std.specs.Prelude.{IfSome, IfNone, IfOk, Some, None, OnOk, option_map, true};
ghost use Rattle.text_tokens.specs.declared.strings.Said.{Said};
ghost use Rattle.text_tokens.specs.Strings.{hex_of, four, short_of, is_high as high_unit};
ghost use Rattle.text_tokens.specs.Strings.{is_low as low_unit, unit_at as unit_spec};
ghost use Rattle.text_tokens.specs.Strings.{pair as pair_spec, second_at as second_spec};
ghost use Rattle.text_tokens.specs.Strings.{unit_piece as unit_piece_spec, string_from};
ghost use Rattle.text_tokens.specs.Strings.{escape_at as escape_spec, piece_at as piece_spec};
ghost use Rattle.text_tokens.specs.Strings.{string_of, said};
ghost use Rattle.text_tokens.specs.Pieces.{said_by, seen_piece};

use crate::bytes::{byte_or_zero, bytes_from, plain_len};
use crate::quoted::Quoted;
use std::alloc::{AllocError, Global};

/// A byte that stands for itself, or a character.
#[derive(Clone, Copy)]
pub enum Said {
    Byte(u8),
    Character(char),
}

/// What some bytes of a string say, and how many they are.
#[derive(Clone, Copy)]
pub struct Piece {
    /// What they say.
    pub said: Said,
    /// How many they are.
    pub len: usize,
}

#[tactic(auto, unfolding(crate::specs::Strings::hex_of))]
fn hex_digit(b: u8) -> Option<u32>
    ensures is { result ≡ hex_of b }
    ensures small { IfSome result (λ n. n < 16) }
    ensures ascii { IfSome result (λ _. b < 128) }
{
    match b {
        b'0'..=b'9' => Some((b - b'0') as u32),
        b'a'..=b'f' => Some((b - 87) as u32),
        b'A'..=b'F' => Some((b - 55) as u32),
        _ => None,
    }
}

/// The byte that a letter behind a backslash stands for.
#[tactic(auto, unfolding(crate::specs::Strings::short_of))]
fn short_escape(letter: u8) -> Option<u8>
    ensures is { result ≡ short_of letter }
    ensures ascii { IfSome result (λ b. (b < 128) × (letter < 128)) }
{
    match letter {
        b'"' | b'\\' | b'/' => Some(letter),
        b'b' => Some(8),
        b'f' => Some(12),
        b'n' => Some(10),
        b'r' => Some(13),
        b't' => Some(9),
        _ => None,
    }
}

#[tactic(auto, unfolding(crate::specs::Strings::four))]
fn value_of_four_hex_digits(a: u8, b: u8, c: u8, d: u8) -> Option<u32>
    ensures is { result ≡ four a b c d }
    ensures small { IfSome result (λ n. n < 65536) }
    ensures ascii { IfSome result (λ _. d < 128) }
{
    let first = hex_digit(a)?;
    let second = hex_digit(b)?;
    let third = hex_digit(c)?;
    let last = hex_digit(d)?;
    Some(4096 * first + 256 * second + 16 * third + last)
}

#[tactic(auto, unfolding(crate::specs::Strings::unit_at))]
fn utf16_escape_at(bytes: &[u8]) -> Option<u32>
    ensures is { result ≡ unit_spec bytes.now }
    ensures small { IfSome result (λ n. n < 65536) }
    ensures long { IfSome result (λ _. 4 ≤ length bytes.now) }
    ensures ascii { IfSome result (λ _. slice_index bytes.now 3 < 128) }
{
    if bytes.len() < 4 {
        return None;
    }
    value_of_four_hex_digits(bytes[0], bytes[1], bytes[2], bytes[3])
}

fn is_high_surrogate(unit: u32) -> bool
    ensures { result ≡ high_unit unit }
{
    0xD800 <= unit && unit <= 0xDBFF
}

fn is_low_surrogate(unit: u32) -> bool
    ensures { result ≡ low_unit unit }
{
    0xDC00 <= unit && unit <= 0xDFFF
}

/// A character, where the number is one.
fn decode_code_point(code: u32, len: usize) -> Option<Piece>
    requires few { 4 ≤ len }
    ensures low { code < 55296 → result ≡ Some (record { said = Said.Character code; len = len }) }
    ensures high { 57344 ≤ code → code < 1114112
        → result ≡ Some (record { said = Said.Character code; len = len }) }
    ensures len { IfSome result (λ p. p.len ≡ len) }
    ensures utf8 { IfSome result (λ p. IsUtf8 (said_by p.said)) }
    ensures short { IfSome result (λ p. length (said_by p.said) ≤ 4) }
{
    let said = Said::Character(char::from_u32(code)?);
    Some(Piece { said, len })
}

#[tactic(auto, unfolding(crate::specs::Strings::pair))]
fn surrogate_pair(high: u32, low: u32) -> Option<Piece>
    requires { high_unit high ≡ true }
    ensures is { seen_piece result ≡ pair_spec high (Some low) }
    ensures len { IfSome result (λ p. p.len ≡ 12) }
    ensures utf8 { IfSome result (λ p. IsUtf8 (said_by p.said)) }
    ensures short { IfSome result (λ p. length (said_by p.said) ≤ 4) }
{
    if !is_low_surrogate(low) {
        return None;
    }
    decode_code_point(65536 + 1024 * (high - 0xD800) + (low - 0xDC00), 12)
}

#[tactic(auto, unfolding(crate::specs::Strings::second_at))]
fn low_surrogate_at(bytes: &[u8]) -> Option<u32>
    ensures is { result ≡ second_spec bytes.now }
    ensures ascii { IfSome result (λ _. slice_index bytes.now 5 < 128) }
{
    if byte_or_zero(bytes, 0) == b'\\' && byte_or_zero(bytes, 1) == b'u' {
        utf16_escape_at(bytes_from(bytes, 2))
    } else {
        None
    }
}

#[tactic(auto, unfolding(crate::specs::Strings::unit_piece))]
fn decode_utf16_escape(unit: u32, bytes: &[u8]) -> Option<Piece>
    requires { unit < 65536 }
    ensures is { seen_piece result ≡ unit_piece_spec unit bytes.now }
    ensures len { IfSome result (λ p. p.len ≢ 6 → (p.len ≡ 12) × (slice_index bytes.now 5 < 128)) }
    ensures utf8 { IfSome result (λ p. IsUtf8 (said_by p.said)) }
    ensures short { IfSome result (λ p. length (said_by p.said) ≤ 4) }
{
    if is_high_surrogate(unit) {
        let low = low_surrogate_at(bytes)?;
        return surrogate_pair(unit, low);
    }
    if is_low_surrogate(unit) {
        return None;
    }
    decode_code_point(unit, 6)
}

/// The piece behind a backslash.
#[tactic(auto, unfolding(crate::specs::Strings::escape_at))]
fn escape_at(bytes: &[u8]) -> Option<Piece>
    ensures is { seen_piece result ≡ escape_spec bytes.now }
    ensures len { IfSome result (λ p. (2 ≤ p.len) × (p.len ≤ 12)) }
    ensures ascii { IfSome result (λ p. slice_index bytes.now (p.len - 2) < 128) }
    ensures utf8 { IfSome result (λ p. IsUtf8 (said_by p.said)) }
    ensures short { IfSome result (λ p. length (said_by p.said) ≤ p.len) }
{
    let letter = byte_or_zero(bytes, 0);
    if letter != b'u' {
        let byte = short_escape(letter)?;
        return Some(Piece {
            said: Said::Byte(byte),
            len: 2,
        });
    }
    let unit = utf16_escape_at(bytes_from(bytes, 1))?;
    decode_utf16_escape(unit, bytes_from(bytes, 5))
}

/// The piece in front.
#[tactic(auto, unfolding(crate::specs::Strings::piece_at))]
pub fn decode_string_piece_at(bytes: &[u8]) -> Option<Piece>
    requires { 0 < length bytes.now }
    ensures is { seen_piece result ≡ piece_spec (slice_index bytes.now 0) bytes.now }
    ensures len { IfSome result (λ p. (0 < p.len) × (p.len ≤ 12)) }
    ensures short { IfSome result (λ p. length (said_by p.said) ≤ p.len) }
    // An escape is ASCII to its end, and says whole characters; another byte says itself.
    ensures escape { slice_index bytes.now 0 ≡ 92
        → IfSome result (λ p. (slice_index bytes.now (p.len - 1) < 128) × IsUtf8 (said_by p.said)) }
    ensures plain { slice_index bytes.now 0 ≢ 92
        → IfSome result (λ p. (p.len ≡ 1) × (said_by p.said ≡ slice_index bytes.now 0 ∷ [])) }
{
    let byte = bytes[0];
    if byte == b'\\' {
        return escape_at(bytes_from(bytes, 1));
    }
    if byte < 32 {
        return None;
    }
    Some(Piece {
        said: Said::Byte(byte),
        len: 1,
    })
}

/// How many bytes stand before the closing quote, where each stands for itself.
pub fn len_of_unescaped_string(bytes: &[u8]) -> Option<usize>
    ensures is { IfSome result (λ n. string_from 0 bytes.now ≡ Some (take n bytes.now, n)) }
    ensures within { IfSome result (λ n. n < length bytes.now) }
{
    let len = plain_len(bytes);
    if len < bytes.len() && bytes[len] == b'"' {
        Some(len)
    } else {
        None
    }
}

/// How many bytes stand before the closing quote, piece by piece.
fn len_of_escaped_string(bytes: &[u8]) -> Option<usize>
    requires { length bytes.now < 2 ^ 32 }
    ensures is { result ≡ option_map (λ s. s.1) (string_from 0 bytes.now) }
    ensures within { IfSome result (λ n. n < length bytes.now) }
{
    let mut at = 0;
    'pieces: while at < bytes.len() {
        if bytes[at] == b'"' {
            return Some(at);
        }
        let piece = decode_string_piece_at(bytes_from(bytes, at))?;
        at += piece.len;
    }
    None
}

/// How many bytes stand before the closing quote.
fn len_before_closing_quote(bytes: &[u8]) -> Option<usize>
    requires { length bytes.now < 2 ^ 32 }
    ensures is { result ≡ option_map (λ s. s.1) (string_from 0 bytes.now) }
    ensures within { IfSome result (λ n. n < length bytes.now) }
{
    match len_of_unescaped_string(bytes) {
        Some(len) => Some(len),
        None => len_of_escaped_string(bytes),
    }
}

/// The string behind an opening quote, and how many bytes it has.
pub fn quoted_string_at(bytes: &[u8]) -> Option<(Quoted<'_>, usize)>
    requires { length bytes.now < 2 ^ 32 }
    ensures some { IfSome result (λ q. string_of bytes.now ≡ Some (said q.0.bytes.now, q.1)) }
    ensures none { IfNone result (string_of bytes.now ≡ None) }
    ensures within { IfSome result (λ q. q.1 < length bytes.now) }
    ensures bytes { IfSome result (λ q. q.0.bytes.now ≡ bytes.now) }
{
    let len = len_before_closing_quote(bytes)?;
    match std::str::from_utf8(&bytes[..len]) {
        Ok(_) => Some((Quoted { bytes }, len)),
        Err(_) => None,
    }
}

/// The string behind an opening quote, and the empty string where none is closed there.
pub fn quoted_or_empty(bytes: &[u8]) -> Quoted<'_>
    requires { length bytes.now < 2 ^ 32 }
    ensures { said result.bytes.now ≡ said bytes.now }
{
    let Some((quoted, _)) = quoted_string_at(bytes) else {
        return Quoted::empty();
    };
    quoted
}

fn push_decoded_piece(text: &mut Vec<u8>, said: Said) -> Result<(), AllocError>
    ensures { OnOk result (text.new.items ≡ text.old.items ++ said_by said) }
{
    match said {
        Said::Byte(byte) => {
            text.push(byte)?;
            Ok(())
        }
        Said::Character(c) => {
            let mut room = [0u8; 4];
            text.extend_from_slice(c.encode_utf8(&mut room).as_bytes())
        }
    }
}

/// What a string says, piece by piece.
fn decode_escaped_string(alloc: Global, quoted: Quoted<'_>) -> Result<String, AllocError>
    ensures { IfOk result (λ text. string_bytes text ≡ said quoted.entry.bytes.now) }
{
    let bytes = quoted.bytes;
    let mut text = Vec::new(alloc);
    let mut at = 0;
    'pieces: while at < bytes.len() && bytes[at] != b'"' {
        let Some(piece) = decode_string_piece_at(bytes_from(bytes, at)) else {
            unreachable!();
        };
        push_decoded_piece(&mut text, piece.said)?;
        at += piece.len;
    }
    text.shrink_to_fit();
    Ok(String::from_utf8(text).unwrap())
}

/// What a string says, without room to spare.
pub fn decode_quoted_string(alloc: Global, quoted: Quoted<'_>) -> Result<String, AllocError>
    ensures { IfOk result (λ text. string_bytes text ≡ said quoted.entry.bytes.now) }
{
    let Some(len) = len_of_unescaped_string(quoted.bytes) else {
        return decode_escaped_string(alloc, quoted);
    };
    match std::str::from_utf8(&quoted.bytes[..len]) {
        Ok(text) => String::from_str(alloc, text),
        Err(_) => unreachable!(),
    }
}
