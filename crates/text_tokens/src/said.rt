//! What a string says, where nothing is kept of it.
ghost use Rattle.std.specs.Prelude.{◌≡◌, ◌≤◌, ◌++◌, ℕ, List, IfSome, IfNone, length, take, drop};
ghost use Rattle.std.specs.Prelude.{option_map, true, slice_index, ◌<◌};
ghost use Rattle.text_tokens.specs.Plain.{is_plain as plain};
ghost use Rattle.text_tokens.specs.Pieces.{said_by};
ghost use Rattle.text_tokens.specs.Strings.{string_from, after_piece};

use crate::bytes::{begins_with, bytes_from, is_unescaped_byte};
use crate::quoted::Quoted;
use crate::strings::{Said, decode_string_piece_at, len_of_unescaped_string};

/// The bytes behind what a piece says, where they begin with that.
fn strip_prefix_of_decoded_piece(bytes: &[u8], said: Said) -> Option<&[u8]>
    ensures some { IfSome result (λ others. bytes.now ≡ said_by said ++ others.now) }
    ensures none { IfNone result ((more : List ℕ) → bytes.now ≡ said_by said ++ more → ⊥) }
{
    match said {
        Said::Byte(byte) => if begins_with(byte, bytes) {
            Some(bytes_from(bytes, 1))
        } else {
            None
        },
        Said::Character(c) => {
            let mut room = [0u8; 4];
            bytes.strip_prefix(c.encode_utf8(&mut room).as_bytes())
        }
    }
}

/// How many bytes in front are the same in a string and a text, and stand for themselves.
fn common_prefix_len(bytes: &[u8], text: &[u8]) -> usize
    ensures within { result ≤ length text.now }
    ensures same { take result text.now ≡ take result bytes.now }
    ensures front { string_from 0 bytes.now
        ≡ option_map (after_piece (take result bytes.now, result))
        (string_from 0 (drop result bytes.now)) }
    ensures near { result ≤ length bytes.now }
    ensures ends { result < length bytes.now → plain (slice_index bytes.now result) ≡ true
        → result < length text.now
        → slice_index text.now result ≡ slice_index bytes.now result → ⊥ }
{
    for (i, b) in text.iter().enumerate() {
        if bytes.len() <= i || bytes[i] != *b || !is_unescaped_byte(*b) {
            return i;
        }
    }
    text.len()
}

impl<'a> Quoted<'a> {
    ghost use Rattle.std.specs.Prelude.{bytes_eq};
    ghost use Rattle.text_tokens.specs.Strings.{said};

    /// What it says, where each of its bytes stands for itself.
    pub fn bytes_if_unescaped(self) -> Option<&'a [u8]>
        ensures { IfSome result (λ text. text.now ≡ said self.entry.bytes.now) }
    {
        let len = len_of_unescaped_string(self.bytes)?;
        Some(&self.bytes[..len])
    }

    /// Whether it says this text. Takes no memory, and ends at the first difference.
    pub fn decodes_to_text(self, text: &str) -> bool
        ensures { result ≡ bytes_eq (said self.entry.bytes.now) text.now }
    {
        self.decodes_to_bytes(text.as_bytes())
    }

    /// Whether it says the text of these bytes, as `decodes_to_text` answers.
    pub fn decodes_to_bytes(self, text: &[u8]) -> bool
        ensures { result ≡ bytes_eq (said self.entry.bytes.now) text.now }
    {
        let bytes = self.bytes;
        let mut at = common_prefix_len(bytes, text);
        if at < bytes.len() && is_unescaped_byte(bytes[at]) {
            return false;
        }
        let mut wanted = bytes_from(text, at);
        'pieces: while at < bytes.len() && bytes[at] != b'"' {
            let Some(piece) = decode_string_piece_at(bytes_from(bytes, at)) else {
                unreachable!();
            };
            let Some(others) = strip_prefix_of_decoded_piece(wanted, piece.said) else {
                return false;
            };
            wanted = others;
            at += piece.len;
        }
        wanted.is_empty()
    }
}
