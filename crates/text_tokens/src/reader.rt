//! The tokens of a text, one after the other.
ghost use Rattle.std.specs.Prelude.{◌≡◌, ◌<◌, ◌≤◌, ◌^◌, ◌-◌, ◌∷◌, length, [], slice_index, false};
ghost use Rattle.text_tokens.specs.Grammar.{end};
ghost use Rattle.text_tokens.specs.Tokens.{is_blank as blank};

use crate::bytes::bytes_from;
use crate::number::parse_short_number;
use crate::small::SmallNumber;
use crate::token::{Lexeme, Token, is_blank, punctuation_token, token_at};

/// A text, and the offset behind the last token that was read.
#[derive(Drop)]
pub struct Reader<'a> {
    /// The whole text.
    pub bytes: &'a [u8],
    /// The offset.
    pub at: usize,
    ghost within: { at ≤ length bytes.now },
    ghost few: { length bytes.now < 2 ^ 30 },
}

impl<'a> Reader<'a> {
    ghost use Rattle.text_tokens.specs.Ahead.{rest, ahead};
    ghost use Rattle.std.specs.Prelude.{IfSome, IfNone, OnSome};
    ghost use Rattle.text_tokens.specs.Grammar.{word, comma};
    ghost use Rattle.text_tokens.specs.Offsets.{NextIs, Takes, seen};
    ghost use Rattle.text_tokens.specs.Small.{decimal_of};
    ghost use Rattle.text_tokens.specs.Scalars.{number};
    ghost use Rattle.text_tokens.specs.Seen.{token_of};
    ghost use Rattle.text_tokens.specs.Stands.{StandsAt};

    /// The next token, or the end.
    pub fn next(&mut self) -> Lexeme<'a>
        ensures next { NextIs (rest self.old) (seen result) (rest self.new) }
        ensures last { token_of result.token ≡ end → rest self.old ≡ seen result ∷ [] }
        ensures ahead { ahead self.new ≤ ahead self.old }
        ensures less { (token_of result.token ≡ end → ⊥) → ahead self.new < ahead self.old }
        ensures stands { StandsAt self.old.bytes.now result.offset result.token }
        ensures same { self.new.bytes.now ≡ self.old.bytes.now }
    {
        let offset = self.at;
        if offset < self.bytes.len() {
            if let Some(token) = punctuation_token(self.bytes[offset]) {
                self.at = offset + 1;
                let offset = offset as u32;
                return Lexeme { token, offset };
            }
        }
        self.next_token_of_any_kind()
    }

    /// Passes over the blanks that come next.
    fn pass_blanks(&mut self)
        ensures rest { rest self.new ≡ rest self.old }
        ensures passed { self.new.at < length self.new.bytes.now
            → blank (slice_index self.new.bytes.now self.new.at) ≡ false }
        ensures ahead { ahead self.new ≤ ahead self.old }
        ensures same { self.new.bytes.now ≡ self.old.bytes.now }
    {
        'blanks: while self.at < self.bytes.len() && is_blank(self.bytes[self.at]) {
            self.at += 1;
        }
    }

    /// A number of few digits and the comma behind it at once, where they come next.
    pub fn number_and_comma(&mut self) -> Option<SmallNumber>
        ensures some { IfSome result (λ small. Takes (rest self.old)
            (word (number (decimal_of small)) ∷ comma ∷ []) (rest self.new)) }
        ensures none { IfNone result (rest self.new ≡ rest self.old) }
        ensures ahead { ahead self.new ≤ ahead self.old }
        ensures less { OnSome result (ahead self.new < ahead self.old) }
        ensures same { self.new.bytes.now ≡ self.old.bytes.now }
    {
        self.pass_blanks();
        let rest = bytes_from(self.bytes, self.at);
        let (small, len) = parse_short_number(rest)?;
        if len < rest.len() && rest[len] == b',' {
            self.at += len + 1;
            Some(small)
        } else {
            None
        }
    }

    /// The next token, whatever it is.
    // A call of its own, so that the way of a mark stays short.
    #[inline(never)]
    fn next_token_of_any_kind(&mut self) -> Lexeme<'a>
        ensures next { NextIs (rest self.old) (seen result) (rest self.new) }
        ensures last { token_of result.token ≡ end → rest self.old ≡ seen result ∷ [] }
        ensures ahead { ahead self.new ≤ ahead self.old }
        ensures less { (token_of result.token ≡ end → ⊥) → ahead self.new < ahead self.old }
        ensures stands { StandsAt self.old.bytes.now result.offset result.token }
        ensures same { self.new.bytes.now ≡ self.old.bytes.now }
    {
        self.pass_blanks();
        let offset = self.at;
        if offset == self.bytes.len() {
            return Lexeme {
                token: Token::End,
                offset: offset as u32,
            };
        }
        let (token, len) = token_at(bytes_from(self.bytes, offset));
        self.at += len;
        let offset = offset as u32;
        Lexeme { token, offset }
    }
}
