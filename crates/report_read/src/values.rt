//! What stands behind the word of a line.
ghost use Rattle.std.specs.Prelude.{ℕ, List, codes};
ghost use Rattle.report_read.specs.Words.{Found, Finds, count_at as count_spec, flag_at};
ghost use Rattle.report_read.specs.Words.{integer_at};
ghost use Rattle.report_read.specs.LineForms.{amount_at as amount_spec, after, both};

use crate::numbers::{parse_count_between, parse_signed_number, parse_signed_number_between};
use crate::words::rest_after_word;

/// A form of values that a line may have.
pub trait ValueForm: Copy + Drop {
    /// What is told.
    type Value: Drop;

    // The value at the front of the bytes.
    ghost found: { Self → List ℕ → Found Self.Value };

    /// The value at the front, and the bytes behind it; None where it isn't there.
    fn at(self, bytes: &[u8]) -> Option<(Self::Value, &[u8])>
        ensures { Finds (λ x. (x.0, x.1.now)) result (found self bytes.now) };
}

/// A number from `least` to `most`.
#[derive(Clone, Copy, Drop)]
pub struct Count {
    pub least: u32,
    pub most: u32,
}

impl ValueForm for Count {
    type Value = u32;

    ghost found = { λ c. count_spec c.least c.most };

    fn at(self, bytes: &[u8]) -> Option<(u32, &[u8])> {
        parse_count_between(bytes, self.least, self.most)
    }
}

/// An amount of money, or a sum of kilowatts.
#[derive(Clone, Copy, Drop)]
pub struct Amount;

impl ValueForm for Amount {
    type Value = i128;

    ghost found = { λ _. amount_spec };

    fn at(self, bytes: &[u8]) -> Option<(i128, &[u8])> {
        parse_signed_number(bytes)
    }
}

/// A price from `least` to `most`, in money for a kilowatt and period.
#[derive(Clone, Copy, Drop)]
pub struct Price {
    pub least: i64,
    pub most: i64,
}

impl ValueForm for Price {
    type Value = i64;

    ghost found = { λ p. integer_at p.least p.most };

    fn at(self, bytes: &[u8]) -> Option<(i64, &[u8])> {
        parse_signed_number_between(bytes, self.least, self.most)
    }
}

/// Whether a unit is on.
#[derive(Clone, Copy, Drop)]
pub struct Flag;

impl ValueForm for Flag {
    type Value = bool;

    ghost found = { λ _. flag_at };

    #[tactic(auto, unfolding(crate::specs::Words::flag_at))]
    fn at(self, bytes: &[u8]) -> Option<(bool, &[u8])> {
        match bytes {
            [b'1', rest @ ..] => Some((true, rest)),
            [b'0', rest @ ..] => Some((false, rest)),
            _ => None,
        }
    }
}

/// The number of a proposal from `least` to `most`, and its dual value in money.
#[derive(Clone, Copy, Drop)]
pub struct Valued {
    pub least: u32,
    pub most: u32,
}

impl ValueForm for Valued {
    type Value = (u32, i128);

    ghost found = { λ v. both (count_spec v.least v.most) (after (codes " value ") amount_spec) };

    #[tactic(auto, unfolding(crate::specs::LineForms::both, crate::specs::LineForms::after))]
    fn at(self, bytes: &[u8]) -> Option<((u32, i128), &[u8])> {
        let (number, rest) = parse_count_between(bytes, self.least, self.most)?;
        let rest = rest_after_word(b" value ", rest)?;
        let (value, rest) = parse_signed_number(rest)?;
        Some(((number, value), rest))
    }
}
