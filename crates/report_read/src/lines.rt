//! Lines of one form each, and the line in fault where one isn't in form.
ghost use Rattle.std.specs.Prelude.{◌≡◌, ◌≤◌, []};
ghost use Rattle.report_read.specs.Words.{Finds, spaced, items_at as items_found};
ghost use Rattle.report_read.specs.LineForms.{word_line as word_form, plain_line as plain_form};
ghost use Rattle.report_read.specs.LineForms.{value_line as value_form};
ghost use Rattle.report_read.specs.Lines.{Gives, line, count_line as count_spec};
ghost use Rattle.report_read.specs.Lines.{amount_line as amount_spec, list_line as list_spec};

use crate::items::parse_spaced_items;
use crate::stop::Stop;
use crate::values::{Amount, Count, ValueForm, Valued};
use crate::words::rest_after_word;
use plain_lists::lists::ReservedList;
use std::alloc::Global;

/// What is left of a text. After a fault, or where memory runs out, it isn't known what that is.
pub struct Reader<'a> {
    /// The bytes that are left.
    pub rest: &'a [u8],
}

// By hand, so that dropping it is one call.
impl Drop for Reader<'_> {
    fn drop(self) {
        let Reader { rest: _ } = self;
    }
}

#[tactic(auto, unfolding(crate::specs::LineForms::ended, crate::specs::LineForms::just))]
fn parse_word_and_line_end<'a>(word: &[u8], bytes: &'a [u8]) -> Option<&'a [u8]>
    ensures { Finds (λ rest. (tt, rest.now)) result (plain_form word.now bytes.now) }
{
    let rest = rest_after_word(word, bytes)?;
    rest_after_word(b"\n", rest)
}

/// A line that is a word.
pub fn read_word_line(reader: &mut Reader<'_>, word: &[u8]) -> Result<(), Stop>
    ensures { Gives (λ x. (x, reader.new.rest.now)) result
        (line (plain_form word.now) reader.old.rest.now) }
{
    match parse_word_and_line_end(word, reader.rest) {
        Some(rest) => {
            reader.rest = rest;
            Ok(())
        }
        None => Err(Stop::Fault {
            left: reader.rest.len(),
        }),
    }
}

#[tactic(auto, unfolding(crate::specs::LineForms::ended, crate::specs::LineForms::after))]
fn parse_word_and_value<'a, F: ValueForm>(
    word: &[u8],
    form: F,
    bytes: &'a [u8],
) -> Option<(F::Value, &'a [u8])>
    ensures { Finds (λ x. (x.0, x.1.now)) result (word_form word.now (F.found form) bytes.now) }
{
    let rest = rest_after_word(word, bytes)?;
    let (value, rest) = form.at(rest)?;
    let rest = rest_after_word(b"\n", rest)?;
    Some((value, rest))
}

fn read_word_and_value_line<F: ValueForm>(
    reader: &mut Reader<'_>,
    word: &[u8],
    form: F,
) -> Result<F::Value, Stop>
    ensures { Gives (λ x. (x, reader.new.rest.now)) result
        (line (word_form word.now (F.found form)) reader.old.rest.now) }
{
    match parse_word_and_value(word, form, reader.rest) {
        Some((value, rest)) => {
            reader.rest = rest;
            Ok(value)
        }
        None => Err(Stop::Fault {
            left: reader.rest.len(),
        }),
    }
}

/// A word and a number from `least` to `most`.
pub fn read_count_line(
    reader: &mut Reader<'_>,
    word: &[u8],
    least: u32,
    most: u32,
) -> Result<u32, Stop>
    ensures { Gives (λ x. (x, reader.new.rest.now)) result
        (count_spec word.now least most reader.old.rest.now) }
{
    read_word_and_value_line(reader, word, Count { least, most })
}

/// A word and an amount of money.
pub fn read_amount_line(reader: &mut Reader<'_>, word: &[u8]) -> Result<i128, Stop>
    ensures { Gives (λ x. (x, reader.new.rest.now)) result
        (amount_spec word.now reader.old.rest.now) }
{
    read_word_and_value_line(reader, word, Amount)
}

/// A word, the number of a proposal from `least` to `most`, and its value in money.
pub fn read_proposal_value_line(
    reader: &mut Reader<'_>,
    word: &[u8],
    least: u32,
    most: u32,
) -> Result<(u32, i128), Stop>
    ensures { Gives (λ x. (x, reader.new.rest.now)) result
        (line (value_form word.now least most) reader.old.rest.now) }
{
    read_word_and_value_line(reader, word, Valued { least, most })
}

#[tactic(auto, unfolding(crate::specs::LineForms::ended, crate::specs::LineForms::after))]
fn parse_word_and_list<'a, F: ValueForm>(
    list: &mut ReservedList<F::Value>,
    word: &[u8],
    item: F,
    periods: u32,
    bytes: &'a [u8],
) -> Option<&'a [u8]>
    requires empty { list.old.items ≡ [] }
    requires room { periods ≤ list.old.spare }
    ensures { Finds (λ rest. (list.new.items, rest.now)) result
        (word_form word.now (items_found (spaced (F.found item)) periods) bytes.now) }
{
    let rest = rest_after_word(word, bytes)?;
    let rest = parse_spaced_items(list, item, periods, rest)?;
    rest_after_word(b"\n", rest)
}

/// A word and the items of all periods.
pub fn read_list_line<F: ValueForm>(
    alloc: Global,
    reader: &mut Reader<'_>,
    word: &[u8],
    item: F,
    periods: u32,
) -> Result<ReservedList<F::Value>, Stop>
    ensures { Gives (λ x. (x.items, reader.new.rest.now)) result
        (list_spec word.now (spaced (F.found item)) periods reader.old.rest.now) }
{
    let mut list = ReservedList::make(alloc, periods)?;
    match parse_word_and_list(&mut list, word, item, periods, reader.rest) {
        Some(rest) => {
            reader.rest = rest;
            Ok(list)
        }
        None => Err(Stop::Fault {
            left: reader.rest.len(),
        }),
    }
}
