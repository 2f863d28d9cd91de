//! The units and bids of a report.
ghost use Rattle.std.specs.Prelude.{◌≡◌, map};
ghost use Rattle.uc_model.specs.PlainUnits.{schedule_of};
ghost use Rattle.report_read.specs.Plain.{rank as rank_spec, told_of};
ghost use Rattle.report_read.specs.Words.{Finds, FindsIfOk, kind_at as kind_spec};
ghost use Rattle.report_read.specs.LineForms.{number_at as number_spec, after};
ghost use Rattle.report_read.specs.LineForms.{owed_at as owed_spec, opening_at as opening_spec};
ghost use Rattle.report_read.specs.LineForms.{title_line as title_spec, titled};
ghost use Rattle.report_read.specs.Lines.{Gives, line, thermal_at, other_at, response_at, unit_at};
ghost use Rattle.report_read.specs.Lines.{units_at};

use crate::lines::{Reader, read_list_line};
use crate::names::parse_quoted_name;
use crate::numbers::parse_signed_number_between;
use crate::report::{UnitLine, UnitLines};
use crate::stop::Stop;
use crate::values::{Count, Flag};
use crate::words::rest_after_word;
use plain_lists::lists::{Flags, Name};
use report_form::report::Owed;
use std::alloc::{AllocError, Global};
use uc_model::kinds::Kind;
use uc_model::units::{Powers, Response};

/// The first line of a unit or bid.
#[derive(Drop)]
pub struct Title {
    /// Whether it is thermal, renewable or a bid.
    pub kind: Kind,
    /// Its name in the case.
    pub name: Name,
    /// What it earns and is owed.
    pub owed: Owed,
}

/// A power or reserve, in kilowatts.
const POWER: Count = Count {
    least: 0,
    most: u32::MAX,
};

/// The place of a kind in the order of a report.
fn rank_of_unit_kind(kind: Kind) -> u32
    ensures { result ≡ rank_spec kind }
{
    match kind {
        Kind::Thermal => 0,
        Kind::Renewable => 1,
        Kind::Bid => 2,
        Kind::Case => 3,
    }
}

#[tactic(auto, unfolding(crate::specs::Words::kind_at))]
fn parse_unit_kind(bytes: &[u8]) -> Option<(Kind, &[u8])>
    ensures { Finds (λ x. (x.0, x.1.now)) result (kind_spec bytes.now) }
{
    if let Some(rest) = rest_after_word(b"thermal ", bytes) {
        return Some((Kind::Thermal, rest));
    }
    if let Some(rest) = rest_after_word(b"renewable ", bytes) {
        return Some((Kind::Renewable, rest));
    }
    let rest = rest_after_word(b"bid ", bytes)?;
    Some((Kind::Bid, rest))
}

/// A kind of at least that rank, and the bytes of the name behind its opening quote.
#[tactic(auto, unfolding(crate::specs::LineForms::opening_at, crate::specs::LineForms::after))]
fn parse_unit_line_opening(least: u32, bytes: &[u8]) -> Option<(Kind, &[u8])>
    ensures { Finds (λ x. (x.0, x.1.now)) result (opening_spec least bytes.now) }
{
    let rest = rest_after_word(b"unit ", bytes)?;
    let (kind, rest) = parse_unit_kind(rest)?;
    if rank_of_unit_kind(kind) < least {
        return None;
    }
    let rest = rest_after_word(b"\"", rest)?;
    Some((kind, rest))
}

#[tactic(auto, unfolding(crate::specs::LineForms::after))]
fn parse_word_and_money<'a>(word: &[u8], bytes: &'a [u8]) -> Option<(i64, &'a [u8])>
    ensures { Finds (λ x. (x.0, x.1.now)) result (after word.now number_spec bytes.now) }
{
    let rest = rest_after_word(word, bytes)?;
    parse_signed_number_between(rest, i64::MIN, i64::MAX)
}

#[tactic(auto, unfolding(crate::specs::LineForms::both))]
fn parse_unit_line_amounts(bytes: &[u8]) -> Option<(Owed, &[u8])>
    ensures { Finds (λ x. ((x.0.earned, (x.0.scheduled, x.0.payment)), x.1.now)) result
        (owed_spec bytes.now) }
{
    let (earned, rest) = parse_word_and_money(b" earned ", bytes)?;
    let (scheduled, rest) = parse_word_and_money(b" scheduled ", rest)?;
    let (payment, rest) = parse_word_and_money(b" payment ", rest)?;
    let owed = Owed {
        earned,
        scheduled,
        payment,
    };
    Some((owed, rest))
}

#[tactic(auto, unfolding(crate::specs::LineForms::ended, crate::specs::LineForms::both))]
fn parse_unit_title_line(
    alloc: Global,
    least: u32,
    bytes: &[u8],
) -> Result<Option<(Title, &[u8])>, AllocError>
    ensures { FindsIfOk (λ x. (titled x.0, x.1.now)) result
        (title_spec least bytes.now) }
{
    let Some((kind, rest)) = parse_unit_line_opening(least, bytes) else {
        return Ok(None);
    };
    let Some((name, rest)) = parse_quoted_name(alloc, rest)? else {
        return Ok(None);
    };
    let Some((owed, rest)) = parse_unit_line_amounts(rest) else {
        return Ok(None);
    };
    let Some(rest) = rest_after_word(b"\n", rest) else {
        return Ok(None);
    };
    Ok(Some((Title { kind, name, owed }, rest)))
}

fn read_unit_title_line(alloc: Global, reader: &mut Reader<'_>, least: u32) -> Result<Title, Stop>
    ensures { Gives (λ x. (titled x, reader.new.rest.now)) result
        (line (title_spec least) reader.old.rest.now) }
{
    match parse_unit_title_line(alloc, least, reader.rest)? {
        Some((title, rest)) => {
            reader.rest = rest;
            Ok(title)
        }
        None => Err(Stop::Fault {
            left: reader.rest.len(),
        }),
    }
}

#[tactic(auto, unfolding(crate::specs::Lines::thermal_at))]
fn read_thermal_response(
    alloc: Global,
    reader: &mut Reader<'_>,
    periods: u32,
) -> Result<Response, Stop>
    ensures { Gives (λ x. (schedule_of x, reader.new.rest.now)) result
        (thermal_at periods reader.old.rest.now) }
{
    let on = read_list_line(alloc, reader, b"on", Flag, periods)?;
    let power = read_list_line(alloc, reader, b"power", POWER, periods)?;
    let reserve = read_list_line(alloc, reader, b"reserve", POWER, periods)?;
    Ok(Response { on, power, reserve })
}

/// The response of a renewable unit or bid: on in every period, with reserve 0.
#[tactic(auto, unfolding(crate::specs::Lines::other_at))]
fn read_renewable_or_bid_response(
    alloc: Global,
    reader: &mut Reader<'_>,
    periods: u32,
) -> Result<Response, Stop>
    ensures { Gives (λ x. (schedule_of x, reader.new.rest.now)) result
        (other_at periods reader.old.rest.now) }
{
    let power = read_list_line(alloc, reader, b"power", POWER, periods)?;
    let on = Flags::filled(alloc, periods, true)?;
    let reserve = Powers::filled(alloc, periods, 0)?;
    Ok(Response { on, power, reserve })
}

fn read_response(
    alloc: Global,
    reader: &mut Reader<'_>,
    periods: u32,
    kind: Kind,
) -> Result<Response, Stop>
    ensures { Gives (λ x. (schedule_of x, reader.new.rest.now)) result
        (response_at periods kind reader.old.rest.now) }
{
    match kind {
        Kind::Thermal => read_thermal_response(alloc, reader, periods),
        Kind::Renewable | Kind::Bid | Kind::Case => read_renewable_or_bid_response(
            alloc, reader, periods,
        ),
    }
}

/// A unit or bid of a kind of at least that rank.
#[tactic(auto, unfolding(crate::specs::Lines::unit_at))]
fn read_unit(
    alloc: Global,
    reader: &mut Reader<'_>,
    periods: u32,
    least: u32,
) -> Result<UnitLine, Stop>
    ensures { Gives (λ x. (told_of x, reader.new.rest.now)) result
        (unit_at periods least reader.old.rest.now) }
{
    let title = read_unit_title_line(alloc, reader, least)?;
    let response = read_response(alloc, reader, periods, title.kind)?;
    Ok(UnitLine {
        kind: title.kind,
        name: title.name,
        earned: title.owed.earned,
        scheduled: title.owed.scheduled,
        payment: title.owed.payment,
        response,
    })
}

/// So many units and bids, with their kinds in order.
pub fn read_units(
    alloc: Global,
    reader: &mut Reader<'_>,
    periods: u32,
    count: u32,
) -> Result<UnitLines, Stop>
    ensures { Gives (λ x. (map told_of x.items, reader.new.rest.now)) result
        (units_at periods 0 count reader.old.rest.now) }
{
    let mut lines = UnitLines::make(alloc, count)?;
    let mut least = 0;
    for _ in 0..count {
        let line = read_unit(alloc, reader, periods, least)?;
        least = rank_of_unit_kind(line.kind);
        lines.push(line);
    }
    Ok(lines)
}
