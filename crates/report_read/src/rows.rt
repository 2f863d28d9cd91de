//! The proposals of a report.
ghost use Rattle.std.specs.Prelude.{◌+◌, ◌<◌, ◌≤◌, ◌^◌, length, map};
ghost use Rattle.uc_model.specs.PlainCases.{proposal_of};
ghost use Rattle.plain_lists.specs.declared.limits.TheConstants.{MOST_BYTES};
ghost use Rattle.uc_model.specs.declared.limits.TheConstants.{MOST_PERIODS};
ghost use Rattle.report_read.specs.Lines.{Gives, row_at, rows_at};
ghost use Rattle.report_read.specs.declared.rows.TheConstants.{LEAST_BYTES};

use crate::lines::{Reader, read_list_line, read_proposal_value_line};
use crate::report::RowList;
use crate::stop::Stop;
use crate::values::{Amount, Price};
use std::alloc::Global;
use uc_model::cases::Row;
use uc_model::limits::PRICE_LIMIT;
use uc_model::units::Prices;

/// A proposal has at least so many bytes.
const LEAST_BYTES: usize = 50;

const ENERGY_PRICE: Price = Price {
    least: -PRICE_LIMIT,
    most: PRICE_LIMIT,
};

const RESERVE_PRICE: Price = Price {
    least: 0,
    most: PRICE_LIMIT,
};

/// The proposal of a number, over so many periods.
#[tactic(auto, unfolding(crate::specs::Lines::row_at))]
fn read_proposal_row(
    alloc: Global,
    reader: &mut Reader<'_>,
    periods: u32,
    number: u32,
) -> Result<Row, Stop>
    requires some { 1 ≤ periods }
    requires limit { periods ≤ MOST_PERIODS }
    ensures { Gives (λ x. (proposal_of x, reader.new.rest.now)) result
        (row_at periods number reader.old.rest.now) }
{
    let valued = read_proposal_value_line(reader, b"proposal ", number, number)?;
    let energy = read_list_line(alloc, reader, b"energy", ENERGY_PRICE, periods)?;
    let reserve = read_list_line(alloc, reader, b"reserve", RESERVE_PRICE, periods)?;
    let supplied = read_list_line(alloc, reader, b"supplied", Amount, periods)?;
    let reserved = read_list_line(alloc, reader, b"reserved", Amount, periods)?;
    Ok(Row {
        prices: Prices { energy, reserve },
        value: valued.1,
        supply: supplied,
        reserve: reserved,
    })
}

/// So many proposals, numbered from 1. There is room for no more of them than the bytes can hold.
pub fn read_proposal_rows(
    alloc: Global,
    reader: &mut Reader<'_>,
    periods: u32,
    count: u32,
) -> Result<RowList, Stop>
    requires some { 1 ≤ periods }
    requires limit { periods ≤ MOST_PERIODS }
    requires few { length reader.old.rest.now ≤ MOST_BYTES }
    requires numbers { count < 2 ^ 32 }
    ensures { Gives (λ x. (map proposal_of x.items, reader.new.rest.now)) result
        (rows_at periods 1 count reader.old.rest.now) }
{
    let most = (reader.rest.len() / LEAST_BYTES) as u32;
    let mut rows = RowList::make(alloc, most.min(count))?;
    for place in 0..count {
        let row = read_proposal_row(alloc, reader, periods, place + 1)?;
        rows.push(row);
    }
    Ok(rows)
}
