//! The text of a search for convex hull prices, written by hand: at an energy price of 100.50 and a
//! reserve price of 0.50 the thermal unit earns nothing off, at 12 MW with 8 MW of reserve, and at
//! 20 MW, and 11, 5 and 4 parts of 20 of these give what is lacking.
use crate::mixture_bound_tests::CASE;
use crate::same::same;
use crate::small_cases::{one_price, one_response};
use plain_lists::lists::{Amounts, Flags};
use report_form::convex::{
    SearchLines, write_convex_bound, write_convex_lines_before_units, write_convex_totals,
    write_mixture_entry, write_mixture_unit,
};
use report_form::report::{Owed, write_unit};
use std::alloc::{AllocError, Global};
use std::process::Abort;
use std::test::Fail;
use test_memory::MemorySink;
use uc_case::read_case;
use uc_model::cases::{Case, Row};
use uc_model::units::{Powers, Response};

const TEXT: &[u8] = b"hull-convex 1\nperiods 1\nunits 2\ncost 850000000\nwithin 1000000\n\
    rounds 150\nmade 7\nvalue 704500000\nenergy 100500\nreserve 500\nsupplied 3000\nreserved 0\n\
    unit thermal \"G1\" earned 0 scheduled -45000000 payment 45000000\non 0\npower 0\nreserve 0\n\
    unit renewable \"W1\" earned 301500000 scheduled 201000000 payment 100500000\npower 3000\n\
    surplus 0\npayments 145500000\ngap 145500000\nweight 20\n\
    mixture thermal \"G1\" entries 3\nshare 11\non 0\npower 0\nreserve 0\n\
    share 5\non 1\npower 12000\nreserve 8000\nshare 4\non 1\npower 20000\nreserve 0\n\
    bound 704500000\ndistance 0\nleast 145500000\nend\n";

// The schedule of a unit that is off.
fn off(alloc: Global) -> Result<Response, AllocError> {
    let on = Flags::filled(alloc, 1, false)?;
    let power = Powers::filled(alloc, 1, 0)?;
    let reserve = Powers::filled(alloc, 1, 0)?;
    Ok(Response { on, power, reserve })
}

fn write_front(rt: &impl Abort, alloc: Global, sink: &mut MemorySink) -> Result<(), AllocError> {
    let lines = SearchLines {
        periods: 1,
        units: 2,
        cost: 850_000_000,
        within: 1_000_000,
        rounds: 150,
        made: 7,
    };
    let row = Row {
        prices: one_price(alloc, 100_500, 500)?,
        value: 704_500_000,
        supply: Amounts::filled(alloc, 1, 3000)?,
        reserve: Amounts::filled(alloc, 1, 0)?,
    };
    same(
        rt,
        write_convex_lines_before_units(&lines, &row, sink),
        Ok(()),
    );
    Ok(())
}

fn write_units(
    rt: &impl Abort,
    alloc: Global,
    case: &Case,
    sink: &mut MemorySink,
) -> Result<(), AllocError> {
    let thermal = off(alloc)?;
    let renewable = one_response(alloc, 3000, 0)?;
    for number in 0..case.unit_count() as usize {
        let named = case.unit_at(number);
        let (response, earned, scheduled, payment) = if number == 0 {
            (&thermal, 0, -45_000_000, 45_000_000)
        } else {
            (&renewable, 301_500_000, 201_000_000, 100_500_000)
        };
        let owed = Owed {
            earned,
            scheduled,
            payment,
        };
        same(rt, write_unit(named, &owed, response, sink), Ok(()));
    }
    Ok(())
}

fn write_back(rt: &impl Abort, alloc: Global, sink: &mut MemorySink) -> Result<(), AllocError> {
    same(
        rt,
        write_convex_totals(0, 145_500_000, 145_500_000, 20, sink),
        Ok(()),
    );
    same(rt, write_mixture_unit("G1", 3, sink), Ok(()));
    same(rt, write_mixture_entry(11, &off(alloc)?, sink), Ok(()));
    same(
        rt,
        write_mixture_entry(5, &one_response(alloc, 12_000, 8000)?, sink),
        Ok(()),
    );
    same(
        rt,
        write_mixture_entry(4, &one_response(alloc, 20_000, 0)?, sink),
        Ok(()),
    );
    same(
        rt,
        write_convex_bound(704_500_000, 0, 145_500_000, sink),
        Ok(()),
    );
    Ok(())
}

#[test]
fn a_search_block_by_block(rt: HostRuntime) -> Result<(), Fail> {
    let case = read_case(rt.alloc(), CASE)?;
    let mut sink = MemorySink::make(rt.alloc(), 1000, 100, &[], &[])?;
    write_front(&rt, rt.alloc(), &mut sink)?;
    write_units(&rt, rt.alloc(), &case, &mut sink)?;
    write_back(&rt, rt.alloc(), &mut sink)?;
    same(&rt, sink.bytes(), TEXT);
    Ok(())
}
