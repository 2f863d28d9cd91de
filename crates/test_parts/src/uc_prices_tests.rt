use crate::same::{same, same_of};
use std::alloc::Global;
use std::process::Abort;
use std::test::Fail;
use uc_model::units::Prices;
use uc_prices::fault::{PriceCode, PriceFault, PriceField, PricesFault};
use uc_prices::read_prices;

/// The fault of a file for so many periods, where it has one.
fn fault_of(alloc: Global, bytes: &[u8], periods: u32) -> Option<PricesFault> {
    if bytes.len() > 1000 || periods < 1 || periods > 168 {
        return None;
    }
    match read_prices(alloc, bytes, periods) {
        Ok(_) => None,
        Err(fault) => Some(fault),
    }
}

/// A file for so many periods, and its fault: the code, the field, and the number of the item.
type Faulty = (&'static [u8], u32, PriceCode, PriceField, u32);

const FAULTS: &[Faulty] = &[
    (b"[]", 1, PriceCode::WrongKind, PriceField::Whole, 0),
    (b"{}", 1, PriceCode::Missing, PriceField::Energy, 0),
    (
        b"{\"energy\":{}}",
        1,
        PriceCode::WrongKind,
        PriceField::Energy,
        0,
    ),
    (
        b"{\"energy\":[98,98]}",
        1,
        PriceCode::WrongLength,
        PriceField::Energy,
        0,
    ),
    (
        b"{\"energy\":[98]}",
        2,
        PriceCode::WrongLength,
        PriceField::Energy,
        0,
    ),
    (
        b"{\"energy\":[\"98\"]}",
        1,
        PriceCode::WrongKind,
        PriceField::Energy,
        1,
    ),
    (
        b"{\"energy\":[1,null]}",
        2,
        PriceCode::WrongKind,
        PriceField::Energy,
        2,
    ),
    (
        b"{\"energy\":[10000.0005]}",
        1,
        PriceCode::TooLarge,
        PriceField::Energy,
        1,
    ),
    (
        b"{\"energy\":[-10000.0006]}",
        1,
        PriceCode::TooLarge,
        PriceField::Energy,
        1,
    ),
    (
        b"{\"reserve\":3,\"energy\":[1e9]}",
        1,
        PriceCode::TooLarge,
        PriceField::Energy,
        1,
    ),
    (
        b"{\"energy\":[1],\"reserve\":null}",
        1,
        PriceCode::WrongKind,
        PriceField::Reserve,
        0,
    ),
    (
        b"{\"energy\":[1],\"reserve\":[]}",
        1,
        PriceCode::WrongLength,
        PriceField::Reserve,
        0,
    ),
    (
        b"{\"energy\":[1],\"reserve\":[-0.0006]}",
        1,
        PriceCode::Negative,
        PriceField::Reserve,
        1,
    ),
    (
        b"{\"energy\":[1],\"reserve\":[-1e9]}",
        1,
        PriceCode::TooLarge,
        PriceField::Reserve,
        1,
    ),
    (
        b"{\"energy\":[1,2],\"reserve\":[0,true]}",
        2,
        PriceCode::WrongKind,
        PriceField::Reserve,
        2,
    ),
];

#[test]
fn the_first_fault_of_a_file(rt: HostRuntime) -> Result<(), Fail> {
    for (bytes, periods, code, field, item) in FAULTS {
        let due = PricesFault::Price(PriceFault {
            code: *code,
            field: *field,
            item: *item,
        });
        same_of(&rt, bytes, fault_of(rt.alloc(), bytes, *periods), Some(due));
    }
    Ok(())
}

/// Ends the test where the prices are others.
fn prices_are(rt: &impl Abort, prices: &Prices, energy: &[i64], reserve: &[i64]) {
    same(rt, prices.energy.as_slice(), energy);
    same(rt, prices.reserve.as_slice(), reserve);
}

#[test]
fn prices_are_rounded_to_thousandths(rt: HostRuntime) -> Result<(), Fail> {
    let file: &[u8] = b"{\"energy\":[98,10000.0004,-10000.0005,-0.0015],\"x\":{},\
                        \"reserve\":[-0.0005,0.0005,1e-3,10000]}";
    let prices = read_prices(rt.alloc(), file, 4)?;
    let energy = [98_000, 10_000_000, -10_000_000, -1];
    prices_are(&rt, &prices, &energy, &[0, 1, 1, 10_000_000]);
    Ok(())
}

#[test]
fn reserve_prices_left_out_are_zero(rt: HostRuntime) -> Result<(), Fail> {
    let prices = read_prices(rt.alloc(), b"{\"energy\":[1.5,-2]}", 2)?;
    prices_are(&rt, &prices, &[1500, -2000], &[0, 0]);
    Ok(())
}

#[test]
fn codes_and_fields_of_fault_lines(rt: HostRuntime) -> Result<(), Fail> {
    let fields = [PriceField::Whole, PriceField::Energy, PriceField::Reserve];
    same(
        &rt,
        fields.map(|field| field.key()),
        ["whole", "energy", "reserve"],
    );
    same(&rt, PriceCode::Missing.number(), 20);
    same(&rt, PriceCode::WrongKind.number(), 21);
    same(&rt, PriceCode::Negative.number(), 23);
    same(&rt, PriceCode::TooLarge.number(), 24);
    same(&rt, PriceCode::WrongLength.number(), 25);
    Ok(())
}
