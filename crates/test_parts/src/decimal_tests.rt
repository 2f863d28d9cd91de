ghost use Rattle.std.specs.Prelude.{◌≡◌};

use crate::same::same;
use std::test::Fail;
use text_tokens::{Decimal, NumFault, is_whole, whole};

fn decimal(negative: bool, digits: u128, exponent: i32) -> Decimal
    ensures { result ≡ record { negative = negative; digits = digits; exponent = exponent } }
{
    Decimal {
        negative,
        digits,
        exponent,
    }
}

#[test]
fn rounds(rt: HostRuntime) -> Result<(), Fail> {
    let kilowatts = 10_000_000;
    same(&rt, whole(decimal(false, 5, -4), 3, kilowatts), Ok(1));
    same(&rt, whole(decimal(false, 49, -5), 3, kilowatts), Ok(0));
    same(&rt, whole(decimal(true, 4, -4), 3, kilowatts), Ok(0));
    same(&rt, whole(decimal(true, 5, -4), 3, kilowatts), Ok(0));
    same(&rt, whole(decimal(true, 51, -5), 3, kilowatts), Ok(-1));
    same(&rt, whole(decimal(false, 1, -13), 3, kilowatts), Ok(0));
    let large = Err(NumFault::TooLarge { limit: kilowatts });
    same(
        &rt,
        whole(decimal(false, 100_000_005, -4), 3, kilowatts),
        large,
    );
    same(&rt, whole(decimal(false, 1, 400), 0, kilowatts), large);
    Ok(())
}

#[test]
fn tells_whole_numbers(rt: HostRuntime) -> Result<(), Fail> {
    assert!(rt; is_whole(decimal(true, 10, -1)));
    assert!(rt; is_whole(decimal(false, 0, -400)));
    assert!(rt; !is_whole(decimal(false, 15, -1)));
    assert!(rt; !is_whole(decimal(false, 1, -400)));
    Ok(())
}
