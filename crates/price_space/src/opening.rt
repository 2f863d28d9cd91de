//! The opening proposals.
ghost use Rattle.std.specs.Prelude.{◌≡◌, ◌+◌, ◌≤◌, ℤ, pos, neg_ℤ, ◌*ℤ◌, length, map, replicate};
ghost use Rattle.std.specs.List.{All};
ghost use Rattle.plain_lists.specs.Ranges.{IsFrom};
ghost use Rattle.uc_model.specs.Limits.{price_limit};
ghost use Rattle.plain_lists.specs.declared.limits.TheConstants.{MOST_AHEAD};
ghost use Rattle.uc_model.specs.PlainUnits.{prices_of};
ghost use Rattle.uc_model.specs.PriceRule.{opening_prices_of};
ghost use Rattle.plain_lists.specs.Sums.{floor_div};
ghost use Rattle.price_space.specs.Opening.{opened};

use plain_lists::lists::Numbers;
use uc_model::limits::PRICE_LIMIT;
use uc_model::money::clamp_to_price_limit;
use uc_model::units::Prices;

// (7 + n) / 8 of a start price, rounded down. A start price may be any number.
fn share_of_start_price(start: i64, n: u32) -> i128
    requires { n ≤ MOST_AHEAD }
    ensures { result ≡ floor_div (start *ℤ pos (7 + n)) 8 }
{
    (i128::from(start) * i128::from(7 + n)).div_euclid(8)
}

fn opening_price(start: i64, n: u32) -> i64
    requires { n ≤ MOST_AHEAD }
    ensures { result ≡ opened n start }
{
    clamp_to_price_limit(-PRICE_LIMIT, share_of_start_price(start, n))
}

fn write_opening_energy(start: &Numbers, n: u32, into: &mut Numbers)
    requires n { n ≤ MOST_AHEAD }
    requires lengths { length into.old.items ≡ length start.now.items }
    ensures prices { into.new.items ≡ map (opened n) start.now.items }
    ensures limits { All (IsFrom (neg_ℤ price_limit) price_limit) into.new.items }
    ensures same_length { length into.new.items ≡ length into.old.items }
    ensures spare { into.new.spare ≡ into.old.spare }
{
    for k in 0..into.len() {
        into.set(k, opening_price(*start.get(k), n));
    }
}

fn write_zeros(into: &mut Numbers)
    ensures zeros { into.new.items ≡ replicate (length into.old.items) (pos 0) }
    ensures spare { into.new.spare ≡ into.old.spare }
{
    for k in 0..into.len() {
        into.set(k, 0);
    }
}

/// Leaves in `into` the prices of the opening proposal `n`, from 1 to 16: each energy price is (7 +
/// n) / 8 of the start price, rounded down and kept within the limits of a price, and each reserve
/// price is 0. The lists are over the same periods. Takes no memory.
pub fn opening_prices(start: &Numbers, n: u32, into: &mut Prices)
    requires least { 1 ≤ n }
    requires most { n ≤ MOST_AHEAD }
    requires lengths { length (prices_of into.old).energy ≡ length start.now.items }
    ensures { prices_of into.new ≡ opening_prices_of start.now.items n }
{
    write_opening_energy(start, n, &mut into.energy);
    write_zeros(&mut into.reserve);
}
