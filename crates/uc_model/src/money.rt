//! Prices, kilowatts, and what they are worth.
ghost use Rattle.std.specs.Prelude.{◌≡◌, ◌≤◌, neg_ℤ, ◌*ℤ◌, length};
ghost use Rattle.std.specs.List.{All};
ghost use Rattle.uc_model.specs.declared.limits.TheConstants.{MOST_BLOCKS};
ghost use Rattle.plain_lists.specs.Ranges.{IsFrom};
ghost use Rattle.uc_model.specs.Limits.{IsBlock, price_limit};
ghost use Rattle.uc_model.specs.Schedules.{width_of};
ghost use Rattle.plain_lists.specs.Sums.{clamped};

use crate::limits::PRICE_LIMIT;
use crate::units::Block;

/// What so many kilowatts are worth at a price for each, in money.
pub fn worth_at_price(price: i64, kilowatts: i64) -> i128
    ensures { result ≡ price *ℤ kilowatts }
{
    i128::from(price) * i128::from(kilowatts)
}

/// The price that is nearest to a number, from `low` to the greatest price.
pub fn clamp_to_price_limit(low: i64, number: i128) -> i64
    requires { IsFrom (neg_ℤ price_limit) price_limit low }
    ensures value { result ≡ clamped low price_limit number }
    ensures limit { IsFrom low price_limit result }
{
    i128::from(low).max(i128::from(PRICE_LIMIT).min(number)) as i64
}

/// The sum of the blocks' widths in kilowatts.
pub fn total_block_width(blocks: &[Block]) -> i64
    requires count { length blocks.now ≤ MOST_BLOCKS }
    requires blocks { All IsBlock blocks.now }
    ensures { result ≡ width_of blocks.now }
{
    let mut sum = 0;
    for block in blocks {
        sum += block.width;
    }
    sum
}
