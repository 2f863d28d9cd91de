//! The answer of a demand bid.
ghost use Rattle.std.specs.Prelude.{◌≡◌, ◌<◌, pos, neg_ℤ, ◌+ℤ◌};
ghost use Rattle.std.specs.Prelude.{length};
ghost use Rattle.uc_model.specs.Data.{Bid as BidOf};
ghost use Rattle.uc_model.specs.Earnings.{earnings};
ghost use Rattle.plain_lists.specs.Ranges.{IsFrom};
ghost use Rattle.uc_model.specs.Limits.{IsPower, IsBlock, IsBlockList, price_limit};
ghost use Rattle.uc_model.specs.PlainUnits.{bid_of, prices_of, schedule_of};
ghost use Rattle.uc_model.specs.Schedules.{blocks_at};
ghost use Rattle.plain_lists.specs.Sums.{int_at};
ghost use Rattle.uc_model.specs.Ties.{IsLeast};
ghost use Rattle.flat_answer.specs.Choices.{IsLeastChoice, IsWithinBlocks, bought_at, added_power};
ghost use Rattle.flat_answer.specs.Choices.{added_gain, most_earned};

use crate::choice::{PowerChoice, earnings_at_gain, write_choice};
use uc_model::units::{Answered, Bid, Block, Prices};

// The choice with a block more where it is worth more than it costs.
fn bid_choice_with_block_added(so_far: PowerChoice, block: &Block, price: i64) -> PowerChoice
    requires block { IsBlock block.now }
    requires price { IsFrom (neg_ℤ price_limit) price_limit price }
    requires power { IsPower (pos so_far.power +ℤ added_power price block.now) }
    requires earned { IsFrom (pos 0) most_earned
        (so_far.earned +ℤ added_gain price block.now) }
    ensures power { pos result.power ≡ pos so_far.power +ℤ added_power price block.now }
    ensures earned { result.earned ≡ so_far.earned +ℤ added_gain price block.now }
{
    if block.price <= price {
        return so_far;
    }
    PowerChoice {
        power: so_far.power + block.width as u32,
        earned: so_far.earned + earnings_at_gain(block.price - price, block.width),
    }
}

// All blocks whose price is above the energy price.
fn bid_choice_of_worthwhile_blocks(blocks: &[Block], price: i64) -> PowerChoice
    requires blocks { IsBlockList blocks.now }
    requires price { IsFrom (neg_ℤ price_limit) price_limit price }
    ensures { IsLeastChoice (IsWithinBlocks blocks.now) (bought_at blocks.now price) result.power
        result.earned }
{
    let mut choice = PowerChoice {
        power: 0,
        earned: 0,
    };
    for block in blocks {
        choice = bid_choice_with_block_added(choice, block, price);
    }
    choice
}

// The choice of a period, whose index counts from 0.
fn bid_choice_in_period(bid: &Bid, prices: &Prices, index: usize) -> PowerChoice
    requires prices { length (prices_of prices.now).energy ≡ length (bid_of bid.now).blocks }
    requires index { index < length (bid_of bid.now).blocks }
    ensures { IsLeastChoice (IsWithinBlocks (blocks_at (bid_of bid.now) index))
        (bought_at (blocks_at (bid_of bid.now) index) (int_at (prices_of prices.now).energy index))
        result.power result.earned }
{
    let blocks = bid.blocks.get(index).as_slice();
    bid_choice_of_worthwhile_blocks(blocks, *prices.energy.get(index))
}

/// Leaves in `into` the least best schedule of a bid at the prices, and what it earns: in each
/// period it buys the blocks whose price is above the energy price. Bid, prices and `into` are over
/// the same periods. Takes no memory.
pub fn best_bid(bid: &Bid, prices: &Prices, into: &mut Answered)
    requires prices { length (prices_of prices.now).energy ≡ length (bid_of bid.now).blocks }
    requires into { length (schedule_of into.old.response).on ≡ length (bid_of bid.now).blocks }
    ensures least { IsLeast (BidOf (bid_of bid.now)) (prices_of prices.now)
        (schedule_of into.new.response) }
    ensures earned { into.new.earned ≡ earnings (BidOf (bid_of bid.now)) (prices_of prices.now)
        (schedule_of into.new.response) }
{
    into.earned = 0;
    for k in 0..prices.energy.len() {
        let choice = bid_choice_in_period(bid, prices, k);
        write_choice(into, k, choice);
    }
}
