//! What renewable units and bids earn at best at an energy price.
ghost use Rattle.std.specs.Prelude.{◌≡◌, ◌<◌, pos, neg_ℤ, ◌-ℤ◌, ◌*ℤ◌, length, map};
ghost use Rattle.std.specs.Int.{int_max};
ghost use Rattle.uc_model.specs.Data.{NamedRenewableUnit, NamedBidUnit};
ghost use Rattle.plain_lists.specs.Ranges.{IsFrom};
ghost use Rattle.uc_model.specs.Limits.{IsBlock, IsBlockList, price_limit};
ghost use Rattle.uc_model.specs.PlainCases.{market_of};
ghost use Rattle.uc_model.specs.PlainUnits.{renewable_of};
ghost use Rattle.uc_model.specs.Schedules.{blocks_at};
ghost use Rattle.plain_lists.specs.Sums.{total};
ghost use Rattle.gap_proof.specs.MixtureBound.{best_sold, best_bought, flat as flat_of};
ghost use Rattle.flat_answer.specs.Choices.{most_earned};
ghost use Rattle.gap_proof.specs.PlaneSums.{IsUpTo};
ghost use Rattle.gap_proof.specs.MixtureSizes.{IsFlat};

use uc_model::cases::Case;
use uc_model::units::{Block, Renewable};

// What a renewable unit earns at best at an index.
fn best_earnings_of_renewable(flat: &Renewable, index: usize, price: i64) -> i64
    requires index { index < length (renewable_of flat.now).least }
    requires price { IsFrom (neg_ℤ price_limit) price_limit price }
    ensures value { result ≡ best_sold (renewable_of flat.now) index price }
    ensures limit { IsUpTo 10000000000000000 result }
{
    let by_least = price * *flat.least.get(index);
    let by_most = price * *flat.most.get(index);
    by_least.max(by_most)
}

// What all renewable units earn at best at an index.
fn best_earnings_of_all_renewables(case: &Case, index: usize, price: i64) -> i128
    requires index { index < (market_of case.now).periods }
    requires price { IsFrom (neg_ℤ price_limit) price_limit price }
    ensures value { result ≡ total (map (λ (n : NamedRenewableUnit). best_sold n.unit index price)
        (market_of case.now).flat) }
    ensures limit { IsUpTo 41000000000000000000 result }
{
    let mut sum: i128 = 0;
    for number in 0..case.flat.len() {
        sum += i128::from(best_earnings_of_renewable(&case.flat.get(number).flat, index, price));
    }
    sum
}

// What a block earns its buyer at best.
fn best_earnings_of_block(block: &Block, price: i64) -> i64
    requires block { IsBlock block.now }
    requires price { IsFrom (neg_ℤ price_limit) price_limit price }
    ensures value { result
        ≡ block.now.width *ℤ int_max (pos 0) (block.now.price -ℤ price) }
    ensures limit { IsFrom (pos 0) most_earned result }
{
    block.width * (block.price - price).max(0)
}

// What blocks earn their buyer at best.
fn best_earnings_of_blocks(blocks: &[Block], price: i64) -> i64
    requires blocks { IsBlockList blocks.now }
    requires price { IsFrom (neg_ℤ price_limit) price_limit price }
    ensures value { result ≡ best_bought blocks.now price }
    ensures limit { IsFrom (pos 0) most_earned result }
{
    let mut sum = 0;
    for block in blocks {
        sum += best_earnings_of_block(block, price);
    }
    sum
}

// What all bids earn at best at an index.
fn best_earnings_of_all_bids(case: &Case, index: usize, price: i64) -> i128
    requires index { index < (market_of case.now).periods }
    requires price { IsFrom (neg_ℤ price_limit) price_limit price }
    ensures value { result ≡ total (map (λ (n : NamedBidUnit). best_bought (blocks_at n.unit index)
        price) (market_of case.now).bids) }
    ensures limit { IsUpTo 82000000000000000000 result }
{
    let mut sum: i128 = 0;
    for number in 0..case.bids.len() {
        let blocks = case.bids.get(number).bid.blocks.get(index).as_slice();
        sum += i128::from(best_earnings_of_blocks(blocks, price));
    }
    sum
}

/// What all renewable units and bids earn at best at an index, in money.
pub fn best_earnings_of_renewables_and_bids(case: &Case, index: usize, price: i64) -> i128
    requires index { index < (market_of case.now).periods }
    requires price { IsFrom (neg_ℤ price_limit) price_limit price }
    ensures value { result ≡ flat_of (market_of case.now) index price }
    ensures limit { IsFlat result }
{
    best_earnings_of_all_renewables(case, index, price)
        + best_earnings_of_all_bids(case, index, price)
}
