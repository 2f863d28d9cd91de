ghost use Rattle.std.specs.Prelude.{◌≡◌, ◌≤ℤ◌, neg_ℤ, length, IfOk};
ghost use Rattle.plain_lists.specs.Ranges.{IsFrom};
ghost use Rattle.uc_model.specs.Limits.{IsBlock, IsPower, price_limit};
ghost use Rattle.uc_model.specs.PlainUnits.{bid_of, schedule_of};

use crate::same::{same, same_of};
use crate::small_cases::{one_price, one_range};
use flat_answer::{best_bid, best_flat};
use std::alloc::{AllocError, Global};
use std::fmt::Debug;
use std::process::Abort;
use std::test::Fail;
use uc_model::units::{Answered, Bid, Block, BlockLists, Blocks};

fn one_block(alloc: Global, block: Block) -> Result<Bid, AllocError>
    requires { IsBlock block }
    ensures { IfOk result (λ b. length (bid_of b).blocks ≡ 1) }
{
    let mut list = Blocks::make(alloc, 1)?;
    list.push(block);
    let mut blocks = BlockLists::make(alloc, 1)?;
    blocks.push(list);
    Ok(Bid { blocks })
}

fn answered(alloc: Global) -> Result<Answered, AllocError>
    ensures { IfOk result (λ a. length (schedule_of a.response).on ≡ 1) }
{
    Answered::make(alloc, 1)
}

// What a renewable unit from `least` to `most` sells at a price.
fn sold(alloc: Global, least: i64, most: i64, price: i64) -> Result<Answered, AllocError>
    requires least { IsPower least }
    requires most { IsPower most }
    requires range { least ≤ℤ most }
    requires price { IsFrom (neg_ℤ price_limit) price_limit price }
{
    let flat = one_range(alloc, least, most)?;
    let prices = one_price(alloc, price, 0)?;
    let mut into = answered(alloc)?;
    best_flat(&flat, &prices, &mut into);
    Ok(into)
}

// What a bid of one block buys at a price.
fn bought(alloc: Global, block: Block, price: i64) -> Result<Answered, AllocError>
    requires block { IsBlock block }
    requires price { IsFrom (neg_ℤ price_limit) price_limit price }
{
    let bid = one_block(alloc, block)?;
    let prices = one_price(alloc, price, 0)?;
    let mut into = answered(alloc)?;
    best_bid(&bid, &prices, &mut into);
    Ok(into)
}

// The answer of a unit that is on and gives no reserve.
fn answer_is(rt: &impl Abort, of: &impl Debug, answer: Answered, power: u32, earned: i64) {
    let Answered {
        response,
        earned: is,
    } = &answer;
    let on = response.on.as_slice();
    let powers = response.power.as_slice();
    let reserves = response.reserve.as_slice();
    let (on_due, power_due, none) = ([true], [power], [0]);
    let due = (
        on_due.as_slice(),
        power_due.as_slice(),
        none.as_slice(),
        earned,
    );
    same_of(rt, of, (on, powers, reserves, *is), due);
}

#[test]
fn renewable_sells_where_it_is_paid(rt: HostRuntime) -> Result<(), Fail> {
    let answer = sold(rt.alloc(), 0, 3_000, 119_660)?;
    answer_is(&rt, &119_660, answer, 3_000, 358_980_000);
    Ok(())
}

#[test]
fn renewable_sells_its_least_otherwise(rt: HostRuntime) -> Result<(), Fail> {
    answer_is(&rt, &0, sold(rt.alloc(), 10, 20, 0)?, 10, 0);
    answer_is(&rt, &-5, sold(rt.alloc(), 10, 20, -5)?, 10, -50);
    Ok(())
}

fn purchase_is(rt: &impl Abort, answer: Answered, power: u32, earned: i64) {
    let powers = answer.response.power.as_slice();
    let due = [power];
    same(rt, (powers, answer.earned), (due.as_slice(), earned));
}

#[test]
fn bid_buys_below_its_price(rt: HostRuntime) -> Result<(), Fail> {
    let block = Block {
        width: 50,
        price: 40,
    };
    let answer = bought(rt.alloc(), block, 30)?;
    purchase_is(&rt, answer, 50, 500);
    Ok(())
}

#[test]
fn bid_in_a_tie_buys_nothing(rt: HostRuntime) -> Result<(), Fail> {
    let block = Block {
        width: 50,
        price: 30,
    };
    let answer = bought(rt.alloc(), block, 30)?;
    purchase_is(&rt, answer, 0, 0);
    Ok(())
}
