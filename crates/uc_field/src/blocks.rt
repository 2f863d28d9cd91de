//! The blocks of a bid.
ghost use Rattle.std.specs.Prelude.{◌≡◌, ◌≤◌, [], length, map, IfOk, false, int_lt};
ghost use Rattle.std.specs.List.{All};
ghost use Rattle.uc_model.specs.Limits.{IsBlock, IsBlockList};
ghost use Rattle.plain_lists.specs.Reserved.{items_in};
ghost use Rattle.uc_model.specs.declared.units.Block.{Block as PlainBlock};
ghost use Rattle.uc_model.specs.declared.limits.TheConstants.{MOST_PERIODS};
ghost use Rattle.uc_text.specs.View.{view, views, member_views};
ghost use Rattle.uc_text.specs.Given.{Gives};
ghost use Rattle.uc_field.specs.Kept.{AreBlocks};
ghost use Rattle.uc_text.specs.Words.{last_is};
ghost use Rattle.uc_field.specs.Forms.{key, keys, items};
ghost use Rattle.uc_field.specs.Lists.{block, block_in, period_blocks, blocks};

use crate::fault::{CaseCode, Field, Site};
use crate::forms::{FieldStop, amount_under, list_with_item_per_period, members_of};
use crate::items::{Item, read_items_up_to};
use crate::keys::Keys;
use crate::limits::{BLOCKS, POWER, PRICE};
use std::alloc::Global;
use uc_model::limits::POWER_LIMIT;
use uc_model::money::total_block_width;
use uc_model::units::{Block, BlockLists, Blocks};
use uc_text::{Branch, Member};

/// Whether a price is above that of the last of these blocks.
fn is_price_above_last_block(before: &[Block], price: i64) -> bool
    ensures { result ≡ last_is (λ (a : PlainBlock). int_lt a.price price) before.now }
{
    match before.last() {
        Some(last) => last.price < price,
        None => false,
    }
}

/// The block of these members, behind other blocks; `BlockOrder` where it is dearer than the one
/// before it.
#[tactic(auto, unfolding(crate::specs::Lists::block_in))]
fn demand_block_from_members(
    at: Site,
    before: &[Block],
    members: &[Member<'_>],
) -> Result<Block, FieldStop>
    ensures fits { IfOk result (λ b. IsBlock b) }
    ensures order { IfOk result (λ b. last_is (λ (a : PlainBlock). int_lt a.price b.price)
        before.now ≡ false) }
    ensures value { Gives (λ b. b) result (block_in at before.now (member_views members.now)) }
{
    let width = amount_under(at, members, "mw", 3, POWER)?;
    let price = amount_under(at, members, "price", 3, PRICE)?;
    if is_price_above_last_block(before, price) {
        return Err(at.stop(CaseCode::BlockOrder));
    }
    Ok(Block { width, price })
}

// The faults of a block are those of its period.
impl Item for Block {
    ghost reading = { block };

    ghost Keeps = { AreBlocks };

    #[tactic(auto, unfolding(crate::specs::Lists::block), using(crate::proofs::Ordered::blocks_push))]
    fn read(
        alloc: Global,
        at: Site,
        before: &[Block],
        branch: Branch<'_>,
    ) -> Result<Block, FieldStop> {
        let members = members_of(alloc, at, branch)?;
        demand_block_from_members(at, before, &members)
    }
}

#[tactic(auto, unfolding(crate::specs::Lists::period_blocks), using(crate::proofs::Ordered::no_blocks))]
fn read_blocks_of_period(alloc: Global, at: Site, branch: Branch<'_>) -> Result<Blocks, FieldStop>
    ensures fits { IfOk result (λ bs. IsBlockList bs.items) }
    ensures value { Gives (λ bs. bs.items) result (period_blocks at [] (view branch.entry)) }
{
    let blocks = read_items_up_to::<Block>(alloc, at, branch, BLOCKS)?;
    if total_block_width(blocks.as_slice()) > POWER_LIMIT {
        return Err(at.stop(CaseCode::TooLarge));
    }
    Ok(blocks)
}

/// Adds the blocks of each period to a list that is empty and has room for them.
fn read_blocks_of_periods_into(
    alloc: Global,
    at: Site,
    branches: &[Branch<'_>],
    lists: &mut BlockLists,
) -> Result<(), FieldStop>
    requires few { length branches.now ≤ MOST_PERIODS }
    requires empty { lists.old.items ≡ [] }
    requires room { length branches.now ≤ lists.old.spare }
    ensures count { IfOk result (λ _. length lists.new.items ≡ length branches.now) }
    ensures fits { IfOk result (λ _. All (λ bs. IsBlockList bs) (map items_in lists.new.items)) }
    ensures value { Gives (λ _. map items_in lists.new.items) result
        (items period_blocks at (views branches.now)) }
{
    for branch in branches {
        let site = at.item(lists.len() as u32 + 1);
        let blocks = read_blocks_of_period(alloc, site, *branch)?;
        lists.push(blocks);
    }
    Ok(())
}

fn read_blocks_of_periods(
    alloc: Global,
    at: Site,
    branches: &[Branch<'_>],
) -> Result<BlockLists, FieldStop>
    requires { length branches.now ≤ MOST_PERIODS }
    ensures count { IfOk result (λ ls. length ls.items ≡ length branches.now) }
    ensures fits { IfOk result (λ ls. All (λ bs. IsBlockList bs) (map items_in ls.items)) }
    ensures value { Gives (λ ls. map items_in ls.items) result
        (items period_blocks at (views branches.now)) }
{
    let mut lists = BlockLists::make(alloc, branches.len() as u32)?;
    read_blocks_of_periods_into(alloc, at, branches, &mut lists)?;
    Ok(lists)
}

/// The blocks of each period of a bid; those of a period have their faults at its item.
/// `WrongLength` where there are not as many periods as the case has; `BlockOrder` where a block is
/// dearer than the one before it; `TooLarge` where there are too many blocks, or they are wider than
/// `POWER_LIMIT` together.
#[tactic(auto, unfolding(crate::specs::Lists::blocks))]
pub fn read_demand_bid_blocks(
    alloc: Global,
    u: &Keys,
    periods: u32,
) -> Result<BlockLists, FieldStop>
    requires { periods ≤ MOST_PERIODS }
    ensures count { IfOk result (λ ls. length ls.items ≡ periods) }
    ensures fits { IfOk result (λ ls. All (λ bs. IsBlockList bs) (map items_in ls.items)) }
    ensures value { Gives (λ ls. map items_in ls.items) result
        (key (keys u.now.at (member_views u.now.members.items)) Field.Blocks (blocks periods)) }
{
    let at = u.at.field(Field::Blocks);
    let list = list_with_item_per_period(at, u.value(Field::Blocks)?, periods)?;
    let branches = list.items(alloc)?;
    read_blocks_of_periods(alloc, at, &branches)
}
