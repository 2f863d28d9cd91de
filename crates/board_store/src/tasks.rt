//! The task of a unit, written into room that is there already.
ghost use Rattle.std.specs.Prelude.{◌≡◌, ◌<◌, ◌≤◌, length, map, Some, slice_get};
ghost use Rattle.std.specs.List.{All};
ghost use Rattle.uc_model.specs.Data.{units, unit_count, Thermal, Flat};
ghost use Rattle.uc_model.specs.PlainCases.{market_of, task_unit};
ghost use Rattle.uc_model.specs.PlainUnits.{prices_of, renewable_of, bid_of};
ghost use Rattle.plain_lists.specs.Reserved.{items_in};
ghost use Rattle.plain_lists.specs.Reserved.{room_of};
ghost use Rattle.uc_model.specs.TaskRoom.{IsTaskFor};
ghost use Rattle.uc_model.specs.declared.limits.TheConstants.{MOST_BLOCKS};

use plain_lists::lists::copy_list;
use uc_model::cases::{Case, Task, UnitRef};
use uc_model::copies::copy_unit;
use uc_model::units::{Bid, BlockLists, Prices, Renewable, Unit, UnitKind};

/// Leaves prices in others over as many periods.
pub fn copy_prices(from: &Prices, into: &mut Prices)
    requires { length (prices_of from.now).energy ≡ length (prices_of into.old).energy }
    ensures { prices_of into.new ≡ prices_of from.now }
{
    copy_list(&from.energy, &mut into.energy);
    copy_list(&from.reserve, &mut into.reserve);
}

fn copy_renewable(from: &Renewable, into: &mut Renewable)
    requires { length (renewable_of from.now).least ≡ length (renewable_of into.old).least }
    ensures { renewable_of into.new ≡ renewable_of from.now }
{
    copy_list(&from.least, &mut into.least);
    copy_list(&from.most, &mut into.most);
}

fn copy_blocks(from: &BlockLists, into: &mut BlockLists)
    requires lengths { length from.now.items ≡ length into.old.items }
    requires counts { All (λ bs. length bs.items ≤ MOST_BLOCKS) from.now.items }
    requires room { All (λ bs. MOST_BLOCKS ≤ room_of bs) into.old.items }
    ensures blocks { map items_in into.new.items ≡ map items_in from.now.items }
    ensures room { All (λ bs. MOST_BLOCKS ≤ room_of bs) into.new.items }
{
    for k in 0..from.len() {
        copy_list(from.get(k), into.get_mut(k));
    }
}

fn copy_bid(from: &Bid, into: &mut Bid)
    requires lengths { length (bid_of from.now).blocks ≡ length (bid_of into.old).blocks }
    requires room { All (λ bs. MOST_BLOCKS ≤ room_of bs) into.old.blocks.items }
    ensures bid { bid_of into.new ≡ bid_of from.now }
    ensures room { All (λ bs. MOST_BLOCKS ≤ room_of bs) into.new.blocks.items }
{
    copy_blocks(&from.blocks, &mut into.blocks);
}

// Leaves the unit of a number in a task; the rest of the task stays.
fn fill_unit_of_task(case: &Case, unit: u32, into: &mut Task)
    requires unit { unit < unit_count (market_of case.now) }
    requires room { IsTaskFor (market_of case.now).periods into.old }
    ensures unit { slice_get (units (market_of case.now)) unit ≡ Some (task_unit into.new) }
    ensures room { IsTaskFor (market_of case.now).periods into.new }
    ensures prices { into.new.prices ≡ into.old.prices }
    ensures proposal { into.new.proposal ≡ into.old.proposal }
    ensures number { into.new.unit ≡ into.old.unit }
{
    match case.unit_at(unit as usize).unit {
        UnitRef::Thermal(from) => {
            into.kind = UnitKind::Thermal;
            copy_unit(from, &mut into.thermal);
        }
        UnitRef::Renewable(from) => {
            into.kind = UnitKind::Flat;
            copy_renewable(from, &mut into.flat);
        }
        UnitRef::Bid(from) => {
            into.kind = UnitKind::Bid;
            copy_bid(from, &mut into.bid);
        }
    }
}

/// Leaves the task of a proposal at prices and a unit in another that has room for any unit of the
/// case.
pub fn fill_task(case: &Case, prices: &Prices, proposal: u32, unit: u32, into: &mut Task)
    requires unit { unit < unit_count (market_of case.now) }
    requires room { IsTaskFor (market_of case.now).periods into.old }
    requires horizon { length (prices_of prices.now).energy ≡ (market_of case.now).periods }
    ensures unit { slice_get (units (market_of case.now)) unit ≡ Some (task_unit into.new) }
    ensures room { IsTaskFor (market_of case.now).periods into.new }
    ensures prices { prices_of into.new.prices ≡ prices_of prices.now }
    ensures proposal { into.new.proposal ≡ proposal }
    ensures number { into.new.unit ≡ unit }
{
    into.proposal = proposal;
    into.unit = unit;
    copy_prices(prices, &mut into.prices);
    fill_unit_of_task(case, unit, into);
}
