//! The demand bids of a case.
ghost use Rattle.std.specs.Prelude.{◌≡◌, ◌≤◌, length, IfOk};
ghost use Rattle.uc_model.specs.Limits.{IsBidUnit};
ghost use Rattle.uc_model.specs.PlainUnits.{bid_of};
ghost use Rattle.uc_model.specs.declared.limits.TheConstants.{MOST_PERIODS};
ghost use Rattle.uc_text.specs.View.{view};
ghost use Rattle.uc_text.specs.Given.{Gives};
ghost use Rattle.uc_case.specs.Tables.{bid_unit};

use std::alloc::Global;
use uc_field::blocks::read_demand_bid_blocks;
use uc_field::fault::Site;
use uc_field::forms::{FieldStop, members_of};
use uc_field::keys::Keys;
use uc_model::units::Bid;
use uc_text::Branch;

/// A bid, or the first of its faults; those of a block are at its period.
#[tactic(auto, unfolding(crate::specs::Tables::bid_unit))]
pub fn read_bid(alloc: Global, at: Site, branch: Branch<'_>, periods: u32) -> Result<Bid, FieldStop>
    requires some { 1 ≤ periods }
    requires horizon { periods ≤ MOST_PERIODS }
    ensures fits { IfOk result (λ b. IsBidUnit (bid_of b)) }
    ensures count { IfOk result (λ b. length b.blocks.items ≡ periods) }
    ensures value { Gives bid_of result (bid_unit periods at (view branch.entry)) }
{
    let u = Keys {
        at,
        members: members_of(alloc, at, branch)?,
    };
    let blocks = read_demand_bid_blocks(alloc, &u, periods)?;
    Ok(Bid { blocks })
}
