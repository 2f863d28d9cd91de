//! What all running spells write to by turns.
ghost use Rattle.std.specs.Prelude.{◌≡◌, ◌+◌, ◌*◌, ◌≤◌, IfOk};
ghost use Rattle.slope_list.specs.Slopes.{space_of};
ghost use Rattle.uc_model.specs.declared.limits.TheConstants.{MOST_PERIODS};

use plain_lists::lists::ReservedList;
use slope_list::Spare;
use spell_run::Log;
use std::alloc::{AllocError, Global};

/// What all running spells write to by turns.
pub struct Shared {
    /// Room for the next step of one of them.
    pub spare: Spare,
    /// What they leave for backtracking.
    pub log: Log,
}

// By hand, so that dropping it is one call.
impl Drop for Shared {
    fn drop(self) {
        let Shared { spare: _, log: _ } = self;
    }
}

/// Room enough for the entries of a log: at each period one for each running spell that began by then, the
/// one that was on before the horizon among them. (One more spares a proof that the product is even.)
fn most_log_entries(periods: u32) -> u32
    requires { periods ≤ MOST_PERIODS }
    ensures { periods * (periods + 3) ≤ 2 * result }
{
    periods * (periods + 3) / 2 + 1
}

impl Shared {
    ghost use Rattle.unit_table.specs.Live.{HasRoomFor};

    /// Room for steps of so many pieces, and for what running spells leave of so many periods.
    pub fn make(alloc: Global, periods: u32, pieces: usize) -> Result<Shared, AllocError>
        requires { periods ≤ MOST_PERIODS }
        ensures spare { IfOk result (λ s. space_of s.spare ≡ pieces) }
        ensures log { IfOk result (λ s. HasRoomFor periods s.log) }
    {
        let spare = Spare::make(alloc, pieces)?;
        let log = ReservedList::make(alloc, most_log_entries(periods))?;
        Ok(Shared { spare, log })
    }
}
