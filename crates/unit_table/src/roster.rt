//! Which running spells are on: so that no loop goes over those that aren't.
ghost use Rattle.std.specs.Prelude.{◌≡◌, ℕ, suc, ◌<◌, ◌≤◌, IfOk, length, slice_set};
ghost use Rattle.uc_model.specs.declared.limits.TheConstants.{MOST_PERIODS};
ghost use Rattle.unit_table.specs.Live.{live_at};
ghost use Rattle.unit_table.specs.Rosters.{IsRoster};

use crate::running_spell::{RunningSpell, running_spell_of_first_period};
use plain_lists::lists::ReservedList;
use std::alloc::{AllocError, Global};

/// First periods of running spells, rising: those of all that are on, and maybe of others.
pub struct Roster {
    /// The first `count` are meant.
    pub firsts: ReservedList<u32>,
    pub count: u32,
}

// By hand, so that dropping it is one call.
impl Drop for Roster {
    fn drop(self) {
        let Roster {
            firsts: _,
            count: _,
        } = self;
    }
}

impl Roster {
    /// Room for the first periods 0 to so many, none of them yet.
    pub fn make(alloc: Global, periods: u32) -> Result<Roster, AllocError>
        requires { periods ≤ MOST_PERIODS }
        ensures { IfOk result (λ r. periods < length r.firsts.items) }
    {
        let firsts = ReservedList::filled(alloc, periods + 1, 0)?;
        Ok(Roster { firsts, count: 0 })
    }

    /// Takes all away.
    pub fn clear(&mut self)
        ensures count { self.new.count ≡ 0 }
        ensures firsts { self.new.firsts ≡ self.old.firsts }
    {
        self.count = 0;
    }

    /// Puts a first period behind the others.
    pub fn add(&mut self, first: u32)
        requires small { self.old.count ≤ MOST_PERIODS }
        requires room { self.old.count < length self.old.firsts.items }
        ensures count { self.new.count ≡ suc self.old.count }
        ensures firsts { self.new.firsts.items ≡ slice_set self.old.firsts.items self.old.count
            first }
    {
        self.firsts.set(self.count as usize, first);
        self.count += 1;
    }

    /// Takes those away whose running spells are off.
    pub fn keep(&mut self, spells: &[RunningSpell])
        requires small { self.old.count ≤ 169 }
        requires roster { (until : ℕ) × (until ≤ length spells.now)
            × IsRoster (live_at spells.now) until self.old }
        ensures roster { (until : ℕ) →
            IsRoster (live_at spells.now) until self.old →
            IsRoster (live_at spells.now) until self.new }
        ensures length { length self.new.firsts.items ≡ length self.old.firsts.items }
    {
        let mut kept = 0;
        for index in 0..self.count {
            let first = *self.firsts.get(index as usize);
            if running_spell_of_first_period(spells, first).is_on {
                self.firsts.set(kept as usize, first);
                kept += 1;
            }
        }
        self.count = kept;
    }
}
