//! A schedule of a system that grows unit by unit, with its sums.
ghost use Rattle.std.specs.Prelude.{◌≡◌, ◌+◌, ◌*◌, ◌/◌, ◌≤◌, ◌<◌, ℕ, ℤ, pos, ◌+ℤ◌, [], ◌∷◌, ◌++◌};
ghost use Rattle.std.specs.Prelude.{IfOk, length, replicate, slice_index};
ghost use Rattle.std.specs.List.{All};
ghost use Rattle.uc_model.specs.Limits.{IsPower};
ghost use Rattle.uc_model.specs.PlainUnits.{schedule_of};
ghost use Rattle.plain_lists.specs.Sums.{int_at};
ghost use Rattle.case_make.specs.Grown.{plan_of, IsSummed, IsSmall, HasRoom, IsSteady};

use crate::make::{PERIODS, UNITS};
use plain_lists::lists::Numbers;
use std::alloc::{AllocError, Global};
use uc_model::units::{Powers, Response, ResponseList};

/// The schedules that are made so far, their power in each period, and their reserve, which is one
/// number in all periods, in kilowatts.
#[derive(Drop)]
pub struct Growing {
    /// The schedules.
    pub responses: ResponseList,
    /// Their power in each period.
    pub power: Numbers,
    /// Their reserve in any period.
    pub reserve: u64,
}

// Adds one unit's powers to the sums.
fn add_unit_powers_to_sums(sums: &mut Numbers, powers: &Powers)
    requires lengths { length sums.old.items ≡ length powers.now.items }
    requires sums { All IsPower sums.old.items }
    ensures length { length sums.new.items ≡ length sums.old.items }
    ensures sums { (k : ℕ) → k < length sums.old.items
        → int_at sums.new.items k ≡ int_at sums.old.items k
        +ℤ pos (slice_index powers.now.items k) }
{
    for k in 0..powers.len() {
        let sum = *sums.get(k) + i64::from(*powers.get(k));
        sums.set(k, sum);
    }
}

impl Growing {
    /// No schedule yet, with room for those of all units.
    pub fn make(alloc: Global) -> Result<Self, AllocError>
        ensures empty { IfOk result (λ g. plan_of g ≡ []) }
        ensures summed { IfOk result IsSummed }
        ensures room { IfOk result (HasRoom 154) }
    {
        let responses = ResponseList::make(alloc, UNITS)?;
        let power = Numbers::filled(alloc, PERIODS, 0)?;
        Ok(Growing {
            responses,
            power,
            reserve: 0,
        })
    }

    /// Adds a unit's schedule, whose reserve is the same in all periods.
    pub fn push(&mut self, response: Response)
        requires room { HasRoom 1 self.old }
        requires summed { IsSummed self.old }
        requires small { IsSmall 100000000 (plan_of self.old) }
        requires steady { IsSteady (schedule_of response) }
        ensures plan { plan_of self.new ≡ plan_of self.old ++ schedule_of response ∷ [] }
        ensures summed { IsSummed self.new }
        ensures room { self.new.responses.spare + 1 ≡ self.old.responses.spare }
    {
        add_unit_powers_to_sums(&mut self.power, &response.power);
        self.reserve += u64::from(*response.reserve.get(0));
        self.responses.push(response);
    }

    /// Nine tenths of the reserve in each period, in kilowatts.
    pub fn requirements(&self, alloc: Global) -> Result<Numbers, AllocError>
        requires { self.now.reserve ≤ 1000000000 }
        ensures { IfOk result (λ numbers. numbers.items
            ≡ replicate 48 (pos (self.now.reserve * 9 / 10))) }
    {
        Numbers::filled(alloc, PERIODS, (self.reserve * 9 / 10) as i64)
    }
}
