//! The ends of spells that the next start may follow, kept from period to period.
//!
//! Where a start never costs less after a longer time off, an end that costs more than a later one
//! is never the cheapest to start from. So the list that a search for the cheapest start goes
//! through stays short.
ghost use Rattle.std.specs.Prelude.{◌≡◌, ◌⊎◌, ℕ, suc, ◌+◌, ◌*◌, ◌<◌, ◌≤◌, length, slice_get};
ghost use Rattle.std.specs.Prelude.{ℤ, pos, ◌+ℤ◌, ◌≤ℤ◌, IsTrue, IfOk, IfSome, IfNone, Option, Some};
ghost use Rattle.std.specs.Prelude.{IsFalse};
ghost use Rattle.uc_model.specs.PlainUnits.{thermal_of};
ghost use Rattle.uc_model.specs.declared.limits.TheConstants.{MOST_PERIODS};
ghost use Rattle.unit_rows.specs.Origins.{IsRising, IsRipe, IsOrigin, HasOrigin, IsOriginPut};
ghost use Rattle.unit_rows.specs.Origins.{AreRight, AreInOrder, AreOrigins, AreOriginsWithin};
ghost use Rattle.unit_rows.specs.Rows.{cost_at, IsWithinTimes};
ghost use Rattle.unit_rows.specs.Ends.{IsEntry, IsLeastEntry};

use crate::commitment::{must_be_on, stop_with_min_down_just_met};
use crate::table::{Ended, Entry, cost_of_start_after, lesser_spell_entry, sum_of_costs};
use plain_lists::lists::ReservedList;
use std::alloc::{AllocError, Global};
use uc_model::units::{Lag, Unit};

/// An end that a start may follow.
#[derive(Clone, Copy)]
pub struct Origin {
    /// The last on period before the start; 0 stands for the time before the horizon.
    pub last: u32,
    /// The least cost of all up to it, in money.
    pub cost: i64,
}

/// The ends that a start in the next period may follow, the earliest first, but for those that a
/// later one dominates.
pub struct Origins {
    /// The first `count` are meant.
    pub list: ReservedList<Origin>,
    pub count: u32,
    /// The earliest last on period since which the unit may have been off.
    pub off_from: u32,
    /// Whether a start never costs less after a longer time off.
    pub is_rising: bool,
}

// By hand, so that dropping it is one call.
impl Drop for Origins {
    fn drop(self) {
        let Origins {
            list: _,
            count: _,
            off_from: _,
            is_rising: _,
        } = self;
    }
}

// Whether a start never costs less after a longer time off: no lag costs less than the one before.
fn start_costs_rise(lags: &[Lag]) -> bool
    ensures { IsTrue result → IsRising lags.now }
{
    for index in 1..lags.len() {
        if lags[index].cost < lags[index - 1].cost {
            return false;
        }
    }
    true
}

impl Origins {
    /// Origins over so many periods, none of them yet.
    pub fn make(alloc: Global, periods: u32) -> Result<Origins, AllocError>
        requires { periods ≤ MOST_PERIODS }
        ensures { IfOk result (λ o. periods < length o.list.items) }
    {
        let none = Origin { last: 0, cost: 0 };
        let list = ReservedList::filled(alloc, periods + 1, none)?;
        Ok(Origins {
            list,
            count: 0,
            off_from: 0,
            is_rising: false,
        })
    }

    // Where an end of a cost is put: in the place of those that it dominates.
    fn index_past_cheaper_spell_ends(&self, cost: i64) -> u32
        requires { self.now.count ≤ length self.now.list.items }
        ensures within { result ≤ self.now.count }
        ensures dearer { (i : ℕ) (a : Origin) → result ≤ i → i < self.now.count →
            slice_get self.now.list.items i ≡ Some a →
            IsTrue self.now.is_rising × ((cost +ℤ pos 1) ≤ℤ a.cost) }
        ensures cheaper { IsTrue self.now.is_rising → (i : ℕ) (a : Origin) → result ≡ suc i →
            slice_get self.now.list.items i ≡ Some a → a.cost ≤ℤ cost }
    {
        if !self.is_rising {
            return self.count;
        }
        for back in 0..self.count {
            let index = self.count - back;
            if self.list.get(index as usize - 1).cost <= cost {
                return index;
            }
        }
        0
    }

    // Puts an end behind those that it doesn't dominate.
    fn put(&mut self, origin: Origin)
        requires small { self.old.count ≤ MOST_PERIODS }
        requires room { self.old.count < length self.old.list.items }
        ensures put { IsOriginPut origin self.old self.new }
        ensures length { length self.new.list.items ≡ length self.old.list.items }
    {
        let index = self.index_past_cheaper_spell_ends(origin.cost);
        self.list.set(index as usize, origin);
        self.count = index + 1;
    }

    // Puts in the end since which the unit has been off for long enough only now, if there is one.
    fn insert_spell_end_with_min_down_met(
        &mut self,
        unit: &Unit,
        period: u32,
        rows: &[Option<Ended>],
    )
        requires end { period ≤ length (thermal_of unit.now).window }
        requires rows { period < length rows.now }
        requires room { period < length self.old.list.items }
        requires few { self.old.count ≤ period }
        requires right { AreRight (thermal_of unit.now) (cost_at rows.now) period self.old }
        requires earlier { (i last : ℕ) (o : Origin) → i < self.old.count →
            slice_get self.old.list.items i ≡ Some o →
            IsRipe (thermal_of unit.now) period last → o.last < last }
        requires others { (o : Origin) →
            IsOrigin (thermal_of unit.now) (cost_at rows.now) period o →
            IsRipe (thermal_of unit.now) period o.last ⊎ HasOrigin self.old o }
        ensures origins { AreOrigins (thermal_of unit.now) (cost_at rows.now) period self.new }
        ensures length { length self.new.list.items ≡ length self.old.list.items }
    {
        let Some(last) = stop_with_min_down_just_met(unit, period) else {
            return;
        };
        if last < self.off_from {
            return;
        }
        if let Some(ended) = rows[last as usize] {
            self.put(Origin {
                last,
                cost: ended.cost,
            });
        }
    }

    /// The origins of a start in the first period.
    pub fn begin(&mut self, unit: &Unit, rows: &[Option<Ended>])
        requires rows { 1 ≤ length rows.now }
        requires room { 1 ≤ length self.old.list.items }
        ensures origins { AreOrigins (thermal_of unit.now) (cost_at rows.now) 0 self.new }
        ensures length { length self.new.list.items ≡ length self.old.list.items }
    {
        self.count = 0;
        self.off_from = 0;
        self.is_rising = start_costs_rise(unit.lags.as_slice());
        self.insert_spell_end_with_min_down_met(unit, 0, rows);
    }

    /// Goes on to the origins of a start after the period at an index.
    pub fn advance_to_starts_after_period(
        &mut self,
        unit: &Unit,
        index: u32,
        rows: &[Option<Ended>],
    )
        requires end { index < length (thermal_of unit.now).window }
        requires rows { suc index < length rows.now }
        requires room { suc index < length self.old.list.items }
        requires origins { AreOrigins (thermal_of unit.now) (cost_at rows.now) index self.old }
        ensures origins { AreOrigins (thermal_of unit.now) (cost_at rows.now) (suc index) self.new }
        ensures length { length self.new.list.items ≡ length self.old.list.items }
    {
        if must_be_on(unit, index) {
            self.count = 0;
            self.off_from = index + 1;
            return;
        }
        self.insert_spell_end_with_min_down_met(unit, index + 1, rows);
    }

    /// Whether one of the ends costs no more than a limit. A start after any other one costs more.
    pub fn has_spell_end_within_cost(&self, limit: i64) -> bool
        requires { self.now.count ≤ length self.now.list.items }
        ensures { IsFalse result → (i : ℕ) (o : Origin) → i < self.now.count →
            slice_get self.now.list.items i ≡ Some o → (limit +ℤ pos 1) ≤ℤ o.cost }
    {
        for index in 0..self.count {
            if self.list.get(index as usize).cost <= limit {
                return true;
            }
        }
        false
    }

    /// The least cost of all before a start in the period after `period`, with the start; of equal
    /// ones that with the earliest on period before it.
    pub fn least(&self, unit: &Unit, period: u32) -> Option<Entry>
        requires small { period < MOST_PERIODS }
        requires within { AreOriginsWithin period self.now }
        requires order { AreInOrder self.now }
        ensures some { IfSome result (λ e. (ends : ℕ → Option ℤ) →
            AreOrigins (thermal_of unit.now) ends period self.now →
            IsLeastEntry (thermal_of unit.now) ends (suc period) e.last e.cost) }
        ensures none { IfNone result ((ends : ℕ → Option ℤ) (e : ℤ) →
            AreOrigins (thermal_of unit.now) ends period self.now →
            IsEntry (thermal_of unit.now) ends (suc period) e → ⊥) }
        ensures bound { IfSome result (λ e. IsWithinTimes (2 * period + 3) e.cost) }
    {
        let mut least: Option<Entry> = None;
        for index in 0..self.count {
            let origin = *self.list.get(index as usize);
            let cost = sum_of_costs(origin.cost, cost_of_start_after(unit, origin.last, period));
            least = lesser_spell_entry(least, Some(cost), origin.last);
        }
        least
    }
}
