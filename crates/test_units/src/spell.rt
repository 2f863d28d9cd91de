//! A spell, and costs of spells.
ghost use Rattle.std.specs.Prelude.{◌≡◌, ◌+◌, ◌<◌, ◌≤◌, [], ◌∷◌, ◌++◌, length, IfOk, None, Some};
ghost use Rattle.std.specs.Prelude.{replicate, slice_get, slice_index_or, slice_set};

use plain_lists::lists::ReservedList;
use std::alloc::{AllocError, Global};
use std::marker::Model;

/// A run of on periods, counted from 1. `started` says that a start is at `first`; otherwise the
/// unit goes on from before period 1, and `first` is 1. `stops` says that a stop follows: exactly
/// where `last` is before the horizon's end.
#[derive(Clone, Copy)]
pub struct Spell {
    /// The first on period.
    pub first: u32,
    /// The last on period.
    pub last: u32,
    /// Whether a start is at `first`.
    pub started: bool,
    /// Whether a stop follows.
    pub stops: bool,
}

/// Net costs of spells by last period, in money: the cost for last period `l` is at place `l - 1`.
/// None says that no dispatch is there. A contract sees them as a list, beside the number of
/// further costs that it can take without memory.
#[derive(Drop)]
pub struct SpellCosts {
    costs: ReservedList<Option<i64>>,
}

impl Model for SpellCosts {
    ghost use Rattle.std.specs.Prelude.{ℤ, Option};
    ghost use Rattle.std.specs.Coded.{coded_ℤ, coded_option};
    ghost use Rattle.plain_lists.specs.Reserved.{Reserved, reserved_code};

    ghost Value = { Reserved (Option ℤ) };

    ghost coded = { reserved_code (coded_option coded_ℤ) };

    ghost view = { λ c. c.costs };
}

impl SpellCosts {
    /// So many costs, all None.
    pub fn make(alloc: Global, periods: u32) -> Result<SpellCosts, AllocError>
        ensures { IfOk result (λ costs. costs.items ≡ replicate periods None) }
    {
        let costs = ReservedList::filled(alloc, periods, None)?;
        Ok(SpellCosts { costs })
    }

    /// The number of costs.
    pub fn len(&self) -> usize
        ensures { result ≡ length self.now.items }
    {
        self.costs.len()
    }

    /// The cost at an index below the length.
    pub fn get(&self, index: usize) -> &Option<i64>
        requires { index < length self.now.items }
        ensures item { slice_get self.now.items index ≡ Some result.now }
        ensures value { slice_index_or self.now.items index result.now ≡ result.now }
    {
        self.costs.get(index)
    }

    /// Writes the cost at an index below the length.
    pub fn set(&mut self, index: usize, cost: Option<i64>)
        requires { index < length self.old.items }
        ensures items { self.new.items ≡ slice_set self.old.items index cost }
        ensures spare { self.new.spare ≡ self.old.spare }
    {
        self.costs.set(index, cost);
    }

    /// Adds a cost at the end, where there is room for it.
    pub fn push(&mut self, cost: Option<i64>)
        requires { 1 ≤ self.old.spare }
        ensures items { self.new.items ≡ self.old.items ++ cost ∷ [] }
        ensures spare { self.new.spare + 1 ≡ self.old.spare }
    {
        self.costs.push(cost);
    }

    /// Takes all costs away; their room stays.
    pub fn clear(&mut self)
        ensures items { self.new.items ≡ [] }
        ensures spare { self.new.spare ≡ length self.old.items + self.old.spare }
    {
        self.costs.clear();
    }

    /// Lends the costs.
    pub fn as_slice(&self) -> &[Option<i64>]
        ensures { result.now ≡ self.now.items }
    {
        self.costs.as_slice()
    }
}
