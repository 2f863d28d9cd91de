//! The payments of all units, and the surplus reserve.
ghost use Rattle.std.specs.Prelude.{◌≡◌, ◌≤◌, ◌<◌, ◌+◌, ℤ, pos, neg_ℤ, ◌+ℤ◌, ◌-ℤ◌, [], ◌∷◌};
ghost use Rattle.std.specs.Prelude.{◌++◌, length, Some, slice_get};
ghost use Rattle.std.specs.List.{AllZip};
ghost use Rattle.uc_model.specs.Data.{AnyUnit, units, unit_count};
ghost use Rattle.uc_model.specs.Earnings.{IsTop};
ghost use Rattle.plain_lists.specs.Ranges.{IsFrom};
ghost use Rattle.uc_model.specs.Limits.{IsEarned, IsWorth};
ghost use Rattle.uc_model.specs.PlainCases.{market_of, schedules_of};
ghost use Rattle.uc_model.specs.PlainUnits.{prices_of};
ghost use Rattle.uc_model.specs.Systems.{IsFeasiblePlan, IsSettled, surplus_value};
ghost use Rattle.price_settle.specs.Earned.{surplus_at};

use crate::earned::earnings_of_unit_in_plan;
use plain_lists::lists::Numbers;
use plan_check::totals::required_and_given_reserve;
use std::alloc::{AllocError, Global};
use uc_model::cases::{Case, Plan};
use uc_model::laws::{
    earnings_are_within, feasible_plans_have_shape, unit_numbers_go_by_kind, units_are_within,
};
use uc_model::money::worth_at_price;
use uc_model::units::Prices;

/// What the units of a case earn in a plan and are paid beside the prices, in money. A list has one
/// number for each thermal unit, renewable unit and bid, in the order of the units' numbers.
pub struct Settlement {
    /// What each schedule of the plan earns at the prices.
    pub scheduled: Numbers,
    /// What each unit's best schedules earn at the prices less that.
    pub payments: Numbers,
    /// What the reserve above the requirement is worth at the reserve prices.
    pub surplus: i128,
    /// The sum of the payments.
    pub total: i128,
}

// By hand, so that dropping it is one call.
impl Drop for Settlement {
    fn drop(self) {
        let Settlement {
            scheduled: _,
            payments: _,
            surplus: _,
            total: _,
        } = self;
    }
}

impl Settlement {
    ghost use Rattle.std.specs.Prelude.{IfOk, replicate};

    /// Zeros, with lists of one number for each of so many units.
    pub fn make(alloc: Global, units: u32) -> Result<Settlement, AllocError>
        ensures scheduled { IfOk result (λ s. s.scheduled.items ≡ replicate units (pos 0)) }
        ensures payments { IfOk result (λ s. s.payments.items ≡ replicate units (pos 0)) }
        ensures surplus { IfOk result (λ s. s.surplus ≡ pos 0) }
        ensures total { IfOk result (λ s. s.total ≡ pos 0) }
    {
        let scheduled = Numbers::filled(alloc, units, 0)?;
        let payments = Numbers::filled(alloc, units, 0)?;
        Ok(Settlement {
            scheduled,
            payments,
            surplus: 0,
            total: 0,
        })
    }
}

// The reserve above the requirement at an index, in kilowatts; below 0 where it lacks.
fn surplus_reserve_at(case: &Case, plan: &Plan, index: usize) -> i64
    requires feasible { IsFeasiblePlan (market_of case.now) (schedules_of plan.now) }
    requires index { index < (market_of case.now).periods }
    ensures value { result ≡ surplus_at (market_of case.now) (schedules_of plan.now) index }
    ensures limit { IsFrom (neg_ℤ (pos 200000000000000)) (pos 200000000000000) result }
{
    feasible_plans_have_shape();
    let reserves = required_and_given_reserve(case, plan, index);
    reserves.given - reserves.required
}

// What the surplus reserve of all periods is worth.
fn worth_of_surplus(case: &Case, plan: &Plan, prices: &Prices) -> i128
    requires feasible { IsFeasiblePlan (market_of case.now) (schedules_of plan.now) }
    requires horizon { length (prices_of prices.now).energy ≡ (market_of case.now).periods }
    ensures { result ≡ surplus_value (market_of case.now) (schedules_of plan.now)
        (prices_of prices.now) }
{
    let mut sum = 0;
    for index in 0..case.periods as usize {
        let price = *prices.reserve.get(index);
        sum += worth_at_price(price, surplus_reserve_at(case, plan, index));
    }
    sum
}

// What the best schedules of the unit of a number earn.
fn best_earnings_of(earned: &[i64], number: usize) -> i64
    requires { number < length earned.now }
    ensures { slice_get earned.now number ≡ Some result }
{
    earned[number]
}

// What a unit is paid beside the prices: what it earns at best, less what it earns in the plan.
fn payment_of(best: i64, scheduled: i64) -> i64
    requires best { IsEarned best }
    requires scheduled { IsEarned scheduled }
    ensures value { result ≡ best -ℤ scheduled }
    ensures limit { IsFrom (neg_ℤ (pos 7000000000000000000)) (pos 7000000000000000000) result }
{
    best - scheduled
}

// Adds the unit whose schedule in the plan earns `scheduled`, and is paid so much beside the
// prices.
fn add_unit(into: &mut Settlement, scheduled: i64, payment: i64)
    requires scheduled_room { 1 ≤ into.old.scheduled.spare }
    requires payments_room { 1 ≤ into.old.payments.spare }
    requires payment { IsFrom (neg_ℤ (pos 7000000000000000000)) (pos 7000000000000000000) payment }
    requires total { IsWorth into.old.total }
    ensures scheduled { into.new.scheduled.items ≡ into.old.scheduled.items ++ scheduled ∷ [] }
    ensures payments { into.new.payments.items ≡ into.old.payments.items ++ payment ∷ [] }
    ensures total { into.new.total ≡ into.old.total +ℤ payment }
    ensures scheduled_spare { into.new.scheduled.spare + 1 ≡ into.old.scheduled.spare }
    ensures payments_spare { into.new.payments.spare + 1 ≡ into.old.payments.spare }
{
    into.scheduled.push(scheduled);
    into.payments.push(payment);
    into.total += i128::from(payment);
}

/// Leaves in `into` what each unit's schedule in a feasible plan earns at the prices, its payment,
/// the worth of the surplus reserve, and the sum of the payments, all in money. `earned` has what
/// the best schedules of each unit earn at the prices, in the order of the units' numbers. The
/// prices are over the periods of the case, and the lists of `into` have one number for each unit.
/// Takes no memory.
pub fn settle(case: &Case, plan: &Plan, prices: &Prices, earned: &[i64], into: &mut Settlement)
    requires feasible { IsFeasiblePlan (market_of case.now) (schedules_of plan.now) }
    requires horizon { length (prices_of prices.now).energy ≡ (market_of case.now).periods }
    requires best { AllZip (λ (u : AnyUnit) (e : ℤ). IsTop u (prices_of prices.now) e)
        (units (market_of case.now)) earned.now }
    requires scheduled { length into.old.scheduled.items ≡ unit_count (market_of case.now) }
    requires payments { length into.old.payments.items ≡ unit_count (market_of case.now) }
    ensures settled { IsSettled (market_of case.now) (schedules_of plan.now) (prices_of prices.now)
        into.new.scheduled.items into.new.payments.items into.new.surplus into.new.total }
    ensures scheduled_room { into.new.scheduled.spare ≡ into.old.scheduled.spare }
    ensures payments_room { into.new.payments.spare ≡ into.old.payments.spare }
{
    unit_numbers_go_by_kind();
    units_are_within();
    earnings_are_within();
    feasible_plans_have_shape();
    into.scheduled.clear();
    into.payments.clear();
    into.total = 0;
    for number in 0..earned.len() {
        let scheduled = earnings_of_unit_in_plan(case, plan, prices, number);
        let payment = payment_of(best_earnings_of(earned, number), scheduled);
        add_unit(into, scheduled, payment);
    }
    into.surplus = worth_of_surplus(case, plan, prices);
}
