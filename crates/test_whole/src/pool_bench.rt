//! The least best response of a thermal unit by shapes in a pool, run by run: a second opinion on
//! the answers of the program's bench.
ghost use Rattle.std.specs.Prelude.{◌≡◌, ℕ, ◌≤◌, length, IsTrue, IsFalse, IfOk};
ghost use Rattle.uc_model.specs.Data.{Schedule, Thermal};
ghost use Rattle.uc_model.specs.Earnings.{earnings, IsBest};
ghost use Rattle.uc_model.specs.declared.limits.TheConstants.{MOST_PERIODS, MOST_POINTS};
ghost use Rattle.uc_model.specs.PlainUnits.{thermal_of, prices_of, schedule_of};
ghost use Rattle.uc_model.specs.Schedules.{IsThermalFeasible};
ghost use Rattle.uc_model.specs.Ties.{IsLeast};
ghost use Rattle.test_whole.specs.PoolBenches.{IsPoolBenchFor};

use cost_curve::curves::curve_into;
use point_pool::pool::Pool;
use point_pool::pooled::Pooled;
use std::alloc::{AllocError, Global};
use test_units::SpellCosts;
use test_units::answer::write_best;
use test_units::laws::no_end_is_no_schedule;
use test_units::program::fill;
use uc_model::units::{Answered, Blocks, Curve, Prices, Unit};
use unit_program::least_end::least_cost_end_of_horizon;
use unit_rows::table::Table;

/// Memory for answers by shapes in a pool. What its curve, costs and table hold between two calls
/// is open.
#[derive(Drop)]
pub struct PoolBench {
    /// The cells of the shapes.
    pub pool: Pool,
    /// The cost of a power.
    pub curve: Curve,
    /// The costs of the spells of one first period.
    pub costs: SpellCosts,
    /// The table of least costs.
    pub table: Table,
}

impl PoolBench {
    /// A bench for so many periods and cost points.
    pub fn make(alloc: Global, periods: u32, points: u32) -> Result<PoolBench, AllocError>
        requires periods { periods ≤ MOST_PERIODS }
        requires points { points ≤ MOST_POINTS }
        ensures { IfOk result (IsPoolBenchFor periods points) }
    {
        let pool = Pool::make(alloc, (periods + 2) * (1 + periods * (2 * points + 3)))?;
        let blocks = Blocks::make(alloc, 2 * points)?;
        let curve = Curve {
            at: 0,
            value: 0,
            blocks,
        };
        let costs = SpellCosts::make(alloc, periods)?;
        let table = Table::filled(alloc, periods + 1, None)?;
        Ok(PoolBench {
            pool,
            curve,
            costs,
            table,
        })
    }
}

/// The least best response of a thermal unit to prices over its horizon, as `test_units::best_response`
/// answers it: leaves it in `into`, with what it earns, and answers true; or answers false exactly where no
/// schedule of the unit is feasible, and `into` is unchanged. The bench suffices for the prices'
/// periods and the unit's cost points, and for all that it sufficed for afterwards; its pool can
/// give as many cells as before. Takes no memory.
pub fn best_on_bench(
    bench: &mut PoolBench,
    unit: &Unit,
    prices: &Prices,
    into: &mut Answered,
) -> bool
    requires horizon { length (thermal_of unit.now).window ≡ length (prices_of prices.now).energy }
    requires bench { IsPoolBenchFor (length (prices_of prices.now).energy)
        (length (thermal_of unit.now).points) bench.old }
    requires into { length (schedule_of into.old.response).on
        ≡ length (prices_of prices.now).energy }
    ensures best { IsTrue result
        → IsBest (Thermal (thermal_of unit.now)) (prices_of prices.now)
        (schedule_of into.new.response) }
    ensures least { IsTrue result
        → IsLeast (Thermal (thermal_of unit.now)) (prices_of prices.now)
        (schedule_of into.new.response) }
    ensures earned { IsTrue result → into.new.earned
        ≡ earnings (Thermal (thermal_of unit.now)) (prices_of prices.now)
        (schedule_of into.new.response) }
    ensures none { IsFalse result → (s : Schedule)
        → IsThermalFeasible (thermal_of unit.now) (length (prices_of prices.now).energy) s → ⊥ }
    ensures same { IsFalse result → into.new ≡ into.old }
    ensures bench { (periods points : ℕ) → IsPoolBenchFor periods points bench.old
        → IsPoolBenchFor periods points bench.new }
    ensures whole { bench.new.pool.spare ≡ bench.old.pool.spare }
{
    no_end_is_no_schedule();
    curve_into(unit.points.as_slice(), &mut bench.curve);
    let periods = prices.energy.len() as u32;
    let filled = fill::<Pooled>(
        &mut bench.pool,
        unit,
        &bench.curve,
        prices,
        &mut bench.costs,
        &mut bench.table,
    );
    if filled.is_err() {
        return false;
    }
    let Some(end) = least_cost_end_of_horizon(unit, periods, bench.table.as_slice()) else {
        return false;
    };
    let written = write_best::<Pooled>(
        &mut bench.pool,
        unit,
        &bench.curve,
        prices,
        bench.table.as_slice(),
        &end,
        into,
    );
    written.is_ok()
}
