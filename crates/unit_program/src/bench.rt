//! What answers need, taken once: with a bench an answer takes no memory.
ghost use Rattle.std.specs.Prelude.{◌≡◌, ℕ, ◌≤◌, ℤ, pos, neg_ℤ, ◌+ℤ◌, ◌≤ℤ◌, length, IfOk, IfSome};
ghost use Rattle.std.specs.Prelude.{IfNone, Some};
ghost use Rattle.plain_lists.specs.Ranges.{IsFrom};
ghost use Rattle.uc_model.specs.PlainUnits.{thermal_of, prices_of};
ghost use Rattle.unit_program.specs.Benches.{IsBenchFor, HasWayFrom};
ghost use Rattle.unit_table.specs.Limits.{IsFilledWithin, EachCostsMore};
ghost use Rattle.unit_table.specs.Live.{left_at, AreTraces, HaveRoom};
ghost use Rattle.unit_rows.specs.Rows.{cost_at, first_at};
ghost use Rattle.unit_table.specs.RunningSpells.{CanBacktrack};

use crate::backtrack::{Backtracks, write_best_response};
use crate::kept::{Kept, NO_BOUND};
use crate::last::LastAnswers;
use crate::least_end::least_cost_end_of_horizon;
use cost_curve::curves::curve_into;
use plain_lists::lists::Numbers;
use slope_list::Slopes;
use spell_run::Trace;
use std::alloc::{AllocError, Global};
use uc_model::laws::earnings_are_within;
use uc_model::units::{Answered, Blocks, Curve, Prices, Unit};
use unit_rows::limits::write_cost_limits_by_period;
use unit_rows::origins::Origins;
use unit_rows::table::{Entry, Table};
use unit_table::laws::rows_within_cost_limits_are_kept;
use unit_table::periods::fill_table;
use unit_table::question::Question;
use unit_table::roster::Roster;
use unit_table::running_spell::RunningSpell;
use unit_table::shared::Shared;

/// Memory for the answers of units over so many periods, with so many cost points. What it holds
/// between two calls is open.
pub struct Bench {
    curve: Curve,
    // The spells that go forward together.
    spells: Vec<RunningSpell>,
    // What they write to by turns.
    shared: Shared,
    // The ends that the next start may follow.
    origins: Origins,
    // Which spells go forward.
    roster: Roster,
    table: Table,
    // What all up to a period may cost.
    limits: Numbers,
    // Room for the last answer of the unit at hand.
    kept: Kept,
}

// By hand, so that dropping it is one call.
impl Drop for Bench {
    fn drop(self) {
        let Bench {
            curve: _,
            spells: _,
            shared: _,
            origins: _,
            roster: _,
            table: _,
            limits: _,
            kept: _,
        } = self;
    }
}

// So many running spells, none of them on, each with room for so many pieces.
fn make_running_spells(
    alloc: Global,
    count: u32,
    pieces: usize,
) -> Result<Vec<RunningSpell>, AllocError>
    ensures count { IfOk result (λ v. length v.items ≡ count) }
    ensures room { IfOk result (λ v. HaveRoom pieces v.items) }
{
    let mut spells = Vec::with_capacity(alloc, count as usize)?;
    for _ in 0..count {
        let running = Slopes::make(alloc, pieces)?;
        let spell = RunningSpell {
            is_on: false,
            cost: 0,
            before: 0,
            running,
            trace: Trace::none(),
        };
        spells.push_reserved(spell);
    }
    Ok(spells)
}

// Fills a bench's curve, its limits and its table.
fn fill_least_cost_table_for_prices(bench: &mut Bench, unit: &Unit, prices: &Prices, most: i64)
    requires horizon { length (thermal_of unit.now).window ≡ length (prices_of prices.now).energy }
    requires most { IsFrom (neg_ℤ (pos 4000000000000000000)) (pos 4000000000000000000) most }
    requires bench { IsBenchFor (length (prices_of prices.now).energy)
        (length (thermal_of unit.now).points) bench.old }
    ensures filled { IsFilledWithin (thermal_of unit.now) (prices_of prices.now) most
        bench.new.table.items }
    ensures backtracks { CanBacktrack (thermal_of unit.now) (prices_of prices.now)
        (length (prices_of prices.now).energy) (cost_at bench.new.table.items)
        (first_at bench.new.table.items)
        (left_at bench.new.shared.log.items bench.new.spells.items) }
    ensures traces { AreTraces bench.new.shared.log.items bench.new.spells.items }
    ensures bench { (periods points : ℕ) → IsBenchFor periods points bench.old
        → IsBenchFor periods points bench.new }
{
    curve_into(unit.points.as_slice(), &mut bench.curve);
    write_cost_limits_by_period(unit, prices, most, &mut bench.limits);
    let question = Question {
        unit,
        curve: &bench.curve,
        prices,
        limits: &bench.limits,
    };
    fill_table(
        &question,
        &mut bench.origins,
        &mut bench.roster,
        bench.spells.as_mut_slice(),
        &mut bench.table,
        &mut bench.shared,
    );
}

// An end, if it costs at most an amount.
fn end_if_cost_at_most(end: Option<Entry>, most: i64) -> Option<Entry>
    ensures some { IfSome result (λ e. (end ≡ Some e) × (e.cost ≤ℤ most)) }
    ensures none { IfNone result ((e : Entry) → end ≡ Some e → (most +ℤ pos 1) ≤ℤ e.cost) }
{
    match end {
        Some(entry) => {
            if entry.cost <= most {
                Some(entry)
            } else {
                None
            }
        }
        None => None,
    }
}

// Fills a bench as far as some amount asks, and answers the least end, if it costs at most that.
fn find_least_cost_end_within(
    bench: &mut Bench,
    unit: &Unit,
    prices: &Prices,
    most: i64,
) -> Option<Entry>
    requires horizon { length (thermal_of unit.now).window ≡ length (prices_of prices.now).energy }
    requires most { IsFrom (neg_ℤ (pos 4000000000000000000)) (pos 4000000000000000000) most }
    requires bench { IsBenchFor (length (prices_of prices.now).energy)
        (length (thermal_of unit.now).points) bench.old }
    ensures some { IfSome result (λ e. HasWayFrom (thermal_of unit.now) (prices_of prices.now) e
        bench.new) }
    ensures none { IfNone result (EachCostsMore (thermal_of unit.now) (prices_of prices.now) most) }
    ensures bench { (periods points : ℕ) → IsBenchFor periods points bench.old
        → IsBenchFor periods points bench.new }
{
    rows_within_cost_limits_are_kept();
    fill_least_cost_table_for_prices(bench, unit, prices, most);
    let periods = prices.energy.len() as u32;
    end_if_cost_at_most(
        least_cost_end_of_horizon(unit, periods, bench.table.as_slice()),
        most,
    )
}

impl Bench {
    ghost use Rattle.uc_model.specs.Data.{Schedule, Thermal};
    ghost use Rattle.uc_model.specs.Earnings.{earnings, IsBest};
    ghost use Rattle.uc_model.specs.PlainUnits.{schedule_of};
    ghost use Rattle.uc_model.specs.Schedules.{IsThermalFeasible};
    ghost use Rattle.uc_model.specs.Ties.{IsLeast};
    ghost use Rattle.uc_model.specs.declared.limits.TheConstants.{MOST_PERIODS, MOST_POINTS};

    /// A bench for so many periods and cost points.
    ///
    /// # Errors
    ///
    /// `AllocError` if memory runs out.
    pub fn make(alloc: Global, periods: u32, points: u32) -> Result<Bench, AllocError>
        requires periods { periods ≤ MOST_PERIODS }
        requires points { points ≤ MOST_POINTS }
        ensures { IfOk result (IsBenchFor periods points) }
    {
        let pieces = periods * (2 * points + 3);
        let rows = periods + 1;
        let table = Table::filled(alloc, rows, None)?;
        let limits = Numbers::filled(alloc, rows, 0)?;
        let origins = Origins::make(alloc, periods)?;
        let roster = Roster::make(alloc, periods)?;
        let blocks = Blocks::make(alloc, 2 * points)?;
        let kept = Kept::make(alloc, periods)?;
        let shared = Shared::make(alloc, periods, pieces as usize)?;
        // The running spells come last, so that no early return has to drop them.
        let spells = make_running_spells(alloc, rows, pieces as usize)?;
        Ok(Bench {
            curve: Curve {
                at: 0,
                value: 0,
                blocks,
            },
            spells,
            shared,
            origins,
            roster,
            table,
            limits,
            kept,
        })
    }

    /// Takes the last answer of the unit of a number, if it can be had, and forgets that of any
    /// other unit. An answer is found sooner from the last one of its unit, and is the same
    /// whatever that is.
    pub fn recall_last_answer_of_unit(&mut self, last: &LastAnswers, number: u32)
        ensures bench { (periods points : ℕ) → IsBenchFor periods points self.old
            → IsBenchFor periods points self.new }
    {
        self.kept.forget_kept_answer();
        last.swap_last_answer_of_unit(number, &mut self.kept);
    }

    /// Fills the bench for a unit at prices over its horizon, and answers the least end: within
    /// what is guessed by the last answer, or else within what any schedule may cost. None where no
    /// schedule is feasible. Takes no memory.
    pub fn find_least_cost_end(&mut self, unit: &Unit, prices: &Prices) -> Option<Entry>
        requires horizon { length (thermal_of unit.now).window
            ≡ length (prices_of prices.now).energy }
        requires bench { IsBenchFor (length (prices_of prices.now).energy)
            (length (thermal_of unit.now).points) self.old }
        ensures some { IfSome result (λ e. HasWayFrom (thermal_of unit.now) (prices_of prices.now)
            e self.new) }
        ensures none { IfNone result ((s : Schedule)
            → IsThermalFeasible (thermal_of unit.now) (length (prices_of prices.now).energy) s
            → ⊥) }
        ensures bench { (periods points : ℕ) → IsBenchFor periods points self.old
            → IsBenchFor periods points self.new }
    {
        earnings_are_within();
        let guess = self.kept.guess(prices);
        if let Some(end) = find_least_cost_end_within(self, unit, prices, guess) {
            return Some(end);
        }
        find_least_cost_end_within(self, unit, prices, NO_BOUND)
    }

    /// Leaves in `into` the least best response, by backtracking from its end, and what it earns.
    /// Unit, prices and `into` are over the same periods. Takes no memory.
    pub fn write_best_response_from_table(
        &self,
        unit: &Unit,
        prices: &Prices,
        end: &Entry,
        into: &mut Answered,
    )
        requires way { HasWayFrom (thermal_of unit.now) (prices_of prices.now) end.now self.now }
        requires into { length (schedule_of into.old.response).on
            ≡ length (prices_of prices.now).energy }
        ensures best { IsBest (Thermal (thermal_of unit.now)) (prices_of prices.now)
            (schedule_of into.new.response) }
        ensures least { IsLeast (Thermal (thermal_of unit.now)) (prices_of prices.now)
            (schedule_of into.new.response) }
        ensures earned { into.new.earned ≡ earnings (Thermal (thermal_of unit.now))
            (prices_of prices.now) (schedule_of into.new.response) }
    {
        let spells = self.spells.as_slice();
        let log = self.shared.log.as_slice();
        let backtracks = Backtracks { spells, log };
        write_best_response(unit, prices, self.table.as_slice(), backtracks, end, into);
    }

    /// Keeps the answer to prices of the unit of a number for the next time, if it can.
    pub fn keep(&mut self, last: &LastAnswers, number: u32, prices: &Prices, answered: &Answered)
        ensures bench { (periods points : ℕ) → IsBenchFor periods points self.old
            → IsBenchFor periods points self.new }
    {
        self.kept.keep(prices, answered);
        last.swap_last_answer_of_unit(number, &mut self.kept);
    }
}
