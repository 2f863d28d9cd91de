//! The proposals in their order.
ghost use Rattle.std.specs.Prelude.{◌≡◌, pos, neg_ℤ, ◌+ℤ◌, ◌+◌, ◌<◌, ◌≤◌, length, map};
ghost use Rattle.std.specs.Prelude.{take, replicate, IfOk, slice_index_or, slice_set};
ghost use Rattle.std.specs.List.{All};
ghost use Rattle.uc_model.specs.Limits.{IsTotal};
ghost use Rattle.price_space.specs.Firsts.{IsFirstUpTo};
ghost use Rattle.price_space.specs.Moves.{values_of};
ghost use Rattle.plain_lists.specs.Ranges.{IsFrom};
ghost use Rattle.uc_model.specs.PlainCases.{proposal_of, task_unit};
ghost use Rattle.uc_model.specs.PlainUnits.{prices_of, schedule_of};
ghost use Rattle.uc_model.specs.PriceRule.{Proposal};
ghost use Rattle.uc_model.specs.Schedules.{IsFeasible};
ghost use Rattle.plain_lists.specs.Sums.{int_at};
ghost use Rattle.uc_model.specs.declared.limits.TheConstants.{MOST_PERIODS};
ghost use Rattle.board_core.specs.Ledgers.{blank, with_prices, with_value, with_schedule};

use board_store::tasks::copy_prices;
use plain_lists::lists::Amounts;
use price_space::{add_response, row_of_greatest_dual_value_up_to, take_bid};
use std::alloc::{AllocError, Global};
use std::marker::Model;
use uc_model::cases::{Row, Task};
use uc_model::units::{Answered, Prices, UnitKind};

/// All proposals of a board: the first so many are closed, and the first so many are open.
pub struct Ledger {
    proposals: Vec<Row>,
    // what the answers of each earn
    earned: Vec<i128>,
    closed: usize,
    opened: usize,
    // the place of the first of the closed ones with the greatest value, where some are
    best: usize,
}

impl Model for Ledger {
    ghost use Rattle.std.specs.Prelude.{map, ◌<◌};
    ghost use Rattle.price_space.specs.Firsts.{IsFirstUpTo};
    ghost use Rattle.price_space.specs.Moves.{values_of};
    ghost use Rattle.uc_model.specs.PlainCases.{proposal_of};
    ghost use Rattle.board_core.specs.Ledgers.{LedgerValue};

    ghost Value = { LedgerValue };

    ghost view = { λ l. record {
      proposals = map proposal_of l.proposals.items;
      earned =
          l.earned.items;
      closed = l.closed;
      opened = l.opened;
    } };

    ghost invariant = { λ l. 0 < l.closed
        → IsFirstUpTo (values_of (map proposal_of l.proposals.items)) l.closed l.best };
}

// By hand, so that dropping it is one call.
impl Drop for Ledger {
    fn drop(self) {
        let Ledger {
            proposals: _,
            earned: _,
            closed: _,
            opened: _,
            best: _,
        } = self;
    }
}

fn make_blank_proposal_row(alloc: Global, periods: u32) -> Result<Row, AllocError>
    requires some { 1 ≤ periods }
    requires limit { periods ≤ MOST_PERIODS }
    ensures { IfOk result (λ row. proposal_of row ≡ blank periods) }
{
    let prices = Prices::make(alloc, periods)?;
    let supply = Amounts::filled(alloc, periods, 0)?;
    let reserve = Amounts::filled(alloc, periods, 0)?;
    Ok(Row {
        prices,
        value: 0,
        supply,
        reserve,
    })
}

fn make_blank_proposal_rows(alloc: Global, periods: u32, count: u32) -> Result<Vec<Row>, AllocError>
    requires some { 1 ≤ periods }
    requires limit { periods ≤ MOST_PERIODS }
    ensures { IfOk result (λ rows. map proposal_of rows.items ≡ replicate count (blank periods)) }
{
    let mut rows = Vec::with_capacity(alloc, count as usize)?;
    for _ in 0..count {
        let row = make_blank_proposal_row(alloc, periods)?;
        rows.push_reserved(row);
    }
    Ok(rows)
}

fn set_prices_of_row(row: &mut Row, prices: &Prices)
    requires { length (prices_of prices.now).energy ≡ length (proposal_of row.old).prices.energy }
    ensures { proposal_of row.new ≡ with_prices (proposal_of row.old) (prices_of prices.now) }
{
    copy_prices(prices, &mut row.prices);
}

fn set_dual_value_of_row(row: &mut Row, value: i128)
    ensures { proposal_of row.new ≡ with_value (proposal_of row.old) value }
{
    row.value = value;
}

fn add_answer(row: &mut Row, task: &Task, answer: &Answered)
    requires horizon { length (schedule_of answer.now.response).on
        ≡ length (proposal_of row.old).prices.energy }
    requires feasible { IsFeasible (task_unit task.now)
        (length (schedule_of answer.now.response).on) (schedule_of answer.now.response) }
    requires supply { All IsTotal (proposal_of row.old).supply }
    requires reserve { All IsTotal (proposal_of row.old).reserve }
    ensures { proposal_of row.new ≡ with_schedule (proposal_of row.old) (task_unit task.now)
        (schedule_of answer.now.response) }
{
    match task.kind {
        UnitKind::Thermal => add_response(row, &answer.response),
        UnitKind::Flat => add_response(row, &answer.response),
        UnitKind::Bid => take_bid(row, &answer.response),
    }
}

// What is earned with one more answer.
fn earned_with_answer(total: i128, earned: i64) -> i128
    requires { IsFrom (neg_ℤ (pos 100000000000000000000000)) (pos 100000000000000000000000) total }
    ensures { result ≡ total +ℤ earned }
{
    total + i128::from(earned)
}

fn make_zero_earnings_totals(alloc: Global, count: usize) -> Result<Vec<i128>, AllocError>
    ensures { IfOk result (λ v. v.items ≡ replicate count (pos 0)) }
{
    vec![in alloc; 0; count]
}

impl Ledger {
    /// As many blank proposals as there may be, none of them open.
    pub fn make(alloc: Global, periods: u32, budget: u32) -> Result<Ledger, AllocError>
        requires some { 1 ≤ periods }
        requires limit { periods ≤ MOST_PERIODS }
        ensures proposals { IfOk result (λ l. l.proposals ≡ replicate budget (blank periods)) }
        ensures earned { IfOk result (λ l. l.earned ≡ replicate budget (pos 0)) }
        ensures closed { IfOk result (λ l. l.closed ≡ 0) }
        ensures opened { IfOk result (λ l. l.opened ≡ 0) }
    {
        let proposals = make_blank_proposal_rows(alloc, periods, budget)?;
        let earned = make_zero_earnings_totals(alloc, budget as usize)?;
        Ok(Ledger {
            proposals,
            earned,
            closed: 0,
            opened: 0,
            best: 0,
        })
    }

    /// How many proposals from the first on are closed and have their value.
    pub fn closed(&self) -> usize
        ensures { result ≡ self.now.closed }
    {
        self.closed
    }

    /// How many proposals are open.
    pub fn opened(&self) -> usize
        ensures { result ≡ self.now.opened }
    {
        self.opened
    }

    /// The rows of the closed proposals.
    pub fn rows(&self) -> &[Row]
        requires { self.now.closed ≤ length self.now.proposals }
        ensures { map proposal_of result.now ≡ take self.now.closed self.now.proposals }
    {
        &self.proposals[..self.closed]
    }

    /// The place of the first closed proposal with the greatest value.
    pub fn best(&self) -> usize
        requires some { 1 ≤ self.now.closed }
        requires within { self.now.closed ≤ length self.now.proposals }
        ensures { IsFirstUpTo (values_of (take self.now.closed self.now.proposals)) self.now.closed
            result }
    {
        self.best
    }

    /// The prices of the proposal at a place, which counts from 0.
    pub fn prices(&self, place: usize) -> &Prices
        requires { place < length self.now.proposals }
        ensures { (d : Proposal) → prices_of result.now
            ≡ (slice_index_or self.now.proposals place d).prices }
    {
        &self.proposals[place].prices
    }

    /// What the answers of the proposal at a place earn.
    pub fn earned(&self, place: usize) -> i128
        requires { place < length self.now.earned }
        ensures { result ≡ int_at self.now.earned place }
    {
        self.earned[place]
    }

    /// Opens the next proposal at prices.
    pub fn open(&mut self, prices: &Prices)
        requires place { self.old.opened < length self.old.proposals }
        requires horizon { (d : Proposal)
            → length (prices_of prices.now).energy
            ≡ length (slice_index_or self.old.proposals self.old.opened d).prices.energy }
        ensures proposals { (d : Proposal)
            → self.new.proposals ≡ slice_set self.old.proposals self.old.opened
            (with_prices (slice_index_or self.old.proposals self.old.opened d)
            (prices_of prices.now)) }
        ensures earned { self.new.earned ≡ self.old.earned }
        ensures closed { self.new.closed ≡ self.old.closed }
        ensures opened { self.new.opened ≡ self.old.opened + 1 }
    {
        set_prices_of_row(&mut self.proposals[self.opened], prices);
        self.opened += 1;
    }

    /// Closes the next proposal with its value.
    pub fn close(&mut self, value: i128)
        requires { self.old.closed < length self.old.proposals }
        ensures proposals { (d : Proposal)
            → self.new.proposals ≡ slice_set self.old.proposals self.old.closed
            (with_value (slice_index_or self.old.proposals self.old.closed d) value) }
        ensures earned { self.new.earned ≡ self.old.earned }
        ensures closed { self.new.closed ≡ self.old.closed + 1 }
        ensures opened { self.new.opened ≡ self.old.opened }
    {
        set_dual_value_of_row(&mut self.proposals[self.closed], value);
        let best = row_of_greatest_dual_value_up_to(&self.proposals, self.closed, self.best);
        self.best = best;
        self.closed += 1;
    }

    /// Counts the answer of a task into the proposal at a place.
    pub fn add(&mut self, place: usize, task: &Task, answer: &Answered)
        requires place { place < length self.old.proposals }
        requires earned_place { place < length self.old.earned }
        requires horizon { (d : Proposal)
            → length (schedule_of answer.now.response).on
            ≡ length (slice_index_or self.old.proposals place d).prices.energy }
        requires feasible { IsFeasible (task_unit task.now)
            (length (schedule_of answer.now.response).on) (schedule_of answer.now.response) }
        requires supply { (d : Proposal)
            → All IsTotal (slice_index_or self.old.proposals place d).supply }
        requires reserve { (d : Proposal)
            → All IsTotal (slice_index_or self.old.proposals place d).reserve }
        requires earned { IsFrom (neg_ℤ (pos 100000000000000000000000))
            (pos 100000000000000000000000) (int_at self.old.earned place) }
        ensures proposals { (d : Proposal)
            → self.new.proposals ≡ slice_set self.old.proposals place
            (with_schedule (slice_index_or self.old.proposals place d) (task_unit task.now)
            (schedule_of answer.now.response)) }
        ensures earned { self.new.earned ≡ slice_set self.old.earned place
            (int_at self.old.earned place +ℤ answer.now.earned) }
        ensures closed { self.new.closed ≡ self.old.closed }
        ensures opened { self.new.opened ≡ self.old.opened }
    {
        add_answer(&mut self.proposals[place], task, answer);
        self.earned[place] = earned_with_answer(self.earned[place], answer.earned);
    }
}
