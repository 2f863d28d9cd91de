//! The job of one worker.
ghost use Rattle.std.specs.Prelude.{◌≡◌, ◌+◌, ◌≤◌, length};
ghost use Rattle.uc_model.specs.Data.{unit_count};
ghost use Rattle.uc_model.specs.PlainCases.{market_of};
ghost use Rattle.uc_model.specs.PlainUnits.{prices_of, schedule_of};
ghost use Rattle.unit_program.specs.Tops.{CanAnswer, IsBenchOver};
ghost use Rattle.audit_check.specs.Sums.{AreSumsOf, AreWithin};

use crate::count::{AnswerRoom, answer_unit_and_add_to_sums};
use crate::sums::Sums;
use plain_lists::lists::{ReservedList, copy_list};
use std::alloc::{AllocError, Global};
use std::sync::Arc;
use task_deal::Job;
use uc_model::cases::Case;
use uc_model::units::{Answered, Prices};
use unit_program::case_laws::feasible_units_can_answer;
use unit_program::{Bench, LastAnswers};

/// Answers units of a case by their numbers, all at the same prices, on a bench of its own. It
/// keeps the numbers that it answered since the proposal began, and the sums of their answers.
#[derive(Drop)]
pub struct Answerer<'a> {
    /// The case.
    pub case: &'a Case,
    /// Where units are answered.
    pub means: AnswerRoom,
    /// The prices of the proposal.
    pub prices: Prices,
    /// The numbers that it answered at these prices.
    pub numbers: ReservedList<u32>,
    /// How many more numbers it may get at these prices.
    pub left: u32,
    /// The sums of their answers.
    pub sums: Sums,
    ghost some: { CanAnswer (market_of case.now) },
    ghost over: { IsBenchOver (market_of case.now) means.bench },
    ghost horizon: { length (prices_of prices).energy ≡ (market_of case.now).periods },
    ghost buffer: { length (schedule_of means.answer.response).on ≡ (market_of case.now).periods },
    ghost count: { length numbers.items + left ≡ unit_count (market_of case.now) },
    ghost room: { unit_count (market_of case.now) ≤ length numbers.items + numbers.spare },
    ghost kept: { ∥ AreSumsOf (market_of case.now) (prices_of prices) numbers.items sums ∥₁ },
    ghost within: { AreWithin (market_of case.now).periods (length numbers.items) sums },
}

impl<'a> Answerer<'a> {
    ghost use Rattle.std.specs.Prelude.{[], IfOk};
    ghost use Rattle.unit_program.specs.Tops.{HasSchedules};

    /// A job for a case, each unit and bid of which has a feasible schedule. It takes the bench,
    /// which suffices for each thermal unit, the last answers, which other jobs may share, and room
    /// for as many numbers as there are units.
    ///
    /// # Errors
    ///
    /// `AllocError` if memory runs out; the bench is then dropped.
    pub fn make(
        alloc: Global,
        case: &'a Case,
        bench: Bench,
        last: Arc<LastAnswers, Global>,
    ) -> Result<Answerer<'a>, AllocError>
        requires schedules { HasSchedules (market_of case.now) }
        requires bench { IsBenchOver (market_of case.now) bench }
        ensures { IfOk result (λ job. job.case.now ≡ case.now) }
    {
        feasible_units_can_answer();
        let left = case.unit_count();
        let prices = Prices::make(alloc, case.periods)?;
        let answer = Answered::make(alloc, case.periods)?;
        let numbers = ReservedList::make(alloc, left)?;
        let sums = Sums::make(alloc, case.periods)?;
        Ok(Answerer {
            case,
            means: AnswerRoom {
                bench,
                last,
                answer,
            },
            prices,
            numbers,
            left,
            sums,
        })
    }

    /// Begins a proposal at these prices, which are over the periods of the case: nothing is
    /// answered yet, and there is room for all units. Takes no memory.
    pub fn begin(&mut self, prices: &Prices)
        requires { length (prices_of prices.now).energy ≡ (market_of self.old.case.now).periods }
        ensures case { self.new.case.now ≡ self.old.case.now }
        ensures prices { prices_of self.new.prices ≡ prices_of prices.now }
        ensures numbers { self.new.numbers.items ≡ [] }
        ensures left { self.new.left ≡ unit_count (market_of self.old.case.now) }
    {
        copy_list(&prices.energy, &mut self.prices.energy);
        copy_list(&prices.reserve, &mut self.prices.reserve);
        self.sums.clear();
        self.numbers.clear();
        self.left = self.case.unit_count();
    }
}

impl<'a> Job for Answerer<'a> {
    ghost use Rattle.uc_model.specs.Data.{Market, PriceLists};

    ghost Work = { Market × PriceLists };

    ghost work = { λ job. (market_of job.case.now, prices_of job.prices) };

    ghost runs = { λ job. job.numbers.items };

    ghost spare = { λ job. job.left };

    fn run(&mut self, task: u32) {
        let sums = &mut self.sums;
        answer_unit_and_add_to_sums(&mut self.means, self.case, &self.prices, task, sums);
        self.numbers.push(task);
        self.left -= 1;
    }
}
