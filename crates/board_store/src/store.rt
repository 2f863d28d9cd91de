//! The answers.
ghost use Rattle.std.specs.Prelude.{◌≡◌, ◌+◌, ◌*◌, ◌<◌, ◌≤◌, length, IfOk, replicate, pos};
ghost use Rattle.std.specs.Prelude.{slice_index_or, slice_set};
ghost use Rattle.uc_model.specs.PlainUnits.{schedule_of};
ghost use Rattle.plain_lists.specs.declared.limits.TheConstants.{MOST_TASKS, MOST_WORK};
ghost use Rattle.board_store.specs.Answers.{answer_of};
ghost use Rattle.board_store.specs.Board.{no_answer};

use crate::table::Table;
use std::alloc::{AllocError, Global};
use std::marker::Model;
use uc_model::units::Answered;

/// So many answers over so many periods, each what a unit does and what that earns. Contracts see
/// it as their list, with how many more answers may be put: as many as there are places, also
/// where some of them are put at one place.
pub struct Store {
    on: Table<bool>,
    power: Table<u32>,
    reserve: Table<u32>,
    earned: Vec<i64>,
}

// By hand, so that dropping it is one call.
impl Drop for Store {
    fn drop(self) {
        let Store {
            on: _,
            power: _,
            reserve: _,
            earned: _,
        } = self;
    }
}

impl Model for Store {
    ghost use Rattle.board_store.specs.Answers.{Answers, AreParts, answers_in, least_left};

    ghost Value = { Answers };

    ghost view = { λ s. record {
      periods = s.on.long;
      left = least_left s.on.left s.power.left s.reserve.left;
      answers =
          answers_in s.on.rows s.power.rows s.reserve.rows s.earned.items;
    } };

    ghost invariant = { λ s. AreParts s.on s.power s.reserve s.earned.items };
}

fn make_zero_earnings(alloc: Global, count: usize) -> Result<Vec<i64>, AllocError>
    ensures { IfOk result (λ v. v.items ≡ replicate count (pos 0)) }
{
    vec![in alloc; 0; count]
}

impl Store {
    /// Room for so many answers over so many periods: at most 200,000,000 answers, and 50,000,000
    /// for answers times periods. All memory that it ever needs is taken here.
    pub fn make(alloc: Global, count: usize, periods: u32) -> Result<Store, AllocError>
        requires few { count ≤ MOST_TASKS }
        requires size { count * periods ≤ MOST_WORK }
        ensures count { IfOk result (λ s. length s.answers ≡ count) }
        ensures periods { IfOk result (λ s. s.periods ≡ periods) }
        ensures left { IfOk result (λ s. s.left ≡ count) }
    {
        let on = Table::make(alloc, count, periods, false)?;
        let power = Table::make(alloc, count, periods, 0)?;
        let reserve = Table::make(alloc, count, periods, 0)?;
        let earned = make_zero_earnings(alloc, count)?;
        Ok(Store {
            on,
            power,
            reserve,
            earned,
        })
    }

    /// Writes the answer at an index. `like` is a place whose answer may well do the same: what is
    /// the same is kept once. Takes no memory.
    pub fn put(&mut self, index: usize, answer: &Answered, like: usize)
        requires index { index < length self.old.answers }
        requires horizon { length (schedule_of answer.now.response).on ≡ self.old.periods }
        requires like { like < length self.old.answers }
        requires left { 1 ≤ self.old.left }
        ensures periods { self.new.periods ≡ self.old.periods }
        ensures left { self.old.left ≤ self.new.left + 1 }
        ensures answers { self.new.answers ≡ slice_set self.old.answers index (answer_of answer.now) }
    {
        let response = &answer.response;
        self.on.put(index, response.on.as_slice(), like);
        self.power.put(index, response.power.as_slice(), like);
        self.reserve.put(index, response.reserve.as_slice(), like);
        self.earned[index] = answer.earned;
    }

    /// What the answer at an index earns, in money.
    pub fn earned(&self, index: usize) -> i64
        requires { index < length self.now.answers }
        ensures { result ≡ (slice_index_or self.now.answers index no_answer).earned }
    {
        self.earned[index]
    }

    /// Leaves the answer at an index in another over as many periods, whose lists keep their
    /// lengths. Takes no memory.
    pub fn take(&self, index: usize, into: &mut Answered)
        requires index { index < length self.now.answers }
        requires horizon { length (schedule_of into.old.response).on ≡ self.now.periods }
        ensures answer { answer_of into.new ≡ slice_index_or self.now.answers index no_answer }
        ensures horizon { length (schedule_of into.new.response).on ≡ self.now.periods }
    {
        let response = &mut into.response;
        self.on.take(index, &mut response.on);
        self.power.take(index, &mut response.power);
        self.reserve.take(index, &mut response.reserve);
        into.earned = self.earned[index];
    }
}
