//! The memory of a settlement, which is taken before the first answer.
ghost use Rattle.std.specs.Prelude.{IfOk};
ghost use Rattle.uc_model.specs.Data.{unit_count};
ghost use Rattle.uc_model.specs.PlainCases.{market_of};
ghost use Rattle.plan_settle.specs.Rooms.{HasRoom, AreOver};

use plain_lists::lists::{Amounts, Numbers};
use price_settle::Settlement;
use std::alloc::{AllocError, Global};
use uc_model::cases::Case;
use uc_model::units::{Answered, ResponseList};
use unit_program::LastAnswers;

/// What answers are written over, one for each unit, and no last answers to begin with.
#[derive(Drop)]
pub struct Spare {
    pub answers: Vec<Answered>,
    pub last: LastAnswers,
}

/// Room for an answer of each unit, for what each earns, for totals over the periods, and for the
/// settlement.
#[derive(Drop)]
pub struct Room {
    /// The answers, one for each unit, over the periods.
    pub spare: Spare,
    /// Room for a response of each unit.
    pub responses: ResponseList,
    /// Room for what each unit earns.
    pub earned: Numbers,
    /// A total for each period.
    pub supply: Amounts,
    /// A total for each period.
    pub reserve: Amounts,
    /// Room for the payments.
    pub settlement: Settlement,
}

/// So many answers over so many periods, to be written over.
fn make_answer_buffers(alloc: Global, count: u32, periods: u32) -> Result<Vec<Answered>, AllocError>
    ensures { IfOk result (λ answers. AreOver periods count answers.items) }
{
    let mut answers = Vec::with_capacity(alloc, count as usize)?;
    for _ in 0..count {
        answers.push(Answered::make(alloc, periods)?)?;
    }
    Ok(answers)
}

impl Room {
    /// Room for a settlement of the units of a case.
    pub fn make(alloc: Global, case: &Case) -> Result<Room, AllocError>
        ensures { IfOk result (HasRoom (market_of case.now)) }
    {
        let units = case.unit_count();
        let responses = ResponseList::make(alloc, units)?;
        let earned = Numbers::make(alloc, units)?;
        let supply = Amounts::make(alloc, case.periods)?;
        let reserve = Amounts::make(alloc, case.periods)?;
        let settlement = Settlement::make(alloc, units)?;
        let spare = Spare {
            answers: make_answer_buffers(alloc, units, case.periods)?,
            last: LastAnswers::none(alloc),
        };
        Ok(Room {
            spare,
            responses,
            earned,
            supply,
            reserve,
            settlement,
        })
    }
}
