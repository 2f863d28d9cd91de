//! The memory of a comparison.

use plain_lists::lists::Numbers;
use price_settle::Settlement;
use std::alloc::{AllocError, Global};
use std::sync::Arc;
use uc_model::cases::Case;
use uc_model::units::Answered;
use unit_program::{Bench, LastAnswers};

/// What a comparison writes to: a bench on which units are answered, begun with their last answers,
/// their answers one after another, and the money of all units at the chosen prices.
pub struct CompareRoom {
    /// Where thermal units are answered.
    pub bench: Bench,
    /// What they answered last.
    pub last: Arc<LastAnswers, Global>,
    /// The answer of one unit.
    pub answer: Answered,
    /// What each unit earns at best, in money.
    pub earned: Numbers,
    /// What each unit earns in the schedule and is owed.
    pub settlement: Settlement,
}

// By hand, so that dropping it is one call.
impl Drop for CompareRoom {
    fn drop(self) {
        let CompareRoom {
            bench: _,
            last: _,
            answer: _,
            earned: _,
            settlement: _,
        } = self;
    }
}

impl CompareRoom {
    ghost use Rattle.std.specs.Prelude.{IfOk};
    ghost use Rattle.uc_model.specs.PlainCases.{market_of};
    ghost use Rattle.unit_program.specs.Tops.{IsBenchOver};
    ghost use Rattle.report_compare.specs.Desks.{IsDeskFor};

    /// A compare_room for the case, with a bench that suffices for each of its thermal units.
    pub fn make(
        alloc: Global,
        case: &Case,
        bench: Bench,
        last: Arc<LastAnswers, Global>,
    ) -> Result<CompareRoom, AllocError>
        requires { IsBenchOver (market_of case.now) bench }
        ensures { IfOk result (λ compare_room. IsDeskFor (market_of case.now) compare_room) }
    {
        let units = case.unit_count();
        let answer = Answered::make(alloc, case.periods)?;
        let earned = Numbers::make(alloc, units)?;
        let settlement = Settlement::make(alloc, units)?;
        Ok(CompareRoom {
            bench,
            last,
            answer,
            earned,
            settlement,
        })
    }
}
