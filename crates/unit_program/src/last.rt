//! What units answered last, whoever found it.
use crate::kept::Kept;
use std::alloc::{AllocError, Global};
use std::mem::swap;
use std::sync::Mutex;

/// The last answers of thermal units, by their numbers from 0. The next answer of a unit is found
/// sooner from its last one, and is the same whatever stands here. One list serves all benches:
/// with a list of its own, each would know only what was answered on it, which may be long ago.
#[derive(Drop)]
pub struct LastAnswers {
    units: Vec<Mutex<Kept>>,
}

impl LastAnswers {
    /// No answers yet, with room for those of so many units over so many periods.
    ///
    /// # Errors
    ///
    /// `AllocError` if memory runs out.
    pub fn make(alloc: Global, units: u32, periods: u32) -> Result<LastAnswers, AllocError> {
        let mut last = Vec::with_capacity(alloc, units as usize)?;
        for _ in 0..units {
            let kept = Kept::make(alloc, periods)?;
            last.push_reserved(Mutex::new(kept));
        }
        Ok(LastAnswers { units: last })
    }

    /// Room for no answer, so that none is kept. Takes no memory.
    pub fn none(alloc: Global) -> LastAnswers {
        LastAnswers {
            units: Vec::new(alloc),
        }
    }

    /// Of how many units it has room for the answers.
    pub fn unit_count(&self) -> usize {
        self.units.len()
    }

    /// Swaps the last answer of the unit of a number with what is in a room. Does nothing where the
    /// number has no place, or another thread is about it just now: it waits for nobody.
    pub(crate) fn swap_last_answer_of_unit(&self, number: u32, room: &mut Kept) {
        let Some(unit) = self.units.get(number as usize) else {
            return;
        };
        if let Some(mut kept) = unit.try_lock() {
            swap(&mut *kept, room);
        }
    }
}
