//! How many workers a run has, and the processors of the machine.
ghost use Rattle.std.specs.Prelude.{◌≡◌};
ghost use Rattle.board_core.specs.Setups.{IsSetup, setup_of};
ghost use Rattle.hull_input.specs.Sizes.{IsWorkers};
ghost use Rattle.hull_engine.specs.Workers.{IsUseful};

use board_core::Terms;
use plain_lists::limits::MOST_WORKERS;
use std::thread;
use std::thread::Threads;

/// So many workers are never too many, however few processors there are: a gate may let a few tasks
/// wait for one another.
pub const FEW_WORKERS: u32 = 4;

/// How many processors there are, as far as it matters; as many as matter where that isn't known.
fn processor_count<R: Threads>(rt: &R) -> u32 {
    match thread::available_parallelism(rt) {
        Ok(count) => count.get().min(MOST_WORKERS as usize) as u32,
        Err(_) => MOST_WORKERS,
    }
}

/// How many of the workers that are asked for a run has: a few, or as many as there are processors
/// where that is more. Each takes memory that is made before the first begins, and one more than
/// there are processors only waits for the others.
pub fn useful_workers<R: Threads>(rt: &R, asked: u32) -> u32
    requires { IsWorkers asked }
    ensures some { IsWorkers result }
    ensures useful { IsUseful asked result }
{
    if asked <= FEW_WORKERS {
        return asked;
    }
    asked.min(processor_count(rt).max(FEW_WORKERS))
}

/// The same terms for so many workers: the board has a caller for each.
pub fn terms_for_workers(terms: Terms, workers: u32) -> Terms
    requires setup { IsSetup (setup_of terms) }
    requires workers { IsWorkers workers }
    ensures same { result ≡ record terms { callers = workers } }
    ensures setup { IsSetup (setup_of result) }
    ensures workers { IsWorkers result.callers }
{
    let mut terms = terms;
    terms.callers = workers;
    terms
}
