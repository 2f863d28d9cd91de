//! The numbers are put into the source.
ghost use Rattle.std.specs.Prelude.{◌≡◌, [], IfOk};
ghost use Rattle.crossbeam_deque.specs.Injected.{injector_view, IsInjectorPassOf};
ghost use Rattle.task_deal.specs.Jobs.{below};
ghost use Rattle.task_deal.specs.Rule.{account};

use crate::rule::{Puts, Source, SourcePass};
use std::alloc::{AllocError, Global};
use std::sync::Wait;

/// A source of the numbers below `tasks`.
pub(crate) fn make_shared_queue_of_tasks<R: Wait>(
    rt: &R,
    alloc: Global,
    tasks: u32,
) -> Result<(Source, SourcePass), AllocError>
    ensures { IfOk result (λ q.
        IsInjectorPassOf q.0 q.1 × (q.1.id ≡ 0)
        × (injector_view q.1 ≡ account 0 (below tasks) [])) }
{
    let (source, mut pass) = Source::new_as(alloc)?;
    for task in 0..tasks {
        if source.push_as::<Puts, R>(rt, &mut pass, task).is_err() {
            return Err(AllocError);
        }
    }
    Ok((source, pass))
}
