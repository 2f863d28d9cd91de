//! A worker runs what it finds.
ghost use Rattle.std.specs.Prelude.{◌<◌, ◌≤◌, ℕ, length, All, slice_index_or};
ghost use Rattle.task_deal.specs.Seats.{IsSeatOf};
ghost use Rattle.task_deal.specs.Members.{HasWorked};

use crate::job::Job;
use crate::rule::Shared;
use crate::seat::{Seat, next_number};
use crate::start::sleep_before_first_task;
use std::sync::Wait;
use std::thread;
use std::thread::Threads;

/// A job with the handles of its worker: what one thread gets.
#[derive(Drop)]
pub struct Member<J> {
    /// The job.
    pub job: J,
    /// The handles.
    pub seat: Seat,
}

fn work_as_member<J: Job, R: Wait>(
    rt: &R,
    shared: &Shared,
    members: usize,
    tasks: u32,
    member: &mut Member<J>,
)
    requires seat { IsSeatOf shared.now member.old.seat }
    requires spare { tasks ≤ J.spare member.old.job }
    ensures { HasWorked shared.now J.work J.runs J.spare member.old member.new }
{
    sleep_before_first_task(rt, members);
    for done in 0..tasks {
        let Some(task) = next_number(rt, shared, &mut member.seat, done == 0) else {
            return;
        };
        member.job.run(task);
    }
}

/// All members at once, each in a thread of its own where one can be made.
pub(crate) fn run_members_in_threads<J: Job + Send, R: Threads + Wait + Sync>(
    rt: &R,
    shared: &Shared,
    tasks: u32,
    members: &mut [Member<J>],
)
    requires some { 0 < length members.old }
    requires ready { All (λ m.
        IsSeatOf shared.now m.seat × (tasks ≤ J.spare m.job)) members.old }
    ensures { (i : ℕ) (d : _) → i < length members.old →
        HasWorked shared.now J.work J.runs J.spare
        (slice_index_or members.old i d) (slice_index_or members.new i d) }
{
    let count = members.len();
    thread::for_each_mut(
        rt,
        members,
        count,
        &|_, member| { work_as_member(rt, shared, count, tasks, member) },
    );
}
