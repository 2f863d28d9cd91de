//! Numbers are dealt to jobs.
ghost use Rattle.std.specs.Prelude.{◌≡◌, ◌<◌, ◌≤◌, [], length, All, IfOk, OnOk, OnErr};
ghost use Rattle.std.specs.Prelude.{vec_capacity};
ghost use Rattle.plain_lists.specs.declared.limits.TheConstants.{MOST_UNITS};
ghost use Rattle.task_deal.specs.Hands.{AreSetOut};
ghost use Rattle.task_deal.specs.Jobs.{IsDealt};

use crate::apart::{make_members, unzip_members_into_parts};
use crate::drain::{check_deque_counts, run_numbers_left};
use crate::job::Job;
use crate::member::{Member, run_members_in_threads};
use crate::open::{make_steal_permissions_of_all, open_deques};
use crate::pour::make_shared_queue_of_tasks;
use crate::rule::{Deque, Shared, SourcePass, ThiefPass};
use crate::settle::return_steal_permissions_of_all;
use std::alloc::{AllocError, Global};
use std::sync::Wait;
use std::thread::Threads;

/// Jobs of one deal.
pub const MOST_JOBS: usize = 32;

// What a deal works with beside its jobs.
struct Hands {
    // the owner's pass of the source
    owner: SourcePass,
    // a deque for each job
    owns: Vec<Deque>,
    // a purse for each job
    purses: Vec<Vec<ThiefPass>>,
}

// The numbers below `tasks` in the source, and a deque and a purse for each of `count` jobs.
fn prepare_task_queues<R: Wait>(
    rt: &R,
    alloc: Global,
    tasks: u32,
    count: usize,
) -> Result<(Shared, Hands), AllocError>
    ensures { IfOk result (λ made. AreSetOut made.0 tasks count made.1) }
{
    let (source, owner) = make_shared_queue_of_tasks(rt, alloc, tasks)?;
    let (mut owns, thieves) = open_deques(alloc, count)?;
    let shared = Shared { source, thieves };
    let purses = make_steal_permissions_of_all(alloc, &shared, &mut owns, count)?;
    let hands = Hands {
        owner,
        owns,
        purses,
    };
    Ok((shared, hands))
}

// Deals what is set out to the jobs. Takes no memory: `members` has room for all of them.
fn run_members<J: Job + Send + Drop, R: Threads + Wait + Sync>(
    rt: &R,
    shared: &Shared,
    tasks: u32,
    hands: Hands,
    members: Vec<Member<J>>,
    jobs: &mut Vec<J>,
)
    requires jobs { 0 < length jobs.old.items }
    requires spare { All (λ job. tasks ≤ J.spare job) jobs.old.items }
    requires hands { AreSetOut shared.now tasks (length jobs.old.items) hands }
    requires empty { members.items ≡ [] }
    requires room { length jobs.old.items ≤ vec_capacity members }
    ensures { IsDealt J.work J.runs J.spare tasks jobs.old.items jobs.new.items }
{
    let Hands {
        mut owner,
        mut owns,
        mut purses,
    } = hands;
    let mut members = members;
    make_members(
        &shared.source,
        &mut owner,
        jobs,
        &mut owns,
        &mut purses,
        &mut members,
    );
    run_members_in_threads(rt, shared, tasks, &mut members);
    unzip_members_into_parts(
        &shared.source,
        &mut owner,
        members,
        jobs,
        &mut owns,
        &mut purses,
    );
    return_steal_permissions_of_all(shared, &mut owns, purses);
    check_deque_counts(shared, &mut owns);
    run_numbers_left(rt, shared, tasks, &mut owner, &mut owns, jobs);
}

/// Deals the numbers below `tasks` to the jobs, each of which runs its share in a thread of its
/// own, where one can be made. Each job keeps its place and what it works on. What the jobs add to
/// the numbers that they have run is, all together, each number below `tasks` once, and no other;
/// which job runs which isn't said.
///
/// Waits for the threads. There are 1 to `MOST_JOBS` jobs and at most as many numbers as a case
/// may have units, and each job has room for all of them.
///
/// # Errors
///
/// `AllocError` if memory runs out, before any job has run: all jobs are unchanged.
pub fn deal_all<J: Job + Send + Drop, R: Threads + Wait + Sync>(
    rt: &R,
    alloc: Global,
    tasks: u32,
    jobs: &mut Vec<J>,
) -> Result<(), AllocError>
    requires jobs { (0 < length jobs.old.items) × (length jobs.old.items ≤ MOST_JOBS) }
    requires tasks { tasks ≤ MOST_UNITS }
    requires spare { All (λ job. tasks ≤ J.spare job) jobs.old.items }
    ensures dealt { let Dealt = IsDealt J.work J.runs J.spare tasks in
        OnOk result (Dealt jobs.old.items jobs.new.items) }
    ensures refused { OnErr result (jobs.new.items ≡ jobs.old.items) }
{
    let count = jobs.len();
    let members = Vec::with_capacity(alloc, count)?;
    let (shared, hands) = prepare_task_queues(rt, alloc, tasks, count)?;
    // Nothing may fail from here on.
    run_members(rt, &shared, tasks, hands, members, jobs);
    Ok(())
}
