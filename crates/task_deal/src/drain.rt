//! What the threads left is run by one job.
ghost use Rattle.std.specs.Prelude.{All, List, ◌≡◌, ◌+◌, ◌<◌, ◌≤◌, length};
ghost use Rattle.crossbeam_deque.specs.Injected.{injector_view, IsInjectorPassOf};
ghost use Rattle.crossbeam_deque.specs.Handles.{worker_view, worker_flavor, worker_port};
ghost use Rattle.crossbeam_deque.specs.Handles.{SameWorker};
ghost use Rattle.task_deal.specs.declared.rule.Account.{Account};
ghost use Rattle.task_deal.specs.Drains.{RanTaken};
ghost use Rattle.task_deal.specs.Jobs.{HasRun, IsDealt};
ghost use Rattle.task_deal.specs.Ledger.{IsEmptied, Ledger};
ghost use Rattle.task_deal.specs.Rule.{Fits, IsSettled};
ghost use Rattle.task_deal.specs.Seats.{HaveTaken, Each, Stands};

use crate::job::Job;
use crate::rule::{Deque, Drains, Fitting, Shared, Source, SourcePass};
use crossbeam_deque::Steal;
use std::sync::Wait;
use std::thread;

// Of the deque at an index no more were taken than were put.
fn check_deque_counts_at(shared: &Shared, owns: &mut Vec<Deque>, at: usize)
    requires at { at < length owns.old.items }
    requires stands { let last = length owns.old.items in
        Each (Stands shared.now.thieves.items 0) 0 last owns.old.items }
    ensures count { length owns.new.items ≡ length owns.old.items }
    ensures stands { let last = length owns.new.items in
        Each (Stands shared.now.thieves.items 0) 0 last owns.new.items }
    ensures books { HaveTaken (λ h. 0) owns.old.items owns.new.items }
    ensures fits { Each (λ _ w. Fits (worker_view w)) 0 at owns.old.items →
        Each (λ _ w. Fits (worker_view w)) 0 (at + 1) owns.new.items }
{
    owns[at].len_as::<Fitting>();
}

/// Of no deque more was taken than was put.
pub(crate) fn check_deque_counts(shared: &Shared, owns: &mut Vec<Deque>)
    requires stands { let last = length owns.old.items in
        Each (Stands shared.now.thieves.items 0) 0 last owns.old.items }
    ensures count { length owns.new.items ≡ length owns.old.items }
    ensures stands { let last = length owns.new.items in
        Each (Stands shared.now.thieves.items 0) 0 last owns.new.items }
    ensures books { HaveTaken (λ h. 0) owns.old.items owns.new.items }
    ensures fits { All (λ w. Fits (worker_view w)) owns.new.items }
{
    for at in 0..owns.len() {
        check_deque_counts_at(shared, owns, at);
    }
}

/// Runs what a deque still has.
fn run_tasks_left_in_deque<J: Job, R: Wait>(rt: &R, own: &mut Deque, job: &mut J)
    requires own { (worker_port own.old ≡ 0) × (worker_flavor own.old ≡ 0)
        × ((worker_view own.old).parts ≡ 0) }
    requires room { let v = worker_view own.old in
        length v.put ≤ length v.taken + J.spare job.old }
    ensures same { SameWorker own.old own.new }
    ensures job { HasRun J.work J.runs J.spare job.old job.new }
    ensures books { RanTaken J.runs (worker_view own.old) (worker_view own.new) job.old job.new }
    ensures all { IsSettled (worker_view own.new) × ((worker_view own.new).parts ≡ 0) }
{
    for _ in rt.forever() {
        let Some(task) = own.pop_as::<Drains>() else {
            return;
        };
        job.run(task);
    }
    unreachable!()
}

/// Runs what the source still has.
fn run_tasks_left_in_shared_queue<J: Job, R: Wait>(
    rt: &R,
    source: &Source,
    pass: &mut SourcePass,
    job: &mut J,
)
    requires pass { IsInjectorPassOf source.now pass.old × (pass.old.id ≡ 0)
        × ((injector_view pass.old).parts ≡ 0) }
    requires room { let v = injector_view pass.old in
        length v.put ≤ length v.taken + J.spare job.old }
    ensures same { IsInjectorPassOf source.now pass.new × (pass.new.id ≡ 0) }
    ensures job { HasRun J.work J.runs J.spare job.old job.new }
    ensures books { RanTaken J.runs (injector_view pass.old) (injector_view pass.new)
        job.old job.new }
    ensures all { IsSettled (injector_view pass.new) × ((injector_view pass.new).parts ≡ 0) }
{
    for _ in rt.forever() {
        match source.steal_as::<Drains, R>(rt, pass) {
            Steal::Success(task) => job.run(task),
            Steal::Empty => return,
            Steal::Retry => thread::yield_now(),
        }
    }
    unreachable!()
}

fn run_tasks_left_in_deque_at<J: Job, R: Wait>(
    rt: &R,
    shared: &Shared,
    tasks: u32,
    owns: &mut Vec<Deque>,
    jobs: &mut Vec<J>,
    at: usize,
)
    requires at { (at < length owns.old.items) × (0 < length jobs.old.items) }
    requires ledger { (first : List J) × (v : Account) × Fits v
        × Ledger J.work J.runs J.spare shared.now.thieves.items tasks first jobs.old.items v
        owns.old.items }
    ensures count { (length owns.new.items ≡ length owns.old.items)
        × (length jobs.new.items ≡ length jobs.old.items) }
    ensures ledger { let Holds = Ledger J.work J.runs J.spare shared.now.thieves.items tasks in
        (first : List J) (v : Account) →
        Holds first jobs.old.items v owns.old.items → Holds first jobs.new.items v owns.new.items }
    ensures even { Each (λ _ w. IsEmptied w) 0 at owns.old.items →
        Each (λ _ w. IsEmptied w) 0 (at + 1) owns.new.items }
{
    run_tasks_left_in_deque(rt, &mut owns[at], &mut jobs[0]);
}

fn run_shared_queue_by_first_job<J: Job, R: Wait>(
    rt: &R,
    shared: &Shared,
    tasks: u32,
    owner: &mut SourcePass,
    owns: &Vec<Deque>,
    jobs: &mut Vec<J>,
)
    requires owner { IsInjectorPassOf shared.now.source owner.old × (owner.old.id ≡ 0) }
    requires some { 0 < length jobs.old.items }
    requires ledger { (first : List J)
        × Ledger J.work J.runs J.spare shared.now.thieves.items tasks first jobs.old.items
        (injector_view owner.old) owns.now.items }
    ensures count { length jobs.new.items ≡ length jobs.old.items }
    ensures settled { IsSettled (injector_view owner.new) }
    ensures ledger { let Holds = Ledger J.work J.runs J.spare shared.now.thieves.items tasks in
        (first : List J) →
        Holds first jobs.old.items (injector_view owner.old) owns.now.items →
        Holds first jobs.new.items (injector_view owner.new) owns.now.items }
{
    run_tasks_left_in_shared_queue(rt, &shared.source, owner, &mut jobs[0]);
}

/// The first job runs all that the threads left. Then the numbers are dealt to the jobs as they
/// were before, `first`.
pub(crate) fn run_numbers_left<J: Job, R: Wait>(
    rt: &R,
    shared: &Shared,
    tasks: u32,
    owner: &mut SourcePass,
    owns: &mut Vec<Deque>,
    jobs: &mut Vec<J>,
)
    requires owner { IsInjectorPassOf shared.now.source owner.old × (owner.old.id ≡ 0) }
    requires some { 0 < length jobs.old.items }
    requires ledger { (first : List J)
        × Ledger J.work J.runs J.spare shared.now.thieves.items tasks first jobs.old.items
        (injector_view owner.old) owns.old.items }
    ensures { (first : List J) →
        Ledger J.work J.runs J.spare shared.now.thieves.items tasks first jobs.old.items
        (injector_view owner.old) owns.old.items →
        IsDealt J.work J.runs J.spare tasks first jobs.new.items }
{
    run_shared_queue_by_first_job(rt, shared, tasks, owner, owns, jobs);
    for at in 0..owns.len() {
        run_tasks_left_in_deque_at(rt, shared, tasks, owns, jobs, at);
    }
}
