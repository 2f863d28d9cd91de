//! Jobs that keep a list of what they ran.
ghost use Rattle.std.specs.Prelude.{◌≡◌, ◌<◌, ◌≤◌, length, All, IfOk};
ghost use Rattle.test_parts.specs.declared.task_deal_tests.Keeper.{Keeper};

use crate::same::same;
use plain_lists::lists::ReservedList;
use std::alloc::{AllocError, Global};
use std::process::Abort;
use std::sync::Wait;
use std::sync::atomic::AtomicUsize;
use std::sync::atomic::Ordering::SeqCst;
use std::thread;
use std::thread::Threads;
use task_deal::{Job, deal_all};

/// Keeps the numbers that it ran.
#[derive(Drop)]
struct Keeper {
    numbers: ReservedList<u32>,
}

impl Job for Keeper {
    ghost Work = { Unit {0} };

    ghost work = { λ job. tt };

    ghost runs = { λ job. job.numbers.items };

    ghost spare = { λ job. job.numbers.spare };

    fn run(&mut self, task: u32) {
        self.numbers.push(task);
    }
}

fn keepers(alloc: Global, count: usize, room: u32) -> Result<Vec<Keeper>, AllocError>
    ensures count { IfOk result (λ jobs. length jobs.items ≡ count) }
    ensures room { IfOk result (λ jobs. All (λ job. room ≤ job.numbers.spare) jobs.items) }
{
    let mut jobs = Vec::new(alloc);
    for _ in 0..count {
        let numbers = ReservedList::make(alloc, room)?;
        jobs.push(Keeper { numbers })?;
    }
    Ok(jobs)
}

// How often a job ran a number.
fn times(job: &Keeper, number: u32) -> usize {
    let numbers = job.numbers.as_slice();
    numbers.iter().filter(|ran| **ran == number).count()
}

// How many jobs ran a number so often.
fn jobs_by(jobs: &[Keeper], number: u32, often: usize) -> usize {
    jobs.iter()
        .filter(|job| times(job, number) == often)
        .count()
}

// Each number was run by one job, once, and nothing else was run.
fn assert_each_ran_once(rt: &impl Abort, jobs: &[Keeper], numbers: u32) {
    let mut ran = 0usize;
    for job in jobs {
        ran = ran.saturating_add(job.numbers.len());
    }
    same(rt, ran, numbers as usize);
    let others = jobs.len().saturating_sub(1);
    for number in 0..numbers {
        let by = (jobs_by(jobs, number, 1), jobs_by(jobs, number, 0));
        same(rt, by, (1, others));
    }
}

fn deal_and_check<R: Threads + Wait + Sync + Abort>(
    rt: &R,
    alloc: Global,
    count: usize,
    numbers: u32,
) -> Result<(), AllocError>
    requires some { 0 < count }
    requires jobs { count ≤ 4 }
    requires numbers { numbers ≤ 200 }
{
    let mut jobs = keepers(alloc, count, numbers)?;
    deal_all(rt, alloc, numbers, &mut jobs)?;
    same(rt, jobs.len(), count);
    assert_each_ran_once(rt, &jobs, numbers);
    Ok(())
}

#[test]
fn no_number_changes_no_job(rt: HostRuntime) -> Result<(), AllocError> {
    deal_and_check(&rt, rt.alloc(), 2, 0)
}

#[test]
fn one_job_runs_each_number_once(rt: HostRuntime) -> Result<(), AllocError> {
    deal_and_check(&rt, rt.alloc(), 1, 5)
}

#[test]
fn four_jobs_run_each_number_once(rt: HostRuntime) -> Result<(), AllocError> {
    deal_and_check(&rt, rt.alloc(), 4, 200)
}

// How often a job looks for the other.
const MOST_LOOKS: u32 = 100_000_000;

/// Keeps the numbers that it ran. At each of its first ones it looks until the other job has begun
/// as many, and notes whether it ever looked in vain.
#[derive(Drop)]
struct Watcher<'a> {
    numbers: ReservedList<u32>,
    watched: usize,
    begun: &'a AtomicUsize,
    other_begun: &'a AtomicUsize,
    in_vain: bool,
}

impl<'a> Job for Watcher<'a> {
    ghost Work = { Unit {0} };

    ghost work = { λ job. tt };

    ghost runs = { λ job. job.numbers.items };

    ghost spare = { λ job. job.numbers.spare };

    fn run(&mut self, task: u32) {
        let before = self.numbers.len();
        if before < self.watched {
            self.begun.store(before + 1, SeqCst);
            self.in_vain |= !is_past_in_time(self.other_begun, before);
        }
        self.numbers.push(task);
    }
}

fn is_past_in_time(count: &AtomicUsize, before: usize) -> bool {
    for _ in 0..MOST_LOOKS {
        if count.load(SeqCst) > before {
            return true;
        }
        thread::yield_now();
    }
    false
}

fn new_watcher<'a>(
    alloc: Global,
    room: u32,
    watched: usize,
    begun: &'a AtomicUsize,
    other_begun: &'a AtomicUsize,
) -> Result<Watcher<'a>, AllocError>
    ensures { IfOk result (λ job. room ≤ job.numbers.spare) }
{
    let numbers = ReservedList::make(alloc, room)?;
    Ok(Watcher {
        numbers,
        watched,
        begun,
        other_begun,
        in_vain: false,
    })
}

fn watchers<'a>(
    alloc: Global,
    room: u32,
    watched: usize,
    one: &'a AtomicUsize,
    two: &'a AtomicUsize,
) -> Result<Vec<Watcher<'a>>, AllocError>
    ensures count { IfOk result (λ jobs. length jobs.items ≡ 2) }
    ensures room { IfOk result (λ jobs. All (λ job. room ≤ job.numbers.spare) jobs.items) }
{
    let first = new_watcher(alloc, room, watched, one, two)?;
    let second = new_watcher(alloc, room, watched, two, one)?;
    let mut jobs = Vec::new(alloc);
    jobs.push(first)?;
    jobs.push(second)?;
    Ok(jobs)
}

// So many numbers are dealt to two jobs that watch one another. Each runs from the
// least to the most of `runs`, and never looks in vain.
fn both_watch<R: Threads + Wait + Sync + Abort>(
    rt: &R,
    alloc: Global,
    numbers: u32,
    watched: usize,
    runs: (usize, usize),
) -> Result<(), AllocError>
    requires { numbers ≤ 100 }
{
    let (least, most) = runs;
    let (one, two) = (AtomicUsize::new(0), AtomicUsize::new(0));
    let mut jobs = watchers(alloc, numbers, watched, &one, &two)?;
    deal_all(rt, alloc, numbers, &mut jobs)?;
    for job in &jobs {
        let ran = job.numbers.len();
        assert!(rt; least <= ran && ran <= most && !job.in_vain);
    }
    Ok(())
}

#[test]
fn two_jobs_run_on_two_threads(rt: HostRuntime) -> Result<(), AllocError> {
    both_watch(&rt, rt.alloc(), 2, 1, (1, 1))
}

// While one job waits in its second run, at most 34 numbers have been taken for it: the first
// alone, and the second with a batch of at most 32 more. So there are numbers left for the other.
#[test]
fn both_jobs_go_on_after_their_first_number(rt: HostRuntime) -> Result<(), AllocError> {
    both_watch(&rt, rt.alloc(), 100, 2, (2, 100))
}
