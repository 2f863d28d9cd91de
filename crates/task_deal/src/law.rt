//! What follows from a deal, whoever ran which number: each law is the contract of a function that
//! does nothing.
ghost use Rattle.task_deal.specs.Laws.{SumsOverJobsEqualSumOverTasks, JobValuesGrowBySumOverTasks};
ghost use Rattle.task_deal.specs.Laws.{JobsRanExactlyTheTasks};

use crate::job::Job;

/// Whatever is added up over the numbers that each job added, and then over the jobs, is the sum
/// over the numbers that were dealt.
pub fn sums_over_jobs_equal_sum_over_tasks()
    ensures { SumsOverJobsEqualSumOverTasks }
{}

/// Where each job keeps a value that grows by that of each number that it runs, all jobs' values
/// together grow by the sum over the numbers that were dealt.
pub fn job_values_grow_by_sum_over_tasks<J: Job>()
    ensures { JobValuesGrowBySumOverTasks J.work J.runs J.spare }
{}

/// A number is among those that the jobs added exactly where it was dealt.
pub fn jobs_ran_exactly_the_tasks()
    ensures { JobsRanExactlyTheTasks }
{}
