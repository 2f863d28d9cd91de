//! Jobs, deques and purses are put together, and taken apart.
ghost use Rattle.std.specs.Prelude.{◌≡◌, ◌+◌, ◌≤◌, ℕ, [], length, All, vec_capacity};
ghost use Rattle.crossbeam_deque.specs.Injected.{injector_view, IsInjectorPassOf};
ghost use Rattle.task_deal.specs.Rule.{account, sum_of};
ghost use Rattle.task_deal.specs.Apart.{backwards, HasPart, source_taken};

use crate::member::Member;
use crate::rule::{Cut, Deque, Source, SourcePass, ThiefPass};
use crate::seat::Seat;

/// Puts jobs, deques and purses on lists of their own, in the other order. The accounts of the
/// source are joined.
pub(crate) fn unzip_members_into_parts<J: Drop>(
    source: &Source,
    owner: &mut SourcePass,
    members: Vec<Member<J>>,
    jobs: &mut Vec<J>,
    owns: &mut Vec<Deque>,
    purses: &mut Vec<Vec<ThiefPass>>,
)
    requires owner { IsInjectorPassOf source.now owner.old × (owner.old.id ≡ 0)
        × ((injector_view owner.old).parts ≡ length members.items) }
    requires members { All (λ m. HasPart source.now m.seat) members.items }
    requires empty { (jobs.old.items ≡ []) × (owns.old.items ≡ []) × (purses.old.items ≡ []) }
    requires jobs { length members.items ≤ vec_capacity jobs.old }
    requires owns { length members.items ≤ vec_capacity owns.old }
    requires purses { length members.items ≤ vec_capacity purses.old }
    ensures jobs { jobs.new.items ≡ backwards (λ m. m.job) members.items }
    ensures owns { owns.new.items ≡ backwards (λ m. m.seat.own) members.items }
    ensures purses { purses.new.items ≡ backwards (λ m. m.seat.purse) members.items }
    ensures owner { IsInjectorPassOf source.now owner.new × (owner.new.id ≡ 0)
        × ((injector_view owner.new).parts ≡ 0)
        × ((injector_view owner.new).put ≡ (injector_view owner.old).put) }
    ensures books { (h : ℕ → ℕ) →
        sum_of h (injector_view owner.new).taken
        ≡ sum_of h (injector_view owner.old).taken + sum_of (source_taken h) members.items }
{
    let mut members = members;
    while let Some(member) = members.pop() {
        let Member { job, seat } = member;
        let Seat {
            source: pass,
            own,
            purse,
        } = seat;
        source.absorb::<Cut>(owner, pass);
        jobs.push_reserved(job);
        owns.push_reserved(own);
        purses.push_reserved(purse);
    }
}

/// Makes members of jobs, deques and purses, in the other order. Each gets a pass of the source.
pub(crate) fn make_members<J: Drop>(
    source: &Source,
    owner: &mut SourcePass,
    jobs: &mut Vec<J>,
    owns: &mut Vec<Deque>,
    purses: &mut Vec<Vec<ThiefPass>>,
    members: &mut Vec<Member<J>>,
)
    requires owner { IsInjectorPassOf source.now owner.old × (owner.old.id ≡ 0)
        × ((injector_view owner.old).parts ≡ 0) }
    requires empty { members.old.items ≡ [] }
    requires owns { length owns.old.items ≡ length jobs.old.items }
    requires purses { length purses.old.items ≡ length jobs.old.items }
    requires room { length jobs.old.items ≤ vec_capacity members.old }
    ensures jobs { backwards (λ m. m.job) members.new.items ≡ jobs.old.items }
    ensures owns { backwards (λ m. m.seat.own) members.new.items ≡ owns.old.items }
    ensures purses { backwards (λ m. m.seat.purse) members.new.items ≡ purses.old.items }
    ensures members { All (λ m. HasPart source.now m.seat) members.new.items
        × ((h : ℕ → ℕ) → sum_of (source_taken h) members.new.items ≡ 0) }
    ensures owner { let v = injector_view owner.old in
        IsInjectorPassOf source.now owner.new × (owner.new.id ≡ 0)
        × (injector_view owner.new ≡ account (length members.new.items) v.put v.taken) }
    ensures room { (vec_capacity jobs.new ≡ vec_capacity jobs.old)
        × (vec_capacity owns.new ≡ vec_capacity owns.old)
        × (vec_capacity purses.new ≡ vec_capacity purses.old) }
    ensures left { (jobs.new.items ≡ []) × (owns.new.items ≡ []) × (purses.new.items ≡ []) }
{
    while let Some(job) = jobs.pop() {
        let own = owns.pop().unwrap();
        let purse = purses.pop().unwrap();
        let pass = source.another::<Cut>(owner);
        members.push_reserved(Member {
            job,
            seat: Seat {
                source: pass,
                own,
                purse,
            },
        });
    }
}
