//! One worker's handles, and how it finds a number.
ghost use Rattle.std.specs.Prelude.{◌≡◌, ◌<◌, length, [], ◌∷◌, ◌++◌, MatchOption};
ghost use Rattle.crossbeam_deque.specs.Handles.{view};
ghost use Rattle.task_deal.specs.Rule.{account};
ghost use Rattle.task_deal.specs.Seats.{IsPart, IsSeatOf, SameDeque, Found, FoundIn};

use crate::rule::{
    Account, Deque, Puts, Rule, Shared, SourcePass, Steals, Takes, Thief, ThiefPass,
};
use crossbeam_deque::Steal;
use std::alloc::Global;
use std::sync::Wait;
use std::thread;

// The most numbers that one batch moves.
const BATCH: usize = 32;

/// What one worker takes and steals with: its pass of the source, its own deque, and a pass for
/// each deque. A pass has no bytes.
#[derive(Drop)]
pub struct Seat {
    /// The pass of the source.
    pub source: SourcePass,
    /// The deque.
    pub own: Deque,
    /// A pass for each deque, in the workers' order.
    pub purse: Vec<ThiefPass>,
}

fn pop_own(shared: &Shared, seat: &mut Seat) -> Option<u32>
    requires { IsSeatOf shared.now seat.old }
    ensures same { IsSeatOf shared.now seat.new × SameDeque seat.old seat.new }
    ensures gains { Found result seat.old seat.new }
{
    seat.own.pop_as::<Takes>()
}

// Takes one number, and moves a batch of further ones to the own deque. Where there is no memory
// for the batch, it takes one number alone.
fn steal_batch_from_shared_queue<R: Wait>(rt: &R, shared: &Shared, seat: &mut Seat) -> Steal<u32>
    requires { IsSeatOf shared.now seat.old }
    ensures same { IsSeatOf shared.now seat.new × SameDeque seat.old seat.new }
    ensures gains { FoundIn result seat.old seat.new }
{
    shared
        .source
        .steal_batch_and_pop_as::<Global, Account, Rule, Takes, Puts, R>(
            rt,
            &mut seat.source,
            &mut seat.own,
            BATCH,
        )
}

// Steals one number. Where another thief was faster, it tries again.
fn steal_number<R: Wait>(rt: &R, thief: &Thief, pass: &mut ThiefPass) -> Option<u32>
    requires { IsPart thief.now pass.old }
    ensures same { IsPart thief.now pass.new }
    ensures view { let v = view pass.old in let w = view pass.new in
        MatchOption result (w ≡ v) (λ x. w ≡ account v.parts v.put (v.taken ++ x ∷ [])) }
{
    for _ in rt.forever() {
        match thief.steal_as::<Steals>(pass) {
            Steal::Success(stolen) => return Some(stolen),
            Steal::Empty => return None,
            Steal::Retry => thread::yield_now(),
        }
    }
    unreachable!()
}

fn steal_at<R: Wait>(rt: &R, shared: &Shared, seat: &mut Seat, at: usize) -> Option<u32>
    requires seat { IsSeatOf shared.now seat.old }
    requires at { at < length shared.now.thieves.items }
    ensures same { IsSeatOf shared.now seat.new × SameDeque seat.old seat.new }
    ensures gains { Found result seat.old seat.new }
{
    steal_number(rt, &shared.thieves[at], &mut seat.purse[at])
}

fn steal_any<R: Wait>(rt: &R, shared: &Shared, seat: &mut Seat) -> Option<u32>
    requires { IsSeatOf shared.now seat.old }
    ensures same { IsSeatOf shared.now seat.new × SameDeque seat.old seat.new }
    ensures gains { Found result seat.old seat.new }
{
    for at in 0..shared.thieves.len() {
        if let Some(task) = steal_at(rt, shared, seat, at) {
            return Some(task);
        }
    }
    None
}

/// One number of the source alone.
fn steal_one_from_shared_queue<R: Wait>(rt: &R, shared: &Shared, seat: &mut Seat) -> Option<u32>
    requires { IsSeatOf shared.now seat.old }
    ensures same { IsSeatOf shared.now seat.new × SameDeque seat.old seat.new }
    ensures gains { Found result seat.old seat.new }
{
    for _ in rt.forever() {
        match shared.source.steal_as::<Takes, R>(rt, &mut seat.source) {
            Steal::Success(task) => return Some(task),
            Steal::Empty => return None,
            Steal::Retry => thread::yield_now(),
        }
    }
    unreachable!()
}

/// A number of the own deque, or else of the source, from which a batch moves to the own deque, or
/// else of another's deque.
fn find_number_in_queues<R: Wait>(rt: &R, shared: &Shared, seat: &mut Seat) -> Option<u32>
    requires { IsSeatOf shared.now seat.old }
    ensures same { IsSeatOf shared.now seat.new × SameDeque seat.old seat.new }
    ensures gains { Found result seat.old seat.new }
{
    for _ in rt.forever() {
        if let Some(task) = pop_own(shared, seat) {
            return Some(task);
        }
        match steal_batch_from_shared_queue(rt, shared, seat) {
            Steal::Success(task) => return Some(task),
            Steal::Empty => return steal_any(rt, shared, seat),
            Steal::Retry => thread::yield_now(),
        }
    }
    unreachable!()
}

/// The number to run next: at first one of the source alone.
#[tactic(auto, using(crate::proofs::Gaining::gains))]
pub(crate) fn next_number<R: Wait>(
    rt: &R,
    shared: &Shared,
    seat: &mut Seat,
    at_first: bool,
) -> Option<u32>
    requires { IsSeatOf shared.now seat.old }
    ensures same { IsSeatOf shared.now seat.new × SameDeque seat.old seat.new }
    ensures gains { Found result seat.old seat.new }
{
    if at_first {
        if let Some(task) = steal_one_from_shared_queue(rt, shared, seat) {
            return Some(task);
        }
    }
    find_number_in_queues(rt, shared, seat)
}
