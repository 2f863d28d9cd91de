//! The rule of each queue.
ghost use Rattle.std.specs.Prelude.{◌≡◌, ◌+◌, ◌++◌};
ghost use Rattle.task_deal.specs.Rule.{account, Fits, IsSettled};

use crossbeam_deque::protocol::{Join, Lesson, Outcome, Protocol, Split};
use crossbeam_deque::{Injector, InjectorPass, Pass, Stealer, Worker};
use std::alloc::Global;
use std::collections::LinkedList;

/// What a pass has put into its queue and taken from it. The owner's pass counts the parts that
/// are out, any other has one part or none. Contracts alone speak of it: no value of it is made.
pub struct Account {
    /// How many parts are out, or whether it has one.
    pub parts: u64,
    /// The numbers that it put.
    pub put: LinkedList<u32>,
    /// The numbers that it took.
    pub taken: LinkedList<u32>,
}

/// The rule of each queue.
pub struct Rule;

impl Protocol<u32, Account> for Rule {
    ghost use Rattle.std.specs.Prelude.{[]};
    ghost use Rattle.task_deal.specs.Rule.{account, IsFair};

    ghost holds = { IsFair };

    ghost first = { account 0 [] [] };

    ghost guest = { account 0 [] [] };
}

/// A part of the owner's account that a worker gets, and how it comes back.
pub struct Cut;

impl Split<Account> for Cut {
    ghost use Rattle.std.specs.Prelude.{◌+◌, []};
    ghost use Rattle.task_deal.specs.Rule.{account};

    ghost left = { λ v. account (v.parts + 1) v.put v.taken };

    ghost right = { λ v. account 1 [] [] };
}

impl Join<Account> for Cut {
    ghost use Rattle.std.specs.Prelude.{◌-◌, [], ◌++◌};
    ghost use Rattle.task_deal.specs.Rule.{account};

    ghost both = { λ v w. account (v.parts - w.parts) v.put (v.taken ++ w.taken) };

    ghost spent = { account 0 [] [] };
}

/// A number was put.
pub struct Puts;

impl Outcome<u32, Account> for Puts {
    ghost then = { λ v xs w. w ≡ account v.parts (v.put ++ xs) v.taken };
}

/// Numbers were taken. Where none is found, all that was put was taken.
pub struct Takes;

impl Outcome<u32, Account> for Takes {
    ghost then = { λ v xs w. w ≡ account v.parts v.put (v.taken ++ xs) };

    ghost empty = { IsSettled };
}

/// A number was stolen. Where none is found, nothing is learned.
pub struct Steals;

impl Outcome<u32, Account> for Steals {
    ghost then = { λ v xs w. w ≡ account v.parts v.put (v.taken ++ xs) };
}

/// A number was taken, and no more were taken than were put.
pub struct Drains;

impl Outcome<u32, Account> for Drains {
    ghost then = { λ v xs w. (w ≡ account v.parts v.put (v.taken ++ xs)) × Fits w };

    ghost empty = { IsSettled };
}

/// No more were taken than were put.
pub struct Fitting;

impl Lesson<u32, Account> for Fitting {
    ghost fact = { λ v items. Fits v };
}

/// The queue that all numbers are put into first.
pub type Source = Injector<u32, Global, Account, Rule>;

/// A worker's leave to take from the source.
pub type SourcePass = InjectorPass<u32, Account>;

/// A worker's own queue.
pub type Deque = Worker<u32, Global, Account, Rule>;

/// What others steal from a worker's queue with.
pub type Thief = Stealer<u32, Global, Account, Rule>;

/// A worker's leave to steal from another's queue.
pub type ThiefPass = Pass<u32, Account>;

/// What all workers share: the source, and what to steal from each deque with.
#[derive(Drop)]
pub struct Shared {
    /// The source.
    pub source: Source,
    /// One for each deque, in the workers' order.
    pub thieves: Vec<Thief>,
}
