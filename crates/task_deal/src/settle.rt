//! After the threads: each purse goes back to the deques.
ghost use Rattle.std.specs.Prelude.{◌≡◌, ◌+◌, ◌<◌, All, length, slice_index_or};
ghost use Rattle.crossbeam_deque.specs.Handles.{view};
ghost use Rattle.task_deal.specs.Seats.{IsPart, AreParts, Each, Stands, HaveTaken, taken_by};
ghost use Rattle.task_deal.specs.Rule.{sum_of};

use crate::rule::{Cut, Deque, Shared, ThiefPass};

// Takes one pass back into its deque, and after it each deque has one part less out.
fn return_steal_permission(
    shared: &Shared,
    owns: &mut Vec<Deque>,
    left: usize,
    at: usize,
    pass: ThiefPass,
)
    requires at { at < length shared.now.thieves.items }
    requires count { length owns.old.items ≡ length shared.now.thieves.items }
    requires pass { (d : _) → IsPart (slice_index_or shared.now.thieves.items at d) pass }
    requires low { Each (Stands shared.now.thieves.items (left + 1)) 0 (at + 1) owns.old.items }
    requires high { let last = length shared.now.thieves.items in
        Each (Stands shared.now.thieves.items left) (at + 1) last owns.old.items }
    ensures count { length owns.new.items ≡ length shared.now.thieves.items }
    ensures low { Each (Stands shared.now.thieves.items (left + 1)) 0 at owns.new.items }
    ensures high { let last = length shared.now.thieves.items in
        Each (Stands shared.now.thieves.items left) at last owns.new.items }
    ensures books { HaveTaken (λ h. sum_of h (view pass).taken) owns.old.items owns.new.items }
{
    owns[at].absorb::<Cut>(pass);
}

// Takes a purse back into the deques.
fn return_steal_permissions_of_worker(
    shared: &Shared,
    owns: &mut Vec<Deque>,
    left: usize,
    purse: Vec<ThiefPass>,
)
    requires count { length owns.old.items ≡ length shared.now.thieves.items }
    requires purse { AreParts shared.now.thieves.items purse.items }
    requires owns { let last = length shared.now.thieves.items in
        Each (Stands shared.now.thieves.items (left + 1)) 0 last owns.old.items }
    ensures count { length owns.new.items ≡ length shared.now.thieves.items }
    ensures owns { let last = length shared.now.thieves.items in
        Each (Stands shared.now.thieves.items left) 0 last owns.new.items }
    ensures books { HaveTaken (λ h. taken_by h purse.items) owns.old.items owns.new.items }
{
    let mut purse = purse;
    while let Some(pass) = purse.pop() {
        let at = purse.len();
        return_steal_permission(shared, owns, left, at, pass);
    }
}

/// Takes all purses back into the deques.
pub(crate) fn return_steal_permissions_of_all(
    shared: &Shared,
    owns: &mut Vec<Deque>,
    purses: Vec<Vec<ThiefPass>>,
)
    requires count { length owns.old.items ≡ length shared.now.thieves.items }
    requires purses { All (λ p. AreParts shared.now.thieves.items p.items) purses.items }
    requires owns { let last = length shared.now.thieves.items in
        Each (Stands shared.now.thieves.items (length purses.items)) 0 last owns.old.items }
    ensures count { length owns.new.items ≡ length shared.now.thieves.items }
    ensures owns { let last = length shared.now.thieves.items in
        Each (Stands shared.now.thieves.items 0) 0 last owns.new.items }
    ensures books { HaveTaken (λ h. sum_of (λ p. taken_by h p.items) purses.items)
        owns.old.items owns.new.items }
{
    let mut purses = purses;
    while let Some(purse) = purses.pop() {
        let left = purses.len();
        return_steal_permissions_of_worker(shared, owns, left, purse);
    }
}
