//! Deques, and the passes to steal from them.
ghost use Rattle.std.specs.Prelude.{◌≡◌, ◌+◌, ◌<◌, ℕ, [], All, IfOk, OnOk, length, slice_index_or};
ghost use Rattle.crossbeam_deque.specs.Handles.{view};
ghost use Rattle.task_deal.specs.Seats.{IsPart, AreParts, Each, Stands, HaveTaken, taken_by};
ghost use Rattle.task_deal.specs.Rule.{account, sum_of};
ghost use Rattle.task_deal.specs.Open.{AreOpen};

use crate::rule::{Cut, Deque, Shared, Thief, ThiefPass};
use std::alloc::{AllocError, Global};

// How many numbers a deque has room for at first.
const ROOM: usize = 32;

/// A deque for each worker, and what the others steal from it with.
#[tactic(auto, using(crate::proofs::Opening::opens))]
pub(crate) fn open_deques(
    alloc: Global,
    count: usize,
) -> Result<(Vec<Deque>, Vec<Thief>), AllocError>
    ensures { IfOk result (λ r. (length r.0.items ≡ count) × AreOpen r.1.items r.0.items) }
{
    let mut owns = Vec::new(alloc);
    let mut thieves = Vec::new(alloc);
    for _ in 0..count {
        let own = Deque::fifo_as(alloc, ROOM)?;
        let thief = own.stealer()?;
        thieves.push(thief)?;
        owns.push(own)?;
    }
    Ok((owns, thieves))
}

// A pass with one part, of the deque at an index. Before it each deque has one part more out.
fn split_steal_permission_at(
    shared: &Shared,
    owns: &mut Vec<Deque>,
    out: usize,
    at: usize,
) -> ThiefPass
    requires at { at < length shared.now.thieves.items }
    requires count { length owns.old.items ≡ length shared.now.thieves.items }
    requires low { Each (Stands shared.now.thieves.items (out + 1)) 0 at owns.old.items }
    requires high { let last = length shared.now.thieves.items in
        Each (Stands shared.now.thieves.items out) at last owns.old.items }
    ensures count { length owns.new.items ≡ length shared.now.thieves.items }
    ensures low { Each (Stands shared.now.thieves.items (out + 1)) 0 (at + 1) owns.new.items }
    ensures high { let last = length shared.now.thieves.items in
        Each (Stands shared.now.thieves.items out) (at + 1) last owns.new.items }
    ensures books { HaveTaken (λ h. 0) owns.old.items owns.new.items }
    ensures pass { ((d : _) → IsPart (slice_index_or shared.now.thieves.items at d) result)
        × (view result ≡ account 1 [] []) }
{
    owns[at].another::<Cut>()
}

// A purse with a pass for each deque.
fn make_steal_permissions_of_worker(
    alloc: Global,
    shared: &Shared,
    owns: &mut Vec<Deque>,
    out: usize,
) -> Result<Vec<ThiefPass>, AllocError>
    requires count { length owns.old.items ≡ length shared.now.thieves.items }
    requires owns { let last = length shared.now.thieves.items in
        Each (Stands shared.now.thieves.items out) 0 last owns.old.items }
    ensures count { OnOk result (length owns.new.items ≡ length shared.now.thieves.items) }
    ensures owns { let last = length shared.now.thieves.items in
        OnOk result (Each (Stands shared.now.thieves.items (out + 1)) 0 last owns.new.items) }
    ensures books { OnOk result (HaveTaken (λ h. 0) owns.old.items owns.new.items) }
    ensures purse { IfOk result (λ p.
        AreParts shared.now.thieves.items p.items × ((h : ℕ → ℕ) → taken_by h p.items ≡ 0)) }
{
    let mut purse = Vec::new(alloc);
    for at in 0..shared.thieves.len() {
        let pass = split_steal_permission_at(shared, owns, out, at);
        purse.push(pass)?;
    }
    Ok(purse)
}

/// A purse for each worker.
pub(crate) fn make_steal_permissions_of_all(
    alloc: Global,
    shared: &Shared,
    owns: &mut Vec<Deque>,
    count: usize,
) -> Result<Vec<Vec<ThiefPass>>, AllocError>
    requires count { length owns.old.items ≡ length shared.now.thieves.items }
    requires owns { let last = length shared.now.thieves.items in
        Each (Stands shared.now.thieves.items 0) 0 last owns.old.items }
    ensures count { OnOk result (length owns.new.items ≡ length shared.now.thieves.items) }
    ensures owns { let last = length shared.now.thieves.items in
        OnOk result (Each (Stands shared.now.thieves.items count) 0 last owns.new.items) }
    ensures books { OnOk result (HaveTaken (λ h. 0) owns.old.items owns.new.items) }
    ensures purses { IfOk result (λ ps.
        (length ps.items ≡ count) × All (λ p. AreParts shared.now.thieves.items p.items) ps.items
        × ((h : ℕ → ℕ) → sum_of (λ p. taken_by h p.items) ps.items ≡ 0)) }
{
    let mut purses = Vec::new(alloc);
    for out in 0..count {
        let purse = make_steal_permissions_of_worker(alloc, shared, owns, out)?;
        purses.push(purse)?;
    }
    Ok(purses)
}
