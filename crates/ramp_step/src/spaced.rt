//! Knots with free cells between them, so that many knots are put in by one pass.
ghost use Rattle.std.specs.Prelude.{◌+◌, ◌-◌, ◌<◌, ◌≤◌, length};
ghost use Rattle.ramp_step.specs.Knots.{knot, IsShape};
ghost use Rattle.ramp_step.specs.Cut.{IsLimited, AreBelow, IsSplit};
ghost use Rattle.ramp_step.specs.Spaced.{spaced, AreMovedBack, IsMovedOn};

use crate::breakpoint::Knot;
use crate::splitting::between;

/// Moves the first knots back, so that there are free cells before them.
pub(crate) fn open(knots: &mut [Knot], used: usize, by: usize)
    requires room { used + by ≤ length knots.old }
    ensures { AreMovedBack by used knots.old knots.new }
{
    let mut k = used;
    while k > 0 {
        k -= 1;
        knots[k + by] = knots[k];
    }
}

/// Moves the free cells forward over the knots below `x`, and answers the index at which they begin
/// then. `total` counts the knots and the `room` free cells.
pub(crate) fn advance(knots: &mut [Knot], front: usize, room: usize, total: usize, x: i64) -> usize
    requires order { front + room ≤ total }
    requires inside { total ≤ length knots.old }
    ensures { IsMovedOn x (total - room) room front result knots.old knots.new }
{
    for i in front..total - room {
        let knot = knots[i + room];
        if knot.at >= x {
            return i;
        }
        knots[i] = knot;
    }
    total - room
}

/// Puts a knot in at `x` at the end of the free cells, where that power is between two knots, and
/// answers how many cells are free then.
pub(crate) fn fill(knots: &mut [Knot], front: usize, room: usize, total: usize, x: i64) -> usize
    requires some { 0 < room }
    requires order { front + room ≤ total }
    requires inside { total ≤ length knots.old }
    requires stand { IsShape (spaced knots.old front room) (total - room) }
    requires limits { IsLimited (spaced knots.old front room) (total - room) }
    requires below { AreBelow (spaced knots.old front room) (total - room) x front }
    ensures split { IsSplit x (spaced knots.old front room) (total - room)
        (spaced knots.new front result) (total - result) }
    ensures limits { IsLimited (spaced knots.new front result) (total - result) }
    ensures below { AreBelow (spaced knots.new front result) (total - result) x front }
    ensures at_most { result ≤ room }
    ensures charge { room ≤ result + 1 }
{
    let back = front + room;
    if front == 0 {
        return room;
    }
    if back == total {
        return room;
    }
    if knots[back].at == x {
        return room;
    }
    let knot = between(knots[front - 1], knots[back], x);
    knots[back - 1] = knot;
    room - 1
}
