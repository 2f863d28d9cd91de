//! What is read off a list of cells, cell by cell.
ghost use Rattle.std.specs.Prelude.{◌≡◌, ◌<◌};
ghost use Rattle.slope_list.specs.Table.{value_of};
ghost use Rattle.ramp_step.specs.Tables.{function_of, IsBreakList};
ghost use Rattle.point_pool.specs.Turn.{IsAtTurn};
ghost use Rattle.point_pool.specs.Walk.{walk, knots_at, AreUsed};

use crate::pool::Pool;
use ramp_step::breakpoint::Knot;
use ramp_step::law::knots_decide;
use ramp_step::read;

impl Pool {
    /// The first breakpoint of a list that the next one isn't below.
    pub(crate) fn lowest(&self, head: u32, count: u32) -> Knot
        requires used { AreUsed self.now.slots.items (walk self.now.slots.items head count) }
        requires some { 0 < count }
        ensures { IsAtTurn (knots_at self.now.slots.items (walk self.now.slots.items head count))
            count result }
    {
        let mut at = head;
        for done in 1..count {
            let slot = self.slots[at as usize];
            let next = self.slots[slot.next as usize];
            if slot.knot.value <= next.knot.value {
                return slot.knot;
            }
            at = slot.next;
        }
        self.slots[at as usize].knot
    }

    /// The value at a power.
    pub(crate) fn value_in(&self, head: u32, count: u32, x: i64) -> Option<i64>
        requires used { AreUsed self.now.slots.items (walk self.now.slots.items head count) }
        requires breaks { IsBreakList
            (knots_at self.now.slots.items (walk self.now.slots.items head count)) }
        requires some { 0 < count }
        ensures { result ≡ value_of
            (function_of (knots_at self.now.slots.items (walk self.now.slots.items head count))) x }
    {
        knots_decide();
        let mut at = head;
        for done in 1..count {
            let slot = self.slots[at as usize];
            let next = self.slots[slot.next as usize];
            if x <= next.knot.at {
                let pair = [slot.knot, next.knot];
                return read::value_at(&pair, 2, x);
            }
            at = slot.next;
        }
        let last = [self.slots[at as usize].knot];
        read::value_at(&last, 1, x)
    }
}
