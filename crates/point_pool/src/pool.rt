//! The pool, and its lists of cells.
ghost use Rattle.std.specs.Prelude.{◌≡◌, ℕ, ◌+◌, ◌^◌, ◌<◌, ◌≤◌, true, false, length, map, take};
ghost use Rattle.std.specs.Prelude.{slice_set, IfOk};
ghost use Rattle.std.proofs.Props.{props};
ghost use Rattle.test_shapes.specs.Cell.{IsUsed};
ghost use Rattle.point_pool.specs.Walk.{AreDistinct-prop, slot_at, walk, knots_at, cell_of};
ghost use Rattle.point_pool.specs.Walk.{AreFree, AreUsed, Stored, Released, Replaced};

use crate::slot::Slot;
use ramp_step::breakpoint::Knot;
use std::alloc::{AllocError, Global};

/// Cells for breakpoints, and a work list of as many breakpoints. The cells that aren't in use form
/// one list, and those of each shape another. No call but `make` takes memory.
#[derive(Drop)]
pub struct Pool {
    pub(crate) slots: Vec<Slot>,
    pub(crate) work: Vec<Knot>,
    pub(crate) free: u32,
    pub(crate) spare: u32,
    ghost free_list: { AreFree slots.items
        (walk slots.items free spare) } by { Prim.hlevel (AreDistinct-prop, props) },
    ghost room: { length work.items ≡ length slots.items },
    ghost few: { length slots.items < 2 ^ 32 },
}

impl Pool {
    /// A pool of so many cells, none of them in use. It takes about 40 bytes for each cell.
    pub fn make(alloc: Global, cells: u32) -> Result<Pool, AllocError>
        ensures spare { IfOk result (λ pool. pool.spare ≡ cells) }
        ensures cells { IfOk result (λ pool. length pool.slots.items ≡ cells) }
        ensures free { IfOk result (λ pool. (n : ℕ) → IsUsed (map cell_of pool.slots.items) n → ⊥) }
    {
        let nothing = Knot { at: 0, value: 0 };
        let taken = Slot {
            in_use: true,
            next: 0,
            knot: nothing,
        };
        let mut pool = Pool {
            slots: vec![in alloc; taken; cells as usize]?,
            work: vec![in alloc; nothing; cells as usize]?,
            free: 0,
            spare: 0,
        };
        for number in 0..cells {
            pool.put(number);
        }
        Ok(pool)
    }

    /// The number of cells that aren't in use.
    pub fn spare(&self) -> u32
        ensures { result ≡ self.now.spare }
    {
        self.spare
    }

    /// Takes a cell that isn't in use.
    pub(crate) fn take(&mut self, next: u32, knot: Knot) -> u32
        requires { 0 < self.old.spare }
        ensures inside { result < length self.old.slots.items }
        ensures was_free { (slot_at self.old.slots.items result).in_use ≡ false }
        ensures slots { self.new.slots.items ≡ slice_set self.old.slots.items result
            (record { in_use = true; next = next; knot = knot }) }
        ensures spare { self.new.spare + 1 ≡ self.old.spare }
        ensures work { self.new.work.items ≡ self.old.work.items }
    {
        let number = self.free;
        let after = self.slots[number as usize].next;
        self.slots[number as usize] = Slot {
            in_use: true,
            next,
            knot,
        };
        self.free = after;
        self.spare -= 1;
        number
    }

    /// Gives a cell back.
    fn put(&mut self, number: u32)
        requires used { (slot_at self.old.slots.items number).in_use ≡ true }
        ensures slots { self.new.slots.items ≡ slice_set self.old.slots.items number
            (record {
              in_use = false;
              next = self.old.free;
              knot =
                  (slot_at self.old.slots.items number).knot;
            }) }
        ensures spare { self.new.spare ≡ self.old.spare + 1 }
        ensures work { self.new.work.items ≡ self.old.work.items }
    {
        let slot = &mut self.slots[number as usize];
        slot.in_use = false;
        slot.next = self.free;
        self.free = number;
        self.spare += 1;
    }

    /// Copies the breakpoints of a list of cells into the work list. The work list has room for
    /// those of the spare cells too.
    pub(crate) fn load(&mut self, head: u32, count: u32)
        requires { AreUsed self.old.slots.items (walk self.old.slots.items head count) }
        ensures knots { take count self.new.work.items
            ≡ knots_at self.old.slots.items (walk self.old.slots.items head count) }
        ensures slots { self.new.slots.items ≡ self.old.slots.items }
        ensures spare { self.new.spare ≡ self.old.spare }
        ensures room { count + self.new.spare ≤ length self.new.work.items }
    {
        let mut at = head;
        for k in 0..count {
            let slot = self.slots[at as usize];
            self.work[k as usize] = slot.knot;
            at = slot.next;
        }
    }

    /// Stores the first breakpoints of the work list in spare cells, and answers the first cell.
    pub(crate) fn store(&mut self, count: u32) -> u32
        requires { count ≤ self.old.spare }
        ensures stored { Stored self.old.slots.items self.new.slots.items
            (walk self.new.slots.items result count) (take count self.old.work.items) }
        ensures spare { self.new.spare + count ≡ self.old.spare }
    {
        let mut head = 0;
        for done in 0..count {
            let knot = self.work[(count - 1 - done) as usize];
            head = self.take(head, knot);
        }
        head
    }

    /// Gives back the cells of a list.
    pub(crate) fn release(&mut self, head: u32, count: u32)
        requires { AreUsed self.old.slots.items (walk self.old.slots.items head count) }
        ensures released { Released self.old.slots.items self.new.slots.items
            (walk self.old.slots.items head count) }
        ensures spare { self.new.spare ≡ self.old.spare + count }
        ensures work { self.new.work.items ≡ self.old.work.items }
    {
        let mut at = head;
        for done in 0..count {
            let next = self.slots[at as usize].next;
            self.put(at);
            at = next;
        }
    }

    /// Gives back the cells of a list, stores the first `left` breakpoints of the work list in
    /// their place, and answers the first cell.
    pub(crate) fn replace(&mut self, head: u32, count: u32, left: u32) -> u32
        requires used { AreUsed self.old.slots.items (walk self.old.slots.items head count) }
        requires fits { left ≤ self.old.spare + count }
        ensures replaced { Replaced self.old.slots.items self.new.slots.items
            (walk self.old.slots.items head count) (walk self.new.slots.items result left)
            (take left self.old.work.items) }
        ensures spare { self.new.spare + left ≡ self.old.spare + count }
    {
        self.release(head, count);
        self.store(left)
    }
}
