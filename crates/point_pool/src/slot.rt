//! Cells of a pool.

use ramp_step::breakpoint::Knot;

/// A cell: whether it is in use, the number of the next cell of its list, and a breakpoint.
#[derive(Clone, Copy)]
pub struct Slot {
    /// Whether it is in use.
    pub in_use: bool,
    /// The number of the next cell of its list.
    pub next: u32,
    /// The breakpoint.
    pub knot: Knot,
}
