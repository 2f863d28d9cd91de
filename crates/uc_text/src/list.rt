//! The items of a list.
ghost use Rattle.std.specs.Prelude.{◌≡◌, ◌<◌, ◌^◌, length, IfOk};

use crate::branch::Branch;
use crate::node::{Node, skip_value};
use std::alloc::{AllocError, Global};

/// A list within a tree: its items are the first of these nodes.
#[derive(Clone, Copy)]
pub struct ListBranch<'a> {
    /// The text, in which the nodes' offsets count.
    pub bytes: &'a [u8],
    /// The nodes from the first item on.
    pub nodes: &'a [Node],
    /// How many items it has.
    pub count: u32,
    ghost few: { length bytes.now < 2 ^ 30 },
}

impl<'a> ListBranch<'a> {
    ghost use Rattle.uc_text.specs.View.{items_in, views};

    /// How many items it has.
    #[tactic(auto, using(crate::proofs::Taken::firsts_len))]
    pub fn len(self) -> usize
        ensures { result ≡ length (items_in self.entry) }
    {
        self.count as usize
    }

    /// The items in order.
    ///
    /// Takes 32 bytes for each.
    pub fn items(self, alloc: Global) -> Result<Vec<Branch<'a>>, AllocError>
        ensures { IfOk result (λ items. views items.items ≡ items_in self.entry) }
    {
        let mut items = Vec::with_capacity(alloc, self.count as usize)?;
        let mut rest = self.nodes;
        for _ in 0..self.count {
            items.push(Branch {
                bytes: self.bytes,
                nodes: rest,
            })?;
            rest = skip_value(rest);
        }
        Ok(items)
    }
}
