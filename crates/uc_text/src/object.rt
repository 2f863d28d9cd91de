//! The members of an object.
ghost use Rattle.std.specs.Prelude.{◌≡◌, ◌<◌, ◌^◌, length, IfOk};

use crate::branch::Branch;
use crate::node::{Node, skip_value};
use std::alloc::{AllocError, Global};
use text_tokens::Quoted;

/// An object within a tree: its names and values are the first of these nodes.
#[derive(Clone, Copy)]
pub struct ObjectBranch<'a> {
    /// The text, in which the nodes' offsets count.
    pub bytes: &'a [u8],
    /// The nodes from the first name on.
    pub nodes: &'a [Node],
    /// How many members it has.
    pub count: u32,
    ghost few: { length bytes.now < 2 ^ 30 },
}

/// A key of an object and its value.
#[derive(Clone, Copy)]
pub struct Member<'a> {
    /// The key.
    pub name: Quoted<'a>,
    /// The value under it.
    pub value: Branch<'a>,
}

impl<'a> ObjectBranch<'a> {
    ghost use Rattle.uc_text.specs.View.{members_in, member_views};

    /// How many members it has.
    #[tactic(auto, using(crate::proofs::Taken::pairs_len))]
    pub fn len(self) -> usize
        ensures { result ≡ length (members_in self.entry) }
    {
        self.count as usize
    }

    /// The members in file order.
    ///
    /// Takes 48 bytes for each.
    pub fn members(self, alloc: Global) -> Result<Vec<Member<'a>>, AllocError>
        ensures { IfOk result (λ members. member_views members.items ≡ members_in self.entry) }
    {
        let mut members = Vec::with_capacity(alloc, self.count as usize)?;
        let mut rest = self.nodes;
        for _ in 0..self.count {
            let name = Branch {
                bytes: self.bytes,
                nodes: rest,
            };
            let value = Branch {
                bytes: self.bytes,
                nodes: skip_value(rest),
            };
            members.push(Member {
                name: name.text(),
                value,
            })?;
            rest = skip_value(value.nodes);
        }
        Ok(members)
    }
}
