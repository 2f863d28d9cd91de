//! What a text says, as a whole.
ghost use Rattle.std.specs.Prelude.{◌≡◌, ◌<◌, ◌^◌, length};

use crate::branch::Branch;
use crate::node::Node;

/// The values of a text in reading order, and the bytes that they are of.
#[derive(Drop)]
pub struct Tree<'a> {
    /// The text, in which the nodes' offsets count.
    pub bytes: &'a [u8],
    /// The values, each behind the one that it is in.
    pub nodes: Vec<Node>,
    ghost few: { length bytes.now < 2 ^ 30 },
}

impl<'a> Tree<'a> {
    ghost use Rattle.uc_text.specs.View.{view};
    ghost use Rattle.uc_text.specs.Nodes.{first, values};

    /// The first value, which is the text's.
    pub fn root(&self) -> Branch<'_>
        ensures { view result ≡ first (values self.now.bytes.now self.now.nodes.items) }
    {
        Branch {
            bytes: self.bytes,
            nodes: self.nodes.as_slice(),
        }
    }
}
