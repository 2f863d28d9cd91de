//! One value within a tree.
ghost use Rattle.std.specs.Prelude.{◌≡◌, ◌<◌, ◌^◌, length};

use crate::list::ListBranch;
use crate::node::Node;
use crate::object::ObjectBranch;
use crate::tokens::{number_at_offset, string_at_offset};
use text_tokens::{Decimal, Quoted};

/// One value within a tree: the first of these nodes with what is inside it, and null where there
/// is none.
#[derive(Clone, Copy)]
pub struct Branch<'a> {
    /// The text, in which the nodes' offsets count.
    pub bytes: &'a [u8],
    /// The nodes from its own on.
    pub nodes: &'a [Node],
    ghost few: { length bytes.now < 2 ^ 30 },
}

impl<'a> Branch<'a> {
    ghost use Rattle.std.specs.Option.{option_map};
    ghost use Rattle.text_tokens.specs.Strings.{said};
    ghost use Rattle.uc_text.specs.Nodes.{value_of, values, text_in};
    ghost use Rattle.uc_text.specs.ValueParts.{number_in, list_in, object_in, is_null as null_spec};
    ghost use Rattle.uc_text.specs.View.{view, items_in, members_in};

    /// The first node, and those behind it.
    fn split(self) -> (Node, &'a [Node])
        ensures { view self.entry
            ≡ value_of self.entry.bytes.now result.0 (values self.entry.bytes.now result.1.now) }
    {
        match self.nodes {
            [node, behind @ ..] => (*node, behind),
            [] => (Node::Null, self.nodes),
        }
    }

    /// Whether it is null.
    pub fn is_null(self) -> bool
        ensures { result ≡ null_spec (view self.entry) }
    {
        let (node, _) = self.split();
        match node {
            Node::Null => true,
            _ => false,
        }
    }

    /// The number, where the value is one.
    // Written out where it is called, so that no decimal of 32 bytes is handed on.
    #[inline(always)]
    pub fn number(self) -> Option<Decimal>
        ensures { result ≡ number_in (view self.entry) }
    {
        let (node, _) = self.split();
        match node {
            Node::Number(small) => Some(small.decimal()),
            Node::LargeNumber(offset) => Some(number_at_offset(self.bytes, offset)),
            _ => None,
        }
    }

    /// The string, where the value is one, and the empty one for any other value.
    pub fn text(self) -> Quoted<'a>
        ensures { said result.bytes.now ≡ text_in (view self.entry) }
    {
        let (node, _) = self.split();
        match node {
            Node::Text(offset) => string_at_offset(self.bytes, offset),
            _ => Quoted::empty(),
        }
    }

    /// The list, where the value is one. Takes no memory and no time.
    pub fn list(self) -> Option<ListBranch<'a>>
        ensures { option_map items_in result ≡ list_in (view self.entry) }
    {
        let (node, behind) = self.split();
        match node {
            Node::List(parts) => Some(ListBranch {
                bytes: self.bytes,
                nodes: behind,
                count: parts.count,
            }),
            _ => None,
        }
    }

    /// The object, where the value is one. Takes no memory and no time.
    pub fn object(self) -> Option<ObjectBranch<'a>>
        ensures { option_map members_in result ≡ object_in (view self.entry) }
    {
        let (node, behind) = self.split();
        match node {
            Node::Object(parts) => Some(ObjectBranch {
                bytes: self.bytes,
                nodes: behind,
                count: parts.count,
            }),
            _ => None,
        }
    }
}
