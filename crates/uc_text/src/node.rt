//! The nodes of values, in reading order.
ghost use Rattle.std.specs.Prelude.{◌≡◌, List, ℕ, drop};
ghost use Rattle.uc_text.specs.Nodes.{values, own as own_spec};

use text_tokens::small::SmallNumber;

/// How much is inside a list or an object.
#[derive(Clone, Copy)]
pub struct Parts {
    /// How many items or members it has.
    pub count: u32,
    /// How many nodes stand behind its own for them, with all that is inside them.
    pub nodes: u32,
}

/// A value of a text without what is inside it.
#[derive(Clone, Copy)]
pub enum Node {
    Null,
    Flag(bool),
    /// A number of few digits.
    Number(SmallNumber),
    /// Any other number, which begins at this byte of the text.
    LargeNumber(u32),
    /// A string whose opening quote is this byte of the text.
    Text(u32),
    /// Values that stand behind this node, one after the other.
    List(Parts),
    /// Names that stand behind this node, each with its value behind it.
    Object(Parts),
}

/// How many of the nodes behind a node are inside its value.
fn nodes_inside(node: Node) -> usize
    ensures { result ≡ own_spec node }
{
    match node {
        Node::List(parts) => parts.nodes as usize,
        Node::Object(parts) => parts.nodes as usize,
        _ => 0,
    }
}

/// The nodes behind so many, and none past the end.
fn nodes_from(nodes: &[Node], count: usize) -> &[Node]
    ensures { result.now ≡ drop count nodes.now }
{
    if count < nodes.len() {
        &nodes[count..]
    } else {
        &nodes[nodes.len()..]
    }
}

/// The nodes behind the first value, and none where there is none.
#[tactic(auto, using(crate::proofs::Passed::leaf_passed))]
pub fn skip_value(nodes: &[Node]) -> &[Node]
    ensures { (bytes : List ℕ) → values bytes result.now ≡ drop 1 (values bytes nodes.now) }
{
    match nodes {
        [node, behind @ ..] => {
            let inside = nodes_inside(*node);
            if inside == 0 {
                behind
            } else {
                nodes_from(behind, inside)
            }
        }
        [] => nodes,
    }
}
