//! JSON texts of RFC 8259 in this project's profile: a tree, or the first fault and its offset.
//!
//! A tree is one list of nodes in reading order, beside the bytes of the text. A file may have a
//! value for every two of its bytes, and lists of one item within lists: a node takes 12 bytes
//! whatever the value is, and nothing is kept for a value beside its node.
//!
//! What a file with a value in it is stands here too, and what the readers of such values share:
//! the words of their tests, a key looked for, and why a reader stops.
#![tactic(auto)]

mod branch;
mod doubles;
mod fault;
pub mod file_laws;
pub mod inside;
pub mod laws;
mod list;
mod names;
mod node;
mod object;
mod parse;
pub mod stop;
mod tokens;
mod tree;

pub use branch::Branch;
pub use fault::{TextCode, TextError, TextFault};
pub use list::ListBranch;
pub use node::{Node, Parts};
pub use object::{Member, ObjectBranch};
pub use parse::read_tree;
pub use tree::Tree;
