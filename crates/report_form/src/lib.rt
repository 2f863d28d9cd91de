//! What a report is and how its text is made, by forms whose blanks parts fill, whatever it tells.
#![tactic(auto)]

pub mod certificate;
pub mod convex;
mod form;
pub mod laws;
pub mod parts;
mod pieces;
pub mod report;
pub mod settlement;

pub use form::write_form_filled_with_parts;
pub use parts::Part;
