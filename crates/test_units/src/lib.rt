//! The least best response of a thermal unit over shapes of any representation: a second opinion on the
//! program's own.
//!
//! It goes run by run. Of one spell, a pass gives the least net cost for every last period, and a pass
//! back gives a dispatch of that cost.
#![tactic(auto)]

pub mod answer;
mod best;
mod costs;
pub mod laws;
pub mod program;
pub mod spell;
mod spells;
mod step;

pub use answer::best_response;
pub use best::spell_best;
pub use costs::spell_costs;
pub use spell::{Spell, SpellCosts};
