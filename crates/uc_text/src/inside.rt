//! What tests look at within a value.
ghost use Rattle.std.specs.Prelude.{◌≡◌};
ghost use Rattle.std.specs.Option.{option_map};
ghost use Rattle.uc_text.specs.View.{view, member_views};
ghost use Rattle.uc_text.specs.Inside.{value_under, bit_of};

use crate::branch::Branch;
use crate::object::Member;
use text_tokens::{Decimal, is_whole, whole};

/// The value under a key.
#[tactic(auto, using(crate::proofs::Finds::value_step), unfolding(crate::specs::Inside::value_under))]
pub fn find_member<'a>(members: &[Member<'a>], key: &str) -> Option<Branch<'a>>
    ensures { option_map view result ≡ value_under key.now (member_views members.now) }
{
    for member in members {
        if member.name.decodes_to_text(key) {
            return Some(member.value);
        }
    }
    None
}

/// No for a number with value 0, yes for one with value 1, however it is written.
pub fn flag_of_number(d: Decimal) -> Option<bool>
    ensures { result ≡ bit_of d }
{
    if !is_whole(d) {
        return None;
    }
    match whole(d, 0, 1) {
        Ok(0) => Some(false),
        Ok(1) => Some(true),
        _ => None,
    }
}
