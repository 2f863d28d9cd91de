//! The keys of a unit or of the case.
ghost use Rattle.std.specs.Prelude.{◌≡◌, ◌≤◌, ◌^◌, IfOk, pos};
ghost use Rattle.std.specs.Option.{option_map};
ghost use Rattle.plain_lists.specs.Ranges.{IsFrom};
ghost use Rattle.uc_model.specs.declared.limits.TheConstants.{MOST_TIME};
ghost use Rattle.uc_text.specs.View.{view, member_views};
ghost use Rattle.uc_text.specs.Given.{Gives};
ghost use Rattle.uc_text.specs.Inside.{value_under};
ghost use Rattle.uc_field.specs.Sites.{key_of, field_at};
ghost use Rattle.uc_field.specs.Forms.{keys, key, under, flag, power, time_within};

use crate::fault::{Field, Site};
use crate::forms::{FieldStop, amount_under, period_count_under, read_flag, value_under};
use uc_text::inside::find_member;
use uc_text::{Branch, Member};

/// A unit or the case: the site of its faults but for the field, and its members.
#[derive(Drop)]
pub struct Keys<'a> {
    /// The site, with any field.
    pub at: Site,
    /// The members in file order.
    pub members: Vec<Member<'a>>,
}

impl<'a> Keys<'a> {
    /// The value under the key of a field; `Missing` where it isn't there.
    pub fn value(&self, field: Field) -> Result<Branch<'a>, FieldStop>
        ensures { Gives view result
            (under (field_at self.now.at field) (key_of field)
            (member_views self.now.members.items)) }
    {
        value_under(self.at.field(field), &self.members, field.key())
    }

    /// The value under the key of a field, if it is there.
    pub fn find(&self, field: Field) -> Option<Branch<'a>>
        ensures { option_map view result
            ≡ value_under (key_of field) (member_views self.now.members.items) }
    {
        find_member(&self.members, field.key())
    }

    /// The flag of a field, which must be there.
    pub fn flag(&self, field: Field) -> Result<bool, FieldStop>
        ensures { Gives (λ b. b) result
            (key (keys self.now.at (member_views self.now.members.items)) field flag) }
    {
        read_flag(self.at.field(field), self.value(field)?)
    }

    /// The kilowatts of a field, from 0 to the limit, which must be there.
    pub fn power(&self, field: Field, limit: u64) -> Result<i64, FieldStop>
        requires { limit ≤ 10 ^ 18 }
        ensures bound { IfOk result (λ n. IsFrom (pos 0) (pos limit) n) }
        ensures value { Gives (λ n. n) result
            (key (keys self.now.at (member_views self.now.members.items)) field (power limit)) }
    {
        amount_under(self.at.field(field), &self.members, field.key(), 3, limit)
    }

    /// The periods of a field, from 0 to the limit, which must be there.
    pub fn time(&self, field: Field, limit: u64) -> Result<u32, FieldStop>
        requires { limit ≤ MOST_TIME }
        ensures bound { IfOk result (λ n. n ≤ limit) }
        ensures value { Gives (λ n. n) result
            (key (keys self.now.at (member_views self.now.members.items)) field
            (time_within limit)) }
    {
        period_count_under(self.at.field(field), &self.members, field.key(), limit)
    }
}
