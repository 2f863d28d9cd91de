//! Whether two numbers, lists or names are the same.
ghost use Rattle.std.specs.Prelude.{◌≡◌};
ghost use Rattle.std.specs.Bool.{Decides};

use plain_lists::lists::{Amounts, Flags, Numbers};
use uc_model::units::Powers;

/// Whether counts are the same.
pub fn same_count(mine: u32, right: u32) -> bool
    ensures { Decides result (mine ≡ right) }
{
    mine == right
}

/// Whether amounts of money are the same.
pub fn same_amount(mine: &i128, right: &i128) -> bool
    ensures { Decides result (mine.now ≡ right.now) }
{
    *mine == *right
}

/// Whether totals are the same.
pub fn same_totals(mine: &Amounts, right: &Amounts) -> bool
    ensures { Decides result (mine.now.items ≡ right.now.items) }
{
    mine.as_slice() == right.as_slice()
}

/// Whether prices are the same.
pub fn same_prices(mine: &Numbers, right: &Numbers) -> bool
    ensures { Decides result (mine.now.items ≡ right.now.items) }
{
    mine.as_slice() == right.as_slice()
}

/// Whether powers or reserves are the same.
pub fn same_powers(mine: &Powers, right: &Powers) -> bool
    ensures { Decides result (mine.now.items ≡ right.now.items) }
{
    mine.as_slice() == right.as_slice()
}

/// Whether on flags are the same.
pub fn same_flags(mine: &Flags, right: &Flags) -> bool
    ensures { Decides result (mine.now.items ≡ right.now.items) }
{
    mine.as_slice() == right.as_slice()
}

/// Whether names are the same.
pub fn same_name(mine: &str, right: &str) -> bool
    ensures { Decides result (mine.now ≡ right.now) }
{
    mine == right
}
