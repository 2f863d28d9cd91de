//! Names of generated units.
ghost use Rattle.std.specs.Prelude.{◌≡◌, ◌<◌, IfOk};
ghost use Rattle.case_make.specs.Made.{name_of};

use plain_lists::lists::Name;
use std::alloc::{AllocError, Global};

/// An ASCII letter and a number in two digits.
#[tactic(auto, unfolding(crate::specs::Made::name_of))]
pub fn name_of_number(alloc: Global, letter: u8, number: u32) -> Result<Name, AllocError>
    requires letter { letter < 128 }
    requires number { number < 100 }
    ensures { IfOk result (λ name. name.items ≡ name_of letter number) }
{
    let mut name = Name::make(alloc, 3)?;
    name.push(char::from(letter));
    name.push(char::from(b'0' + (number / 10) as u8));
    name.push(char::from(b'0' + (number % 10) as u8));
    Ok(name)
}
