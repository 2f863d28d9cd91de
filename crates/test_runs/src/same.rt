//! Two values that must be the same.
ghost use Rattle.std.specs.Prelude.{◌≡◌, true};

use std::fmt::Debug;
use std::process::Abort;

/// Ends the test where the values differ, and says both.
pub fn same<T: PartialEq + Debug + Drop>(rt: &impl Abort, left: T, right: T)
    ensures { T.eq left right ≡ true }
{
    assert_eq!(rt; left, right);
}

/// Ends the test where the values differ, and says both, and of what they are.
pub fn same_of<T: PartialEq + Debug + Drop>(rt: &impl Abort, of: &impl Debug, left: T, right: T)
    ensures { T.eq left right ≡ true }
{
    assert_eq!(rt; left, right, "of {of:?}");
}
