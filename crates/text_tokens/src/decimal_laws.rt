//! A law of rounding: the contract of a function that does nothing.
ghost use Rattle.text_tokens.specs.Rounding.{DecimalRoundsToNearestInteger};

/// The number that `whole` answers is the nearest one, a half rounded up, and no other is.
pub fn decimal_rounds_to_nearest_integer()
    ensures { DecimalRoundsToNearestInteger }
{}
