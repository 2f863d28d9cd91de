//! Laws of texts: each is the contract of a function that does nothing.
ghost use Rattle.uc_text.specs.Laws.{BytesAreJsonTextOrHaveFault, JsonTextHasNoFault, JsonTextHasOneValue};
ghost use Rattle.uc_text.specs.Laws.{BadJsonTextHasOneFirstFault};

/// Each list of bytes is the text of a value or has a first fault.
pub fn bytes_are_json_text_or_have_fault()
    ensures { BytesAreJsonTextOrHaveFault }
{}

/// The text of a value has no fault.
pub fn json_text_has_no_fault()
    ensures { JsonTextHasNoFault }
{}

/// A list of bytes is the text of at most one value.
pub fn json_text_has_one_value()
    ensures { JsonTextHasOneValue }
{}

/// A list of bytes has at most one first fault.
pub fn bad_json_text_has_one_first_fault()
    ensures { BadJsonTextHasOneFirstFault }
{}
