//! A law over what words ask for: the contract of a function that does nothing.
ghost use Rattle.hull_command.specs.Laws.{WordsHaveNumbersInRange};

/// The numbers of a run that words ask for are within their ranges.
pub fn words_have_numbers_in_range()
    ensures { WordsHaveNumbersInRange }
{}
