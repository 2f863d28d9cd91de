//! Why words give no command.

ghost use Rattle.std.specs.Prelude.{◌≡◌};
ghost use Rattle.hull_words.specs.Codes.{code_number};
ghost use Rattle.hull_words.specs.declared.word_fault.WordError.TheVariants.{Fault, Memory};

use std::alloc::AllocError;
use std::fmt;
use thiserror::Error;

/// What is wrong with a word, by the number that is printed.
#[derive(Clone, Copy, Debug, PartialEq, Eq, Drop)]
pub enum WordCode {
    /// There is no word.
    NoCommand = 1,
    /// The first word isn't a command.
    UnknownCommand = 2,
    /// The command doesn't have the option.
    UnknownOption = 3,
    /// The option was given before.
    RepeatedOption = 4,
    /// The option has no value, an empty one, or one that begins with `-`.
    NoValue = 5,
    /// A number isn't 1 to 20 decimal digits, or not within its range.
    BadNumber = 6,
    /// A required option or number is missing.
    MissingOption = 7,
    /// The word is neither an option nor a value.
    StrayWord = 8,
}

impl WordCode {
    /// The number that is printed.
    pub fn number(self) -> u32
        ensures { result ≡ code_number self }
    {
        self as u32
    }
}

/// The first fault of a list of words.
#[derive(Clone, Copy, Debug, PartialEq, Eq, Drop)]
pub struct WordFault {
    /// What is wrong.
    pub code: WordCode,
    /// The position of the word in fault, from 1; 0 where there is no word, and the number of words
    /// where something is missing.
    pub position: u32,
}

/// Why no command was read.
#[derive(Drop, Error)]
pub enum WordError {
    #[error("word {}: fault {}", .0.position, .0.code.number())]
    Fault(WordFault),
    #[error("out of memory")]
    Memory,
}

// Written out, since a derived one is dear to prove.
impl fmt::Debug for WordError {
    fn fmt<W: fmt::Write>(&self, f: &mut fmt::Formatter<W>) -> fmt::Result {
        fmt::Display::fmt(self, f)
    }
}

impl From<AllocError> for WordError {
    ghost from_gives = { λ _ e. e ≡ Memory };

    fn from(_e: AllocError) -> WordError {
        WordError::Memory
    }
}

impl From<WordFault> for WordError {
    ghost from_gives = { λ fault e. e ≡ Fault fault };

    fn from(fault: WordFault) -> WordError {
        WordError::Fault(fault)
    }
}
