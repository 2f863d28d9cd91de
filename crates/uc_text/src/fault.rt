//! Why a text is refused, and where.
use std::alloc::{AllocError, AllocFailed};
use thiserror::Error;

/// What is wrong at a token.
#[derive(Clone, Copy, Debug, PartialEq, Eq)]
pub enum TextCode {
    /// It isn't a token, or can't stand there.
    NotJson,
    /// A number has more than 30 digits behind its leading zeros, or an exponent above 400.
    NumberTooLong,
    /// A list or an object opens level 33.
    TooDeep,
    /// A key equals an earlier key of the same object.
    DoubleKey,
}

impl TextCode {
    ghost use Rattle.std.specs.Prelude.{◌≡◌};
    ghost use Rattle.uc_text.specs.Codes.{number_of};

    /// The number that a fault line prints.
    pub fn number(self) -> u32
        ensures { result ≡ number_of self }
    {
        match self {
            TextCode::NotJson => 10,
            TextCode::NumberTooLong => 11,
            TextCode::TooDeep => 12,
            TextCode::DoubleKey => 13,
        }
    }
}

/// The first fault of a text.
#[derive(Clone, Copy, Debug, PartialEq, Eq)]
pub struct TextFault {
    /// What is wrong.
    pub code: TextCode,
    /// The offset from 0 of the first byte of the token that is in fault.
    pub offset: u32,
}

/// Why there is no tree: the first fault of the text, or a lack of memory, which may come wherever
/// memory is taken.
#[derive(Clone, Copy, Debug, PartialEq, Eq, Drop, Error)]
pub enum TextError {
    #[error("not a JSON text of this profile at byte {}", .0.offset)]
    Fault(TextFault),
    #[error("out of memory")]
    Memory,
}

impl From<AllocError> for TextError {
    ghost use Rattle.std.specs.Prelude.{◌≡◌};
    ghost use Rattle.uc_text.specs.declared.fault.TextError.TheVariants.{Memory};

    ghost from_gives = { λ _ e. e ≡ Memory };

    fn from(_: AllocError) -> TextError {
        TextError::Memory
    }
}

impl<T: Drop> From<AllocFailed<T>> for TextError {
    ghost use Rattle.std.specs.Prelude.{◌≡◌};
    ghost use Rattle.uc_text.specs.declared.fault.TextError.TheVariants.{Memory};

    ghost from_gives = { λ _ e. e ≡ Memory };

    fn from(_: AllocFailed<T>) -> TextError {
        TextError::Memory
    }
}
