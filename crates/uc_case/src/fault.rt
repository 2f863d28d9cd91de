//! Why a file isn't read as a case.

use thiserror::Error;
use uc_field::fault::FieldFault;
use uc_text::TextFault;

/// Why a file isn't read as a case.
#[derive(Clone, Copy, Debug, PartialEq, Eq, Drop, Error)]
pub enum CaseFault {
    /// It isn't a JSON text of this profile.
    #[error("not a JSON text: {0:?}")]
    Text(TextFault),
    /// Its value fails a test.
    #[error("not a case: {0:?}")]
    Field(FieldFault),
    /// Memory ran out.
    #[error("out of memory")]
    Memory,
}
