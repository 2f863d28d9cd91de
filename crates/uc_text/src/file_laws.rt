//! A law of files: the contract of a function that does nothing.
ghost use Rattle.uc_text.specs.FileLaws.{SomeFile, FileIsOneJsonValueOrOneFault};

use crate::laws::{
    bad_json_text_has_one_first_fault, bytes_are_json_text_or_have_fault, json_text_has_no_fault,
    json_text_has_one_value,
};

/// Each list of bytes has a value or a first fault as a text of at most 32 levels, and one alone.
pub fn file_is_one_json_value_or_one_fault()
    ensures some { SomeFile }
    ensures one { FileIsOneJsonValueOrOneFault }
{
    bytes_are_json_text_or_have_fault();
    json_text_has_no_fault();
    json_text_has_one_value();
    bad_json_text_has_one_first_fault();
}
