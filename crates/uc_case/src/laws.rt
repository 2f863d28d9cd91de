//! A law over the definitions: the contract of a function that does nothing.
ghost use Rattle.uc_case.specs.Laws.{CaseFileHasOneValueOrOneFault};

use uc_text::file_laws::file_is_one_json_value_or_one_fault;

/// A list of bytes is at most one case or has at most one first fault.
pub fn case_file_has_one_value_or_one_fault()
    ensures { CaseFileHasOneValueOrOneFault }
{
    file_is_one_json_value_or_one_fault();
}
