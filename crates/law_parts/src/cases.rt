//! Laws over the cases that files are: each is the contract of a function that does nothing.
ghost use Rattle.law_parts.specs.CaseLaws.{SomeCase, CasesAreWithin, CaseNamesAreUtf8};

use uc_text::file_laws::file_is_one_json_value_or_one_fault;

/// Each list of bytes is a case or has a first fault.
pub fn case_or_fault()
    ensures { SomeCase }
{
    file_is_one_json_value_or_one_fault();
}

/// A case that a list of bytes is keeps the limits of a case.
pub fn cases_are_within()
    ensures { CasesAreWithin }
{}

/// The names of the units of a case that a list of bytes is are UTF-8.
pub fn case_names_are_utf8()
    ensures { CaseNamesAreUtf8 }
{}
